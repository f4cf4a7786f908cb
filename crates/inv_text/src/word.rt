//! Words of a text: up to a space or the end of a line.
ghost use Rattle.std.specs.Prelude.{◌≡◌, ℕ, ◌^◌, ◌<◌, ◌≤◌, Some, List, ◌∷◌, ◌++◌, length, decimal, IfSome, IsSomeAnd};
ghost use Rattle.std.specs.Prelude.{ℤ};
ghost use Rattle.std.specs.Fmt.{signed_decimal};
ghost use Rattle.inv_text.specs.Words.{Plain, Stops, IsShort};
ghost use Rattle.inv_text.specs.Listed.{item_text};
ghost use Rattle.inv_text.specs.Reading.{IsShortItem};

use crate::bound::InvBound;

/// The length of the word with which a text begins.
fn word_len(text: &[u8]) -> usize
    ensures within { result ≤ length text.now }
    ensures found { (word rest : List ℕ) → text.now ≡ word ++ rest → Plain word → Stops rest → result ≡ length word }
{
    for (k, byte) in text.iter().enumerate() {
        if *byte <= b' ' {
            return k;
        }
    }
    text.len()
}

/// The word with which a text begins, and what follows.
pub fn split_word(text: &[u8]) -> (&[u8], &[u8])
    ensures shorter { length result.1.now ≤ length text.now }
    ensures found { (word rest : List ℕ) → text.now ≡ word ++ rest → Plain word → Stops rest → (result.0.now ≡ word) × (result.1.now ≡ rest) }
{
    text.split_at(word_len(text))
}

/// The word behind a space, and what follows.
pub fn next_word(text: &[u8]) -> Option<(&[u8], &[u8])>
    ensures shorter { IfSome result (λ r. length r.1.now < length text.now) }
    ensures found { (word rest : List ℕ) → text.now ≡ 32 ∷ (word ++ rest) → Plain word → Stops rest → IsSomeAnd result (λ r. (r.0.now ≡ word) × (r.1.now ≡ rest)) }
{
    if text.is_empty() {
        return None;
    }
    let (word, rest) = split_word(&text[1..]);
    Some((word, rest))
}

/// The number that a word writes.
fn number(word: &[u8]) -> Option<u32>
    ensures found { (n : ℕ) → n < 2 ^ 32 → word.now ≡ decimal n → result ≡ Some n }
{
    match std::str::from_utf8(word) {
        Ok(text) => match text.parse::<u32>() {
            Ok(value) => Some(value),
            Err(_) => None,
        },
        Err(_) => None,
    }
}

/// The integer that a word writes.
fn integer(word: &[u8]) -> Option<i64>
    ensures found { (z : ℤ) → IsShort z → word.now ≡ signed_decimal z → result ≡ Some z }
{
    match std::str::from_utf8(word) {
        Ok(text) => match text.parse::<i64>() {
            Ok(value) => Some(value),
            Err(_) => None,
        },
        Err(_) => None,
    }
}

/// The number behind a space, and what follows.
fn next_number(text: &[u8]) -> Option<(u32, &[u8])>
    ensures shorter { IfSome result (λ r. length r.1.now < length text.now) }
    ensures found { (n : ℕ) (rest : List ℕ) → n < 2 ^ 32 → Stops rest → text.now ≡ 32 ∷ (decimal n ++ rest) → IsSomeAnd result (λ r. (r.0 ≡ n) × (r.1.now ≡ rest)) }
{
    let Some((word, rest)) = next_word(text) else {
        return None;
    };
    match number(word) {
        Some(value) => Some((value, rest)),
        None => None,
    }
}

/// The integer behind a space, and what follows.
fn next_integer(text: &[u8]) -> Option<(i64, &[u8])>
    ensures shorter { IfSome result (λ r. length r.1.now < length text.now) }
    ensures found { (z : ℤ) (rest : List ℕ) → IsShort z → Stops rest → text.now ≡ 32 ∷ (signed_decimal z ++ rest) → IsSomeAnd result (λ r. (r.0 ≡ z) × (r.1.now ≡ rest)) }
{
    let Some((word, rest)) = next_word(text) else {
        return None;
    };
    match integer(word) {
        Some(value) => Some((value, rest)),
        None => None,
    }
}

/// The bound with which a text begins, and what follows.
pub fn next_bound(text: &[u8]) -> Option<(InvBound, &[u8])>
    ensures shorter { IfSome result (λ r. length r.1.now < length text.now) }
    ensures found { (b : InvBound) (rest : List ℕ) → IsShortItem b → Stops rest → text.now ≡ item_text b ++ rest → IsSomeAnd result (λ r. (r.0 ≡ b) × (r.1.now ≡ rest)) }
{
    let Some((row, text)) = next_number(text) else {
        return None;
    };
    let Some((column, text)) = next_number(text) else {
        return None;
    };
    let Some((word, text)) = next_integer(text) else {
        return None;
    };
    Some((InvBound { row, column, word }, text))
}
