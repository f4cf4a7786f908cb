//! Names, keywords and numbers.
ghost use Rattle.std.specs.Prelude.{◌≡◌, ◌<◌, ◌≤◌, ◌^◌, nat_le, if◌then◌else◌, length, Some, None};
ghost use Rattle.spl_text.specs.declared.token.TokenKind.TheVariants.{Name};
ghost use Rattle.std.specs.List.{prefix_len};
ghost use Rattle.spl_text.specs.Bytes.{is_name_byte, is_digit};
ghost use Rattle.spl_text.specs.Words.{past_name, past_digits, value_of_digits};
ghost use Rattle.spl_text.specs.Pieces.{word_at, number_at};
ghost use Rattle.spl_text.specs.Checked.{checked, checked_token};

use crate::bytes::{is_digit, is_name_byte};
use crate::keyword::keyword_kind;
use crate::piece::Piece;
use crate::{TextRule, Token, TokenKind};

/// How many bytes a name has at most.
const LONGEST_NAME: usize = 64;

/// No number is greater: 2^61.
const LARGEST_NUMBER: u64 = 2305843009213693952;

/// A name that isn't too long, or a keyword.
pub fn word_at(bytes: &[u8], at: usize) -> Piece
    requires { at ≤ length bytes.now }
    ensures { result ≡ checked (word_at bytes.now at) }
{
    let end = past_name(bytes, at);
    match keyword_kind(&bytes[at..end]) {
        Some(kind) => Piece::Taken(Token {
            kind,
            start: at,
            end,
        }),
        None => name_between(at, end),
    }
}

fn name_between(start: usize, end: usize) -> Piece
    requires { start ≤ end }
    ensures { result ≡ checked_token Name (record { kind = Name; start = start; end = end }) }
{
    if end - start <= LONGEST_NAME {
        Piece::Taken(Token {
            kind: TokenKind::Name,
            start,
            end,
        })
    } else {
        Piece::Broken(TextRule::LongName)
    }
}

/// A number that isn't too large.
pub fn number_at(bytes: &[u8], at: usize) -> Piece
    requires { at ≤ length bytes.now }
    ensures { result ≡ checked (number_at bytes.now at) }
{
    let end = past_digits(bytes, at);
    match value_of(&bytes[at..end]) {
        Some(value) => Piece::Taken(Token {
            kind: TokenKind::Number(value),
            start: at,
            end,
        }),
        None => Piece::Broken(TextRule::BigLiteral),
    }
}

/// The number that digits write, unless it is too large: then the digits after the first ones that are too many aren't read.
fn value_of(digits: &[u8]) -> Option<u64>
    ensures { result ≡ (if nat_le (value_of_digits digits.now) (2 ^ 61) then Some (value_of_digits digits.now) else None) }
{
    let mut value: u64 = 0;
    for digit in digits {
        // It fits: the number so far is at most 2^61, so ten times it is below 2^65.
        let longer = 10 * u128::from(value) + u128::from(digit.saturating_sub(b'0'));
        if longer > u128::from(LARGEST_NUMBER) {
            return None;
        }
        value = longer as u64;
    }
    Some(value)
}

/// Past the bytes of a name or a keyword.
fn past_name(bytes: &[u8], at: usize) -> usize
    requires { at ≤ length bytes.now }
    ensures past { result ≡ past_name bytes.now at }
    ensures within { result ≤ length bytes.now }
    ensures onward { at ≤ result }
{
    at + name_len(&bytes[at..])
}

/// Past the digits.
fn past_digits(bytes: &[u8], at: usize) -> usize
    requires { at ≤ length bytes.now }
    ensures past { result ≡ past_digits bytes.now at }
    ensures within { result ≤ length bytes.now }
    ensures onward { at ≤ result }
{
    at + digits_len(&bytes[at..])
}

fn name_len(text: &[u8]) -> usize
    ensures len { result ≡ prefix_len is_name_byte text.now }
    ensures within { result ≤ length text.now }
{
    text.iter().take_while(|b| is_name_byte(**b)).count()
}

fn digits_len(text: &[u8]) -> usize
    ensures len { result ≡ prefix_len is_digit text.now }
    ensures within { result ≤ length text.now }
{
    text.iter().take_while(|b| is_digit(**b)).count()
}
