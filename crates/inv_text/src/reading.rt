//! Invariants from their text. The values are taken in order of their places; that the bytes are their text is then seen by
//! writing it.
ghost use Rattle.std.specs.Prelude.{◌≡◌, ℕ, ◌+◌, ◌-◌, ◌*◌, ◌^◌, ◌<◌, ◌≤◌, Some, None, Option, List, [], ◌∷◌, ◌++◌, true, false, length, slice_index_or, codes, decimal, IfOk, OnOk, IsSomeAnd, MatchResult, Err, IfSome};
ghost use Rattle.std.specs.Bool.{Decides};
ghost use Rattle.std.specs.List.{All};
ghost use Rattle.oct_def.specs.Table.{Matrix};
ghost use Rattle.oct_def.specs.Matrix.{IsEvenMatrix};
ghost use Rattle.oct_def.specs.Octagon.{IsValueOver};
ghost use Rattle.inv_text.specs.Invariants.{dims_in, AreInvariants};
ghost use Rattle.inv_text.specs.CertText.{value_text};
ghost use Rattle.inv_text.specs.Laws.{IsCertificate};
ghost use Rattle.inv_text.specs.Listed.{half_bounds};
ghost use Rattle.inv_text.specs.Places.{is_before};
ghost use Rattle.inv_text.specs.Reading.{IsListable, IsLeft, lines_from, AreInvariantsUpTo};

use crate::bound::InvBound;
use crate::fault::CertFault;
use crate::half_bounds::{HalfBounds, is_earlier};
use crate::invariants::Invariants;
use crate::word::{next_bound, next_word, split_word};
use crate::writing::write_invariants;
use oct_def::{LIMIT, evened_word, opposite};
use std::alloc::Global;

/// Whether a matrix of so many rows may list a bound.
fn is_listable(bound: InvBound, rows: u32) -> bool
    ensures { Decides result (IsListable rows bound) }
{
    if bound.row >= rows || bound.column / 2 > bound.row / 2 {
        return false;
    }
    if bound.row == bound.column {
        return false;
    }
    if bound.word < -LIMIT || bound.word > LIMIT {
        return false;
    }
    bound.column as usize != opposite(bound.row as usize) || evened_word(bound.word) == bound.word
}

/// Whether a bound's place comes behind those of others, which are in order.
fn is_behind(bounds: &[InvBound], bound: InvBound) -> bool
    ensures yes { result ≡ true → (k : ℕ) → k + 1 ≡ length bounds.now → is_before (slice_index_or bounds.now k bound) bound ≡ true }
    ensures no { result ≡ false → (0 < length bounds.now) × (is_before (slice_index_or bounds.now (length bounds.now - 1) bound) bound ≡ false) }
{
    if bounds.is_empty() {
        return true;
    }
    is_earlier(bounds[bounds.len() - 1], bound)
}

/// Puts the next bound of a line.
fn take_next(matrix: &mut HalfBounds, bound: InvBound) -> Result<(), CertFault>
    ensures rows { length matrix.new ≡ length matrix.old }
    ensures ok { OnOk result (half_bounds matrix.new ≡ half_bounds matrix.old ++ bound ∷ []) }
    ensures bad { result ≡ Err CertFault.BadCertificate → (n : ℕ) (whole : Matrix) (todo : List InvBound) → n ≤ 256 → IsEvenMatrix n whole → length matrix.old ≡ 2 * n → (half_bounds matrix.old ++ bound ∷ todo) ≡ half_bounds whole → ⊥ }
{
    if !is_listable(bound, 2 * matrix.dims()) || !is_behind(matrix.bounds(), bound) {
        return Err(CertFault::BadCertificate);
    }
    matrix.put(bound)?;
    Ok(())
}

/// Puts the bounds of a line, up to what is none; the rest of the text begins there.
fn read_bounds<'a>(matrix: &mut HalfBounds, text: &'a [u8]) -> Result<&'a [u8], CertFault>
    ensures rows { length matrix.new ≡ length matrix.old }
    ensures found { (n : ℕ) (whole : Matrix) (rest : List ℕ) → n ≤ 256 → IsEvenMatrix n whole → length matrix.old ≡ 2 * n → IsLeft whole rest matrix.old text.now → MatchResult result (λ end. (end.now ≡ 10 ∷ rest) × (half_bounds matrix.new ≡ half_bounds whole)) (λ fault. fault ≡ CertFault.NoMemory) }
{
    let mut rest = text;
    while !rest.is_empty() && rest[0] == b' ' {
        let Some((bound, after)) = next_bound(rest) else {
            return Err(CertFault::BadCertificate);
        };
        match take_next(matrix, bound) {
            Ok(()) => rest = after,
            Err(fault) => return Err(fault),
        }
    }
    Ok(rest)
}

/// Whether a text begins with the word for Bottom behind a space; only its first byte is looked at.
fn is_bottom(text: &[u8]) -> bool
    ensures { Decides result ((2 ≤ length text.now) × (slice_index_or text.now 0 0 ≡ 32) × (slice_index_or text.now 1 0 ≡ 98)) }
{
    if text.len() < 2 {
        return false;
    }
    text[0] == b' ' && text[1] == b'b'
}

/// What is given for a point of `dims` variables, and what follows.
fn read_value(
    alloc: Global,
    dims: u32,
    text: &[u8],
) -> Result<(Option<HalfBounds>, &[u8]), CertFault>
    requires small { dims ≤ 256 }
    ensures over { IfOk result (λ r. IsValueOver dims r.0) }
    ensures found { (value : Option Matrix) (rest : List ℕ) → IsValueOver dims value → text.now ≡ value_text value ++ 10 ∷ rest → MatchResult result (λ r. (r.0 ≡ value) × (r.1.now ≡ 10 ∷ rest)) (λ fault. fault ≡ CertFault.NoMemory) }
{
    if is_bottom(text) {
        return match next_word(text) {
            Some((_, rest)) => Ok((None, rest)),
            None => Err(CertFault::BadCertificate),
        };
    }
    let mut matrix = HalfBounds::top(alloc, dims);
    match read_bounds(&mut matrix, text) {
        Ok(rest) => {
            matrix.known(dims);
            Ok((Some(matrix), rest))
        }
        Err(fault) => Err(fault),
    }
}

/// What follows the end of a line.
fn behind_end(rest: &[u8]) -> Option<&[u8]>
    ensures found { (end : ℕ) (lines : List ℕ) → rest.now ≡ end ∷ lines → IsSomeAnd result (λ r. r.now ≡ lines) }
{
    if rest.is_empty() {
        return None;
    }
    Some(&rest[1..])
}

/// The value in the line of a point of `dims` variables, and the lines that follow.
fn read_line(
    alloc: Global,
    dims: u32,
    text: &[u8],
) -> Result<(Option<HalfBounds>, &[u8]), CertFault>
    requires small { dims ≤ 256 }
    ensures over { IfOk result (λ r. IsValueOver dims r.0) }
    ensures found { (p : ℕ) (value : Option Matrix) (rest : List ℕ) → p < 2 ^ 64 → IsValueOver dims value → text.now ≡ decimal p ++ (value_text value ++ 10 ∷ rest) → MatchResult result (λ r. (r.0 ≡ value) × (r.1.now ≡ rest)) (λ fault. fault ≡ CertFault.NoMemory) }
{
    let (_, text) = split_word(text);
    match read_value(alloc, dims, text) {
        Ok((value, rest)) => match behind_end(rest) {
            Some(lines) => Ok((value, lines)),
            None => Err(CertFault::BadCertificate),
        },
        Err(fault) => Err(fault),
    }
}

/// The values of the points, from their lines.
fn read_lines(alloc: Global, dims: &[u32], text: &[u8]) -> Result<Invariants, CertFault>
    requires few { length dims.now ≤ 4096 }
    requires small { All (λ n. n ≤ 256) dims.now }
    ensures over { IfOk result (λ x. AreInvariants dims.now x) }
    ensures found { (whole : List (Option Matrix)) → AreInvariants dims.now whole → text.now ≡ lines_from whole 0 (length dims.now) → MatchResult result (λ x. x ≡ whole) (λ fault. fault ≡ CertFault.NoMemory) }
{
    let mut x = Invariants::new(alloc);
    let mut rest = text;
    for p in 0..dims.len() {
        match read_line(alloc, dims[p], rest) {
            Ok((value, after)) => {
                x.push(value)?;
                rest = after;
            }
            Err(fault) => return Err(fault),
        }
    }
    Ok(x)
}

/// The lines of the points, behind the first two lines.
fn lines_of_points(text: &[u8]) -> Option<&[u8]>
    ensures found { (count : ℕ) (lines : List ℕ) → count < 2 ^ 64 → text.now ≡ codes "interproc-invariants 1\npoints " ++ (decimal count ++ (codes "\n" ++ lines)) → IsSomeAnd result (λ rest. rest.now ≡ lines) }
{
    if text.len() < 30 {
        return None;
    }
    let (_, rest) = split_word(&text[30..]);
    behind_end(rest)
}

/// The invariants of points with these dimensions whose text the bytes are. It takes time in the number of bytes, and
/// memory for the invariants and for their text.
pub fn read_invariants(alloc: Global, dims: &[u32], bytes: &[u8]) -> Result<Invariants, CertFault>
    requires few { length dims.now ≤ 4096 }
    requires small { All (λ n. n ≤ 256) dims.now }
    ensures ok { IfOk result (λ x. IsCertificate dims.now bytes.now x) }
    ensures bad { result ≡ Err CertFault.BadCertificate → (x : List (Option Matrix)) → IsCertificate dims.now bytes.now x → ⊥ }
{
    let Some(lines) = lines_of_points(bytes) else {
        return Err(CertFault::BadCertificate);
    };
    let x = match read_lines(alloc, dims, lines) {
        Ok(x) => x,
        Err(fault) => return Err(fault),
    };
    let text = write_invariants(alloc, &x)?;
    if text.as_slice() != bytes {
        return Err(CertFault::BadCertificate);
    }
    Ok(x)
}
