//! The text of invariants.
ghost use Rattle.std.specs.Prelude.{◌≡◌, ◌<◌, ◌≤◌, ◌++◌, codes, decimal, length, IfOk, OnOk};
ghost use Rattle.std.specs.Fmt.{signed_decimal};
ghost use Rattle.std.specs.List.{flat_map, range_with_len};
ghost use Rattle.inv_text.specs.Invariants.{matrix_in};
ghost use Rattle.inv_text.specs.CertText.{value_text, line_text, cert_text};
ghost use Rattle.inv_text.specs.Listed.{item_text};

use crate::bound::InvBound;
use crate::invariants::Invariants;
use itoa::Buffer;
use memory::NoMemory;
use std::alloc::{AllocError, Global};

/// The text of invariants: it takes time in its length.
#[tactic(auto, unfolding(crate::specs::CertText::cert_text))]
pub fn write_invariants(alloc: Global, x: &Invariants) -> Result<Vec<u8>, NoMemory>
    ensures text { IfOk result (λ text. text.items ≡ cert_text x.now) }
{
    let mut out = Vec::new(alloc);
    out.extend_from_slice(b"interproc-invariants 1\npoints ")?;
    put_number(&mut out, x.len())?;
    out.extend_from_slice(b"\n")?;
    put_lines(&mut out, x)?;
    Ok(out)
}

/// Appends the lines of the points.
fn put_lines(out: &mut Vec<u8>, x: &Invariants) -> Result<(), AllocError>
    ensures { OnOk result (out.new.items ≡ out.old.items ++ flat_map (line_text x.now) (range_with_len 0 (length x.now))) }
{
    for p in 0..x.len() {
        put_line(out, x, p)?;
    }
    Ok(())
}

/// Appends the line of a point.
#[tactic(auto, unfolding(crate::specs::CertText::line_text))]
fn put_line(out: &mut Vec<u8>, x: &Invariants, p: u32) -> Result<(), AllocError>
    requires point { p < length x.now }
    ensures { OnOk result (out.new.items ≡ out.old.items ++ line_text x.now p) }
{
    put_number(out, p)?;
    put_value(out, x, p)?;
    out.extend_from_slice(b"\n")
}

/// Appends what is given for a point.
fn put_value(out: &mut Vec<u8>, x: &Invariants, p: u32) -> Result<(), AllocError>
    requires point { p < length x.now }
    ensures { OnOk result (out.new.items ≡ out.old.items ++ value_text (matrix_in x.now p)) }
{
    match x.bounds(p) {
        None => out.extend_from_slice(b" bottom"),
        Some(bounds) => put_bounds(out, bounds),
    }
}

/// Appends bounds.
fn put_bounds(out: &mut Vec<u8>, bounds: &[InvBound]) -> Result<(), AllocError>
    ensures { OnOk result (out.new.items ≡ out.old.items ++ flat_map item_text bounds.now) }
{
    for bound in bounds {
        put_bound(out, *bound)?;
    }
    Ok(())
}

/// Appends a bound: its row, its column and its word, each behind its space.
fn put_bound(out: &mut Vec<u8>, bound: InvBound) -> Result<(), AllocError>
    ensures { OnOk result (out.new.items ≡ out.old.items ++ item_text bound) }
{
    out.extend_from_slice(b" ")?;
    put_number(out, bound.row)?;
    out.extend_from_slice(b" ")?;
    put_number(out, bound.column)?;
    out.extend_from_slice(b" ")?;
    put_word(out, bound.word)
}

/// Appends a number in decimal.
fn put_number(out: &mut Vec<u8>, number: u32) -> Result<(), AllocError>
    ensures { OnOk result (out.new.items ≡ out.old.items ++ decimal number) }
{
    let mut digits = Buffer::new();
    out.extend_from_slice(digits.format(number).as_bytes())
}

/// Appends a word in decimal.
fn put_word(out: &mut Vec<u8>, word: i64) -> Result<(), AllocError>
    ensures { OnOk result (out.new.items ≡ out.old.items ++ signed_decimal word) }
{
    let mut digits = Buffer::new();
    out.extend_from_slice(digits.format(word).as_bytes())
}
