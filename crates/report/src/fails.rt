//! The lines after the program: each `fail`, and the number of rounds.
ghost use Rattle.std.specs.Prelude.{◌≡◌, ◌≤◌, ◌^◌, ◌++◌, codes, length, IfOk, OnOk};
ghost use Rattle.spl_print.specs.Canonical.{place_text};
ghost use Rattle.report.specs.Report.{verdict_text, rounds_text, fail_line};

use crate::text::put_number;
use spl_text::place_of;
use std::alloc::{AllocError, Global};

/// The line of a `fail` at an offset, which is unreachable or not excluded. An offset past the end of the bytes is read as
/// their end.
pub fn fail_text(
    alloc: Global,
    bytes: &[u8],
    offset: usize,
    unreachable: bool,
) -> Result<Vec<u8>, AllocError>
    requires short { length bytes.now ≤ 2 ^ 20 }
    ensures { IfOk result (λ text. text.items ≡ fail_line bytes.now offset unreachable) }
{
    let mut out = Vec::new(alloc);
    out.extend_from_slice(b"fail ")?;
    put_place(&mut out, bytes, offset)?;
    out.extend_from_slice(b": ")?;
    out.extend_from_slice(if unreachable {
        b"unreachable"
    } else {
        b"not excluded"
    })?;
    Ok(out)
}

/// Appends a place, as `(L3 C7)`.
fn put_place(out: &mut Vec<u8>, bytes: &[u8], offset: usize) -> Result<(), AllocError>
    requires short { length bytes.now ≤ 2 ^ 20 }
    ensures { OnOk result (out.new.items ≡ out.old.items ++ place_text bytes.now offset) }
{
    let place = place_of(bytes, offset.min(bytes.len()));
    out.extend_from_slice(b"(L")?;
    put_number(out, u64::from(place.line))?;
    out.extend_from_slice(b" C")?;
    put_number(out, u64::from(place.column))?;
    out.extend_from_slice(b")")
}

/// The line of the number of rounds.
pub fn rounds_text(alloc: Global, rounds: u64) -> Result<Vec<u8>, AllocError>
    ensures { IfOk result (λ text. text.items ≡ rounds_text rounds) }
{
    let mut out = Vec::new(alloc);
    out.extend_from_slice(b"rounds: ")?;
    put_number(&mut out, rounds)?;
    Ok(out)
}
