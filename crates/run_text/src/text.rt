//! The text of a run: a line for each of its stacks.
ghost use Rattle.std.specs.Prelude.{◌≡◌, ◌++◌, decimal, IfOk, OnOk};
ghost use Rattle.std.specs.List.{flat_map};
ghost use Rattle.spl_runs.specs.Seen.{top_seen};
ghost use Rattle.run_text.specs.Text.{run_text, top_text, value_text};

use itoa::Buffer;
use memory::NoMemory;
use spl_runs::{Run, Seen};
use std::alloc::{AllocError, Global};

#[tactic(auto, unfolding(crate::specs::Text::run_text))]
/// One line for each stack: the top frame's point, the number of frames, and the top frame's values.
pub fn run_text(alloc: Global, run: &Run) -> Result<Vec<u8>, NoMemory>
    ensures { IfOk result (λ text. text.items ≡ run_text run.now) }
{
    let mut out = Vec::new(alloc);
    for k in 0..run.len() {
        put_top(&mut out, run.at(k))?;
    }
    Ok(out)
}

/// Appends the line of a top frame.
fn put_top(out: &mut Vec<u8>, top: &Seen) -> Result<(), AllocError>
    ensures { OnOk result (out.new.items ≡ out.old.items ++ top_text (top_seen top.now)) }
{
    put_number(out, top.point)?;
    out.extend_from_slice(b" ")?;
    put_number(out, top.depth)?;
    put_values(out, &top.values)?;
    out.extend_from_slice(b"\n")
}

/// Appends a number in decimal.
fn put_number(out: &mut Vec<u8>, number: u32) -> Result<(), AllocError>
    ensures { OnOk result (out.new.items ≡ out.old.items ++ decimal number) }
{
    let mut digits = Buffer::new();
    out.extend_from_slice(digits.format(number).as_bytes())
}

/// Appends values, each behind its space.
fn put_values(out: &mut Vec<u8>, values: &[i128]) -> Result<(), AllocError>
    ensures { OnOk result (out.new.items ≡ out.old.items ++ flat_map value_text values.now) }
{
    for value in values {
        put_value(out, *value)?;
    }
    Ok(())
}

/// Appends a value behind its space.
fn put_value(out: &mut Vec<u8>, value: i128) -> Result<(), AllocError>
    ensures { OnOk result (out.new.items ≡ out.old.items ++ value_text value) }
{
    out.extend_from_slice(b" ")?;
    let mut digits = Buffer::new();
    out.extend_from_slice(digits.format(value).as_bytes())
}
