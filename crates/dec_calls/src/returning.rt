// The value after a call.
ghost use Rattle.std.specs.Prelude.{◌≡◌, ℕ, ◌+◌, ◌*◌, ◌<◌, ◌≤◌, IfOk, IfSome, IsSome, OnOk, length};
ghost use Rattle.std.specs.List.{All};
ghost use Rattle.oct_def.specs.Bound.{InRange, bound_of, least};
ghost use Rattle.oct_def.specs.Tight.{tight};
ghost use Rattle.transfer_def.specs.Back.{joined_dimension as joined_dimension_of, back_value};
ghost use Rattle.interval_form.specs.Listed.{IsPlaced};
ghost use Rattle.interval_form.specs.Listing.{listed};
ghost use Rattle.spl_core.specs.Facts.{AreDistinct};
ghost use Rattle.dec_oct.specs.Value.{octagon, octagon_of, whole};
ghost use Rattle.dec_parts.specs.Lower.{lowered_matrix};
ghost use Rattle.dec_parts.specs.Moving.{moved_value, MarksAllButTargetsOf};
ghost use Rattle.dec_calls.specs.Brought.{off_diagonal, standing, ListsRow, AreBrought};
ghost use Rattle.dec_calls.specs.Marks.{BackMarks};

use dec_oct::DecOct;
use dec_parts::{lowered, moved};
use interval_form::OctBound;
use memory::NoMemory;
use minplus_lanes::RowCount;
use oct_def::NONE;
use std::alloc::Global;

// Where a signed dimension of the exit stands beside the caller's variables: an input at its argument, an output at its
// added variable.
fn joined_dimension(dims: u32, args: &[u32], i: u32) -> u32
    requires small { dims ≤ 512 }
    requires few { i ≤ 1024 }
    requires args { All (λ x. x < dims) args.now }
    ensures place { result ≡ joined_dimension_of dims args.now i }
    ensures inside { (outputs : ℕ) → i < 2 * (length args.now + outputs) → result < 2 * (dims + outputs) }
{
    let variable = i as usize / 2;
    if variable < args.len() {
        2 * args[variable] + i % 2
    } else {
        2 * (dims + (variable - args.len()) as u32) + i % 2
    }
}

// The word of the exit's entry (i, j), none on the diagonal.
fn apart_word(exit: &DecOct, i: u32, j: u32) -> i64
    requires not_bottom { IsSome exit.now.blocks }
    requires row { i < 2 * exit.now.dims }
    requires column { j < 2 * exit.now.dims }
    ensures entry { IfSome exit.now.blocks (λ b. bound_of result ≡ off_diagonal (whole exit.now.dims b) i j) }
    ensures in_range { InRange (bound_of result) }
{
    exit.known();
    if i == j {
        return NONE;
    }
    exit.entry(i, j)
}

// Lists a bound, if there is one.
fn list_bound(out: &mut Vec<OctBound>, row: u32, column: u32, word: i64) -> Result<(), NoMemory>
    requires in_range { InRange (bound_of word) }
    ensures placed { OnOk result ((n : ℕ) → row < 2 * n → column < 2 * n → All (IsPlaced n) out.old.items → All (IsPlaced n) out.new.items) }
    ensures entries { OnOk result ((p q : ℕ) → listed out.new.items p q ≡ least (listed out.old.items p q) (standing row column (bound_of word) p q)) }
{
    if word == NONE {
        return Ok(());
    }
    out.push(OctBound { row, column, word })?;
    Ok(())
}

// Lists the exit's entries of a row between inputs and outputs, but for the diagonal.
fn list_row(
    out: &mut Vec<OctBound>,
    exit: &DecOct,
    dims: u32,
    args: &[u32],
    outputs: u32,
    i: u32,
) -> Result<(), NoMemory>
    requires small { dims ≤ 512 }
    requires not_bottom { IsSome exit.now.blocks }
    requires inside { length args.now + outputs ≤ exit.now.dims }
    requires row { i < 2 * (length args.now + outputs) }
    requires args { All (λ x. x < dims) args.now }
    ensures { OnOk result (IfSome exit.now.blocks (λ b. ListsRow dims args.now outputs (whole exit.now.dims b) i out.old.items out.new.items)) }
{
    exit.known();
    let row = joined_dimension(dims, args, i);
    for j in 0..2 * (args.len() as u32 + outputs) {
        let column = joined_dimension(dims, args, j);
        let word = apart_word(exit, i, j);
        list_bound(out, row, column, word)?;
    }
    Ok(())
}

// The exit's entries between inputs and outputs, but for the diagonal, each where its dimensions stand.
fn brought(
    alloc: Global,
    exit: &DecOct,
    dims: u32,
    args: &[u32],
    outputs: u32,
) -> Result<Vec<OctBound>, NoMemory>
    requires small { dims ≤ 512 }
    requires not_bottom { IsSome exit.now.blocks }
    requires inside { length args.now + outputs ≤ exit.now.dims }
    requires args { All (λ x. x < dims) args.now }
    ensures { IfOk result (λ o. IfSome exit.now.blocks (λ b. AreBrought dims args.now outputs (whole exit.now.dims b) o.items)) }
{
    exit.known();
    let mut bounds = Vec::new(alloc);
    for i in 0..2 * (args.len() as u32 + outputs) {
        list_row(&mut bounds, exit, dims, args, outputs, i)?;
    }
    Ok(bounds)
}

// The value after the exit's bounds were taken, closed and moved.
fn with_exit(
    alloc: Global,
    caller: &DecOct,
    bounds: &[OctBound],
    targets: &[u32],
    count: &mut RowCount,
) -> Result<DecOct, NoMemory>
    requires small { caller.now.dims ≤ 256 }
    requires few { length targets.now ≤ 128 }
    requires not_bottom { IsSome caller.now.blocks }
    requires targets { All (λ x. x < caller.now.dims) targets.now }
    requires distinct { AreDistinct targets.now }
    requires placed { All (IsPlaced (caller.now.dims + length targets.now)) bounds.now }
    ensures value { IfOk result (λ r. IfSome caller.now.blocks (λ a. octagon r ≡ moved_value caller.now.dims targets.now (octagon_of (caller.now.dims + length targets.now) (tight (lowered_matrix (caller.now.dims + length targets.now) bounds.now (whole (caller.now.dims + length targets.now) a)))))) }
    ensures marks { IfOk result (λ r. IfSome caller.now.blocks (λ a. MarksAllButTargetsOf caller.now.dims targets.now (octagon_of (caller.now.dims + length targets.now) (tight (lowered_matrix (caller.now.dims + length targets.now) bounds.now (whole (caller.now.dims + length targets.now) a)))) r.blocks)) }
    ensures rises { count.old ≤ count.new }
{
    let wide = caller.extended(targets.len() as u32)?;
    let parts = lowered(alloc, &wide, bounds)?;
    let closed = DecOct::tight_of(alloc, parts, count)?;
    let after = moved(alloc, &closed, caller.dims(), targets)?;
    Ok(after)
}

/// The value after a call, from the caller's value before it and the value at the callee's exit. It closes the caller's
/// blocks that the exit's bounds touch, those without a mark, and the merged block of variables that have a bound.
pub fn back(
    alloc: Global,
    caller: &DecOct,
    exit: &DecOct,
    args: &[u32],
    outputs: u32,
    targets: &[u32],
    count: &mut RowCount,
) -> Result<DecOct, NoMemory>
    requires small { caller.now.dims ≤ 256 }
    requires few { outputs ≤ 128 }
    requires args { All (λ x. x < caller.now.dims) args.now }
    requires inside { length args.now + outputs ≤ exit.now.dims }
    requires count { length targets.now ≡ outputs }
    requires targets { All (λ x. x < caller.now.dims) targets.now }
    requires distinct { AreDistinct targets.now }
    ensures value { IfOk result (λ r. octagon r ≡ back_value (octagon caller.now) (octagon exit.now) args.now outputs targets.now) }
    ensures marks { IfOk result (λ r. BackMarks (octagon caller.now) (octagon exit.now) args.now outputs targets.now r.blocks) }
    ensures rises { count.old ≤ count.new }
{
    caller.known();
    exit.known();
    if caller.partition().is_none() {
        return Ok(DecOct::bottom(caller.dims()));
    }
    if exit.partition().is_none() {
        return Ok(DecOct::bottom(caller.dims()));
    }
    let bounds = brought(alloc, exit, caller.dims(), args, outputs)?;
    let after = with_exit(alloc, caller, &bounds, targets, count)?;
    Ok(after)
}
