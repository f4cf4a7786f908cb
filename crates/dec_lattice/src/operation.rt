// The three operations on rows of bounds.
ghost use Rattle.std.specs.Prelude.{◌≡◌, ℕ, ◌<◌, length};
ghost use Rattle.minplus_lanes.specs.Rows.{bound_at};
ghost use Rattle.dec_lattice.specs.Operation.{combined};

use minplus_lanes::{max_row, narrow_row, widen_row};

/// What two values are combined by.
#[derive(Clone, Copy)]
pub(crate) enum Operation {
    Join,
    Widening,
    Narrowing,
}

/// Each word of `dst` becomes what the operation makes of it and of the word of `src` at its place.
pub(crate) fn combine_row(op: Operation, dst: &mut [i64], src: &[i64])
    requires places { length dst.old ≡ length src.now }
    ensures length { length dst.new ≡ length dst.old }
    ensures combined { (j : ℕ) → j < length dst.old → bound_at dst.new j ≡ combined op (bound_at dst.old j) (bound_at src.now j) }
{
    match op {
        Operation::Join => max_row(dst, src),
        Operation::Widening => widen_row(dst, src),
        Operation::Narrowing => narrow_row(dst, src),
    }
}
