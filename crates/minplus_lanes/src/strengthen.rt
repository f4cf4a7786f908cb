// A row made at most the sums of two halves.
ghost use Rattle.std.specs.Prelude.{◌≡◌, ℕ, ◌<◌, ◌≤◌, length, ℤ, pos, slice_index_or, FitsSigned};
ghost use Rattle.std.specs.Int.{w64};
ghost use Rattle.oct_def.specs.Bound.{bound_of, IsWord};
ghost use Rattle.minplus_lanes.specs.Rows.{bound_at, IsHalfWord, AllHalves, strong_at};

use crate::fits::all_fit;
use crate::relax::relax_two;
use oct_def::NONE;

/// Strengthening of a row: each word of `dst` becomes the least of itself and of the sum of `half` and the word of `halves`
/// at its place. A sum with none is none; no sum of two halves needs a clamp.
pub fn strengthen_row(dst: &mut [i64], half: i64, halves: &[i64])
    requires places { length dst.old ≤ length halves.now }
    requires half { IsHalfWord half }
    requires halves { AllHalves halves.now }
    ensures length { length dst.new ≡ length dst.old }
    ensures strong { (j : ℕ) → j < length dst.old → bound_at dst.new j ≡ strong_at dst.old half halves.now j }
    ensures words { (j : ℕ) → j < length dst.old → IsWord (slice_index_or dst.old j (pos 0)) → IsWord (slice_index_or dst.new j (pos 0)) }
{
    all_fit(dst);
    if half == NONE {
        return;
    }
    relax_two(dst, half, halves, half, halves);
}
