// Whether a row is within another.
ghost use Rattle.std.specs.Prelude.{◌≡◌, ℕ, ◌+◌, ◌<◌, ◌≤◌, Bool, true, false, not, length, ℤ, pos, slice_index_or, FitsSigned, int_lt};
ghost use Rattle.std.specs.Int.{w64};
ghost use Rattle.oct_def.specs.Table.{some_index};
ghost use Rattle.minplus_lanes.specs.Rows.{AllFit, is_above};

use crate::fits::all_fit;
use crate::lanes::load;
use std::simd::prelude::*;

// Whether some lane of a is above that of b.
#[inline(always)]
fn any_above<const N: usize>(a: Simd<i64, N>, b: Simd<i64, N>) -> bool
    requires few { N ≤ 64 }
    requires lanes { (length a ≡ N) × (length b ≡ N) }
    requires first { AllFit a }
    requires second { AllFit b }
    ensures none { result ≡ false → (k : ℕ) → k < N → int_lt (slice_index_or b.entry k (pos 0)) (slice_index_or a.entry k (pos 0)) ≡ false }
    ensures clear { ((k : ℕ) → k < N → int_lt (slice_index_or b.entry k (pos 0)) (slice_index_or a.entry k (pos 0)) ≡ false) → result ≡ false }
{
    b.simd_lt(a).any()
}

// The same of N words from `at` on.
#[inline(always)]
fn some_above<const N: usize>(a: &[i64], at: usize, b: &[i64]) -> bool
    requires few { N ≤ 64 }
    requires inside { at + N ≤ length a.now }
    requires other { at + N ≤ length b.now }
    requires first { AllFit a.now }
    requires second { AllFit b.now }
    ensures none { result ≡ false → (k : ℕ) → k < N → is_above a.now b.now (at + k) ≡ false }
    ensures clear { ((k : ℕ) → k < N → is_above a.now b.now (at + k) ≡ false) → result ≡ false }
{
    let x = load::<N>(a, at);
    let y = load::<N>(b, at);
    any_above(x, y)
}

/// Whether no word of `a` is above that of `b`.
pub fn leq_row(a: &[i64], b: &[i64]) -> bool
    requires places { length a.now ≡ length b.now }
    ensures { result ≡ not (some_index (length a.now) (is_above a.now b.now)) }
{
    all_fit(a);
    all_fit(b);
    let n = a.len();
    'lanes: for k in 0..n / 4 {
        if some_above::<4>(a, 4 * k, b) {
            return false;
        }
    }
    'pairs: for k in n / 4 * 2..n / 2 {
        if some_above::<2>(a, 2 * k, b) {
            return false;
        }
    }
    'rest: for j in n / 2 * 2..n {
        if b[j] < a[j] {
            return false;
        }
    }
    true
}
