// Rows made of two rows, place by place, by one of four choices.
ghost use Rattle.std.specs.Prelude.{◌≡◌, ℕ, ◌+◌, ◌<◌, ◌≤◌, length, ℤ, pos, slice_index_or, FitsSigned};
ghost use Rattle.std.specs.Int.{w64};
ghost use Rattle.oct_def.specs.Bound.{bound_of, greatest, least};
ghost use Rattle.oct_def.specs.Octagon.{widen_bound, narrow_bound};
ghost use Rattle.minplus_lanes.specs.Choices.{chosen, chosen_at};
ghost use Rattle.minplus_lanes.specs.Rows.{bound_at};

use crate::fits::all_fit;
use crate::lanes::{load, spread, store};
use oct_def::{NONE, greatest_word, least_word, narrowed_word, widened_word};
use std::simd::prelude::*;

// What a word becomes by another.
#[derive(Clone, Copy)]
pub(crate) enum Choice {
    Greater,
    Lesser,
    Widened,
    Narrowed,
}

#[inline(always)]
fn chosen_word(choice: Choice, a: i64, b: i64) -> i64
    ensures { bound_of result ≡ chosen choice (bound_of a) (bound_of b) }
{
    match choice {
        Choice::Greater => greatest_word(a, b),
        Choice::Lesser => least_word(a, b),
        Choice::Widened => widened_word(a, b),
        Choice::Narrowed => narrowed_word(a, b),
    }
}

#[inline(always)]
fn chosen_lanes<const N: usize>(choice: Choice, a: Simd<i64, N>, b: Simd<i64, N>) -> Simd<i64, N>
    requires lanes { (length a ≡ N) × (length b ≡ N) }
    ensures lanes { length result ≡ N }
    ensures fits { (k : ℕ) → k < N → FitsSigned w64 (slice_index_or a.entry k (pos 0)) → FitsSigned w64 (slice_index_or b.entry k (pos 0)) → FitsSigned w64 (slice_index_or result k (pos 0)) }
    ensures chosen { (k : ℕ) → k < N → FitsSigned w64 (slice_index_or a.entry k (pos 0)) → FitsSigned w64 (slice_index_or b.entry k (pos 0)) → bound_of (slice_index_or result k (pos 0)) ≡ chosen choice (bound_of (slice_index_or a.entry k (pos 0))) (bound_of (slice_index_or b.entry k (pos 0))) }
{
    match choice {
        Choice::Greater => a.simd_lt(b).select(b, a),
        Choice::Lesser => b.simd_lt(a).select(b, a),
        Choice::Widened => a.simd_lt(b).select(spread(NONE), a),
        Choice::Narrowed => spread(NONE - 1).simd_lt(a).select(b, a),
    }
}

// N words from `at` on.
#[inline(always)]
fn choose_some<const N: usize>(choice: Choice, dst: &mut [i64], at: usize, src: &[i64])
    requires inside { at + N ≤ length dst.old }
    requires other { at + N ≤ length src.now }
    ensures length { length dst.new ≡ length dst.old }
    ensures before { (k : ℕ) → k < at → slice_index_or dst.new k (pos 0) ≡ slice_index_or dst.old k (pos 0) }
    ensures after { (k : ℕ) → at + N ≤ k → slice_index_or dst.new k (pos 0) ≡ slice_index_or dst.old k (pos 0) }
    ensures here { (k : ℕ) → k < N → FitsSigned w64 (slice_index_or dst.old (at + k) (pos 0)) → FitsSigned w64 (slice_index_or src.now (at + k) (pos 0)) → bound_of (slice_index_or dst.new (at + k) (pos 0)) ≡ chosen_at choice dst.old src.now (at + k) }
{
    let a = load::<N>(dst, at);
    let b = load::<N>(src, at);
    let r = chosen_lanes(choice, a, b);
    store(dst, at, r);
}

// All words.
#[inline(always)]
fn choose_row(choice: Choice, dst: &mut [i64], src: &[i64])
    requires places { length dst.old ≡ length src.now }
    ensures length { length dst.new ≡ length dst.old }
    ensures chosen { (j : ℕ) → j < length dst.old → FitsSigned w64 (slice_index_or dst.old j (pos 0)) → FitsSigned w64 (slice_index_or src.now j (pos 0)) → bound_of (slice_index_or dst.new j (pos 0)) ≡ chosen_at choice dst.old src.now j }
{
    let n = dst.len();
    'lanes: for k in 0..n / 4 {
        choose_some::<4>(choice, dst, 4 * k, src);
    }
    'pairs: for k in n / 4 * 2..n / 2 {
        choose_some::<2>(choice, dst, 2 * k, src);
    }
    'rest: for j in n / 2 * 2..n {
        dst[j] = chosen_word(choice, dst[j], src[j]);
    }
}

/// Each word of `dst` becomes the greater of itself and that of `src`: the join of two rows of bounds.
pub fn max_row(dst: &mut [i64], src: &[i64])
    requires places { length dst.old ≡ length src.now }
    ensures length { length dst.new ≡ length dst.old }
    ensures greatest { (j : ℕ) → j < length dst.old → bound_at dst.new j ≡ greatest (bound_at dst.old j) (bound_at src.now j) }
{
    all_fit(dst);
    all_fit(src);
    choose_row(Choice::Greater, dst, src);
}

/// Each word of `dst` becomes the lesser of itself and that of `src`: what both rows of bounds say.
pub fn min_row(dst: &mut [i64], src: &[i64])
    requires places { length dst.old ≡ length src.now }
    ensures length { length dst.new ≡ length dst.old }
    ensures least { (j : ℕ) → j < length dst.old → bound_at dst.new j ≡ least (bound_at dst.old j) (bound_at src.now j) }
{
    all_fit(dst);
    all_fit(src);
    choose_row(Choice::Lesser, dst, src);
}

/// Each word of `dst` becomes none where that of `src` is above it: the widening of a row of bounds.
pub fn widen_row(dst: &mut [i64], src: &[i64])
    requires places { length dst.old ≡ length src.now }
    ensures length { length dst.new ≡ length dst.old }
    ensures widened { (j : ℕ) → j < length dst.old → bound_at dst.new j ≡ widen_bound (bound_at dst.old j) (bound_at src.now j) }
{
    all_fit(dst);
    all_fit(src);
    choose_row(Choice::Widened, dst, src);
}

/// Each word of `dst` that is none becomes that of `src`: the narrowing of a row of bounds.
pub fn narrow_row(dst: &mut [i64], src: &[i64])
    requires places { length dst.old ≡ length src.now }
    ensures length { length dst.new ≡ length dst.old }
    ensures narrowed { (j : ℕ) → j < length dst.old → bound_at dst.new j ≡ narrow_bound (bound_at dst.old j) (bound_at src.now j) }
{
    all_fit(dst);
    all_fit(src);
    choose_row(Choice::Narrowed, dst, src);
}
