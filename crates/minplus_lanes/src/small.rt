// Relaxation of a row by two rows of small words. No sum is clamped below, so two tests a word are saved.
ghost use Rattle.std.specs.Prelude.{◌≡◌, ℕ, ◌+◌, ◌-◌, ◌^◌, ◌<◌, ◌≤◌, min, length, ℤ, pos, slice_index_or, FitsSigned};
ghost use Rattle.std.specs.Int.{w64};
ghost use Rattle.oct_def.specs.Bound.{bound_of, least, top_limit};
ghost use Rattle.minplus_lanes.specs.Rows.{bound_at, AllLow, IsLow, IsLowSize, IsLowWeight, loose, low_sum, low_at};

use crate::count::RowCount;
use crate::fits::all_fit;
use crate::lanes::{load, loose_leasts, lowered_lanes, spread, store};
use crate::relax::{loose_least, lowered};
use oct_def::{LIMIT, NONE};
use std::simd::prelude::*;

/// What stands for none in a row of small words.
pub const FAR: i64 = 4611686018427387904;

// A sum in each lane, in which each number above the limit stands for none.
#[inline(always)]
fn open_sums<const N: usize>(a: Simd<i64, N>, x: Simd<i64, N>) -> Simd<i64, N>
    requires lanes { (length a ≡ N) × (length x ≡ N) }
    requires weights { (k : ℕ) → k < N → IsLowSize (slice_index_or a k (pos 0)) }
    requires words { (k : ℕ) → k < N → IsLow (slice_index_or x k (pos 0)) }
    ensures lanes { length result ≡ N }
    ensures fits { (k : ℕ) → k < N → FitsSigned w64 (slice_index_or result k (pos 0)) }
    ensures sums { (k : ℕ) → k < N → loose (slice_index_or result k (pos 0)) ≡ low_sum (slice_index_or a.entry k (pos 0)) (slice_index_or x.entry k (pos 0)) }
{
    a + x
}

// N words from `at` on, relaxed.
#[inline(always)]
fn relax_low_some<const N: usize>(dst: &mut [i64], at: usize, a: i64, p: &[i64], b: i64, q: &[i64])
    requires inside { at + N ≤ length dst.old }
    requires first { at + N ≤ length p.now }
    requires second { at + N ≤ length q.now }
    requires first_words { AllLow p.now }
    requires second_words { AllLow q.now }
    requires first_weight { IsLowSize a }
    requires second_weight { IsLowSize b }
    ensures length { length dst.new ≡ length dst.old }
    ensures before { (k : ℕ) → k < at → slice_index_or dst.new k (pos 0) ≡ slice_index_or dst.old k (pos 0) }
    ensures after { (k : ℕ) → at + N ≤ k → slice_index_or dst.new k (pos 0) ≡ slice_index_or dst.old k (pos 0) }
    ensures here { (k : ℕ) → k < N → FitsSigned w64 (slice_index_or dst.old (at + k) (pos 0)) → bound_of (slice_index_or dst.new (at + k) (pos 0)) ≡ low_at dst.old a p.now b q.now (at + k) }
{
    let d = load::<N>(dst, at);
    let x = load::<N>(p, at);
    let y = load::<N>(q, at);
    let s = open_sums(spread(a), x);
    let t = open_sums(spread(b), y);
    let m = loose_leasts(s, t);
    let r = lowered_lanes(d, m, spread(LIMIT));
    store(dst, at, r);
}

// A sum, in which each number above the limit stands for none.
fn open_sum(a: i64, x: i64) -> i64
    requires weight { IsLowSize a }
    requires word { IsLow x }
    ensures { loose result ≡ low_sum a x }
{
    a + x
}

// The loop, for two weights that aren't none.
fn relax_low(dst: &mut [i64], a: i64, p: &[i64], b: i64, q: &[i64])
    requires first { length dst.old ≤ length p.now }
    requires second { length dst.old ≤ length q.now }
    requires first_words { AllLow p.now }
    requires second_words { AllLow q.now }
    requires first_weight { IsLowSize a }
    requires second_weight { IsLowSize b }
    ensures length { length dst.new ≡ length dst.old }
    ensures relaxed { (j : ℕ) → j < length dst.old → FitsSigned w64 (slice_index_or dst.old j (pos 0)) → bound_of (slice_index_or dst.new j (pos 0)) ≡ low_at dst.old a p.now b q.now j }
{
    let n = dst.len();
    'lanes: for k in 0..n / 4 {
        relax_low_some::<4>(dst, 4 * k, a, p, b, q);
    }
    'pairs: for k in n / 4 * 2..n / 2 {
        relax_low_some::<2>(dst, 2 * k, a, p, b, q);
    }
    'rest: for j in n / 2 * 2..n {
        let s = open_sum(a, p[j]);
        let t = open_sum(b, q[j]);
        dst[j] = lowered(dst[j], loose_least(s, t));
    }
}

/// As `relax_row`, by rows in which `FAR` stands for none and each other word is at most 2^59 in size.
pub fn relax_small_row(dst: &mut [i64], a: i64, p: &[i64], b: i64, q: &[i64], count: &mut RowCount)
    requires first { length dst.old ≤ length p.now }
    requires second { length dst.old ≤ length q.now }
    requires first_words { AllLow p.now }
    requires second_words { AllLow q.now }
    requires first_weight { IsLowWeight a }
    requires second_weight { IsLowWeight b }
    ensures length { length dst.new ≡ length dst.old }
    ensures relaxed { (j : ℕ) → j < length dst.old → bound_at dst.new j ≡ low_at dst.old a p.now b q.now j }
    ensures count { count.new ≡ min (count.old + 1) (2 ^ 64 - 1) }
{
    count.raise();
    all_fit(dst);
    if a == NONE {
        if b == NONE {
            return;
        }
        relax_low(dst, b, q, b, q);
        return;
    }
    if b == NONE {
        relax_low(dst, a, p, a, p);
        return;
    }
    relax_low(dst, a, p, b, q);
}
