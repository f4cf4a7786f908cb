// Relaxation of a row by two others.
ghost use Rattle.std.specs.Prelude.{◌≡◌, ℕ, ◌+◌, ◌-◌, ◌^◌, ◌<◌, ◌≤◌, min, length, ℤ, pos, ◌≤ℤ◌, slice_index_or, FitsSigned};
ghost use Rattle.std.specs.Int.{w64};
ghost use Rattle.oct_def.specs.Bound.{bound_of, least, IsWord};
ghost use Rattle.minplus_lanes.specs.Rows.{bound_at, AllWords, IsSmall, IsWeight, loose, lowest, sum_bound, relaxed, relaxed_at};

use crate::count::RowCount;
use crate::fits::all_fit;
use crate::lanes::relax_some;
use oct_def::{LIMIT, NONE};

// What stands for a sum below the least bound.
fn lowest_of(a: i64) -> i64
    ensures { result ≡ lowest a }
{
    if a > 0 { NONE } else { -LIMIT }
}

// A sum, in which each number above the limit stands for none. Where a word is `NONE` and the weight positive, the sum
// has wrapped: it's below the least bound, as no other sum with a positive weight.
fn loose_sum(a: i64, x: i64, low: i64) -> i64
    requires weight { IsSmall a }
    requires word { IsWord x }
    requires low { low ≡ lowest a }
    ensures { loose result ≡ sum_bound a x }
{
    let s = a.wrapping_add(x);
    if s < -LIMIT { low } else { s }
}

pub(crate) fn loose_least(s: i64, t: i64) -> i64
    ensures { loose result ≡ least (loose s) (loose t) }
{
    if s < t { s } else { t }
}

pub(crate) fn lowered(d: i64, m: i64) -> i64
    ensures { bound_of result ≡ least (bound_of d) (loose m) }
{
    if (m < d) & (m <= LIMIT) { m } else { d }
}

// The least of a word and of its two sums.
fn relaxed_word(d: i64, a: i64, x: i64, low: i64, b: i64, y: i64, deep: i64) -> i64
    requires first_weight { IsSmall a }
    requires first { IsWord x }
    requires first_low { low ≡ lowest a }
    requires second_weight { IsSmall b }
    requires second { IsWord y }
    requires second_low { deep ≡ lowest b }
    ensures { bound_of result ≡ relaxed d a x b y }
{
    let s = loose_sum(a, x, low);
    let t = loose_sum(b, y, deep);
    lowered(d, loose_least(s, t))
}

// The loop, for two weights that aren't none.
pub(crate) fn relax_two(dst: &mut [i64], a: i64, p: &[i64], b: i64, q: &[i64])
    requires first { length dst.old ≤ length p.now }
    requires second { length dst.old ≤ length q.now }
    requires first_words { AllWords p.now }
    requires second_words { AllWords q.now }
    requires first_weight { IsSmall a }
    requires second_weight { IsSmall b }
    ensures length { length dst.new ≡ length dst.old }
    ensures relaxed { (j : ℕ) → j < length dst.old → FitsSigned w64 (slice_index_or dst.old j (pos 0)) → bound_of (slice_index_or dst.new j (pos 0)) ≡ relaxed_at dst.old a p.now b q.now j }
{
    let n = dst.len();
    let low = lowest_of(a);
    let deep = lowest_of(b);
    'lanes: for k in 0..n / 4 {
        relax_some::<4>(dst, 4 * k, a, p, low, b, q, deep);
    }
    'pairs: for k in n / 4 * 2..n / 2 {
        relax_some::<2>(dst, 2 * k, a, p, low, b, q, deep);
    }
    'rest: for j in n / 2 * 2..n {
        let d = dst[j];
        dst[j] = relaxed_word(d, a, p[j], low, b, q[j], deep);
    }
}

/// Relaxation of a row by two others: each word of `dst` becomes the least of itself, of `a` plus that of `p` and of `b`
/// plus that of `q`, each sum clamped once. A sum with none is none. The count rises by one.
pub fn relax_row(dst: &mut [i64], a: i64, p: &[i64], b: i64, q: &[i64], count: &mut RowCount)
    requires first { length dst.old ≤ length p.now }
    requires second { length dst.old ≤ length q.now }
    requires first_words { AllWords p.now }
    requires second_words { AllWords q.now }
    requires first_weight { IsWeight a }
    requires second_weight { IsWeight b }
    ensures length { length dst.new ≡ length dst.old }
    ensures relaxed { (j : ℕ) → j < length dst.old → bound_at dst.new j ≡ relaxed_at dst.old a p.now b q.now j }
    ensures words { (j : ℕ) → j < length dst.old → IsWord (slice_index_or dst.old j (pos 0)) → IsWord (slice_index_or dst.new j (pos 0)) }
    ensures count { count.new ≡ min (count.old + 1) (2 ^ 64 - 1) }
{
    count.raise();
    all_fit(dst);
    if a == NONE {
        if b == NONE {
            return;
        }
        relax_two(dst, b, q, b, q);
        return;
    }
    if b == NONE {
        relax_two(dst, a, p, a, p);
        return;
    }
    relax_two(dst, a, p, b, q);
}
