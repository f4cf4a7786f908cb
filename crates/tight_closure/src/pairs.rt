// The step at one variable. It reads only copies of the two rows of the variable, so that it may write in place.
ghost use Rattle.std.specs.Prelude.{◌≡◌, ℕ, ◌+◌, ◌-◌, ◌*◌, ◌/◌, ◌^◌, ◌<◌, ◌≤◌, min, length, ℤ, pos, slice_index_or};
ghost use Rattle.oct_def.specs.Bound.{bound_of, least, plus, IsWord, InRange};
ghost use Rattle.oct_def.specs.Table.{at};
ghost use Rattle.oct_def.specs.Tight.{pair_step, closure as closure_of};
ghost use Rattle.half_matrix.specs.Lending.{IsRowOf};
ghost use Rattle.minplus_lanes.specs.Rows.{IsWeight};

use crate::small::{is_small, lower, relax_small_rows};
use half_matrix::HalfBuf;
use minplus_lanes::{RowCount, relax_row};
use oct_def::{NONE, opposite};

// From how many variables on the test for small words pays.
const FEWEST: u32 = 16;

// The sum of two words, which isn't clamped.
fn open_sum(y: i64, z: i64) -> i64
    requires first { IsWord y }
    requires second { IsWord z }
    ensures bound { bound_of result ≡ plus (bound_of y) (bound_of z) }
    ensures weight { IsWeight result }
{
    if y == NONE {
        return NONE;
    }
    if z == NONE {
        return NONE;
    }
    y + z
}

/// The lesser of a word and of the sum of two, which isn't clamped.
pub fn weight(x: i64, y: i64, z: i64) -> i64
    requires first { IsWord x }
    requires second { IsWord y }
    requires third { IsWord z }
    ensures bound { bound_of result ≡ least (bound_of x) (plus (bound_of y) (bound_of z)) }
    ensures weight { IsWeight result }
{
    let s = open_sum(y, z);
    if s < x { s } else { x }
}

// The step at variable k, by copies of its two rows.
fn relax_rows(m: &mut HalfBuf, k: u32, p: &[i64], q: &[i64], count: &mut RowCount)
    requires variable { 2 * k + 1 < length m.old }
    requires in_range { (i j : ℕ) → InRange (at m.old i j) }
    requires first { IsRowOf m.old (2 * k) p.now }
    requires second { IsRowOf m.old (2 * k + 1) q.now }
    ensures step { m.new ≡ pair_step k m.old }
    ensures count { count.new ≡ min (count.old + length m.old) (2 ^ 64 - 1) }
{
    m.shape();
    let _ = count.rows();
    let size = 2 * m.vars();
    let pq = p[2 * k as usize + 1];
    let qp = q[2 * k as usize];
    for i in 0..size {
        let o = opposite(i as usize);
        let ip = q[o];
        let iq = p[o];
        let a = weight(ip, iq, qp);
        let b = weight(iq, ip, pq);
        relax_row(m.row_mut(i), a, p, b, q, count);
    }
    m.shape();
}

/// The step at variable k, with scratch for two rows. The count rises by as many rows as the matrix has.
pub fn step(m: &mut HalfBuf, k: u32, p: &mut [i64], q: &mut [i64], count: &mut RowCount)
    requires variable { 2 * k + 1 < length m.old }
    requires in_range { (i j : ℕ) → InRange (at m.old i j) }
    requires first { length p.old ≡ length m.old }
    requires second { length q.old ≡ length m.old }
    ensures step { m.new ≡ pair_step k m.old }
    ensures count { count.new ≡ min (count.old + length m.old) (2 ^ 64 - 1) }
    ensures first_length { length p.new ≡ length p.old }
    ensures second_length { length q.new ≡ length q.old }
{
    let n = m.vars();
    m.fill_row(2 * k, p);
    m.fill_row(2 * k + 1, q);
    if n >= FEWEST {
        if is_small(p) {
            if is_small(q) {
                lower(p);
                lower(q);
                relax_small_rows(m, k, p, q, count);
                return;
            }
        }
    }
    relax_rows(m, k, p, q, count);
}

// The steps at all variables, in rising order.
pub(crate) fn closure(m: &mut HalfBuf, p: &mut [i64], q: &mut [i64], count: &mut RowCount)
    requires in_range { (i j : ℕ) → InRange (at m.old i j) }
    requires first { length p.old ≡ length m.old }
    requires second { length q.old ≡ length m.old }
    ensures closure { m.new ≡ closure_of m.old }
    ensures count { count.new ≡ min (count.old + length m.old / 2 * length m.old) (2 ^ 64 - 1) }
    ensures in_range { (i j : ℕ) → InRange (at m.new i j) }
    ensures rows { length m.new ≡ length m.old }
    ensures first_length { length p.new ≡ length p.old }
    ensures second_length { length q.new ≡ length q.old }
{
    m.shape();
    let _ = count.rows();
    let n = m.vars();
    for k in 0..n {
        step(m, k, p, q, count);
    }
}
