// The quick closure of a block.
ghost use Rattle.std.specs.Prelude.{◌≡◌, ℕ, ◌+◌, ◌-◌, ◌*◌, ◌/◌, ◌^◌, ◌<◌, ◌≤◌, min, length, Some, None, pos};
ghost use Rattle.oct_def.specs.Bound.{InRange};
ghost use Rattle.oct_def.specs.Table.{at};
ghost use Rattle.oct_def.specs.Tight.{tight};
ghost use Rattle.tight_laws.specs.Quick.{near_steps as near_steps_of, quick_once};
ghost use Rattle.quick_close.specs.Small.{AreSmall};
ghost use Rattle.quick_close.specs.Closed.{IsClosedBut};

use crate::near::near_step;
use half_matrix::HalfBuf;
use minplus_lanes::RowCount;
use tight_closure::{Outcome, Scratch, finish, step};
use tight_laws::law_one_pass;

// The rows of v, relaxed through each other variable in rising order.
fn near_steps(
    m: &mut HalfBuf,
    v: u32,
    p: &mut [i64],
    q: &mut [i64],
    r: &mut [i64],
    s: &mut [i64],
    count: &mut RowCount,
)
    requires changed { 2 * v + 1 < length m.old }
    requires in_range { (i j : ℕ) → InRange (at m.old i j) }
    requires first { length p.old ≡ length m.old }
    requires second { length q.old ≡ length m.old }
    requires third { length r.old ≡ length m.old }
    requires fourth { length s.old ≡ length m.old }
    ensures steps { m.new ≡ near_steps_of v (length m.old / 2) m.old }
    ensures rows { length m.new ≡ length m.old }
    ensures in_range { (i j : ℕ) → InRange (at m.new i j) }
    ensures count { count.new ≡ min (count.old + 2 * (length m.old / 2 - 1)) (2 ^ 64 - 1) }
    ensures first_length { length p.new ≡ length p.old }
    ensures second_length { length q.new ≡ length q.old }
{
    let _ = count.rows();
    let n = m.vars();
    'below: for w in 0..v {
        near_step(m, v, w, p, q, r, s, count);
    }
    'above: for w in v + 1..n {
        near_step(m, v, w, p, q, r, s, count);
    }
}

// The quick closure with one pass, with scratch for four rows.
fn quick(
    m: &mut HalfBuf,
    v: u32,
    p: &mut [i64],
    q: &mut [i64],
    r: &mut [i64],
    s: &mut [i64],
    count: &mut RowCount,
) -> Outcome
    requires changed { 2 * v + 1 < length m.old }
    requires in_range { (i j : ℕ) → InRange (at m.old i j) }
    requires first { length p.old ≡ length m.old }
    requires second { length q.old ≡ length m.old }
    requires third { length r.old ≡ length m.old }
    requires fourth { length s.old ≡ length m.old }
    ensures closed { result ≡ Outcome.Closed → quick_once v m.old ≡ Some m.new }
    ensures empty { result ≡ Outcome.Empty → quick_once v m.old ≡ None }
    ensures rows { length m.new ≡ length m.old }
    ensures in_range { (i j : ℕ) → InRange (at m.new i j) }
    ensures count { count.new ≡ min (count.old + 2 * (length m.old / 2 - 1) + length m.old) (2 ^ 64 - 1) }
{
    near_steps(m, v, p, q, r, s, count);
    m.shape();
    let _ = m.vars();
    step(m, v, p, q, count);
    finish(m, p)
}

// The same, in the first places of the room.
fn quick_within(m: &mut HalfBuf, v: u32, rows: &mut [i64], count: &mut RowCount) -> Outcome
    requires changed { 2 * v + 1 < length m.old }
    requires in_range { (i j : ℕ) → InRange (at m.old i j) }
    requires room { 4 * length m.old ≤ length rows.old }
    ensures closed { result ≡ Outcome.Closed → quick_once v m.old ≡ Some m.new }
    ensures empty { result ≡ Outcome.Empty → quick_once v m.old ≡ None }
    ensures rows { length m.new ≡ length m.old }
    ensures in_range { (i j : ℕ) → InRange (at m.new i j) }
    ensures count { count.new ≡ min (count.old + 2 * (length m.old / 2 - 1) + length m.old) (2 ^ 64 - 1) }
{
    let size = 2 * m.vars() as usize;
    let (p, rest) = rows.split_at_mut(size);
    let (q, rest) = rest.split_at_mut(size);
    let (r, rest) = rest.split_at_mut(size);
    let (s, _) = rest.split_at_mut(size);
    quick(m, v, p, q, r, s, count)
}

/// The tight closure, in place, of a matrix with small entries in which only bounds of the variable v aren't closed. Where
/// it is Bottom, the matrix holds some coherent matrix afterwards. It takes no memory, and O(k^2) time for k variables:
/// 4k - 2 rows are relaxed.
pub fn quick_block(m: &mut HalfBuf, v: u32, scratch: &mut Scratch, count: &mut RowCount) -> Outcome
    requires changed { 2 * v + 1 < length m.old }
    requires room { length m.old ≤ 2 * scratch.old }
    requires small { AreSmall m.old }
    requires diagonal { (i : ℕ) → i < length m.old → at m.old i i ≡ Some (pos 0) }
    requires others { IsClosedBut v m.old }
    ensures closed { result ≡ Outcome.Closed → tight m.old ≡ Some m.new }
    ensures empty { result ≡ Outcome.Empty → tight m.old ≡ None }
    ensures rows { length m.new ≡ length m.old }
    ensures in_range { (i j : ℕ) → InRange (at m.new i j) }
    ensures room { scratch.new ≡ scratch.old }
    ensures count { (k : ℕ) → length m.old ≡ 2 * k → count.new ≡ min (count.old + (4 * k - 2)) (2 ^ 64 - 1) }
{
    m.shape();
    let _ = m.vars();
    law_one_pass();
    quick_within(m, v, scratch.rows(), count)
}
