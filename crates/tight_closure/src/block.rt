// The tight closure of a block, without memory.
ghost use Rattle.std.specs.Prelude.{◌≡◌, ℕ, ◌+◌, ◌-◌, ◌*◌, ◌/◌, ◌^◌, ◌<◌, ◌≤◌, min, length, Some, None, IfOk};
ghost use Rattle.oct_def.specs.Bound.{InRange};
ghost use Rattle.oct_def.specs.Table.{at};
ghost use Rattle.oct_def.specs.Tight.{tight, tight_closed};
ghost use Rattle.std.specs.Borrow.{sem};
ghost use Rattle.tight_closure.specs.Lending.{LendsRoom};

use crate::ends::{even_unary, has_crossing, has_negative_cycle, strengthen};
use crate::pairs::closure;
use half_matrix::HalfBuf;
use memory::NoMemory;
use minplus_lanes::RowCount;
use std::alloc::Global;
use std::marker::Model;

/// What a closure comes to: a matrix, or Bottom, which no state meets.
#[derive(Clone, Copy, Debug, PartialEq, Eq)]
pub enum Outcome {
    Closed,
    Empty,
}

/// Room for the copies of four rows, to close blocks of at most so many variables.
#[derive(Drop)]
pub struct Scratch {
    vars: u32,
    words: Vec<i64>,
}

impl Model for Scratch {
    ghost use Rattle.std.specs.Prelude.{ℕ};
    ghost use Rattle.tight_closure.specs.Room.{IsRoom};

    ghost Value = { ℕ };

    ghost view = { λ s. s.vars };

    ghost invariant = { λ s. IsRoom s.vars s.words.items };
}

impl Scratch {
    /// Room for at most so many variables.
    pub fn reserve(alloc: Global, vars: u32) -> Result<Scratch, NoMemory>
        requires small { vars ≤ 512 }
        ensures { IfOk result (λ s. s ≡ vars) }
    {
        let words = vec![in alloc; 0_i64; 8 * vars as usize]?;
        Ok(Scratch { vars, words })
    }

    /// How many variables there is room for.
    pub fn vars(&self) -> u32
        ensures { result ≡ self.now }
    {
        self.vars
    }

    /// The room: four rows of a matrix over so many variables, whatever stands in them.
    pub fn rows(&mut self) -> &mut [i64]
        ensures* writes_back { sem 𝓛 (LendsRoom self.entry result) }
        ensures size { length result.now ≡ 8 * self.old }
    {
        let size = 8 * self.vars as usize;
        self.words.slice_mut(0..size)
    }
}

/// The end of the tight closure, after the steps, with scratch for one row.
pub fn finish(m: &mut HalfBuf, halves: &mut [i64]) -> Outcome
    requires in_range { (i j : ℕ) → InRange (at m.old i j) }
    requires places { length halves.old ≡ length m.old }
    ensures closed { result ≡ Outcome.Closed → tight_closed m.old ≡ Some m.new }
    ensures empty { result ≡ Outcome.Empty → tight_closed m.old ≡ None }
    ensures rows { length m.new ≡ length m.old }
    ensures in_range { (i j : ℕ) → InRange (at m.new i j) }
    ensures places { length halves.new ≡ length halves.old }
{
    m.shape();
    let _ = m.vars();
    if has_negative_cycle(m) {
        return Outcome::Empty;
    }
    even_unary(m);
    if has_crossing(m) {
        return Outcome::Empty;
    }
    strengthen(m, halves);
    Outcome::Closed
}

// The tight closure, with scratch for two rows.
fn close(m: &mut HalfBuf, p: &mut [i64], q: &mut [i64], count: &mut RowCount) -> Outcome
    requires in_range { (i j : ℕ) → InRange (at m.old i j) }
    requires first { length p.old ≡ length m.old }
    requires second { length q.old ≡ length m.old }
    ensures closed { result ≡ Outcome.Closed → tight m.old ≡ Some m.new }
    ensures empty { result ≡ Outcome.Empty → tight m.old ≡ None }
    ensures rows { length m.new ≡ length m.old }
    ensures in_range { (i j : ℕ) → InRange (at m.new i j) }
    ensures count { count.new ≡ min (count.old + length m.old / 2 * length m.old) (2 ^ 64 - 1) }
    ensures first_length { length p.new ≡ length p.old }
    ensures second_length { length q.new ≡ length q.old }
{
    closure(m, p, q, count);
    finish(m, p)
}

// The same, in the first places of the room.
fn close_within(m: &mut HalfBuf, rows: &mut [i64], count: &mut RowCount) -> Outcome
    requires in_range { (i j : ℕ) → InRange (at m.old i j) }
    requires room { 2 * length m.old ≤ length rows.old }
    ensures closed { result ≡ Outcome.Closed → tight m.old ≡ Some m.new }
    ensures empty { result ≡ Outcome.Empty → tight m.old ≡ None }
    ensures rows { length m.new ≡ length m.old }
    ensures in_range { (i j : ℕ) → InRange (at m.new i j) }
    ensures count { count.new ≡ min (count.old + length m.old / 2 * length m.old) (2 ^ 64 - 1) }
{
    let size = 2 * m.vars() as usize;
    let (p, rest) = rows.split_at_mut(size);
    let (q, _) = rest.split_at_mut(size);
    close(m, p, q, count)
}

/// The tight closure of a matrix of words, in place. Where it is Bottom, the matrix holds some coherent matrix afterwards.
/// It takes no memory, and O(k^3) time for k variables: 2k^2 rows are relaxed.
pub fn close_block(m: &mut HalfBuf, scratch: &mut Scratch, count: &mut RowCount) -> Outcome
    requires room { length m.old ≤ 2 * scratch.old }
    requires in_range { (i j : ℕ) → InRange (at m.old i j) }
    ensures closed { result ≡ Outcome.Closed → tight m.old ≡ Some m.new }
    ensures empty { result ≡ Outcome.Empty → tight m.old ≡ None }
    ensures rows { length m.new ≡ length m.old }
    ensures in_range { (i j : ℕ) → InRange (at m.new i j) }
    ensures room { scratch.new ≡ scratch.old }
    ensures count { (k : ℕ) → length m.old ≡ 2 * k → count.new ≡ min (count.old + 2 * k * k) (2 ^ 64 - 1) }
{
    close_within(m, scratch.rows(), count)
}
