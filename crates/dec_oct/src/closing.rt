// Closing blocks, each by itself.
ghost use Rattle.std.specs.Prelude.{◌≡◌, ℕ, ◌+◌, ◌*◌, ◌<◌, ◌≤◌, ◌++◌, [], ◌∷◌, IfOk, IfSome, OnOk, length, Some, true, false, pos};
ghost use Rattle.std.specs.Option.{option_map};
ghost use Rattle.oct_def.specs.Bound.{InRange};
ghost use Rattle.oct_def.specs.Table.{Matrix, at};
ghost use Rattle.oct_def.specs.Tight.{tight};
ghost use Rattle.block_laws.specs.Assembly.{matrix};
ghost use Rattle.dec_oct.specs.Value.{IsSettled};
ghost use Rattle.dec_oct.specs.Cost.{cost, unmarked_cost, ClosesEach, TellsAgain};
ghost use Rattle.dec_oct.specs.Closed.{AreSure};

use crate::same::same_matrix;
use half_matrix::{HalfBuf, HalfMatrix};
use memory::NoMemory;
use minplus_lanes::RowCount;
use quick_close::fits;
use std::alloc::Global;
use tight_closure::{Outcome, Scratch, close_block};
use tight_laws::law_tight_again;

// The tight closure of one block; `None` is Bottom.
fn close_one(
    alloc: Global,
    m: &HalfMatrix,
    scratch: &mut Scratch,
    count: &mut RowCount,
) -> Result<Option<HalfMatrix>, NoMemory>
    requires room { length m.now ≤ 2 * scratch.old }
    requires in_range { (i j : ℕ) → InRange (at m.now i j) }
    ensures closed { IfOk result (λ o. o ≡ tight m.now) }
    ensures room { scratch.new ≡ scratch.old }
    ensures rises { count.old ≤ count.new }
    ensures count { count.new ≤ count.old + cost m.now }
{
    let _ = count.rows();
    let mut closed = m.share()?;
    let buf = closed.writing(alloc)?;
    let _ = buf.vars();
    match close_block(buf, scratch, count) {
        Outcome::Closed => Ok(Some(closed)),
        Outcome::Empty => Ok(None),
    }
}

// Whether the diagonal is 0.
fn has_zero_diagonal(m: &HalfBuf) -> bool
    ensures { result ≡ true → (i : ℕ) → i < length m.now → at m.now i i ≡ Some (pos 0) }
{
    for i in 0..2 * m.vars() {
        if m.get(i, i) != 0 {
            return false;
        }
    }
    true
}

// Whether the tight closure of a matrix is known to be its own tight closure: its entries are small, and its diagonal is 0.
fn settles(m: &HalfBuf) -> bool
    ensures { result ≡ true → (r : Matrix) → tight m.now ≡ Some r → tight r ≡ Some r }
{
    law_tight_again();
    m.shape();
    let _ = m.vars();
    if !has_zero_diagonal(m) {
        return false;
    }
    fits(m)
}

/// Closed blocks, and which of them are known to be closed.
#[derive(Drop)]
pub(crate) struct ClosedBlocks {
    pub(crate) matrices: Vec<HalfMatrix>,
    pub(crate) settled: Vec<bool>,
}

impl ClosedBlocks {
    // One more block.
    fn push(&mut self, m: HalfMatrix, sure: bool) -> Result<(), NoMemory>
        ensures matrices { OnOk result (self.new.matrices.items ≡ self.old.matrices.items ++ m ∷ []) }
        ensures settled { OnOk result (self.new.settled.items ≡ self.old.settled.items ++ sure ∷ []) }
    {
        self.matrices.push(m)?;
        self.settled.push(sure)?;
        Ok(())
    }
}

/// Closes each block without a mark, and shares the marked ones; `None` where one is empty.
pub(crate) fn close_unmarked(
    alloc: Global,
    matrices: &[HalfMatrix],
    marks: &[bool],
    scratch: &mut Scratch,
    count: &mut RowCount,
) -> Result<Option<ClosedBlocks>, NoMemory>
    requires room { (b : ℕ) → b < length matrices.now → length (matrix matrices.now b) ≤ 2 * scratch.old }
    requires in_range { (b : ℕ) → b < length matrices.now → (i j : ℕ) → InRange (at (matrix matrices.now b) i j) }
    requires marks { length marks.now ≡ length matrices.now }
    requires settled { IsSettled matrices.now marks.now }
    ensures each { IfOk result (λ r. ClosesEach matrices.now (option_map (λ v. v.matrices.items) r)) }
    ensures sure { IfOk result (λ r. IfSome r (λ v. AreSure marks.now v.matrices.items v.settled.items)) }
    ensures room { scratch.new ≡ scratch.old }
    ensures rises { count.old ≤ count.new }
    ensures count { count.new ≤ count.old + unmarked_cost matrices.now marks.now }
{
    let mut closed = ClosedBlocks {
        matrices: Vec::new(alloc),
        settled: Vec::new(alloc),
    };
    for b in 0..matrices.len() {
        let m = &matrices[b];
        if marks[b] {
            closed.push(m.share()?, true)?;
        } else {
            let sure = settles(m.buf());
            match close_one(alloc, m, scratch, count)? {
                Some(x) => closed.push(x, sure)?,
                None => return Ok(None),
            }
        }
    }
    Ok(Some(closed))
}

// Whether closing a matrix gives it again.
fn closes_again(
    alloc: Global,
    m: &HalfMatrix,
    scratch: &mut Scratch,
    count: &mut RowCount,
) -> Result<bool, NoMemory>
    requires room { length m.now ≤ 2 * scratch.old }
    requires in_range { (i j : ℕ) → InRange (at m.now i j) }
    ensures yes { IfOk result (λ b. b ≡ true → tight m.now ≡ Some m.now) }
    ensures no { IfOk result (λ b. b ≡ false → tight m.now ≡ Some m.now → ⊥) }
    ensures room { scratch.new ≡ scratch.old }
    ensures rises { count.old ≤ count.new }
    ensures count { count.new ≤ count.old + cost m.now }
{
    match close_one(alloc, m, scratch, count)? {
        Some(x) => Ok(same_matrix(x.buf(), m.buf())),
        None => Ok(false),
    }
}

/// Which blocks are closed: the known ones, and those that a second closing gives again.
pub(crate) fn second_marks(
    alloc: Global,
    matrices: &[HalfMatrix],
    known: &[bool],
    scratch: &mut Scratch,
    count: &mut RowCount,
) -> Result<Vec<bool>, NoMemory>
    requires room { (b : ℕ) → b < length matrices.now → length (matrix matrices.now b) ≤ 2 * scratch.old }
    requires in_range { (b : ℕ) → b < length matrices.now → (i j : ℕ) → InRange (at (matrix matrices.now b) i j) }
    requires known { length known.now ≡ length matrices.now }
    requires settled { IsSettled matrices.now known.now }
    ensures again { IfOk result (λ v. TellsAgain matrices.now v.items) }
    ensures room { scratch.new ≡ scratch.old }
    ensures rises { count.old ≤ count.new }
    ensures count { count.new ≤ count.old + unmarked_cost matrices.now known.now }
{
    let mut marks = Vec::new(alloc);
    for b in 0..matrices.len() {
        if known[b] {
            marks.push(true)?;
        } else {
            let yes = closes_again(alloc, &matrices[b], scratch, count)?;
            marks.push(yes)?;
        }
    }
    Ok(marks)
}
