//! Decomposed values of one part, and what is asserted of their blocks.
ghost use Rattle.std.specs.Prelude.{◌≡◌, ℕ, ◌*◌, ◌<◌, ◌≤◌, IfOk, length, true, Some, pos};
ghost use Rattle.oct_def.specs.Bound.{InRange, IsEven};
ghost use Rattle.oct_def.specs.Table.{at};
ghost use Rattle.oct_def.specs.Matrix.{opposite as opposite_of};
ghost use Rattle.block_partition.specs.Partition.{member, block, IsPartition};
ghost use Rattle.dec_oct.specs.Value.{blocks_of};
ghost use Rattle.dec_oct.specs.Given.{IsEvenGiven};

use block_partition::Partition;
use dec_oct::{DecOct, NoMemory, Parts};
use half_matrix::{HalfBuf, HalfMatrix};
use oct_def::{evened_word, opposite};
use std::alloc::Global;
use std::process::Abort;

/// The variables of which values are made.
const VARIABLES: [u32; 5] = [0, 1, 2, 3, 4];

/// Whether each entry on the diagonal is 0.
pub(crate) fn has_zero_diagonal(m: &HalfBuf) -> bool
    ensures { result ≡ true → (i : ℕ) → i < length m.now → at m.now i i ≡ Some (pos 0) }
{
    for i in 0..2 * m.vars() {
        if m.get(i, i) != 0 {
            return false;
        }
    }
    true
}

fn has_even_bounds(m: &HalfBuf) -> bool
    ensures { result ≡ true → (i : ℕ) → i < length m.now → IsEven (at m.now i (opposite_of i)) }
{
    for i in 0..2 * m.vars() {
        let word = m.get(i, opposite(i as usize) as u32);
        if evened_word(word) != word {
            return false;
        }
    }
    true
}

fn are_below(members: &[u32], dims: u32) -> bool
    ensures { result ≡ true → (i : ℕ) → i < length members.now → member members.now i < dims }
{
    for i in 0..members.len() {
        if members[i] >= dims {
            return false;
        }
    }
    true
}

/// The partition with one block, of so many variables from 0 on.
fn one_block(rt: &impl Abort, alloc: Global, dims: u32) -> Result<Partition, NoMemory>
    requires few { dims ≤ 5 }
    ensures partition { IfOk result (λ p. IsPartition 512 p) }
    ensures one { IfOk result (λ p. length p ≡ 1) }
    ensures size { IfOk result (λ p. length (block p 0) ≡ dims) }
    ensures below { IfOk result (λ p. (i : ℕ) → i < length (block p 0) → member (block p 0) i < dims) }
{
    let variables = &VARIABLES[..dims as usize];
    assert!(rt; are_below(variables, dims));
    let mut partition = Partition::new(alloc);
    partition.merge(variables)?;
    partition.known();
    assert_eq!(rt; partition.len(), 1);
    let members = partition.block(0);
    assert_eq!(rt; members.len(), dims as usize);
    assert!(rt; are_below(members, dims));
    Ok(partition)
}

/// One part without a mark, over at most five variables, with a matrix.
pub(crate) fn one_part(
    rt: &impl Abort,
    alloc: Global,
    matrix: HalfMatrix,
) -> Result<Parts, NoMemory>
    requires in_range { (i j : ℕ) → InRange (at matrix i j) }
    ensures few { IfOk result (λ p. p.dims ≤ 512) }
    ensures given { IfOk result (λ p. IsEvenGiven p.dims (blocks_of p.partition p.matrices.items p.settled.items)) }
{
    let m = matrix.buf();
    let dims = m.vars();
    assert!(rt; dims <= 5);
    assert!(rt; has_zero_diagonal(m));
    assert!(rt; has_even_bounds(m));
    let partition = one_block(rt, alloc, dims)?;
    Ok(Parts {
        dims,
        partition,
        matrices: vec![in alloc; matrix]?,
        settled: vec![in alloc; false]?,
    })
}

/// The value over at most five variables with a matrix.
pub(crate) fn value_with(
    rt: &impl Abort,
    alloc: Global,
    matrix: HalfMatrix,
) -> Result<DecOct, NoMemory>
    requires in_range { (i j : ℕ) → InRange (at matrix i j) }
{
    let parts = one_part(rt, alloc, matrix)?;
    let v = DecOct::from_parts(alloc, parts)?;
    Ok(v)
}

/// Asserts the members of the blocks of a value; Bottom has no blocks.
pub(crate) fn expect_blocks(rt: &impl Abort, v: &DecOct, blocks: &[&[u32]], name: &str) {
    assert_eq!(rt; v.blocks() as usize, blocks.len(), "the blocks of {name}");
    match v.partition() {
        None => {}
        Some(p) => {
            for b in 0..p.len() {
                assert!(rt; (b as usize) < blocks.len());
                assert_eq!(rt; p.block(b), blocks[b as usize], "block {b} of {name}");
            }
        }
    }
}

/// Asserts that each block has the given mark.
pub(crate) fn expect_marks(rt: &impl Abort, v: &DecOct, marked: bool, name: &str) {
    match v.partition() {
        None => {}
        Some(p) => {
            for b in 0..p.len() {
                assert_eq!(rt; v.settled(b), marked, "the mark of block {b} of {name}");
            }
        }
    }
}
