//! The quick closure of a chain after a bound on its last variable, against the closure of the whole block.
ghost use Rattle.std.specs.Prelude.{◌≡◌, ℕ, ◌/◌, ◌<◌, IfOk, length, Some};
ghost use Rattle.oct_def.specs.Bound.{InRange};
ghost use Rattle.oct_def.specs.Table.{at};
ghost use Rattle.oct_def.specs.Matrix.{IsMatrix};
ghost use Rattle.oct_def.specs.Tight.{tight};
ghost use Rattle.tight_laws.specs.Laws.{SameBut};
ghost use Rattle.quick_close.specs.Small.{AreSmall};

use crate::matrices::{Constraint, matrix_with};
use crate::values::has_zero_diagonal;
use dec_oct::{NoMemory, same_matrix};
use half_matrix::HalfMatrix;
use minplus_lanes::RowCount;
use oct_def::least_word;
use quick_close::{fits, quick_block};
use std::alloc::Global;
use std::process::Abort;
use std::test::Fail;
use tight_closure::{Outcome, Scratch, close_block};

/// The number of variables of the chain, and its last one.
const VARS: u32 = 40;

const LAST: u32 = 39;

/// Each variable is less than the next.
fn chain_bounds(alloc: Global) -> Result<Vec<Constraint>, NoMemory> {
    let mut bounds = Vec::new(alloc);
    for v in 0..LAST {
        bounds.push((2 * v + 2, 2 * v, -1))?;
    }
    Ok(bounds)
}

/// The closure of a matrix over the variables of the chain, which isn't Bottom; all rows are relaxed for it.
fn closed(rt: &impl Abort, alloc: Global, matrix: &HalfMatrix) -> Result<HalfMatrix, Fail>
    requires in_range { (i j : ℕ) → InRange (at matrix.now i j) }
    ensures closed { IfOk result (λ r. tight matrix.now ≡ Some r) }
    ensures in_range { IfOk result (λ r. (i j : ℕ) → InRange (at r i j)) }
    ensures rows { IfOk result (λ r. length r ≡ 80) }
{
    let mut scratch = Scratch::reserve(alloc, VARS)?;
    let mut count = RowCount::new();
    let mut closed = matrix.share()?;
    let m = closed.writing(alloc)?;
    assert_eq!(rt; m.vars(), VARS);
    let outcome = close_block(m, &mut scratch, &mut count);
    assert_eq!(rt; outcome, Outcome::Closed);
    assert_eq!(rt; count.rows(), 3200);
    Ok(closed)
}

/// The closed chain, which the closure gives again.
fn closed_chain(rt: &impl Abort, alloc: Global) -> Result<HalfMatrix, Fail>
    ensures matrix { IfOk result (λ m. IsMatrix 40 m) }
    ensures own { IfOk result (λ m. tight m ≡ Some m) }
{
    let bounds = chain_bounds(alloc)?;
    let open = matrix_with(alloc, VARS, &bounds)?;
    let chain = closed(rt, alloc, &open)?;
    let again = closed(rt, alloc, &chain)?;
    assert!(rt; same_matrix(again.buf(), chain.buf()));
    assert!(rt; has_zero_diagonal(chain.buf()));
    chain.buf().shape();
    Ok(chain)
}

/// The matrix with one more bound, on the last variable. Its bounds are small.
fn with_bound(
    rt: &impl Abort,
    alloc: Global,
    chain: &HalfMatrix,
    bound: Constraint,
) -> Result<HalfMatrix, Fail>
    requires matrix { IsMatrix 40 chain.now }
    ensures same { IfOk result (λ m. SameBut 39 chain.now m) }
    ensures rows { IfOk result (λ m. length m ≡ 80) }
    ensures small { IfOk result (λ m. AreSmall m) }
{
    let (i, j, word) = bound;
    assert!(rt; i < 2 * VARS);
    assert!(rt; j < 2 * VARS);
    assert_eq!(rt; j / 2, LAST);
    let mut changed = chain.share()?;
    let m = changed.writing(alloc)?;
    let old = m.get(i, j);
    m.set(i, j, least_word(old, word));
    assert!(rt; fits(m));
    Ok(changed)
}

/// The quick closure of a matrix in which only bounds of the last variable aren't closed; `None` is Bottom. It relaxes far
/// fewer rows than the closure.
fn quickly_closed(
    rt: &impl Abort,
    alloc: Global,
    chain: &HalfMatrix,
    changed: &HalfMatrix,
) -> Result<Option<HalfMatrix>, Fail>
    requires matrix { IsMatrix 40 chain.now }
    requires own { tight chain.now ≡ Some chain.now }
    requires same { SameBut 39 chain.now changed.now }
    requires rows { length changed.now ≡ 80 }
    requires small { AreSmall changed.now }
    ensures { IfOk result (λ r. r ≡ tight changed.now) }
{
    let mut scratch = Scratch::reserve(alloc, VARS)?;
    let mut count = RowCount::new();
    let mut closed = changed.share()?;
    let m = closed.writing(alloc)?;
    assert!(rt; has_zero_diagonal(m));
    let outcome = quick_block(m, LAST, &mut scratch, &mut count);
    assert_eq!(rt; count.rows(), 158);
    match outcome {
        Outcome::Closed => Ok(Some(closed)),
        Outcome::Empty => Ok(None),
    }
}

#[test]
fn a_bound_on_the_last_variable_of_a_chain(rt: HostRuntime) -> Result<(), Fail> {
    let alloc = rt.alloc();
    let chain = closed_chain(&rt, alloc)?;
    let changed = with_bound(&rt, alloc, &chain, (79, 78, 10))?;
    match quickly_closed(&rt, alloc, &chain, &changed)? {
        None => assert!(rt; false, "Bottom"),
        Some(quick) => {
            let m = quick.buf();
            assert_eq!(rt; m.vars(), VARS);
            assert_eq!(rt; m.get(1, 0), -68);
            let whole = closed(&rt, alloc, &changed)?;
            assert!(rt; same_matrix(m, whole.buf()));
        }
    }
    let crossed = with_bound(&rt, alloc, &chain, (0, 78, 38))?;
    assert!(rt; quickly_closed(&rt, alloc, &chain, &crossed)?.is_none());
    Ok(())
}
