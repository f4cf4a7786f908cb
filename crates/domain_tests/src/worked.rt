//! A worked closing in both domains, every entry of it, and the blocks that a random assignment leaves.
ghost use Rattle.std.specs.Prelude.{◌≡◌, ◌<◌, IfOk};

use crate::calls::{closed, narrowed};
use crate::straight::end_over;
use crate::views::expect_view;
use dec_domain::DecDomain;
use dec_oct::DecOct;
use dec_transfer::{copy, havoc};
use domain::Domain;
use full_oct::FullDomain;
use minplus_lanes::RowCount;
use oct_def::NoMemory;
use std::alloc::Global;
use std::process::Abort;
use std::test::Fail;

/// Two pairs of related variables, and the bounds of one variable of each.
const PAIRS: (&str, &str, &str) = (
    "var a:int, b:int, c:int, d:int; begin b = a + 1; d = c + 1; end",
    "var a:int, b:int, c:int, d:int; begin assume a >= 0 and a <= 1; end",
    "var a:int, b:int, c:int, d:int; begin assume c >= 0 and c <= 1; end",
);

/// What the pairs and the bounds say, and its closing: bounds of all four variables, and of each two of them.
const CLOSING: (&str, &str) = (
    "0 1 0; 0 2 1; 1 0 2; 1 3 -1; 2 0 -1; 3 1 1; 4 5 0; 4 6 1; 5 4 2; 5 7 -1; 6 4 -1; 7 5 1; ",
    "0 1 0; 0 2 1; 0 3 -1; 0 4 1; 0 5 0; 0 6 2; 0 7 -1; 1 0 2; 1 2 3; 1 3 -1; 1 4 2; 1 5 1; 1 6 3; 1 7 0; 2 0 -1; 2 1 -1; 2 3 -2; 2 4 0; 2 5 -1; 2 6 1; 2 7 -2; 3 0 3; 3 1 1; 3 2 4; 3 4 3; 3 5 2; 3 6 4; 3 7 1; 4 0 1; 4 1 0; 4 2 2; 4 3 -1; 4 5 0; 4 6 1; 4 7 -1; 5 0 2; 5 1 1; 5 2 3; 5 3 0; 5 4 2; 5 6 3; 5 7 -1; 6 0 0; 6 1 -1; 6 2 1; 6 3 -2; 6 4 -1; 6 5 -1; 6 7 -2; 7 0 3; 7 1 2; 7 2 4; 7 3 1; 7 4 3; 7 5 1; 7 6 4; ",
);

/// The pairs with the bounds, by narrowing, which closes nothing.
fn paired<D: Domain>(alloc: Global, dom: &mut D) -> Result<D::V, Fail>
    ensures dims { IfOk result (λ r. (D.meaning r).dims ≡ 4) }
{
    let pairs = end_over(alloc, dom, PAIRS.0, 4)?;
    let first = end_over(alloc, dom, PAIRS.1, 4)?;
    let second = end_over(alloc, dom, PAIRS.2, 4)?;
    let bounded = narrowed(alloc, dom, &pairs, &first)?;
    let both = narrowed(alloc, dom, &bounded, &second)?;
    Ok(both)
}

/// Ends the test where the pairs with the bounds or their closing have another view.
fn expect_closing<D: Domain>(rt: &impl Abort, alloc: Global, dom: &mut D) -> Result<(), Fail> {
    let (before, after) = CLOSING;
    let pairs = paired(alloc, dom)?;
    expect_view(rt, alloc, dom, &pairs, 4, before, "before the closing")?;
    let closing = closed(alloc, dom, &pairs)?;
    expect_view(rt, alloc, dom, &closing, 4, after, "after the closing")
}

#[test]
fn closing_relates_bounded_variables(rt: HostRuntime) -> Result<(), Fail> {
    expect_closing(&rt, rt.alloc(), &mut FullDomain::new())?;
    expect_closing(&rt, rt.alloc(), &mut DecDomain::new())
}

/// The value of three equal variables, in blocks.
fn equal_variables(alloc: Global) -> Result<DecOct, NoMemory>
    ensures dims { IfOk result (λ r. r.dims ≡ 3) }
{
    let top = DecOct::top(alloc, 3)?;
    let pair = copied(alloc, &top, 1)?;
    let all = copied(alloc, &pair, 2)?;
    Ok(all)
}

/// The value of three variables after one became a copy of the first.
fn copied(alloc: Global, v: &DecOct, target: u32) -> Result<DecOct, NoMemory>
    requires dims { v.now.dims ≡ 3 }
    requires target { target < 3 }
    ensures dims { IfOk result (λ r. r.dims ≡ 3) }
{
    let mut count = RowCount::new();
    let w = copy(alloc, v, target, 0, &mut count)?;
    Ok(w)
}

/// The first of a value's blocks, and how many there are.
fn first_block(v: &DecOct) -> (&[u32], u32) {
    match v.partition() {
        None => (&[], 0),
        Some(p) => {
            if p.len() == 0 {
                (&[], 0)
            } else {
                (p.block(0), p.len())
            }
        }
    }
}

#[test]
fn a_random_assignment_splits_a_block(rt: HostRuntime) -> Result<(), Fail> {
    let equal = equal_variables(rt.alloc())?;
    let (members, blocks) = first_block(&equal);
    assert_eq!(&rt; members, [0, 1, 2].as_slice());
    assert_eq!(&rt; blocks, 1);
    let mut count = RowCount::new();
    let v = havoc(rt.alloc(), &equal, 0, &mut count)?;
    let (members, blocks) = first_block(&v);
    assert_eq!(&rt; members, [1, 2].as_slice());
    assert_eq!(&rt; blocks, 1);
    Ok(())
}
