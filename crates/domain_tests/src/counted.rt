//! How often an assignment is computed.

use crate::cores::generated_core;
use crate::counting::CountingDomain;
use iteration::analyse;
use std::alloc::Global;
use std::test::Fail;

/// The number of assignments and of rounds in the analysis of a generated program, with delay 1 and two rounds of narrowing.
fn counts_of(alloc: Global, groups: u32) -> Result<(u32, u64), Fail> {
    let core = generated_core(alloc, groups)?;
    let mut dom = CountingDomain::new();
    let solution = analyse(alloc, &mut dom, &core, 1, 2)?;
    Ok((dom.assignments, solution.rounds()))
}

/// In the third generated program each of the 15 assignments once, and the one before the loop once more in the second round
/// and in the first of narrowing, as the loop head is computed then. Whole rounds make 60.
#[test]
fn points_are_computed_again_only_after_a_change(rt: HostRuntime) -> Result<(), Fail> {
    let (assignments, rounds) = counts_of(rt.alloc(), 3)?;
    assert_eq!(&rt; assignments, 17);
    assert_eq!(&rt; rounds, 2);
    Ok(())
}
