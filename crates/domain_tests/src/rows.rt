//! How many rows the decomposed domain relaxes in an analysis.

use crate::cores::generated_core;
use dec_domain::DecDomain;
use iteration::analyse;
use std::alloc::Global;
use std::test::Fail;

/// With how many groups of three variables a program is generated, and the rows that its analysis relaxes.
const ROWS: [(u32, u64); 3] = [(1, 176), (3, 492), (40, 6338)];

/// The rows of an analysis of a generated program, with delay 1 and two rounds of narrowing.
fn rows_of(alloc: Global, groups: u32) -> Result<u64, Fail> {
    let core = generated_core(alloc, groups)?;
    let mut dom = DecDomain::new();
    let _ = analyse(alloc, &mut dom, &core, 1, 2)?;
    Ok(dom.rows())
}

/// Forty groups are 120 variables: their rows are below 100000, and grow with the number of groups.
#[test]
fn generated_programs_relax_rows_in_proportion(rt: HostRuntime) -> Result<(), Fail> {
    for &(groups, want) in &ROWS {
        let first = rows_of(rt.alloc(), groups)?;
        let second = rows_of(rt.alloc(), groups)?;
        assert_eq!(&rt; first, want, "{groups} groups");
        assert_eq!(&rt; second, want, "{groups} groups again");
        assert!(&rt; first > 0 && first < 100000, "{groups} groups");
    }
    Ok(())
}
