//! The greatest blocks of worked partitions.
ghost use Rattle.block_partition.specs.Changes.{AreVariables};

use crate::greatest_size;
use block_partition::Partition;
use std::process::Abort;
use std::test::Fail;

/// Variables that share blocks, and the greatest number of members of a block.
const ROWS: [(&[&[u32]], u32); 5] = [
    (&[], 0),
    (&[&[7]], 1),
    (&[&[0, 2], &[1], &[3, 5, 511]], 3),
    (&[&[4, 1, 2], &[0, 3]], 3),
    (&[&[0, 1], &[2, 3], &[1, 2]], 4),
];

/// Asserts that variables are below 512.
fn expect_variables(rt: &impl Abort, vars: &[u32])
    ensures { AreVariables vars.now }
{
    for i in 0..vars.len() {
        assert!(rt; vars[i] < 512);
    }
}

#[test]
fn greatest_sizes(rt: HostRuntime) -> Result<(), Fail> {
    for &(merges, greatest) in &ROWS {
        let mut blocks = Partition::new(rt.alloc());
        for b in 0..merges.len() {
            expect_variables(&rt, merges[b]);
            blocks.merge(merges[b])?;
        }
        assert_eq!(rt; greatest_size(&blocks), greatest);
    }
    Ok(())
}
