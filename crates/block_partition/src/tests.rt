ghost use Rattle.std.specs.Prelude.{◌≡◌, IfOk};
ghost use Rattle.block_partition.specs.Changes.{AreVariables};

use crate::{NoMemory, Partition, place_of};
use std::alloc::Global;
use std::process::Abort;
use std::test::Fail;

/// The blocks of a partition.
type Blocks = &'static [&'static [u32]];

/// What is done to a partition.
enum Change {
    Merge(&'static [u32]),
    Split(u32, &'static [u32]),
    Meet(Blocks),
    Copy,
}

/// A change of a partition, and the blocks that it gives.
struct Row {
    name: &'static str,
    before: Blocks,
    change: Change,
    after: Blocks,
}

const LEAVES: u32 = u32::MAX;

const ROWS: [Row; 12] = [
    Row {
        name: "branches that bound x and y meet",
        before: &[&[0, 1]],
        change: Change::Meet(&[&[0, 1]]),
        after: &[&[0, 1]],
    },
    Row {
        name: "bounds merge the blocks of all four",
        before: &[&[0, 1], &[2, 3]],
        change: Change::Merge(&[0, 1, 2, 3]),
        after: &[&[0, 1, 2, 3]],
    },
    Row {
        name: "a forgotten variable leaves its block",
        before: &[&[0, 1, 2]],
        change: Change::Split(0, &[LEAVES, 7, 7]),
        after: &[&[1, 2]],
    },
    Row {
        name: "blocks come in the order of their least members",
        before: &[&[2, 7], &[3, 4], &[5, 9]],
        change: Change::Merge(&[9, 0, 4]),
        after: &[&[0, 3, 4, 5, 9], &[2, 7]],
    },
    Row {
        name: "a merge of no variables changes nothing",
        before: &[&[1, 3], &[2]],
        change: Change::Merge(&[]),
        after: &[&[1, 3], &[2]],
    },
    Row {
        name: "a merge of one variable in no block",
        before: &[&[1, 3]],
        change: Change::Merge(&[511, 511]),
        after: &[&[1, 3], &[511]],
    },
    Row {
        name: "labels of one block aren't those of another",
        before: &[&[0, 4], &[1, 2, 3]],
        change: Change::Split(1, &[5, 0, 5]),
        after: &[&[0, 4], &[1, 3], &[2]],
    },
    Row {
        name: "a part may come before the other blocks, and one after them",
        before: &[&[0, 8], &[1, 2]],
        change: Change::Split(0, &[1, 0]),
        after: &[&[0], &[1, 2], &[8]],
    },
    Row {
        name: "all members leave",
        before: &[&[0, 1], &[2]],
        change: Change::Split(0, &[LEAVES, LEAVES]),
        after: &[&[2]],
    },
    Row {
        name: "blocks that cross meet in their parts",
        before: &[&[0, 1, 2, 3], &[5, 6]],
        change: Change::Meet(&[&[0, 2, 5], &[1, 3], &[6, 7]]),
        after: &[&[0, 2], &[1, 3], &[5], &[6]],
    },
    Row {
        name: "a meet with no blocks",
        before: &[&[0, 1]],
        change: Change::Meet(&[]),
        after: &[],
    },
    Row {
        name: "a copy",
        before: &[&[0, 3], &[1, 2]],
        change: Change::Copy,
        after: &[&[0, 3], &[1, 2]],
    },
];

/// Asserts that variables are below 512.
fn expect_variables(rt: &impl Abort, vars: &[u32])
    ensures { AreVariables vars.now }
{
    for i in 0..vars.len() {
        assert!(rt; vars[i] < 512);
    }
}

/// The partition with these blocks.
fn partition(rt: &impl Abort, alloc: Global, blocks: &[&[u32]]) -> Result<Partition, NoMemory> {
    let mut p = Partition::new(alloc);
    for b in 0..blocks.len() {
        expect_variables(rt, blocks[b]);
        p.merge(blocks[b])?;
    }
    Ok(p)
}

/// The partition after a change.
fn changed(
    rt: &impl Abort,
    alloc: Global,
    before: &[&[u32]],
    change: &Change,
) -> Result<Partition, NoMemory> {
    let mut p = partition(rt, alloc, before)?;
    match change {
        Change::Merge(vars) => {
            expect_variables(rt, vars);
            p.merge(vars)?;
        }
        Change::Split(b, labels) => {
            assert!(rt; *b < p.len());
            assert_eq!(rt; labels.len(), p.block(*b).len());
            p.split_by(*b, labels)?;
        }
        Change::Meet(blocks) => {
            let other = partition(rt, alloc, blocks)?;
            p = Partition::meet_of(alloc, &p, &other)?;
        }
        Change::Copy => p = p.copy(alloc)?,
    }
    Ok(p)
}

/// Asserts that a partition has these blocks, and finds them from their members.
fn expect_blocks(rt: &impl Abort, name: &str, p: &Partition, expected: &[&[u32]]) {
    assert_eq!(rt; p.len() as usize, expected.len(), "{name}");
    for b in 0..p.len() {
        let members = p.block(b);
        assert_eq!(rt; members, expected[b as usize], "{name}, block {b}");
        for v in members {
            assert_eq!(rt; p.block_of(*v), Some(b), "{name}, block of {v}");
        }
    }
    assert_eq!(rt; p.block_of(512), None);
}

#[test]
fn changes_give_these_blocks(rt: HostRuntime) -> Result<(), Fail> {
    for row in &ROWS {
        let p = changed(&rt, rt.alloc(), row.before, &row.change)?;
        expect_blocks(&rt, row.name, &p, row.after);
    }
    Ok(())
}
