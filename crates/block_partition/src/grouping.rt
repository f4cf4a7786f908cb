// The blocks that labels make, in one pass: a label that wasn't met before opens the next block.
ghost use Rattle.std.specs.Prelude.{◌≡◌, ◌≤◌, IfOk, OnOk, length, map};
ghost use Rattle.std.specs.BTreeMap.{get as number_of};
ghost use Rattle.block_partition.specs.Grouping.{label_cmp, grouped, IsHomes, IsPutIn, IsNumbered};

use crate::relabelling::Label;
use memory::NoMemory;
use std::alloc::Global;
use std::collections::BTreeMap;

/// Blocks, and for each variable the number of its block, if it is in one.
#[derive(Drop)]
pub(crate) struct Grouped {
    pub(crate) blocks: Vec<Vec<u32>>,
    pub(crate) homes: Vec<Option<u32>>,
}

// The number of a label: the one that it has, or else `fresh`, which it has from now on.
fn number_of_label(
    numbers: &mut BTreeMap<Label, u32>,
    label: Label,
    fresh: u32,
) -> Result<u32, NoMemory>
    ensures { IfOk result (λ s. IsNumbered (number_of label_cmp numbers.old) label fresh s (number_of label_cmp numbers.new)) }
{
    if let Some(number) = numbers.get(&label) {
        return Ok(*number);
    }
    numbers.insert(label, fresh)?;
    Ok(fresh)
}

// Puts a variable at the end of a block, which may be the next new one.
fn put_in(alloc: Global, blocks: &mut Vec<Vec<u32>>, b: usize, v: u32) -> Result<(), NoMemory>
    requires known { b ≤ length blocks.old.items }
    ensures { OnOk result (IsPutIn (map (λ vs. vs.items) blocks.old.items) b v (map (λ vs. vs.items) blocks.new.items)) }
{
    if b == blocks.len() {
        let mut fresh = Vec::new(alloc);
        fresh.push(v)?;
        blocks.push(fresh)?;
    } else {
        blocks[b].push(v)?;
    }
    Ok(())
}

/// The blocks that labels make.
pub(crate) fn group_by(alloc: Global, labels: &[Option<Label>]) -> Result<Grouped, NoMemory>
    requires small { length labels.now ≤ 512 }
    ensures blocks { IfOk result (λ g. map (λ vs. vs.items) g.blocks.items ≡ grouped labels.now) }
    ensures homes { IfOk result (λ g. IsHomes (grouped labels.now) g.homes.items) }
{
    let mut numbers = BTreeMap::new(alloc);
    let mut blocks = Vec::new(alloc);
    let mut homes = Vec::new(alloc);
    for v in 0..labels.len() {
        match labels[v] {
            Some(label) => {
                let b = number_of_label(&mut numbers, label, blocks.len() as u32)?;
                put_in(alloc, &mut blocks, b as usize, v as u32)?;
                homes.push(Some(b))?;
            }
            None => homes.push(None)?,
        }
    }
    Ok(Grouped { blocks, homes })
}
