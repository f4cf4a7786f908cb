// Decomposed values, and what can be read of them.
ghost use Rattle.std.specs.Prelude.{◌≡◌, ℕ, ◌+◌, ◌*◌, ◌<◌, ◌≤◌, IfOk, IfSome, IsSome, MatchOption, length, Some, None, true, false};
ghost use Rattle.oct_def.specs.Bound.{bound_of};
ghost use Rattle.oct_def.specs.Table.{at};
ghost use Rattle.oct_def.specs.Octagon.{top_value, bottom_value, tight_value};
ghost use Rattle.oct_def.specs.Tight.{tight};
ghost use Rattle.block_partition.specs.Partition.{block};
ghost use Rattle.block_laws.specs.Assembly.{matrix, assembly};
ghost use Rattle.dec_oct.specs.Value.{blocks_of, decomposed, octagon, octagon_of, whole, marked, IsKept, IsDecomposition};
ghost use Rattle.dec_oct.specs.Cost.{CostsAtMost, CostsAtMostOf, TellsAgainOf};
ghost use Rattle.dec_oct.specs.Given.{IsEvenGiven, IsLooseGiven, KeepsMarksOf};

use crate::assembly::entry_of;
use crate::made::{assembled, closed_parts};
use crate::same::same_blocks;
use block_partition::Partition;
use half_matrix::HalfMatrix;
use memory::NoMemory;
use minplus_lanes::RowCount;
use std::alloc::Global;
use std::marker::Model;
use std::rc::Rc;

/// Blocks with a matrix and a mark for each.
#[derive(Drop)]
pub(crate) struct Held {
    pub(crate) partition: Partition,
    pub(crate) matrices: Vec<HalfMatrix>,
    pub(crate) settled: Vec<bool>,
}

/// Blocks of variables below `dims`, which are at most 512, with a matrix and a mark for each.
#[derive(Drop)]
pub struct Parts {
    pub dims: u32,
    pub partition: Partition,
    pub matrices: Vec<HalfMatrix>,
    pub settled: Vec<bool>,
}

/// Bottom, or the components of a value over at most 512 variables. Other values may share the blocks.
#[derive(Drop)]
pub struct DecOct {
    pub(crate) dims: u32,
    pub(crate) held: Option<Rc<Held>>,
}

impl Model for DecOct {
    ghost use Rattle.std.specs.Option.{option_map};
    ghost use Rattle.dec_oct.specs.Value.{Decomposed, decomposed, blocks_of, IsKept};

    ghost Value = { Decomposed };

    ghost view = { λ v. decomposed v.dims (option_map (λ r. blocks_of r.value.partition r.value.matrices.items r.value.settled.items) v.held) };

    ghost invariant = { λ v. IsKept (decomposed v.dims (option_map (λ r. blocks_of r.value.partition r.value.matrices.items r.value.settled.items) v.held)) };
}

// The greatest number of members of a block.
fn largest_block(partition: &Partition) -> u32
    ensures above { (c : ℕ) → c < length partition.now → length (block partition.now c) ≤ result }
    ensures attained { 0 < result → (c : ℕ) × (c < length partition.now) × (length (block partition.now c) ≡ result) }
{
    partition.known();
    let mut most = 0;
    for b in 0..partition.len() {
        let size = partition.block(b).len() as u32;
        if size > most {
            most = size;
        }
    }
    most
}

/// The value of a decomposition.
pub(crate) fn of_blocks(
    alloc: Global,
    dims: u32,
    partition: Partition,
    matrices: Vec<HalfMatrix>,
    settled: Vec<bool>,
) -> Result<DecOct, NoMemory>
    requires few { dims ≤ 512 }
    requires blocks { IsDecomposition dims (blocks_of partition matrices.items settled.items) }
    ensures { IfOk result (λ v. v ≡ decomposed dims (Some (blocks_of partition matrices.items settled.items))) }
{
    let held = Rc::new(
        alloc,
        Held {
            partition,
            matrices,
            settled,
        },
    )?;
    Ok(DecOct {
        dims,
        held: Some(held),
    })
}

impl DecOct {
    /// Law: the blocks are the components of a value, each with a matrix of its size, and marks are true, which the type
    /// keeps.
    pub fn known(&self)
        ensures { IsKept self.now }
    {
        let _ = &self.dims;
    }

    /// The value without bounds: no blocks.
    pub fn top(alloc: Global, dims: u32) -> Result<DecOct, NoMemory>
        requires { dims ≤ 512 }
        ensures value { IfOk result (λ v. octagon v ≡ top_value dims) }
        ensures blocks { IfOk result (λ v. IfSome v.blocks (λ b. length b.partition ≡ 0)) }
    {
        let v = of_blocks(
            alloc,
            dims,
            Partition::new(alloc),
            Vec::new(alloc),
            Vec::new(alloc),
        )?;
        Ok(v)
    }

    /// Bottom.
    pub fn bottom(dims: u32) -> DecOct
        requires { dims ≤ 512 }
        ensures value { octagon result ≡ bottom_value dims }
        ensures none { result ≡ decomposed dims None }
    {
        DecOct { dims, held: None }
    }

    /// The same value for another holder. No matrix is copied.
    pub fn share(&self) -> Result<DecOct, NoMemory>
        ensures { IfOk result (λ v. v ≡ self.now) }
    {
        let held = self.held.clone()?;
        Ok(DecOct {
            dims: self.dims,
            held,
        })
    }

    /// The same value over so many more dimensions, the last ones, which have no bounds. No matrix is copied.
    pub fn extended(&self, added: u32) -> Result<DecOct, NoMemory>
        requires few { self.now.dims + added ≤ 512 }
        ensures { IfOk result (λ v. v ≡ decomposed (self.now.dims + added) self.now.blocks) }
    {
        let held = self.held.clone()?;
        Ok(DecOct {
            dims: self.dims + added,
            held,
        })
    }

    /// The value whose view is the assembly of the parts, in its components. A block that splits loses its mark, and one that
    /// doesn't is shared. Each part is walked in time quadratic in the number of its members.
    pub fn from_parts(alloc: Global, parts: Parts) -> Result<DecOct, NoMemory>
        requires few { parts.dims ≤ 512 }
        requires given { IsEvenGiven parts.dims (blocks_of parts.partition parts.matrices.items parts.settled.items) }
        ensures value { IfOk result (λ v. octagon v ≡ octagon_of parts.dims (Some (assembly parts.dims parts.partition parts.matrices.items))) }
        ensures marks { IfOk result (λ v. KeepsMarksOf (blocks_of parts.partition parts.matrices.items parts.settled.items) v.blocks) }
    {
        let dims = parts.dims;
        let given = Held {
            partition: parts.partition,
            matrices: parts.matrices,
            settled: parts.settled,
        };
        let v = assembled(alloc, dims, &given)?;
        Ok(v)
    }

    /// The tight closure of the assembly of the parts. Its blocks are the components, marked exactly where the tight closure
    /// gives their matrix again. It takes time cubic in the size of each part without a mark and of each new block.
    pub fn tight_of(alloc: Global, parts: Parts, count: &mut RowCount) -> Result<DecOct, NoMemory>
        requires few { parts.dims ≤ 512 }
        requires given { IsLooseGiven parts.dims (blocks_of parts.partition parts.matrices.items parts.settled.items) }
        ensures value { IfOk result (λ v. octagon v ≡ octagon_of parts.dims (tight (assembly parts.dims parts.partition parts.matrices.items))) }
        ensures marks { IfOk result (λ v. TellsAgainOf v.blocks) }
        ensures rises { count.old ≤ count.new }
        ensures count { IfOk result (λ v. CostsAtMost (blocks_of parts.partition parts.matrices.items parts.settled.items) v.blocks count.old count.new) }
    {
        let dims = parts.dims;
        let given = Held {
            partition: parts.partition,
            matrices: parts.matrices,
            settled: parts.settled,
        };
        let v = closed_parts(alloc, dims, &given, count)?;
        Ok(v)
    }

    /// The tight closure. A block of the result is marked exactly where its tight closure is its matrix again. Marked blocks
    /// are left as they are; the others are closed, and those of variables with a bound are merged.
    pub fn close(&self, alloc: Global, count: &mut RowCount) -> Result<DecOct, NoMemory>
        ensures value { IfOk result (λ v. octagon v ≡ tight_value (octagon self.now)) }
        ensures marks { IfOk result (λ v. TellsAgainOf v.blocks) }
        ensures rises { count.old ≤ count.new }
        ensures count { IfOk result (λ v. CostsAtMostOf self.now.blocks v.blocks count.old count.new) }
    {
        match &self.held {
            None => Ok(DecOct::bottom(self.dims)),
            Some(h) => {
                let v = closed_parts(alloc, self.dims, &**h, count)?;
                Ok(v)
            }
        }
    }

    /// The number of dimensions, of Bottom too.
    pub fn dims(&self) -> u32
        ensures { result ≡ self.now.dims }
    {
        self.dims
    }

    /// The partition; `None` exactly for Bottom.
    pub fn partition(&self) -> Option<&Partition>
        ensures blocks { MatchOption result (self.now.blocks ≡ None) (λ p. IfSome self.now.blocks (λ b. p.now ≡ b.partition)) }
        ensures some { IsSome result → IsSome self.now.blocks }
    {
        match &self.held {
            None => None,
            Some(h) => Some(&h.partition),
        }
    }

    /// The number of blocks; 0 for Bottom.
    pub fn blocks(&self) -> u32
        ensures some { IfSome self.now.blocks (λ b. result ≡ length b.partition) }
        ensures none { self.now.blocks ≡ None → result ≡ 0 }
    {
        match &self.held {
            None => 0,
            Some(h) => h.partition.len(),
        }
    }

    /// The greatest number of members of a block; 0 for Bottom and where there is none. It looks at each block once.
    pub fn largest(&self) -> u32
        ensures none { self.now.blocks ≡ None → result ≡ 0 }
        ensures above { IfSome self.now.blocks (λ b. (c : ℕ) → c < length b.partition → length (block b.partition c) ≤ result) }
        ensures attained { IfSome self.now.blocks (λ b. 0 < result → (c : ℕ) × (c < length b.partition) × (length (block b.partition c) ≡ result)) }
    {
        match &self.held {
            None => 0,
            Some(h) => largest_block(&h.partition),
        }
    }

    /// The matrix of a block.
    pub fn matrix(&self, b: u32) -> &HalfMatrix
        requires not_bottom { IsSome self.now.blocks }
        requires block { IfSome self.now.blocks (λ h. b < length h.partition) }
        ensures { IfSome self.now.blocks (λ h. result.now ≡ matrix h.matrices b) }
    {
        match &self.held {
            None => unreachable!(),
            Some(h) => &h.matrices[b as usize],
        }
    }

    /// Whether a block is marked: only where the tight closure gives its matrix again.
    pub fn settled(&self, b: u32) -> bool
        requires not_bottom { IsSome self.now.blocks }
        requires block { IfSome self.now.blocks (λ h. b < length h.partition) }
        ensures mark { IfSome self.now.blocks (λ h. result ≡ marked h.marks b) }
        ensures again { result ≡ true → IfSome self.now.blocks (λ h. tight (matrix h.matrices b) ≡ Some (matrix h.matrices b)) }
    {
        match &self.held {
            None => unreachable!(),
            Some(h) => h.settled[b as usize],
        }
    }

    /// The word of the bound on V_j - V_i.
    pub fn entry(&self, i: u32, j: u32) -> i64
        requires not_bottom { IsSome self.now.blocks }
        requires row { i < 2 * self.now.dims }
        requires column { j < 2 * self.now.dims }
        ensures { IfSome self.now.blocks (λ b. bound_of result ≡ at (whole self.now.dims b) i j) }
    {
        match &self.held {
            None => unreachable!(),
            Some(h) => entry_of(&h.partition, &h.matrices, i, j),
        }
    }

    /// Whether two values are equal. Each word of their matrices is compared once, up to the first that differs.
    pub fn same(&self, other: &DecOct) -> bool
        requires { self.now.dims ≡ other.now.dims }
        ensures yes { result ≡ true → octagon self.now ≡ octagon other.now }
        ensures no { result ≡ false → octagon self.now ≡ octagon other.now → ⊥ }
    {
        self.known();
        other.known();
        match &self.held {
            None => other.held.is_none(),
            Some(h) => match &other.held {
                None => false,
                Some(k) => same_blocks(&h.partition, &h.matrices, &k.partition, &k.matrices),
            },
        }
    }
}
