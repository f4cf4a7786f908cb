// Partitions: blocks in order, and for each variable the number of its block.
ghost use Rattle.std.specs.Prelude.{◌≡◌, ℕ, ◌<◌, ◌≤◌, [], IfOk, OnOk, OnErr, MatchOption, length, map, true};
ghost use Rattle.block_partition.specs.Partition.{member, home, block as block_at, place, IsBlock, IsPartition, IsOrdered};
ghost use Rattle.block_partition.specs.Changes.{AreVariables, IsMergedBy, IsSplitBy, IsMeetOf, IsGroupedBy};
ghost use Rattle.block_partition.specs.Grouping.{grouped, IsHomes};
ghost use Rattle.block_partition.specs.Relabelling.{key as key_of, plain_label as plain_label_of, merged_label as merged_label_of, split_label as split_label_of, meet_label as meet_label_of, IsMarked, IsSpan, IsLabelled};

use crate::grouping::{Grouped, group_by};
use crate::relabelling::{Label, own_label, part_label};
use memory::NoMemory;
use std::alloc::Global;
use std::marker::Model;
use std::rc::Rc;

/// Rising lists of variables below 512 that share none, in the order of their least members. Copies share the lists; without
/// blocks there are none.
#[derive(Drop)]
pub struct Partition {
    alloc: Global,
    held: Option<Rc<Grouped>>,
}

impl Model for Partition {
    ghost use Rattle.std.specs.Prelude.{ℕ, List, [], map};
    ghost use Rattle.std.specs.Option.{option_map_or};
    ghost use Rattle.block_partition.specs.Partition.{IsPartition, IsOrdered};
    ghost use Rattle.block_partition.specs.Grouping.{IsHomes};

    ghost Value = { List (List ℕ) };

    ghost view = { λ p. option_map_or (λ r. map (λ vs. vs.items) r.value.blocks.items) p.held [] };

    ghost invariant = { λ p. IsPartition 512 (option_map_or (λ r. map (λ vs. vs.items) r.value.blocks.items) p.held []) × IsOrdered (option_map_or (λ r. map (λ vs. vs.items) r.value.blocks.items) p.held []) × IsHomes (option_map_or (λ r. map (λ vs. vs.items) r.value.blocks.items) p.held []) (option_map_or (λ r. r.value.homes.items) p.held []) };
}

/// The place of a variable among the members of a block; their number where it isn't one. It takes time in proportion to
/// the logarithm of their number.
pub fn place_of(members: &[u32], v: u32) -> usize
    requires block { IsBlock 512 members.now }
    ensures { result ≡ place members.now v }
{
    match members.binary_search(&v) {
        Ok(i) => i,
        Err(_) => members.len(),
    }
}

impl Partition {
    /// The partition without blocks.
    pub fn new(alloc: Global) -> Partition
        ensures { result ≡ [] }
    {
        Partition { alloc, held: None }
    }

    // The partition that labels make.
    fn from_labels(alloc: Global, labels: &[Option<Label>]) -> Result<Partition, NoMemory>
        requires small { length labels.now ≤ 512 }
        ensures { IfOk result (λ p. p ≡ grouped labels.now) }
    {
        let made = group_by(alloc, labels)?;
        let held = Rc::new(alloc, made)?;
        Ok(Partition {
            alloc,
            held: Some(held),
        })
    }

    /// The blocks of variables with one label; a variable without a label is in none. It takes time as a merge does.
    pub fn by_labels(alloc: Global, labels: &[Option<u32>]) -> Result<Partition, NoMemory>
        requires small { length labels.now ≤ 512 }
        ensures { IfOk result (λ p. IsGroupedBy labels.now p) }
    {
        let mut made = Vec::new(alloc);
        for v in 0..labels.len() {
            made.push(own_label(labels[v]))?;
        }
        let p = Partition::from_labels(alloc, &made)?;
        Ok(p)
    }

    // The members of the blocks.
    fn blocks(&self) -> &[Vec<u32>]
        ensures { map (λ vs. vs.items) result.now ≡ self.now }
    {
        match &self.held {
            None => &[],
            Some(h) => &h.blocks,
        }
    }

    // The numbers of the blocks of all variables up to the last that is in one, or further.
    fn homes(&self) -> &[Option<u32>]
        ensures { IsHomes self.now result.now }
    {
        match &self.held {
            None => &[],
            Some(h) => &h.homes,
        }
    }

    /// The number of blocks.
    pub fn len(&self) -> u32
        ensures count { result ≡ length self.now }
        ensures small { result ≤ 512 }
    {
        self.known();
        self.blocks().len() as u32
    }

    /// The members of a block, rising.
    pub fn block(&self, b: u32) -> &[u32]
        requires { b < length self.now }
        ensures { result.now ≡ block_at self.now b }
    {
        &self.blocks()[b as usize]
    }

    /// The number of the block that has a variable, found at once.
    pub fn block_of(&self, v: u32) -> Option<u32>
        ensures { MatchOption result (length self.now ≤ home self.now v) (λ b. (b ≡ home self.now v) × (b < length self.now)) }
    {
        let at = v as usize;
        let homes = self.homes();
        if at < homes.len() { homes[at] } else { None }
    }

    /// Law: the blocks are rising lists of variables below 512 that share none, aren't empty, and stand in the order of
    /// their least members, which the type keeps.
    pub fn known(&self)
        ensures partition { IsPartition 512 self.now }
        ensures ordered { IsOrdered self.now }
    {
        let _ = &self.alloc;
    }

    // The label that keeps a variable where it is.
    fn plain_label(&self, v: u32) -> Option<Label>
        ensures { result ≡ plain_label_of self.now v }
    {
        let b = self.block_of(v)?;
        Some(Label::Whole(b))
    }

    /// An equal partition, which shares the lists. It takes no memory.
    pub fn copy(&self, alloc: Global) -> Result<Partition, NoMemory>
        ensures { IfOk result (λ p. p ≡ self.now) }
    {
        let held = self.held.clone()?;
        Ok(Partition { alloc, held })
    }

    // The number of a variable's block, or one of its own.
    fn key(&self, v: u32) -> usize
        requires small { v < 512 }
        ensures key { result ≡ key_of self.now v }
        ensures small { result < 1024 }
    {
        self.known();
        match self.block_of(v) {
            Some(b) => b as usize,
            None => 512 + v as usize,
        }
    }

    // A mark at the key of each given variable.
    fn marks_of(&self, vars: &[u32]) -> Result<Vec<bool>, NoMemory>
        requires variables { AreVariables vars.now }
        ensures { IfOk result (λ m. IsMarked self.now vars.now (length vars.now) m.items) }
    {
        let mut marks = vec![in self.alloc; false; 1024]?;
        for i in 0..vars.len() {
            let k = self.key(vars[i]);
            marks[k] = true;
        }
        Ok(marks)
    }

    // A number above all variables of blocks and all given ones.
    fn span(&self, vars: &[u32]) -> usize
        requires variables { AreVariables vars.now }
        ensures { IsSpan self.now vars.now result }
    {
        let mut past = self.homes().len();
        for i in 0..vars.len() {
            let v = vars[i] as usize;
            if past <= v {
                past = v + 1;
            }
        }
        past
    }

    // The label of a variable after a merge of the marked blocks.
    fn merged_label(&self, marks: &[bool], v: u32) -> Option<Label>
        requires small { v < 512 }
        requires size { length marks.now ≡ 1024 }
        ensures { result ≡ merged_label_of self.now marks.now v }
    {
        if marks[self.key(v)] {
            Some(Label::Merged)
        } else {
            self.plain_label(v)
        }
    }

    // The partition after a merge.
    fn merged(&self, vars: &[u32]) -> Result<Partition, NoMemory>
        requires variables { AreVariables vars.now }
        ensures { IfOk result (λ p. IsMergedBy self.now vars.now p) }
    {
        let marks = self.marks_of(vars)?;
        let past = self.span(vars);
        let mut labels = Vec::new(self.alloc);
        for v in 0..past {
            labels.push(self.merged_label(&marks, v as u32))?;
        }
        self.known();
        let p = Partition::from_labels(self.alloc, &labels)?;
        Ok(p)
    }

    // Whether each of some variables is in block b.
    fn has_all(&self, b: u32, vars: &[u32]) -> bool
        requires block { b < length self.now }
        ensures { result ≡ true → (i : ℕ) → i < length vars.now → home self.now (member vars.now i) ≡ b }
    {
        for i in 0..vars.len() {
            if self.block_of(vars[i]) != Some(b) {
                return false;
            }
        }
        true
    }

    // Whether some variables are the members of one block already, or there are none of them.
    fn are_together(&self, vars: &[u32]) -> bool
        ensures { result ≡ true → IsMergedBy self.now vars.now self.now }
    {
        if vars.len() == 0 {
            return true;
        }
        match self.block_of(vars[0]) {
            None => false,
            Some(b) => self.has_all(b, vars),
        }
    }

    /// The given variables and every block that holds one of them become one block. Where they share one already, nothing
    /// changes and no memory is taken. For n variables up to the last one that
    /// is in a block or given it takes time in proportion to n times the logarithm of n, and to the number of given ones.
    pub fn merge(&mut self, vars: &[u32]) -> Result<(), NoMemory>
        requires variables { AreVariables vars.now }
        ensures merged { OnOk result (IsMergedBy self.old vars.now self.new) }
        ensures kept { OnErr result (self.new ≡ self.old) }
    {
        if !self.are_together(vars) {
            *self = self.merged(vars)?;
        }
        Ok(())
    }

    // The label of a variable after block b was split by the labels of its members.
    fn split_label(&self, b: u32, labels: &[u32], v: u32) -> Option<Label>
        requires block { b < length self.now }
        requires size { length labels.now ≡ length (block_at self.now b) }
        ensures { result ≡ split_label_of self.now b labels.now v }
    {
        self.known();
        let a = self.block_of(v)?;
        if a == b {
            let i = place_of(self.block(b), v);
            part_label(b, labels[i])
        } else {
            Some(Label::Whole(a))
        }
    }

    // The partition after a split.
    fn split(&self, b: u32, labels: &[u32]) -> Result<Partition, NoMemory>
        requires block { b < length self.now }
        requires size { length labels.now ≡ length (block_at self.now b) }
        ensures { IfOk result (λ p. IsSplitBy self.now b labels.now p) }
    {
        let mut made = Vec::new(self.alloc);
        for v in 0..self.homes().len() {
            made.push(self.split_label(b, labels, v as u32))?;
        }
        let p = Partition::from_labels(self.alloc, &made)?;
        Ok(p)
    }

    /// Members of block b with equal labels become a block; members labelled `u32::MAX` leave. It takes time as a merge
    /// does.
    pub fn split_by(&mut self, b: u32, labels: &[u32]) -> Result<(), NoMemory>
        requires block { b < length self.old }
        requires size { length labels.now ≡ length (block_at self.old b) }
        ensures split { OnOk result (IsSplitBy self.old b labels.now self.new) }
        ensures kept { OnErr result (self.new ≡ self.old) }
    {
        *self = self.split(b, labels)?;
        Ok(())
    }

    // The label of a variable in the meet.
    fn meet_label(&self, other: &Partition, v: u32) -> Option<Label>
        ensures { result ≡ meet_label_of self.now other.now v }
    {
        let a = self.block_of(v)?;
        let b = other.block_of(v)?;
        Some(Label::Part(a, b))
    }

    /// The intersections of the blocks of two partitions that aren't empty. It takes time as a merge does.
    pub fn meet_of(alloc: Global, a: &Partition, b: &Partition) -> Result<Partition, NoMemory>
        ensures { IfOk result (λ p. IsMeetOf a.now b.now p) }
    {
        let mut labels = Vec::new(alloc);
        for v in 0..a.homes().len() {
            labels.push(a.meet_label(b, v as u32))?;
        }
        let p = Partition::from_labels(alloc, &labels)?;
        Ok(p)
    }
}
