//! Tables of names.

ghost use Rattle.std.specs.Prelude.{◌≡◌, ◌++◌, ◌∷◌, [], ◌≤◌, ◌^◌, not, true, length, map, position, IfOk, OnOk};
ghost use Rattle.std.specs.Str.{bytes_eq};
ghost use Rattle.spl_tree.specs.Program.{ProcMeaning};
ghost use Rattle.spl_tree.specs.Laws.{procs_in};
ghost use Rattle.spl_types.specs.Checks.{is_among};
ghost use Rattle.spl_types.specs.Tables.{number_in, with_number, Numbers, Distinct, proc_names};

use crate::laws::law_tree;
use crate::nodes::proc_name;
use indexmap::{IndexMap, IndexSet};
use memory::NoMemory;
use spl_tree::Tree;
use std::alloc::Global;
use std::marker::Model;

/// Names in the order in which they were added, each once.
#[derive(Drop)]
pub struct NameTable<'t> {
    names: IndexSet<&'t [u8]>,
}

impl<'t> Model for NameTable<'t> {
    ghost use Rattle.std.specs.Prelude.{ℕ, List, map};
    ghost use Rattle.std.specs.Borrow.{Bor};
    ghost use Rattle.spl_types.specs.Tables.{Distinct};

    ghost Value = { List (List ℕ) };

    ghost view = { λ t. map (λ (k : Bor (List ℕ)). k.now) t.names.keys };

    ghost invariant = { λ t. Distinct (map (λ (k : Bor (List ℕ)). k.now) t.names.keys) };
}

impl<'t> NameTable<'t> {
    /// A table without names.
    pub fn new(alloc: Global) -> NameTable<'t>
        ensures { result ≡ [] }
    {
        NameTable {
            names: IndexSet::new(alloc),
        }
    }

    /// The number of names.
    pub fn len(&self) -> usize
        ensures { result ≡ length self.now }
    {
        self.names.len()
    }

    /// The number of a name: its place in the order in which names were added.
    pub fn number(&self, name: &[u8]) -> Option<usize>
        ensures place { result ≡ position (bytes_eq name.now) self.now }
        ensures distinct { Distinct self.now }
    {
        self.names.get_index_of(name)
    }

    /// Adds a name at the end, if it isn't there, and says whether it wasn't.
    pub fn add(&mut self, name: &'t [u8]) -> Result<bool, NoMemory>
        ensures fresh { IfOk result (λ fresh. fresh ≡ not (is_among name.now self.old)) }
        ensures added { IfOk result (λ fresh. fresh ≡ true → self.new ≡ self.old ++ name.now ∷ []) }
    {
        let fresh = match self.names.insert(name) {
            Ok(fresh) => fresh,
            Err(_) => return Err(NoMemory),
        };
        Ok(fresh)
    }
}

/// The procedures of a program by name: the number of the first in the text that has it.
#[derive(Drop)]
pub struct ProcTable<'t> {
    numbers: IndexMap<&'t [u8], u32>,
}

impl<'t> Model for ProcTable<'t> {
    ghost use Rattle.std.specs.Prelude.{ℕ, List, map};
    ghost use Rattle.std.specs.Borrow.{Bor};

    ghost Value = { List (List ℕ × ℕ) };

    ghost view = { λ t. map (λ (e : Bor (List ℕ) × ℕ). (e.0.now, e.1)) t.numbers.entries };
}

impl<'t> ProcTable<'t> {
    /// The procedures of a tree besides main.
    pub fn of(alloc: Global, tree: &'t Tree) -> Result<ProcTable<'t>, NoMemory>
        ensures { IfOk result (λ table. Numbers table (proc_names (procs_in tree.now))) }
    {
        law_tree(tree);
        let mut table = ProcTable {
            numbers: IndexMap::new(alloc),
        };
        for p in 0..tree.proc_count() {
            table.add(proc_name(tree, p), p)?;
        }
        Ok(table)
    }

    /// Gives a name a number, if it has none.
    fn add(&mut self, name: &'t [u8], number: u32) -> Result<(), NoMemory>
        ensures { OnOk result (self.new ≡ with_number self.old name.now number) }
    {
        if self.numbers.contains_key(name) {
            return Ok(());
        }
        match self.numbers.insert(name, number) {
            Ok(_) => {}
            Err(_) => return Err(NoMemory),
        }
        Ok(())
    }

    /// The number of the procedure with a name.
    pub fn number(&self, name: &[u8]) -> Option<u32>
        ensures { result ≡ number_in name.now self.now }
    {
        self.numbers.get(name).copied()
    }
}
