//! The check of a whole program, and what it gives.

ghost use Rattle.std.specs.Prelude.{◌≡◌, ◌≤◌, ◌++◌, ◌∷◌, [], length, map, None, IfOk, IfErr};
ghost use Rattle.spl_tree.specs.Facts.{IsTree};
ghost use Rattle.spl_tree.specs.Laws.{procs_in};
ghost use Rattle.spl_tree.specs.Meaning.{program_of};
ghost use Rattle.spl_types.specs.Checks.{proc_checks, broken_rule, is_among, declared_names, most_dimensions};
ghost use Rattle.spl_types.specs.Dimensions.{dimensions, dimensions_of, targets_in};
ghost use Rattle.spl_types.specs.Faults.{AnswersWith};
ghost use Rattle.spl_types.specs.Tables.{Numbers, proc_names};
ghost use Rattle.spl_types.specs.Naming.{texts};
ghost use Rattle.spl_types.specs.Routines.{routine_in, RoutineFits};
ghost use Rattle.spl_types.specs.Accepted.{IsCheckFaultOf, KeepsRules, HavePassed, copies_in};

use crate::fault::CheckFault;
use crate::laws::law_tree;
use crate::names::{Names, add_all, add_copies, add_inputs};
use crate::routines::{Routine, named_procedure, procedure, routine_at};
use crate::scope::{Copies, Walk};
use crate::tables::ProcTable;
use memory::NoMemory;
use spl_tree::Tree;
use std::alloc::Global;
use std::marker::Model;

/// A tree in which no rule is broken. Its type keeps the limits too: at most 256 procedures besides main, 4096 points,
/// and 128 dimensions in a procedure.
#[derive(Drop)]
pub struct Checked<'t> {
    tree: &'t Tree,
    procs: Vec<Copies>,
}

impl<'t> Model for Checked<'t> {
    ghost use Rattle.spl_tree.specs.Lists.{Lists};
    ghost use Rattle.spl_types.specs.Naming.{texts};
    ghost use Rattle.spl_types.specs.Routines.{routine_in, RoutineFits};
    ghost use Rattle.spl_types.specs.Accepted.{IsChecked};

    ghost Value = { Lists };

    ghost view = { λ c. c.tree.now };

    ghost invariant = { λ c. IsChecked c.tree.now c.procs.items };
}

impl<'t> Checked<'t> {
    /// The tree.
    pub fn tree(&self) -> &Tree
        ensures value { result.now ≡ self.now }
        ensures known { IsTree self.now }
        ensures accepted { KeepsRules (program_of self.now) }
    {
        self.tree
    }

    /// How many dimensions the procedure with this number has, main last: its inputs, outputs and locals, and a working
    /// copy of each input that some statement has as a target.
    pub fn dims(&self, p: u32) -> u32
        requires { p ≤ length self.now.procs }
        ensures count { result ≡ length (dimensions (program_of self.now) p) }
        ensures small { result ≤ most_dimensions }
    {
        law_tree(self.tree);
        let copies = &self.procs[p as usize];
        copies.dims
    }

    /// The names of the procedure's dimensions, in their order. An input that some statement has as a target has the
    /// name of its entry value, with `@`; its working copy has the plain name.
    pub fn names(&self, alloc: Global, p: u32) -> Result<Names, NoMemory>
        requires { p ≤ length self.now.procs }
        ensures { IfOk result (λ names. names ≡ dimensions (program_of self.now) p) }
    {
        law_tree(self.tree);
        let copies = &self.procs[p as usize];
        let names = all_names(alloc, self.tree, routine_at(self.tree, p), copies)?;
        Ok(Names::of(names))
    }
}

/// The names of a procedure's dimensions.
fn all_names(
    alloc: Global,
    tree: &Tree,
    routine: Routine,
    copies: &Copies,
) -> Result<Vec<Vec<u8>>, NoMemory>
    requires fits { RoutineFits tree.now routine }
    requires flags { copies.now.assigned.items ≡ map (λ x. is_among x (targets_in (routine_in tree.now routine))) (declared_names (routine_in tree.now routine).inputs) }
    ensures { IfOk result (λ names. texts names.items ≡ dimensions_of (routine_in tree.now routine)) }
{
    let mut names = Vec::new(alloc);
    let assigned = copies.assigned.as_slice();
    add_inputs(alloc, tree, routine.inputs, assigned, &mut names)?;
    add_all(alloc, tree, routine.outputs, &mut names)?;
    add_all(alloc, tree, routine.locals, &mut names)?;
    add_copies(alloc, tree, routine.inputs, assigned, &mut names)?;
    Ok(names)
}

/// The tree as a checked one, or the first broken rule in the order of the walk, with its place.
pub fn check<'t>(alloc: Global, tree: &'t Tree) -> Result<Checked<'t>, CheckFault>
    ensures accepted { IfOk result (λ checked. (checked ≡ tree.now) × (broken_rule (program_of tree.now) ≡ None)) }
    ensures broken { IfErr result (IsCheckFaultOf (program_of tree.now)) }
{
    law_tree(tree);
    let table = match ProcTable::of(alloc, tree) {
        Ok(table) => table,
        Err(_) => return Err(CheckFault::NoMemory),
    };
    let mut procs = Vec::new(alloc);
    let points = procedures(alloc, tree, &table, &mut procs)?;
    let main = routine_at(tree, tree.proc_count());
    let Walk {
        points: _points,
        copies,
    } = procedure(alloc, tree, &table, main, points)?;
    store(&mut procs, copies)?;
    Ok(Checked { tree, procs })
}

/// The checks of the procedures besides main, and the number of their points.
fn procedures<'t>(
    alloc: Global,
    tree: &'t Tree,
    table: &ProcTable<'t>,
    procs: &mut Vec<Copies>,
) -> Result<u32, CheckFault>
    requires numbers { Numbers table.now (proc_names (procs_in tree.now)) }
    requires none { procs.old.items ≡ [] }
    ensures { AnswersWith result (proc_checks (procs_in tree.now) [] 0 (procs_in tree.now)) (λ points. HavePassed (procs_in tree.now) points procs.new.items) }
{
    law_tree(tree);
    let mut points = 0;
    for p in 0..tree.proc_count() {
        let Walk {
            points: so_far,
            copies,
        } = named_procedure(alloc, tree, table, p, points)?;
        points = so_far;
        store(procs, copies)?;
    }
    Ok(points)
}

/// Keeps what is known of a procedure.
fn store(procs: &mut Vec<Copies>, copies: Copies) -> Result<(), CheckFault>
    ensures stored { IfOk result (λ _. copies_in procs.new.items ≡ copies_in procs.old.items ++ (copies.assigned.items, copies.dims) ∷ []) }
    ensures fault { IfErr result (λ e. e ≡ CheckFault.NoMemory) }
{
    match procs.push(copies) {
        Ok(()) => Ok(()),
        Err(_) => Err(CheckFault::NoMemory),
    }
}
