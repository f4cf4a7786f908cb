//! Calls of procedures.

ghost use Rattle.std.specs.Prelude.{◌≡◌, ◌<◌, length, slice_index_or};
ghost use Rattle.spl_tree.specs.Program.{ProcMeaning};
ghost use Rattle.spl_tree.specs.Laws.{procs_in};
ghost use Rattle.spl_tree.specs.Facts.{HasNames};
ghost use Rattle.spl_tree.specs.Meaning.{name_of, names_in, named_in, names_over};
ghost use Rattle.spl_types.specs.Checks.{call_checks, has_counts as counts_of};
ghost use Rattle.spl_types.specs.Faults.{Answers};
ghost use Rattle.spl_types.specs.Walking.{scope_in, KnowsProcs, StepsToCall};

use crate::demands::demand;
use crate::fault::{CheckFault, CheckRule};
use crate::laws::law_tree;
use crate::nodes::{decl_count, name, name_count, proc_node};
use crate::scope::{Scope, Walk};
use crate::targets::{arguments, targets};
use spl_tree::{NameId, NameList, Tree};

/// The checks of a call; the last number is the place of the called name.
pub fn call(
    scope: &Scope,
    walk: &mut Walk,
    list: NameList,
    called: NameId,
    args: NameList,
    at: usize,
) -> Result<(), CheckFault>
    requires procs { KnowsProcs scope.now }
    requires targets { HasNames scope.now.tree.now list }
    requires called { called.0 < length scope.now.tree.now.names }
    requires args { HasNames scope.now.tree.now args }
    ensures { StepsToCall (scope_in scope.now) (names_over (named_in scope.now.tree.now) list) (name_of (names_in scope.now.tree.now) called) (names_over (named_in scope.now.tree.now) args) at walk.old walk.new result }
{
    targets(scope, walk, list)?;
    called_procedure(scope, list, called, args, at)
}

/// The checks of a call after those of its targets.
fn called_procedure(
    scope: &Scope,
    list: NameList,
    called: NameId,
    args: NameList,
    at: usize,
) -> Result<(), CheckFault>
    requires procs { KnowsProcs scope.now }
    requires targets { HasNames scope.now.tree.now list }
    requires called { called.0 < length scope.now.tree.now.names }
    requires args { HasNames scope.now.tree.now args }
    ensures { Answers result (call_checks (scope_in scope.now) (names_over (named_in scope.now.tree.now) list) (name_of (names_in scope.now.tree.now) called) (names_over (named_in scope.now.tree.now) args) at) }
{
    law_tree(scope.tree);
    let number = match scope.procs.number(name(scope.tree, called)) {
        Some(number) => number,
        None => return Err(CheckFault::Broken(CheckRule::UnknownProcedure, at)),
    };
    let counts = has_counts(scope.tree, number, list, args);
    demand(counts, CheckRule::WrongCount, at)?;
    arguments(scope, args)
}

/// Whether a procedure has as many outputs as there are targets, and as many inputs as there are arguments.
fn has_counts(tree: &Tree, p: u32, list: NameList, args: NameList) -> bool
    requires there { p < length tree.now.procs }
    requires targets { HasNames tree.now list }
    requires args { HasNames tree.now args }
    ensures { (d : ProcMeaning) → result ≡ counts_of (Some (slice_index_or (procs_in tree.now) p d)) (length (names_over (named_in tree.now) list)) (length (names_over (named_in tree.now) args)) }
{
    let (callee, _) = proc_node(tree, p);
    let outputs = decl_count(tree, callee.outputs);
    let inputs = decl_count(tree, callee.inputs);
    outputs == name_count(tree, list) && inputs == name_count(tree, args)
}
