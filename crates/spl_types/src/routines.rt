//! Procedures, main too.

ghost use Rattle.std.specs.Prelude.{◌≡◌, ◌<◌, ◌≤◌, [], not, length, slice_index_or, take};
ghost use Rattle.spl_tree.specs.Program.{ProcMeaning};
ghost use Rattle.spl_tree.specs.Facts.{HasBlock, IsPlace};
ghost use Rattle.spl_tree.specs.Laws.{procs_in};
ghost use Rattle.spl_tree.specs.Meaning.{program_of, stmts_in, block_over};
ghost use Rattle.spl_types.specs.Checks.{decl_checks, declared_names, all_decls, main_procedure, is_among, most_dimensions, most_points};
ghost use Rattle.spl_types.specs.Dimensions.{procedures};
ghost use Rattle.spl_types.specs.Faults.{AnswersWith};
ghost use Rattle.spl_types.specs.Tables.{Numbers, proc_names};
ghost use Rattle.spl_types.specs.Walking.{scope_in, KnowsProcs};
ghost use Rattle.spl_types.specs.Routines.{routine_in, RoutineFits, PassesBody, PassesProcedure, PassesNumbered};

use crate::decls::declare;
use crate::demands::demand;
use crate::fault::{CheckFault, CheckRule};
use crate::laws::law_tree;
use crate::nodes::{decl_count, name, proc_node};
use crate::scope::{Scope, Walk};
use crate::stmts::block;
use crate::tables::{NameTable, ProcTable};
use crate::walk::{meet_point, start};
use spl_tree::{Block, DeclList, Tree};
use std::alloc::Global;

/// The most procedures besides main that a program may have.
const MOST_PROCEDURES: u32 = 256;

/// The length of the word `begin`.
const BEGIN: usize = 5;

/// A procedure without its name, or main: its declarations, where its `begin` starts, and its body.
#[derive(Clone, Copy, Drop)]
pub struct Routine {
    pub inputs: DeclList,
    pub outputs: DeclList,
    pub locals: DeclList,
    pub begin: usize,
    pub body: Block,
}

/// The procedure with this number, main last.
pub fn routine_at(tree: &Tree, p: u32) -> Routine
    requires { p ≤ length tree.now.procs }
    ensures stands { routine_in tree.now result ≡ slice_index_or (procedures (program_of tree.now)) p (main_procedure (program_of tree.now)) }
    ensures fits { RoutineFits tree.now result }
{
    law_tree(tree);
    if p < tree.proc_count() {
        let (proc, at) = proc_node(tree, p);
        return Routine {
            inputs: proc.inputs,
            outputs: proc.outputs,
            locals: proc.locals,
            begin: at.begin,
            body: proc.body,
        };
    }
    let main = tree.main_tree();
    let none = DeclList { first: 0, count: 0 };
    Routine {
        inputs: none,
        outputs: none,
        locals: main.locals,
        begin: tree.main_begin(),
        body: main.body,
    }
}

/// The checks of the procedure with this number, which isn't main, with those of its name, after so many points of
/// the program.
pub fn named_procedure<'t>(
    alloc: Global,
    tree: &'t Tree,
    procs: &ProcTable<'t>,
    p: u32,
    points: u32,
) -> Result<Walk, CheckFault>
    requires there { p < length tree.now.procs }
    requires numbers { Numbers procs.now (proc_names (procs_in tree.now)) }
    requires points { points ≤ most_points }
    ensures { PassesNumbered (procs_in tree.now) p points result }
{
    law_tree(tree);
    let (proc, at) = proc_node(tree, p);
    demand(p < MOST_PROCEDURES, CheckRule::TooManyProcedures, at.name)?;
    let first = is_first(tree, procs, name(tree, proc.name), p);
    demand(first, CheckRule::DuplicateName, at.name)?;
    let routine = routine_at(tree, p);
    procedure(alloc, tree, procs, routine, points)
}

/// Whether no procedure before this one has this name, which is its own.
fn is_first<'t>(tree: &Tree, procs: &ProcTable<'t>, name: &[u8], p: u32) -> bool
    requires there { p < length tree.now.procs }
    requires numbers { Numbers procs.now (proc_names (procs_in tree.now)) }
    requires own { (d : ProcMeaning) → name.now ≡ (slice_index_or (procs_in tree.now) p d).name.name }
    ensures { result ≡ not (is_among name.now (proc_names (take p (procs_in tree.now)))) }
{
    law_tree(tree);
    match procs.number(name) {
        Some(first) => first == p,
        None => true,
    }
}

/// The checks of a procedure after those of its name, after so many points of the program.
pub fn procedure<'t>(
    alloc: Global,
    tree: &'t Tree,
    procs: &ProcTable<'t>,
    routine: Routine,
    points: u32,
) -> Result<Walk, CheckFault>
    requires fits { RoutineFits tree.now routine }
    requires numbers { Numbers procs.now (proc_names (procs_in tree.now)) }
    requires points { points ≤ most_points }
    ensures { PassesProcedure (procs_in tree.now) points (routine_in tree.now routine) result }
{
    let declared = declarations(alloc, tree, routine)?;
    let scope = Scope {
        alloc,
        tree,
        procs,
        declared,
        inputs: decl_count(tree, routine.inputs),
    };
    let walk = body(&scope, routine.begin, routine.body, points)?;
    Ok(walk)
}

/// The checks of a procedure's declarations, and their names.
fn declarations<'t>(
    alloc: Global,
    tree: &'t Tree,
    routine: Routine,
) -> Result<NameTable<'t>, CheckFault>
    requires { RoutineFits tree.now routine }
    ensures { AnswersWith result (decl_checks [] (all_decls (routine_in tree.now routine))) (λ names. names ≡ declared_names (all_decls (routine_in tree.now routine))) }
{
    let mut names = NameTable::new(alloc);
    declare(tree, &mut names, routine.inputs)?;
    declare(tree, &mut names, routine.outputs)?;
    declare(tree, &mut names, routine.locals)?;
    Ok(names)
}

/// The checks of a procedure from its `begin` on.
fn body(scope: &Scope, begin: usize, stmts: Block, points: u32) -> Result<Walk, CheckFault>
    requires procs { KnowsProcs scope.now }
    requires there { HasBlock scope.now.tree.now (length scope.now.tree.now.stmts) stmts }
    requires placed { IsPlace begin }
    requires points { points ≤ most_points }
    requires declared { length scope.now.declared ≤ most_dimensions }
    requires inputs { scope.now.inputs ≤ length scope.now.declared }
    ensures { PassesBody (scope_in scope.now) points begin (block_over scope.now.tree.now.stmt_items (stmts_in scope.now.tree.now) stmts) result }
{
    let mut walk = start(scope, points)?;
    meet_point(&mut walk, begin)?;
    block(scope, &mut walk, stmts, begin + BEGIN)?;
    Ok(walk)
}
