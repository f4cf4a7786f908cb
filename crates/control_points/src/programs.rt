//! The core of a program: its procedures one after the other.

ghost use Rattle.std.specs.Prelude.{◌≡◌, ◌≤◌, ◌<◌, ◌+◌, ◌∷◌, ◌++◌, [], length, drop, replicate, IfOk};
ghost use Rattle.spl_tree.specs.Meaning.{program_of};
ghost use Rattle.spl_types.specs.Dimensions.{dimensions};
ghost use Rattle.spl_core.specs.Graph.{starts, graph_of};
ghost use Rattle.control_points.specs.CoreOf.{arc, points_by, proc_of, fails_of, core_of as core_in};
ghost use Rattle.control_points.specs.Routines.{procedure_at};
ghost use Rattle.control_points.specs.Building.{Adds, IsSmall, HasFew, SameNodes};
ghost use Rattle.control_points.specs.Emitting.{CallsAreSmall, copies_named, AddsProcedure};

use crate::builder::Builder;
use crate::built::Built;
use crate::edges::{Scope, emit_block};
use crate::making::Source;
use crate::names::{Dimensions, procedure_names};
use spl_core::{Action, Proc};
use spl_tree::law_numbers;
use spl_types::nodes::decl_count;
use spl_types::{Checked, NameTable, Names, NoMemory, routine_at};
use std::alloc::Global;

/// Adds the edge from an entry, of a procedure whose dimensions have these names, and meets the entry.
fn emit_start(builder: &mut Builder, dims: &Dimensions, names: &Names) -> Result<(), NoMemory>
    requires declared { length dims.now.declared ≤ length names.now }
    requires few { builder.old.points < 4096 }
    requires names { length names.now ≤ 128 }
    requires small { IsSmall builder.old.points builder.old.parts }
    ensures adds { IfOk result (λ _. Adds (arc builder.old.points (builder.old.points + 1) (starts (copies_named dims.now (drop (length dims.now.declared) names.now))) ∷ []) [] (builder.old.points + 1) builder.old builder.new) }
    ensures small { IfOk result (λ _. IsSmall builder.new.points builder.new.parts) }
    ensures same { IfOk result (λ _. SameNodes builder.old builder.new) }
{
    let entry = builder.points();
    let pairs = builder.push_pairs(dims, names, dims.declarations())?;
    builder.push_edge(entry, entry + 1, Action::Start { pairs })?;
    builder.meet_point();
    Ok(())
}

/// Adds the edges and fails of the procedure with this number, and meets its points.
fn emit_procedure<'s>(
    alloc: Global,
    checked: &'s Checked,
    procs: &'s NameTable,
    builder: &mut Builder,
    p: u32,
) -> Result<Proc, NoMemory>
    requires there { p ≤ length checked.now.procs }
    requires number { p ≤ 256 }
    requires procs { length procs.now ≤ 256 }
    requires few { points_by builder.old.points (procedure_at (program_of checked.now) p) ≤ 4096 }
    requires dims { length (dimensions (program_of checked.now) p) ≤ 128 }
    requires calls { CallsAreSmall (procedure_at (program_of checked.now) p).body }
    requires small { IsSmall builder.old.points builder.old.parts }
    requires some { HasFew p builder.old.parts }
    ensures proc { IfOk result (λ q. q ≡ proc_of builder.old.points (procedure_at (program_of checked.now) p)) }
    ensures adds { IfOk result (λ _. AddsProcedure procs.now (procedure_at (program_of checked.now) p) builder.old builder.new) }
    ensures small { IfOk result (λ _. IsSmall builder.new.points builder.new.parts) }
    ensures some { IfOk result (λ _. HasFew (p + 1) builder.new.parts) }
{
    let tree = checked.tree();
    let routine = routine_at(tree, p);
    let names = checked.names(alloc, p)?;
    let dims = Dimensions::of(alloc, checked, &names, p)?;
    let entry = builder.points();
    builder.begin();
    emit_start(builder, &dims, &names)?;
    let scope = Scope {
        source: Source { tree, names: &dims },
        procs,
    };
    emit_block(&scope, builder, routine.body)?;
    Ok(Proc {
        inputs: decl_count(tree, routine.inputs),
        outputs: decl_count(tree, routine.outputs),
        dims: checked.dims(p),
        entry,
        exit: builder.points() - 1,
    })
}

/// Keeps a procedure.
fn push_proc(procs: &mut Vec<Proc>, proc: Proc) -> Result<(), NoMemory>
    ensures { IfOk result (λ _. procs.new.items ≡ procs.old.items ++ proc ∷ []) }
{
    match procs.push(proc) {
        Ok(()) => Ok(()),
        Err(_) => Err(NoMemory),
    }
}

/// Keeps the owner of a point.
fn push_owner(owners: &mut Vec<u32>, owner: u32) -> Result<(), NoMemory>
    ensures { IfOk result (λ _. owners.new.items ≡ owners.old.items ++ owner ∷ []) }
{
    match owners.push(owner) {
        Ok(()) => Ok(()),
        Err(_) => Err(NoMemory),
    }
}

/// Keeps the owner of so many points.
fn push_owners(owners: &mut Vec<u32>, owner: u32, count: u32) -> Result<(), NoMemory>
    ensures { IfOk result (λ _. owners.new.items ≡ owners.old.items ++ replicate count owner) }
{
    for i in 0..count {
        push_owner(owners, owner)?;
    }
    Ok(())
}

/// The core of a program, and its fails in the order of the text. It's an error only where an allocation is refused: no list
/// of a core has a limit that a checked program reaches.
pub fn core_of(alloc: Global, checked: &Checked) -> Result<Built, NoMemory>
    ensures graph { IfOk result (λ b. graph_of b.core ≡ core_in (program_of checked.now)) }
    ensures fails { IfOk result (λ b. b.fails.items ≡ fails_of (program_of checked.now)) }
{
    law_numbers();
    let tree = checked.tree();
    let names = procedure_names(alloc, tree)?;
    let mut builder = Builder::new(alloc)?;
    let mut procs = Vec::new(alloc);
    let mut owners = Vec::new(alloc);
    for p in 0..tree.proc_count() + 1 {
        let before = builder.points();
        let proc = emit_procedure(alloc, &*checked, &names, &mut builder, p)?;
        push_proc(&mut procs, proc)?;
        push_owners(&mut owners, p, builder.points() - before)?;
    }
    Ok(builder.finish(procs, owners))
}
