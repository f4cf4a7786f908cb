//! Declarations.

ghost use Rattle.std.specs.Prelude.{◌≡◌, ◌<◌, ◌++◌, ℕ, List, length};
ghost use Rattle.spl_tree.specs.Facts.{HasDecls};
ghost use Rattle.spl_tree.specs.Meaning.{decls_in, decls_over, kind_of};
ghost use Rattle.spl_types.specs.Checks.{decl_checks, declared_names, is_int as int_of};
ghost use Rattle.spl_types.specs.Faults.{AnswersWith};
ghost use Rattle.spl_types.specs.Tables.{NextDecl};

use crate::demands::demand;
use crate::fault::{CheckFault, CheckRule};
use crate::nodes::{decl_count, decl_node, name};
use crate::tables::NameTable;
use crate::walk::MOST_DIMENSIONS;
use spl_tree::{DeclKind, DeclList, Tree};

/// The checks of declarations, after those of these names; their names join them.
pub fn declare<'t>(
    tree: &'t Tree,
    names: &mut NameTable<'t>,
    list: DeclList,
) -> Result<(), CheckFault>
    requires { HasDecls tree.now list }
    ensures { AnswersWith result (decl_checks names.old (decls_over (decls_in tree.now) list)) (λ _. names.new ≡ names.old ++ declared_names (decls_over (decls_in tree.now) list)) }
{
    for i in 0..decl_count(tree, list) {
        next_decl(tree, names, list, i)?;
    }
    Ok(())
}

/// The checks of a declaration.
fn next_decl<'t>(
    tree: &'t Tree,
    names: &mut NameTable<'t>,
    list: DeclList,
    i: u32,
) -> Result<(), CheckFault>
    requires has { HasDecls tree.now list }
    requires within { i < length (decls_over (decls_in tree.now) list) }
    ensures { NextDecl names.old names.new (decls_over (decls_in tree.now) list) i result }
{
    let (decl, at) = decl_node(tree, list, i);
    let room = names.len() < MOST_DIMENSIONS as usize;
    demand(room, CheckRule::TooManyVariables, at.name)?;
    let fresh = match names.add(name(tree, decl.name)) {
        Ok(fresh) => fresh,
        Err(_) => return Err(CheckFault::NoMemory),
    };
    demand(fresh, CheckRule::DuplicateName, at.name)?;
    demand(is_int(decl.kind), CheckRule::UnsupportedType, at.kind)
}

/// Whether a declared type is `int`.
fn is_int(kind: DeclKind) -> bool
    ensures { (names : List (List ℕ)) → result ≡ int_of (kind_of names kind) }
{
    matches!(kind, DeclKind::Int)
}
