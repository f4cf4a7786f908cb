//! The names of a procedure's dimensions.

ghost use Rattle.std.specs.Prelude.{◌≡◌, ◌<◌, ◌++◌, ◌∷◌, ◌≤◌, ℕ, List, [], codes, filter, length, map, slice_index_or, OnOk, if◌then◌else◌};
ghost use Rattle.spl_tree.specs.Facts.{HasDecls};
ghost use Rattle.spl_tree.specs.Meaning.{decls_in, decls_over};
ghost use Rattle.spl_types.specs.Checks.{is_among, declared_names, most_dimensions};
ghost use Rattle.spl_types.specs.Dimensions.{input_name};
ghost use Rattle.spl_types.specs.Naming.{texts};

use crate::nodes::{decl_count, decl_node, name};
use memory::NoMemory;
use spl_tree::{DeclList, Tree};
use std::alloc::Global;
use std::marker::Model;

/// The names of a procedure's dimensions, in their order.
#[derive(Drop)]
pub struct Names {
    names: Vec<Vec<u8>>,
}

impl Model for Names {
    ghost use Rattle.std.specs.Prelude.{◌≤◌, ℕ, List, map, vec_len};
    ghost use Rattle.spl_types.specs.Checks.{most_dimensions};

    ghost Value = { List (List ℕ) };

    ghost view = { λ n. map (λ name. name.items) n.names.items };

    ghost invariant = { λ n. vec_len n.names ≤ most_dimensions };
}

impl Names {
    /// These names, of which there are at most 128.
    pub(crate) fn of(names: Vec<Vec<u8>>) -> Names
        requires { length names.items ≤ most_dimensions }
        ensures { result ≡ texts names.items }
    {
        Names { names }
    }

    /// How many names there are.
    pub fn len(&self) -> u32
        ensures { result ≡ length self.now }
    {
        self.names.len() as u32
    }

    /// The name of a dimension.
    pub fn name(&self, v: u32) -> &[u8]
        requires { v < length self.now }
        ensures { result.now ≡ slice_index_or self.now v [] }
    {
        &self.names[v as usize]
    }
}

/// Adds the names of inputs: an input that is a target has its name with `@`.
pub fn add_inputs(
    alloc: Global,
    tree: &Tree,
    list: DeclList,
    assigned: &[bool],
    names: &mut Vec<Vec<u8>>,
) -> Result<(), NoMemory>
    requires has { HasDecls tree.now list }
    requires flags { length assigned.now ≡ length (decls_over (decls_in tree.now) list) }
    ensures { (targets : List (List ℕ)) → assigned.now ≡ map (λ x. is_among x targets) (declared_names (decls_over (decls_in tree.now) list))
        → OnOk result (texts names.new.items ≡ texts names.old.items ++ map (input_name targets) (declared_names (decls_over (decls_in tree.now) list))) }
{
    for i in 0..decl_count(tree, list) {
        let (decl, _) = decl_node(tree, list, i);
        add_input(alloc, names, name(tree, decl.name), assigned[i as usize])?;
    }
    Ok(())
}

/// Adds the names of declarations.
pub fn add_all(
    alloc: Global,
    tree: &Tree,
    list: DeclList,
    names: &mut Vec<Vec<u8>>,
) -> Result<(), NoMemory>
    requires { HasDecls tree.now list }
    ensures { OnOk result (texts names.new.items ≡ texts names.old.items ++ declared_names (decls_over (decls_in tree.now) list)) }
{
    for i in 0..decl_count(tree, list) {
        let (decl, _) = decl_node(tree, list, i);
        add(alloc, names, name(tree, decl.name))?;
    }
    Ok(())
}

/// Adds the names of the inputs that are targets, for their working copies.
pub fn add_copies(
    alloc: Global,
    tree: &Tree,
    list: DeclList,
    assigned: &[bool],
    names: &mut Vec<Vec<u8>>,
) -> Result<(), NoMemory>
    requires has { HasDecls tree.now list }
    requires flags { length assigned.now ≡ length (decls_over (decls_in tree.now) list) }
    ensures { (targets : List (List ℕ)) → assigned.now ≡ map (λ x. is_among x targets) (declared_names (decls_over (decls_in tree.now) list))
        → OnOk result (texts names.new.items ≡ texts names.old.items ++ filter (λ x. is_among x targets) (declared_names (decls_over (decls_in tree.now) list))) }
{
    for i in 0..decl_count(tree, list) {
        let (decl, _) = decl_node(tree, list, i);
        add_copy(alloc, names, name(tree, decl.name), assigned[i as usize])?;
    }
    Ok(())
}

/// Adds a name.
fn add(alloc: Global, names: &mut Vec<Vec<u8>>, bytes: &[u8]) -> Result<(), NoMemory>
    ensures { OnOk result (texts names.new.items ≡ texts names.old.items ++ bytes.now ∷ []) }
{
    let copy = Vec::from_slice(alloc, bytes)?;
    names.push(copy)?;
    Ok(())
}

/// Adds the name of an input, with `@` if it's a target.
fn add_input(
    alloc: Global,
    names: &mut Vec<Vec<u8>>,
    bytes: &[u8],
    assigned: bool,
) -> Result<(), NoMemory>
    ensures { OnOk result (texts names.new.items ≡ texts names.old.items ++ (if assigned then bytes.now ++ codes "@" else bytes.now) ∷ []) }
{
    let mut copy = Vec::from_slice(alloc, bytes)?;
    if assigned {
        copy.push(b'@')?;
    }
    names.push(copy)?;
    Ok(())
}

/// Adds the name of an input, if it's a target.
fn add_copy(
    alloc: Global,
    names: &mut Vec<Vec<u8>>,
    bytes: &[u8],
    assigned: bool,
) -> Result<(), NoMemory>
    ensures { OnOk result (texts names.new.items ≡ texts names.old.items ++ (if assigned then bytes.now ∷ [] else [])) }
{
    if !assigned {
        return Ok(());
    }
    add(alloc, names, bytes)?;
    Ok(())
}
