//! Short texts, each appended to the text so far: numbers, names, and lists with commas.
ghost use Rattle.std.specs.Prelude.{◌≡◌, ◌++◌, decimal, replicate, OnOk};
ghost use Rattle.spl_tree.specs.Facts.{HasName, HasNames, HasDecls, HasKind, DeclFits};
ghost use Rattle.spl_tree.specs.Meaning.{name_of, names_in, named_in, names_over, decls_in, decls_over, declared_of, kind_of};
ghost use Rattle.spl_print.specs.Canonical.{listed, names_text, kind_text, decl_text, decls_text, targets_text};
ghost use Rattle.spl_tree.specs.declared.parts.DeclAt.{DeclAt};

use crate::laws::law_tree;
use itoa::Buffer;
use spl_tree::{Decl, DeclKind, DeclList, NameId, NameList, Tree};
use std::alloc::AllocError;

/// Appends a number in decimal.
pub fn put_number(out: &mut Vec<u8>, number: u64) -> Result<(), AllocError>
    ensures { OnOk result (out.new.items ≡ out.old.items ++ decimal number) }
{
    let mut digits = Buffer::new();
    out.extend_from_slice(digits.format(number).as_bytes())
}

/// Appends as many blanks.
pub fn put_blanks(out: &mut Vec<u8>, count: usize) -> Result<(), AllocError>
    ensures { OnOk result (out.new.items ≡ out.old.items ++ replicate count 32) }
{
    for _ in 0..count {
        out.push(b' ')?;
    }
    Ok(())
}

/// Appends the bytes of a name.
pub fn put_name(out: &mut Vec<u8>, tree: &Tree, name: NameId) -> Result<(), AllocError>
    requires { HasName tree.now name }
    ensures { OnOk result (out.new.items ≡ out.old.items ++ name_of (names_in tree.now) name) }
{
    law_tree(tree);
    out.extend_from_slice(tree.name_bytes(name))
}

/// Appends the names of a list, with commas between them.
pub fn put_names(out: &mut Vec<u8>, tree: &Tree, list: NameList) -> Result<(), AllocError>
    requires { HasNames tree.now list }
    ensures { OnOk result (out.new.items ≡ out.old.items ++ listed (names_text (names_over (named_in tree.now) list))) }
{
    law_tree(tree);
    if list.count == 0 {
        return Ok(());
    }
    put_name(out, tree, tree.name_item(list.first))?;
    for k in 1..list.count {
        out.extend_from_slice(b", ")?;
        put_name(out, tree, tree.name_item(list.first + k))?;
    }
    Ok(())
}

/// Appends the targets of a call: one alone as it is, others in parentheses.
pub fn put_targets(out: &mut Vec<u8>, tree: &Tree, targets: NameList) -> Result<(), AllocError>
    requires { HasNames tree.now targets }
    ensures { OnOk result (out.new.items ≡ out.old.items ++ targets_text (names_text (names_over (named_in tree.now) targets))) }
{
    law_tree(tree);
    if targets.count == 1 {
        put_names(out, tree, targets)?;
        return Ok(());
    }
    out.extend_from_slice(b"(")?;
    put_names(out, tree, targets)?;
    out.extend_from_slice(b")")?;
    Ok(())
}

/// Appends the type of a declaration.
fn put_kind(out: &mut Vec<u8>, tree: &Tree, kind: DeclKind) -> Result<(), AllocError>
    requires { HasKind tree.now kind }
    ensures { OnOk result (out.new.items ≡ out.old.items ++ kind_text (kind_of (names_in tree.now) kind)) }
{
    match kind {
        DeclKind::Int => out.extend_from_slice(b"int"),
        DeclKind::Real => out.extend_from_slice(b"real"),
        DeclKind::Named(name) => put_name(out, tree, name),
    }
}

/// Appends a declaration.
fn put_decl(out: &mut Vec<u8>, tree: &Tree, decl: Decl) -> Result<(), AllocError>
    requires { DeclFits tree.now decl }
    ensures { OnOk result ((at : DeclAt) → out.new.items ≡ out.old.items ++ decl_text (declared_of (names_in tree.now) decl at)) }
{
    put_name(out, tree, decl.name)?;
    out.extend_from_slice(b":")?;
    put_kind(out, tree, decl.kind)?;
    Ok(())
}

/// Appends the declarations of a list, with commas between them.
pub fn put_decls(out: &mut Vec<u8>, tree: &Tree, list: DeclList) -> Result<(), AllocError>
    requires { HasDecls tree.now list }
    ensures { OnOk result (out.new.items ≡ out.old.items ++ decls_text (decls_over (decls_in tree.now) list)) }
{
    law_tree(tree);
    if list.count == 0 {
        return Ok(());
    }
    put_decl(out, tree, tree.decl(list.first))?;
    for k in 1..list.count {
        out.extend_from_slice(b", ")?;
        put_decl(out, tree, tree.decl(list.first + k))?;
    }
    Ok(())
}
