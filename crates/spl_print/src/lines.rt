//! Lines of the program, each appended with its indent and its end.
ghost use Rattle.std.specs.Prelude.{◌≡◌, ◌++◌, ◌<◌, length, codes, List, ℕ, OnOk};
ghost use Rattle.spl_tree.specs.Facts.{HasName, HasNames, HasDecls, ProcFits};
ghost use Rattle.spl_tree.specs.Meaning.{name_of, names_in, named_in, names_over, exprs_in, expr_at, decls_in, decls_over};
ghost use Rattle.spl_print.specs.Canonical.{expr_text, listed, names_text, targets_text, decls_text, locals_lines, indented, written};

use crate::expression::put_expr;
use crate::laws::law_tree;
use crate::text::{put_blanks, put_decls, put_name, put_names, put_targets};
use spl_tree::{DeclList, ExprId, NameId, NameList, ProcTree, Tree};
use std::alloc::{AllocError, Global};

/// Appends a line of this text.
pub fn put_line(out: &mut Vec<u8>, indent: usize, text: &[u8]) -> Result<(), AllocError>
    ensures { OnOk result (out.new.items ≡ out.old.items ++ indented indent text.now) }
{
    put_blanks(out, indent)?;
    out.extend_from_slice(text)?;
    out.extend_from_slice(b"\n")?;
    Ok(())
}

/// Appends a line with an expression between two texts.
pub fn put_expr_line(
    out: &mut Vec<u8>,
    alloc: Global,
    tree: &Tree,
    indent: usize,
    before: &[u8],
    expr: ExprId,
    after: &[u8],
) -> Result<(), AllocError>
    requires { expr.0 < length tree.now.exprs }
    ensures { OnOk result (out.new.items ≡ out.old.items ++ indented indent (before.now ++ (expr_text (expr_at (exprs_in tree.now) expr) ++ after.now))) }
{
    put_blanks(out, indent)?;
    out.extend_from_slice(before)?;
    put_expr(out, alloc, tree, expr)?;
    out.extend_from_slice(after)?;
    out.extend_from_slice(b"\n")?;
    Ok(())
}

/// Appends the line of an assignment.
pub fn put_assign_line(
    out: &mut Vec<u8>,
    alloc: Global,
    tree: &Tree,
    indent: usize,
    target: NameId,
    expr: ExprId,
) -> Result<(), AllocError>
    requires target { HasName tree.now target }
    requires expr { expr.0 < length tree.now.exprs }
    ensures { OnOk result (out.new.items ≡ out.old.items ++ indented indent (name_of (names_in tree.now) target ++ (codes " = " ++ (expr_text (expr_at (exprs_in tree.now) expr) ++ codes ";")))) }
{
    put_blanks(out, indent)?;
    put_name(out, tree, target)?;
    out.extend_from_slice(b" = ")?;
    put_expr(out, alloc, tree, expr)?;
    out.extend_from_slice(b";\n")?;
    Ok(())
}

/// Appends the line of a call.
pub fn put_call_line(
    out: &mut Vec<u8>,
    tree: &Tree,
    indent: usize,
    targets: NameList,
    called: NameId,
    args: NameList,
) -> Result<(), AllocError>
    requires targets { HasNames tree.now targets }
    requires called { HasName tree.now called }
    requires args { HasNames tree.now args }
    ensures { OnOk result (out.new.items ≡ out.old.items ++ indented indent (targets_text (names_text (names_over (named_in tree.now) targets)) ++ (codes " = " ++ (name_of (names_in tree.now) called ++ (codes "(" ++ (listed (names_text (names_over (named_in tree.now) args)) ++ codes ");")))))) }
{
    put_blanks(out, indent)?;
    put_targets(out, tree, targets)?;
    out.extend_from_slice(b" = ")?;
    put_name(out, tree, called)?;
    out.extend_from_slice(b"(")?;
    put_names(out, tree, args)?;
    out.extend_from_slice(b");\n")?;
    Ok(())
}

/// Appends the first line of a procedure.
pub fn put_heading(out: &mut Vec<u8>, tree: &Tree, proc: ProcTree) -> Result<(), AllocError>
    requires { ProcFits tree.now proc }
    ensures { OnOk result (out.new.items ≡ out.old.items ++ indented 0 (codes "proc " ++ (name_of (names_in tree.now) proc.name ++ (codes "(" ++ (decls_text (decls_over (decls_in tree.now) proc.inputs) ++ (codes ") returns (" ++ (decls_text (decls_over (decls_in tree.now) proc.outputs) ++ codes ")"))))))) }
{
    out.extend_from_slice(b"proc ")?;
    put_name(out, tree, proc.name)?;
    out.extend_from_slice(b"(")?;
    put_decls(out, tree, proc.inputs)?;
    out.extend_from_slice(b") returns (")?;
    put_decls(out, tree, proc.outputs)?;
    out.extend_from_slice(b")\n")?;
    Ok(())
}

/// Appends the line of local variables, where there are any.
pub fn put_locals(out: &mut Vec<u8>, tree: &Tree, locals: DeclList) -> Result<(), AllocError>
    requires { HasDecls tree.now locals }
    ensures { OnOk result ((bytes : List ℕ) (notes : List (List ℕ)) → out.new.items ≡ out.old.items ++ written bytes notes (locals_lines (decls_over (decls_in tree.now) locals))) }
{
    law_tree(tree);
    if locals.count == 0 {
        return Ok(());
    }
    out.extend_from_slice(b"var ")?;
    put_decls(out, tree, locals)?;
    out.extend_from_slice(b";\n")?;
    Ok(())
}
