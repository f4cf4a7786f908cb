//! The parts of a tree as they grow: each call adds one item, and everything that was there keeps its meaning.

ghost use Rattle.std.specs.Prelude.{◌≡◌, ◌+◌, ◌*◌, ◌^◌, ◌<◌, ◌≤◌, ◌++◌, ◌∷◌, [], length, IfOk};
ghost use Rattle.spl_tree.specs.Lists.{lists_of};
ghost use Rattle.spl_tree.specs.Facts.{IsTree, IsPlace, DeclIsPlaced, StmtIsPlaced, ProcIsPlaced};
ghost use Rattle.spl_tree.specs.Meaning.{expr_over, name_of, declared_of, stmt_over, proc_over};
ghost use Rattle.spl_parser.specs.Growth.{grown, ground_of, ExprIn, NameIn, DeclIn, StmtIn, ProcIn, IdsIn, Grew};

use spl_tree::{
    Block, Decl, DeclAt, Expr, ExprId, NameId, NameSpan, ProcAt, ProcTree, Stmt, StmtAt, StmtId,
    TreeParts,
};
use std::alloc::AllocError;

/// Adds the name of these bytes.
pub fn add_name(parts: &mut TreeParts, bytes: &[u8]) -> Result<NameId, AllocError>
    requires tree { IsTree (lists_of parts.old) }
    requires letters { (grown (lists_of parts.old)).letters + length bytes.now ≤ 2 ^ 20 }
    requires few { length (grown (lists_of parts.old)).names < 2 ^ 20 }
    ensures number { IfOk result (λ n. n.0 ≡ length (grown (lists_of parts.old)).names) }
    ensures grew { IfOk result (λ n. let r = grown (lists_of parts.old) in
        Grew (lists_of parts.new) (record r { letters = r.letters + length bytes.now; names = r.names ++ bytes.now ∷ [] })) }
{
    let first = parts.letters.len() as u32;
    let number = parts.names.len() as u32;
    parts.letters.extend_from_slice(bytes)?;
    let span = NameSpan {
        first,
        count: bytes.len() as u32,
    };
    parts.names.push(span)?;
    Ok(NameId(number))
}

/// Adds an expression over those that are there, at its place.
pub fn add_expr(parts: &mut TreeParts, expr: Expr, place: usize) -> Result<ExprId, AllocError>
    requires tree { IsTree (lists_of parts.old) }
    requires few { length (grown (lists_of parts.old)).exprs < 2 ^ 20 }
    requires placed { IsPlace place }
    requires fits { ExprIn (grown (lists_of parts.old)) expr }
    ensures number { IfOk result (λ e. e.0 ≡ length (grown (lists_of parts.old)).exprs) }
    ensures grew { IfOk result (λ e. let r = grown (lists_of parts.old) in
        Grew (lists_of parts.new) (record r { exprs = r.exprs ++ expr_over r.names r.exprs expr place ∷ [] })) }
{
    let number = parts.exprs.len() as u32;
    parts.exprs.push(expr)?;
    parts.expr_places.push(place)?;
    Ok(ExprId(number))
}

/// Adds a name to the lists of calls, with where it starts, and gives its number there.
pub fn add_named(parts: &mut TreeParts, name: NameId, place: usize) -> Result<u32, AllocError>
    requires tree { IsTree (lists_of parts.old) }
    requires few { length (grown (lists_of parts.old)).named < 2 ^ 20 }
    requires placed { IsPlace place }
    requires fits { NameIn (grown (lists_of parts.old)) name }
    ensures number { IfOk result (λ n. n ≡ length (grown (lists_of parts.old)).named) }
    ensures grew { IfOk result (λ n. let r = grown (lists_of parts.old) in
        Grew (lists_of parts.new) (record r { named = r.named ++ record { name = name_of r.names name; at = place } ∷ [] })) }
{
    let number = parts.name_items.len() as u32;
    parts.name_items.push(name)?;
    parts.name_item_places.push(place)?;
    Ok(number)
}

/// Adds a declaration, with its places, and gives its number.
pub fn add_decl(parts: &mut TreeParts, decl: Decl, place: DeclAt) -> Result<u32, AllocError>
    requires tree { IsTree (lists_of parts.old) }
    requires few { length (grown (lists_of parts.old)).decls < 2 ^ 20 }
    requires placed { DeclIsPlaced place }
    requires fits { DeclIn (grown (lists_of parts.old)) decl }
    ensures number { IfOk result (λ n. n ≡ length (grown (lists_of parts.old)).decls) }
    ensures grew { IfOk result (λ n. let r = grown (lists_of parts.old) in
        Grew (lists_of parts.new) (record r { decls = r.decls ++ declared_of r.names decl place ∷ [] })) }
{
    let number = parts.decls.len() as u32;
    parts.decls.push(decl)?;
    parts.decl_places.push(place)?;
    Ok(number)
}

/// Adds a statement over what is there, with its places.
pub fn add_stmt(parts: &mut TreeParts, stmt: Stmt, place: StmtAt) -> Result<StmtId, AllocError>
    requires tree { IsTree (lists_of parts.old) }
    requires few { length (grown (lists_of parts.old)).stmts < 2 ^ 20 }
    requires placed { StmtIsPlaced place }
    requires fits { StmtIn (grown (lists_of parts.old)) stmt }
    ensures number { IfOk result (λ s. s.0 ≡ length (grown (lists_of parts.old)).stmts) }
    ensures grew { IfOk result (λ s. let r = grown (lists_of parts.old) in
        Grew (lists_of parts.new) (record r { stmts = r.stmts ++ stmt_over (ground_of r) r.stmts stmt place ∷ [] })) }
{
    let number = parts.stmts.len() as u32;
    parts.stmts.push(stmt)?;
    parts.stmt_places.push(place)?;
    Ok(StmtId(number))
}

/// Adds the statements of a block, in order.
pub fn add_block(parts: &mut TreeParts, ids: &[StmtId]) -> Result<Block, AllocError>
    requires tree { IsTree (lists_of parts.old) }
    requires few { length (grown (lists_of parts.old)).blocks + length ids.now ≤ 2 ^ 20 }
    requires there { IdsIn (length (grown (lists_of parts.old)).stmts) ids.now }
    ensures first { IfOk result (λ b. b.first ≡ length (grown (lists_of parts.old)).blocks) }
    ensures count { IfOk result (λ b. b.count ≡ length ids.now) }
    ensures grew { IfOk result (λ b. let r = grown (lists_of parts.old) in
        Grew (lists_of parts.new) (record r { blocks = r.blocks ++ ids.now })) }
{
    let first = parts.stmt_items.len() as u32;
    let count = ids.len() as u32;
    parts.stmt_items.extend_from_slice(ids)?;
    Ok(Block { first, count })
}

/// Adds a procedure over what is there, with its places.
pub fn add_proc(parts: &mut TreeParts, procedure: ProcTree, place: ProcAt) -> Result<(), AllocError>
    requires tree { IsTree (lists_of parts.old) }
    requires few { length (grown (lists_of parts.old)).procs < 2 ^ 20 }
    requires placed { ProcIsPlaced place }
    requires fits { ProcIn (grown (lists_of parts.old)) procedure }
    ensures grew { IfOk result (λ _. let r = grown (lists_of parts.old) in
        Grew (lists_of parts.new) (record r { procs = r.procs ++ proc_over r.names r.decls r.blocks r.stmts procedure place ∷ [] })) }
{
    parts.procs.push(procedure)?;
    parts.proc_places.push(place)?;
    Ok(())
}
