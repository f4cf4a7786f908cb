//! The nodes of a tree, as what their numbers stand for. None of these calls takes memory.

ghost use Rattle.std.specs.Prelude.{◌≡◌, ◌<◌, ◌≤◌, ◌^◌, length, slice_index_or};
ghost use Rattle.spl_tree.specs.Program.{Named, Declared, ProcMeaning};
ghost use Rattle.spl_tree.specs.Facts.{ExprFits, StmtFits, DeclFits, ProcFits, ProcIsPlaced, HasDecls, HasNames, HasBlock};
ghost use Rattle.spl_tree.specs.Laws.{procs_in};
ghost use Rattle.spl_tree.specs.Meaning.{name_of, names_in, exprs_in, named_in, decls_in, stmts_in, ground_in, expr_at, expr_over, stmt_at, stmt_over, declared_of, decls_over, names_over, span_of, proc_over};

use crate::laws::law_tree;
use spl_tree::{
    Block, Decl, DeclAt, DeclList, Expr, ExprId, NameId, NameList, ProcAt, ProcTree, Stmt, StmtAt,
    StmtId, Tree,
};

/// The bytes of a name.
pub fn name<'t>(tree: &'t Tree, n: NameId) -> &'t [u8]
    requires { n.0 < length tree.now.names }
    ensures { result.now ≡ name_of (names_in tree.now) n }
{
    law_tree(tree);
    tree.name_bytes(n)
}

/// A procedure, with its places.
pub fn proc_node(tree: &Tree, p: u32) -> (ProcTree, ProcAt)
    requires { p < length tree.now.procs }
    ensures stands { (d : ProcMeaning) → slice_index_or (procs_in tree.now) p d ≡ proc_over (names_in tree.now) (decls_in tree.now) tree.now.stmt_items (stmts_in tree.now) result.0 result.1 }
    ensures fits { ProcFits tree.now result.0 }
    ensures placed { ProcIsPlaced result.1 }
{
    law_tree(tree);
    (tree.proc_tree(p), tree.proc_place(p))
}

/// The name of a procedure.
pub fn proc_name<'t>(tree: &'t Tree, p: u32) -> &'t [u8]
    requires { p < length tree.now.procs }
    ensures { (d : ProcMeaning) → result.now ≡ (slice_index_or (procs_in tree.now) p d).name.name }
{
    let (proc, _) = proc_node(tree, p);
    name(tree, proc.name)
}

/// An expression, with its place.
pub fn expr_node(tree: &Tree, e: ExprId) -> (Expr, usize)
    requires { e.0 < length tree.now.exprs }
    ensures stands { expr_at (exprs_in tree.now) e ≡ expr_over (names_in tree.now) (exprs_in tree.now) result.0 result.1 }
    ensures found { result.0 ≡ slice_index_or tree.now.exprs e.0 result.0 }
    ensures fits { ExprFits tree.now e.0 result.0 }
{
    law_tree(tree);
    (tree.expr(e), tree.expr_place(e))
}

/// A statement, with its places.
pub fn stmt_node(tree: &Tree, s: StmtId) -> (Stmt, StmtAt)
    requires { s.0 < length tree.now.stmts }
    ensures stands { stmt_at (stmts_in tree.now) s ≡ stmt_over (ground_in tree.now) (stmts_in tree.now) result.0 result.1 }
    ensures fits { StmtFits tree.now s.0 result.0 }
{
    law_tree(tree);
    (tree.stmt(s), tree.stmt_place(s))
}

/// How many declarations a list has.
pub fn decl_count(tree: &Tree, list: DeclList) -> u32
    requires { HasDecls tree.now list }
    ensures count { result ≡ length (decls_over (decls_in tree.now) list) }
    ensures small { result ≤ 2 ^ 20 }
{
    law_tree(tree);
    list.count
}

/// A declaration of a list, with its places.
pub fn decl_node(tree: &Tree, list: DeclList, i: u32) -> (Decl, DeclAt)
    requires has { HasDecls tree.now list }
    requires within { i < length (decls_over (decls_in tree.now) list) }
    ensures stands { (d : Declared) → slice_index_or (decls_over (decls_in tree.now) list) i d ≡ declared_of (names_in tree.now) result.0 result.1 }
    ensures fits { DeclFits tree.now result.0 }
{
    law_tree(tree);
    let k = list.first + i;
    (tree.decl(k), tree.decl_place(k))
}

/// How many names a list of a call has.
pub fn name_count(tree: &Tree, list: NameList) -> u32
    requires { HasNames tree.now list }
    ensures { result ≡ length (names_over (named_in tree.now) list) }
{
    law_tree(tree);
    list.count
}

/// A name in a list of a call, with its place.
pub fn name_node(tree: &Tree, list: NameList, i: u32) -> (NameId, usize)
    requires has { HasNames tree.now list }
    requires within { i < length (names_over (named_in tree.now) list) }
    ensures stands { (d : Named) → slice_index_or (names_over (named_in tree.now) list) i d ≡ record { name = name_of (names_in tree.now) result.0; at = result.1 } }
    ensures fits { (result.0).0 < length tree.now.names }
{
    law_tree(tree);
    let k = list.first + i;
    (tree.name_item(k), tree.name_item_place(k))
}

/// How many statements a block has.
pub fn stmt_count(tree: &Tree, block: Block) -> u32
    requires { HasBlock tree.now (length tree.now.stmts) block }
    ensures { result ≡ length (span_of tree.now.stmt_items block.first block.count) }
{
    law_tree(tree);
    block.count
}

/// A statement of a block.
pub fn stmt_of(tree: &Tree, block: Block, i: u32) -> StmtId
    requires has { HasBlock tree.now (length tree.now.stmts) block }
    requires within { i < length (span_of tree.now.stmt_items block.first block.count) }
    ensures stands { (d : StmtId) → slice_index_or (span_of tree.now.stmt_items block.first block.count) i d ≡ result }
    ensures there { result.0 < length tree.now.stmts }
{
    law_tree(tree);
    tree.stmt_item(block.first + i)
}
