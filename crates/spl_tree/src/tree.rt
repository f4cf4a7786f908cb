//! A tree: the parts, with what they keep, read by number.

ghost use Rattle.std.specs.Prelude.{◌≡◌, ◌<◌, length, slice_index_or};
ghost use Rattle.spl_tree.specs.Lists.{lists_of};
ghost use Rattle.spl_tree.specs.Facts.{IsTree};
ghost use Rattle.spl_tree.specs.Meaning.{span_of};

use crate::parts::{
    Decl, DeclAt, Expr, ExprId, MainTree, NameId, NameSpan, ProcAt, ProcTree, Stmt, StmtAt, StmtId,
    TreeParts,
};
use std::marker::Model;

/// A program as a tree. No call of it takes memory.
#[derive(Drop)]
pub struct Tree {
    parts: TreeParts,
}

impl Model for Tree {
    ghost use Rattle.spl_tree.specs.Lists.{Lists, lists_of};
    ghost use Rattle.spl_tree.specs.Facts.{IsTree};

    ghost Value = { Lists };

    ghost view = { λ t. lists_of t.parts };

    ghost invariant = { λ t. IsTree (lists_of t.parts) };
}

impl Tree {
    /// The tree of these parts.
    pub fn from_parts(parts: TreeParts) -> Tree
        requires { IsTree (lists_of parts) }
        ensures { result ≡ lists_of parts }
    {
        Tree { parts }
    }

    /// The number of letters of all names.
    pub fn letter_count(&self) -> u32
        ensures count { result ≡ length self.now.letters }
        ensures known { IsTree self.now }
    {
        self.parts.letters.len() as u32
    }

    /// The letter with this number.
    pub fn letter(&self, k: u32) -> u8
        requires { k < length self.now.letters }
        ensures found { result ≡ slice_index_or self.now.letters k result }
        ensures known { IsTree self.now }
    {
        self.parts.letters[k as usize]
    }

    /// The number of names.
    pub fn name_count(&self) -> u32
        ensures count { result ≡ length self.now.names }
        ensures known { IsTree self.now }
    {
        self.parts.names.len() as u32
    }

    /// The span of a name's letters.
    pub fn name_span(&self, n: NameId) -> NameSpan
        requires { n.0 < length self.now.names }
        ensures found { result ≡ slice_index_or self.now.names n.0 result }
        ensures known { IsTree self.now }
    {
        self.parts.names[n.0 as usize]
    }

    /// The bytes of a name.
    pub fn name_bytes(&self, n: NameId) -> &[u8]
        requires { n.0 < length self.now.names }
        ensures found { result.now ≡ (let s = slice_index_or self.now.names n.0 (record { first = 0; count = 0 }) in span_of self.now.letters s.first s.count) }
        ensures known { IsTree self.now }
    {
        let span = self.parts.names[n.0 as usize];
        let first = span.first as usize;
        &self.parts.letters[first..first + span.count as usize]
    }

    /// The number of declarations.
    pub fn decl_count(&self) -> u32
        ensures count { result ≡ length self.now.decls }
        ensures known { IsTree self.now }
    {
        self.parts.decls.len() as u32
    }

    /// The declaration with this number.
    pub fn decl(&self, k: u32) -> Decl
        requires { k < length self.now.decls }
        ensures found { result ≡ slice_index_or self.now.decls k result }
        ensures known { IsTree self.now }
    {
        self.parts.decls[k as usize]
    }

    /// Where the declaration with this number stands.
    pub fn decl_place(&self, k: u32) -> DeclAt
        requires { k < length self.now.decls }
        ensures found { result ≡ slice_index_or self.now.decl_places k result }
        ensures known { IsTree self.now }
    {
        self.parts.decl_places[k as usize]
    }

    /// The number of procedures besides main.
    pub fn proc_count(&self) -> u32
        ensures count { result ≡ length self.now.procs }
        ensures known { IsTree self.now }
    {
        self.parts.procs.len() as u32
    }

    /// The procedure with this number, in the order of the text.
    pub fn proc_tree(&self, p: u32) -> ProcTree
        requires { p < length self.now.procs }
        ensures found { result ≡ slice_index_or self.now.procs p result }
        ensures known { IsTree self.now }
    {
        self.parts.procs[p as usize]
    }

    /// Where the procedure with this number stands.
    pub fn proc_place(&self, p: u32) -> ProcAt
        requires { p < length self.now.procs }
        ensures found { result ≡ slice_index_or self.now.proc_places p result }
        ensures known { IsTree self.now }
    {
        self.parts.proc_places[p as usize]
    }

    /// The number of expressions.
    pub fn expr_count(&self) -> u32
        ensures count { result ≡ length self.now.exprs }
        ensures known { IsTree self.now }
    {
        self.parts.exprs.len() as u32
    }

    /// The expression with this number.
    pub fn expr(&self, e: ExprId) -> Expr
        requires { e.0 < length self.now.exprs }
        ensures found { result ≡ slice_index_or self.now.exprs e.0 result }
        ensures known { IsTree self.now }
    {
        self.parts.exprs[e.0 as usize]
    }

    /// The place of an expression: its operator where it is binary, else its first token, parentheses not counted.
    pub fn expr_place(&self, e: ExprId) -> usize
        requires { e.0 < length self.now.exprs }
        ensures found { result ≡ slice_index_or self.now.expr_places e.0 result }
        ensures known { IsTree self.now }
    {
        self.parts.expr_places[e.0 as usize]
    }

    /// The number of statements.
    pub fn stmt_count(&self) -> u32
        ensures count { result ≡ length self.now.stmts }
        ensures known { IsTree self.now }
    {
        self.parts.stmts.len() as u32
    }

    /// The statement with this number.
    pub fn stmt(&self, s: StmtId) -> Stmt
        requires { s.0 < length self.now.stmts }
        ensures found { result ≡ slice_index_or self.now.stmts s.0 result }
        ensures known { IsTree self.now }
    {
        self.parts.stmts[s.0 as usize]
    }

    /// The places of a statement.
    pub fn stmt_place(&self, s: StmtId) -> StmtAt
        requires { s.0 < length self.now.stmts }
        ensures found { result ≡ slice_index_or self.now.stmt_places s.0 result }
        ensures known { IsTree self.now }
    {
        self.parts.stmt_places[s.0 as usize]
    }

    /// The number of names in the calls' lists.
    pub fn name_item_count(&self) -> u32
        ensures count { result ≡ length self.now.name_items }
        ensures known { IsTree self.now }
    {
        self.parts.name_items.len() as u32
    }

    /// The name with this number in the calls' lists.
    pub fn name_item(&self, k: u32) -> NameId
        requires { k < length self.now.name_items }
        ensures found { result ≡ slice_index_or self.now.name_items k result }
        ensures known { IsTree self.now }
    {
        self.parts.name_items[k as usize]
    }

    /// Where the name with this number in the calls' lists starts.
    pub fn name_item_place(&self, k: u32) -> usize
        requires { k < length self.now.name_items }
        ensures found { result ≡ slice_index_or self.now.name_item_places k result }
        ensures known { IsTree self.now }
    {
        self.parts.name_item_places[k as usize]
    }

    /// The number of statements in blocks.
    pub fn stmt_item_count(&self) -> u32
        ensures count { result ≡ length self.now.stmt_items }
        ensures known { IsTree self.now }
    {
        self.parts.stmt_items.len() as u32
    }

    /// The statement with this number in the blocks.
    pub fn stmt_item(&self, k: u32) -> StmtId
        requires { k < length self.now.stmt_items }
        ensures found { result ≡ slice_index_or self.now.stmt_items k result }
        ensures known { IsTree self.now }
    {
        self.parts.stmt_items[k as usize]
    }

    /// The program's own variables and its body.
    pub fn main_tree(&self) -> MainTree
        ensures found { result ≡ self.now.main }
        ensures known { IsTree self.now }
    {
        self.parts.main
    }

    /// Where main's `begin` starts.
    pub fn main_begin(&self) -> usize
        ensures found { result ≡ self.now.main_begin }
        ensures known { IsTree self.now }
    {
        self.parts.main_begin
    }
}
