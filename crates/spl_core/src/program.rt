//! A core: procedures, points and edges, with the expressions and conditions on them.

ghost use Rattle.std.specs.Prelude.{◌≡◌, ◌+◌, ◌<◌, ◌≤◌, length, slice_index_or};
ghost use Rattle.spl_core.specs.Parts.{parts_of, proc_at, edge_at, owner_of};
ghost use Rattle.spl_core.specs.Facts.{IsCore};

use crate::parts::{CoreCond, CoreExpr, CoreParts, Edge, Proc, Span};
use std::marker::Model;

/// A program for the analysis: for each procedure its points, and edges between them that say what is done. No call of it
/// takes memory.
#[derive(Drop)]
pub struct Core {
    parts: CoreParts,
}

impl Model for Core {
    ghost use Rattle.spl_core.specs.Parts.{Parts, parts_of};
    ghost use Rattle.spl_core.specs.Facts.{IsCore};

    ghost Value = { Parts };

    ghost view = { λ c. parts_of c.parts };

    ghost invariant = { λ c. IsCore (parts_of c.parts) };
}

impl Core {
    /// The core of these parts.
    pub fn from_parts(parts: CoreParts) -> Core
        requires { IsCore (parts_of parts) }
        ensures { result ≡ parts_of parts }
    {
        Core { parts }
    }

    /// The number of points, at most 4096.
    pub fn points(&self) -> u32
        ensures count { result ≡ length self.now.owners }
        ensures known { IsCore self.now }
    {
        self.parts.owners.len() as u32
    }

    /// The number of procedures, main included, at most 257.
    pub fn procs(&self) -> u32
        ensures count { result ≡ length self.now.procs }
        ensures known { IsCore self.now }
    {
        self.parts.procs.len() as u32
    }

    /// The procedure with this number; main is the last one.
    pub fn proc_at(&self, p: u32) -> Proc
        requires { p < length self.now.procs }
        ensures found { result ≡ proc_at self.now p }
        ensures known { IsCore self.now }
    {
        self.parts.procs[p as usize]
    }

    /// The procedure that a point belongs to.
    pub fn owner(&self, point: u32) -> u32
        requires { point < length self.now.owners }
        ensures found { result ≡ owner_of self.now point }
        ensures known { IsCore self.now }
    {
        self.parts.owners[point as usize]
    }

    /// The number of edges.
    pub fn edge_count(&self) -> u32
        ensures count { result ≡ length self.now.edges }
        ensures known { IsCore self.now }
    {
        self.parts.edges.len() as u32
    }

    /// The edge with this number.
    pub fn edge_at(&self, e: u32) -> Edge
        requires { e < length self.now.edges }
        ensures found { result ≡ edge_at self.now e }
        ensures known { IsCore self.now }
    {
        self.parts.edges[e as usize]
    }

    /// The dimension with this number in a span of the core.
    pub fn span_item(&self, s: Span, k: u32) -> u32
        requires span { s.first + s.count ≤ length self.now.dims }
        requires within { k < s.count }
        ensures found { result ≡ slice_index_or self.now.dims (s.first + k) 0 }
        ensures known { IsCore self.now }
    {
        self.parts.dims[(s.first + k) as usize]
    }

    /// The expression with this number.
    pub fn expr_at(&self, e: u32) -> CoreExpr
        requires { e < length self.now.exprs }
        ensures found { result ≡ slice_index_or self.now.exprs e result }
        ensures known { IsCore self.now }
    {
        self.parts.exprs[e as usize]
    }

    /// The condition with this number.
    pub fn cond_at(&self, c: u32) -> CoreCond
        requires { c < length self.now.conds }
        ensures found { result ≡ slice_index_or self.now.conds c result }
        ensures known { IsCore self.now }
    {
        self.parts.conds[c as usize]
    }
}
