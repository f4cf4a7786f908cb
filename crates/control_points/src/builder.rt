//! A core that is being built: edges, fails and points, added one after the other.

ghost use Rattle.std.specs.Prelude.{◌≡◌, ◌<◌, ◌≤◌, ◌+◌, ◌-◌, ◌*◌, ◌%◌, ◌++◌, ◌∷◌, ◌^◌, [], length, drop, IfOk};
ghost use Rattle.spl_tree.specs.Facts.{HasNames};
ghost use Rattle.spl_tree.specs.Meaning.{exprs_in as trees_in, expr_at as tree_at, named_in, names_over};
ghost use Rattle.spl_core.specs.Limits.{most_items};
ghost use Rattle.spl_core.specs.Parts.{span_dims};
ghost use Rattle.spl_core.specs.Graph.{pairs_in, move_of, graph_of};
ghost use Rattle.control_points.specs.CoreOf.{arc, dimensions_in};
ghost use Rattle.control_points.specs.Nodes.{IsMade};
ghost use Rattle.spl_core.specs.GraphFacts.{IsGraph, ActionIsIn, SpanIsIn};
ghost use Rattle.control_points.specs.Building.{Adds, Lengthens, IsSmall, HasFew, CanMake, MakesMore, SameNodes, SpansStay, arcs_in};
ghost use Rattle.control_points.specs.Emitting.{copies_named};

use crate::built::{Built, Fail};
use crate::making::{Source, translate};
use crate::names::Dimensions;
use crate::nodes_made::{Made, Nodes};
use crate::window::Window;
use spl_core::{Action, Core, CoreCond, CoreExpr, CoreParts, Edge, Proc, Span, law_graph};
use spl_tree::{ExprId, NameList};
use spl_types::nodes::{name, name_count, name_node};
use spl_types::{Names, NoMemory};
use std::alloc::Global;
use std::marker::Model;

/// What is built so far. `none` is what stands for a number or a condition where there is none.
#[derive(Drop)]
pub struct Builder {
    nodes: Nodes,
    window: Window,
    none: Made,
    edges: Vec<Edge>,
    dims: Vec<u32>,
    fails: Vec<Fail>,
    points: u32,
}

impl Model for Builder {
    ghost use Rattle.control_points.specs.Building.{Building, building, IsBuilding};

    ghost Value = { Building };

    ghost view = { λ b. building b.nodes b.edges.items b.dims.items b.fails.items b.points b.window };

    ghost invariant = { λ b. IsBuilding (building b.nodes b.edges.items b.dims.items b.fails.items b.points b.window).parts b.none };
}

impl Builder {
    /// Without edges and fails, before any point.
    pub fn new(alloc: Global) -> Result<Builder, NoMemory>
        ensures edges { IfOk result (λ b. b.parts.edges ≡ []) }
        ensures dims { IfOk result (λ b. b.parts.dims ≡ []) }
        ensures fails { IfOk result (λ b. b.fails ≡ []) }
        ensures points { IfOk result (λ b. b.points ≡ 0) }
        ensures small { IfOk result (λ b. IsSmall 0 b.parts) }
        ensures few { IfOk result (λ b. HasFew 0 b.parts) }
    {
        let mut nodes = Nodes::new(alloc);
        let number = nodes.push_expr(CoreExpr::Number(0))?;
        let condition = nodes.push_cond(CoreCond::Random)?;
        Ok(Builder {
            nodes,
            window: Window::new(alloc),
            none: Made { number, condition },
            edges: Vec::new(alloc),
            dims: Vec::new(alloc),
            fails: Vec::new(alloc),
            points: 0,
        })
    }

    /// How many points were met.
    pub fn points(&self) -> u32
        ensures { result ≡ self.now.points }
    {
        self.points
    }

    /// A point is met.
    pub fn meet_point(&mut self)
        requires { self.old.points < 2 ^ 31 }
        ensures adds { Adds [] [] (self.old.points + 1) self.old self.new }
        ensures sizes { Lengthens 0 0 self.old self.new }
        ensures same { SameNodes self.old self.new }
    {
        self.points += 1;
    }

    /// A procedure begins, so nothing is made of its expressions yet.
    pub fn begin(&mut self)
        ensures parts { self.new.parts ≡ self.old.parts }
        ensures fails { self.new.fails ≡ self.old.fails }
        ensures points { self.new.points ≡ self.old.points }
        ensures none { self.new.stretch.made ≡ [] }
    {
        self.window.begin();
    }

    /// Makes an expression of the tree, as a number and as a condition.
    pub fn make(&mut self, source: &Source, root: ExprId) -> Result<Made, NoMemory>
        requires there { root.0 < length source.now.tree.now.exprs }
        requires can { CanMake source.now.names.now (trees_in source.now.tree.now) self.old }
        ensures made { IfOk result (λ m. IsMade self.new.parts source.now.names.now (tree_at (trees_in source.now.tree.now) root) m) }
        ensures adds { IfOk result (λ m. Adds [] [] self.old.points self.old self.new) }
        ensures sizes { IfOk result (λ m. Lengthens 0 0 self.old self.new) }
        ensures makes { IfOk result (λ m. MakesMore source.now.names.now (trees_in source.now.tree.now) self.old self.new) }
    {
        let none = self.none;
        let made = translate(source, &mut self.nodes, &mut self.window, none, root)?;
        Ok(made)
    }

    /// Adds an edge.
    pub fn push_edge(&mut self, source: u32, target: u32, action: Action) -> Result<(), NoMemory>
        requires acts { ActionIsIn self.old.parts action }
        requires room { length self.old.parts.edges + 1 < most_items }
        ensures adds { IfOk result (λ _. Adds (arc source target (move_of self.old.parts action) ∷ []) [] self.old.points self.old self.new) }
        ensures sizes { IfOk result (λ _. Lengthens 1 0 self.old self.new) }
        ensures same { IfOk result (λ _. SameNodes self.old self.new) }
    {
        let edge = Edge {
            source,
            target,
            action,
        };
        match self.edges.push(edge) {
            Ok(()) => {}
            Err(_) => return Err(NoMemory),
        }
        Ok(())
    }

    /// Adds a `fail` at the point that was met last.
    pub fn push_fail(&mut self, offset: usize) -> Result<(), NoMemory>
        requires { 0 < self.old.points }
        ensures adds { IfOk result (λ _. Adds [] (record { point = self.old.points - 1; offset = offset } ∷ []) self.old.points self.old self.new) }
        ensures sizes { IfOk result (λ _. Lengthens 0 0 self.old self.new) }
        ensures same { IfOk result (λ _. SameNodes self.old self.new) }
    {
        let fail = Fail {
            point: self.points - 1,
            offset,
        };
        match self.fails.push(fail) {
            Ok(()) => {}
            Err(_) => return Err(NoMemory),
        }
        Ok(())
    }

    /// Adds the dimensions that names of a call stand for, and answers where they are.
    pub fn push_names(&mut self, source: &Source, list: NameList) -> Result<Span, NoMemory>
        requires names { HasNames source.now.tree.now list }
        requires room { length self.old.parts.dims + length (names_over (named_in source.now.tree.now) list) < most_items }
        ensures there { IfOk result (λ s. SpanIsIn self.new.parts s) }
        ensures stands { IfOk result (λ s. span_dims self.new.parts s ≡ dimensions_in source.now.names.now (names_over (named_in source.now.tree.now) list)) }
        ensures stay { IfOk result (λ s. SpansStay self.old.parts self.new.parts) }
        ensures adds { IfOk result (λ s. Adds [] [] self.old.points self.old self.new) }
        ensures sizes { IfOk result (λ s. Lengthens 0 (length (names_over (named_in source.now.tree.now) list)) self.old self.new) }
        ensures same { IfOk result (λ s. SameNodes self.old self.new) }
    {
        let first = self.dims.len() as u32;
        let count = name_count(source.tree, list);
        for i in 0..count {
            let (named, _) = name_node(source.tree, list, i);
            self.push_dim(source.names.dimension(name(source.tree, named)))?;
        }
        Ok(Span { first, count })
    }

    /// Adds the pairs of a start, for each of these names from one on, and answers where they are.
    pub fn push_pairs(
        &mut self,
        dims: &Dimensions,
        names: &Names,
        from: u32,
    ) -> Result<Span, NoMemory>
        requires from { from ≤ length names.now }
        requires room { length self.old.parts.dims + 2 * (length names.now - from) < most_items }
        ensures there { IfOk result (λ s. SpanIsIn self.new.parts s) }
        ensures whole { IfOk result (λ s. s.count % 2 ≡ 0) }
        ensures stands { IfOk result (λ s. pairs_in (span_dims self.new.parts s) ≡ copies_named dims.now (drop from names.now)) }
        ensures adds { IfOk result (λ s. Adds [] [] self.old.points self.old self.new) }
        ensures sizes { IfOk result (λ s. Lengthens 0 (2 * (length names.now - from)) self.old self.new) }
        ensures same { IfOk result (λ s. SameNodes self.old self.new) }
    {
        let first = self.dims.len() as u32;
        for k in 0..names.len() - from {
            let name = names.name(from + k);
            self.push_dim(dims.dimension(name))?;
            self.push_dim(dims.declaration(name))?;
        }
        let count = self.dims.len() as u32 - first;
        Ok(Span { first, count })
    }

    /// The core with these procedures and owners, and the fails.
    pub fn finish(self, procs: Vec<Proc>, owners: Vec<u32>) -> Built
        requires { IsGraph (record { procs = procs.items; owners = owners.items; arcs = arcs_in self.parts }) }
        ensures graph { graph_of result.core ≡ record { procs = procs.items; owners = owners.items; arcs = arcs_in self.parts } }
        ensures fails { result.fails.items ≡ self.fails }
    {
        let Builder {
            nodes,
            window: _,
            none: _,
            edges,
            dims,
            fails,
            points: _,
        } = self;
        law_graph();
        let (exprs, conds) = nodes.into_parts();
        let core = Core::from_parts(CoreParts {
            procs,
            owners,
            edges,
            dims,
            exprs,
            conds,
        });
        Built { core, fails }
    }

    /// Adds a dimension to those that spans have.
    fn push_dim(&mut self, dim: u32) -> Result<(), NoMemory>
        requires { length self.old.parts.dims + 1 < most_items }
        ensures pushed { IfOk result (λ _. self.new.parts.dims ≡ self.old.parts.dims ++ dim ∷ []) }
        ensures adds { IfOk result (λ _. Adds [] [] self.old.points self.old self.new) }
        ensures sizes { IfOk result (λ _. Lengthens 0 1 self.old self.new) }
        ensures same { IfOk result (λ _. SameNodes self.old self.new) }
    {
        match self.dims.push(dim) {
            Ok(()) => {}
            Err(_) => return Err(NoMemory),
        }
        Ok(())
    }
}
