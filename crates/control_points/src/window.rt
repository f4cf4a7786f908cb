//! What a procedure has made of the tree's expressions.
//!
//! The numbers of a parsed procedure's expressions follow each other, so what is made of them is a stretch of numbers that grows
//! at its end, and each is made once. A tree that has them in another order is served too: the stretch begins anew with the
//! tree's first expression.

ghost use Rattle.std.specs.Prelude.{◌≡◌, ◌+◌, ◌-◌, ◌<◌, ◌≤◌, ◌^◌, ◌++◌, ◌∷◌, [], length, slice_index_or, IfOk};

use crate::nodes_made::Made;
use spl_tree::ExprId;
use spl_types::NoMemory;
use std::alloc::Global;
use std::marker::Model;

/// What was made of the expressions from the one with a lowest number on.
#[derive(Drop)]
pub struct Window {
    low: u32,
    made: Vec<Made>,
}

impl Model for Window {
    ghost use Rattle.std.specs.Prelude.{◌+◌, ◌≤◌, ◌^◌, length};
    ghost use Rattle.control_points.specs.Nodes.{Stretch};

    ghost Value = { Stretch };

    ghost view = { λ w. record { low = w.low; made = w.made.items } };

    ghost invariant = { λ w. w.low + length w.made.items ≤ 2 ^ 20 };
}

impl Window {
    /// Before any expression.
    pub fn new(alloc: Global) -> Window
        ensures { result ≡ record { low = 0; made = [] } }
    {
        Window {
            low: 0,
            made: Vec::new(alloc),
        }
    }

    /// The number of the first expression that isn't made yet.
    pub fn end(&self) -> u32
        ensures end { result ≡ self.now.low + length self.now.made }
        ensures few { result ≤ 2 ^ 20 }
    {
        self.low + self.made.len() as u32
    }

    /// The number of the first expression.
    pub fn low(&self) -> u32
        ensures { result ≡ self.now.low }
    {
        self.low
    }

    /// What was made of an expression.
    pub fn get(&self, e: ExprId) -> Made
        requires low { self.now.low ≤ e.0 }
        requires made { e.0 < self.now.low + length self.now.made }
        ensures { result ≡ slice_index_or self.now.made (e.0 - self.now.low) result }
    {
        self.made[(e.0 - self.low) as usize]
    }

    /// Keeps what was made of the next expression.
    pub fn push(&mut self, made: Made) -> Result<(), NoMemory>
        requires { self.old.low + length self.old.made < 2 ^ 20 }
        ensures { IfOk result (λ _. self.new ≡ record { low = self.old.low; made = self.old.made ++ made ∷ [] }) }
    {
        match self.made.push(made) {
            Ok(()) => Ok(()),
            Err(_) => Err(NoMemory),
        }
    }

    /// Begins the next procedure, whose expressions come after those of the last one.
    pub fn begin(&mut self)
        ensures { self.new ≡ record { low = self.old.low + length self.old.made; made = [] } }
    {
        self.low += self.made.len() as u32;
        self.made.clear();
    }

    /// Begins anew with the tree's first expression.
    pub fn restart(&mut self)
        ensures { self.new ≡ record { low = 0; made = [] } }
    {
        self.low = 0;
        self.made.clear();
    }
}
