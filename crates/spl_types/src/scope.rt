//! What the walk over a procedure knows.

ghost use Rattle.std.specs.Prelude.{◌≤◌};
ghost use Rattle.spl_types.specs.Checks.{most_dimensions, most_points};

use crate::tables::{NameTable, ProcTable};
use spl_tree::Tree;
use std::alloc::Global;

/// What names stand for within a procedure: the procedures of the program, and the procedure's declarations, of
/// which the first are its inputs.
#[derive(Drop)]
pub struct Scope<'s, 't> {
    pub alloc: Global,
    pub tree: &'t Tree,
    pub procs: &'s ProcTable<'t>,
    pub declared: NameTable<'t>,
    pub inputs: u32,
}

/// The inputs of a procedure that are targets, by their numbers, and how many dimensions the procedure has with their
/// working copies.
#[derive(Drop)]
pub struct Copies {
    pub assigned: Vec<bool>,
    pub dims: u32,
    ghost small: { dims ≤ most_dimensions },
}

/// How far the walk has come: the points of the program so far, and the working copies of the procedure so far.
#[derive(Drop)]
pub struct Walk {
    pub points: u32,
    pub copies: Copies,
    ghost few: { points ≤ most_points },
}
