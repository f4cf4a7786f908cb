//! Lists the constraints of a value, in the order in which they are printed.
ghost use Rattle.std.specs.Prelude.{◌≡◌, ◌++◌, ◌+◌, ◌*◌, ◌<◌, ◌≤◌, IfOk, OnOk, IsSome, unwrap_or, []};
ghost use Rattle.oct_def.specs.Bound.{bound_of, half};
ghost use Rattle.oct_def.specs.Table.{at};
ghost use Rattle.oct_def.specs.Matrix.{opposite};
ghost use Rattle.report.specs.Constraint.{opposite_term};
ghost use Rattle.report.specs.Names.{note_now};
ghost use Rattle.report.specs.Listed.{at_least, at_most_of, equal_to, between, plain, minus, unless_same, pair_bound, matrix_at, listed_pair, listed_alone, listed_variable, note_of};

use crate::constraint::{Constraint, Relation, Sum, Term};
use domain::Domain;
use oct_def::{NONE, half_of, sum_of_halves};
use std::alloc::{AllocError, Global};

/// What is said of a value: its constraints, with or without the implied ones; none, where it is Bottom.
pub fn note_of<D: Domain>(
    alloc: Global,
    dom: &D,
    value: &D::V,
    dims: u32,
    full: bool,
) -> Result<Option<Vec<Constraint>>, AllocError>
    requires dims { dims ≡ (D.meaning value.now).dims }
    requires few { dims ≤ 256 }
    ensures { IfOk result (λ note. note_now note ≡ note_of full (D.meaning value.now)) }
{
    if dom.is_bottom(value) {
        return Ok(None);
    }
    let mut constraints = Vec::new(alloc);
    for v in 0..dims {
        list_variable(&mut constraints, dom, value, v, full)?;
    }
    Ok(Some(constraints))
}

/// Lists a variable: its pairs with each one before it, and then the variable alone.
#[tactic(auto, unfolding(crate::specs::Listed::listed_variable))]
fn list_variable<D: Domain>(
    out: &mut Vec<Constraint>,
    dom: &D,
    value: &D::V,
    v: u32,
    full: bool,
) -> Result<(), AllocError>
    requires some { IsSome (D.meaning value.now).matrix }
    requires within { v < (D.meaning value.now).dims }
    requires few { v < 256 }
    ensures { OnOk result (out.new.items ≡ out.old.items ++ listed_variable full (matrix_at (D.meaning value.now)) v) }
{
    for u in 0..v {
        list_pair(out, dom, value, v, u, full)?;
    }
    list_alone(out, dom, value, v)
}

/// Lists the difference of two variables, and then their sum.
#[tactic(auto, unfolding(crate::specs::Listed::listed_pair))]
fn list_pair<D: Domain>(
    out: &mut Vec<Constraint>,
    dom: &D,
    value: &D::V,
    v: u32,
    u: u32,
    full: bool,
) -> Result<(), AllocError>
    requires some { IsSome (D.meaning value.now).matrix }
    requires first { u < v }
    requires second { v < (D.meaning value.now).dims }
    requires few { v < 256 }
    ensures { OnOk result (out.new.items ≡ out.old.items ++ listed_pair full (matrix_at (D.meaning value.now)) v u) }
{
    let difference = Sum {
        first: minus(u),
        second: Some(plain(v)),
    };
    let below = pair_bound(dom, value, 2 * v, 2 * u, full);
    let above = pair_bound(dom, value, 2 * u, 2 * v, full);
    list_between(out, difference, below, above)?;
    let sum = Sum {
        first: plain(u),
        second: Some(plain(v)),
    };
    let below = pair_bound(dom, value, 2 * u, 2 * v + 1, full);
    let above = pair_bound(dom, value, 2 * u + 1, 2 * v, full);
    list_between(out, sum, below, above)
}

/// Lists the bounds of one variable, which are the halves of its unary entries.
#[tactic(auto, unfolding(crate::specs::Listed::listed_alone))]
fn list_alone<D: Domain>(
    out: &mut Vec<Constraint>,
    dom: &D,
    value: &D::V,
    v: u32,
) -> Result<(), AllocError>
    requires some { IsSome (D.meaning value.now).matrix }
    requires within { v < (D.meaning value.now).dims }
    requires few { v < 256 }
    ensures { OnOk result (out.new.items ≡ out.old.items ++ listed_alone (matrix_at (D.meaning value.now)) v) }
{
    let variable = Sum {
        first: plain(v),
        second: None,
    };
    let below = bound(half_of(entry(dom, value, 2 * v, 2 * v + 1)));
    let above = bound(half_of(entry(dom, value, 2 * v + 1, 2 * v)));
    list_between(out, variable, below, above)
}

/// Lists what a bound on minus a sum and a bound on the sum say: an equality, where the two meet.
fn list_between(
    out: &mut Vec<Constraint>,
    sum: Sum,
    below: Option<i64>,
    above: Option<i64>,
) -> Result<(), AllocError>
    ensures { OnOk result (out.new.items ≡ out.old.items ++ between sum below above) }
{
    match (below, above) {
        (None, None) => {}
        (Some(b), None) => out.push(at_least(sum, b))?,
        (None, Some(a)) => out.push(at_most(sum, a))?,
        (Some(b), Some(a)) => {
            if i128::from(a) + i128::from(b) == 0 {
                out.push(equal_to(sum, b))?;
            } else {
                out.push(at_least(sum, b))?;
                out.push(at_most(sum, a))?;
            }
        }
    }
    Ok(())
}

/// The bound of a pair at (i, j): in a full list as it is, else unless it is implied by the bounds of the two variables.
fn pair_bound<D: Domain>(dom: &D, value: &D::V, i: u32, j: u32, full: bool) -> Option<i64>
    requires some { IsSome (D.meaning value.now).matrix }
    requires row { i < 2 * (D.meaning value.now).dims }
    requires column { j < 2 * (D.meaning value.now).dims }
    requires few_rows { i < 512 }
    requires few_columns { j < 512 }
    ensures { result ≡ pair_bound full (matrix_at (D.meaning value.now)) i j }
{
    let word = entry(dom, value, i, j);
    if full {
        bound(word)
    } else {
        let from_row = entry(dom, value, i, opposite(i));
        let from_column = entry(dom, value, opposite(j), j);
        unless_same(word, sum_of_halves(from_row, from_column))
    }
}

/// The bound of a word, unless it is the implied one.
fn unless_same(word: i64, implied: i64) -> Option<i64>
    ensures { result ≡ unless_same (bound_of word) (bound_of implied) }
{
    if word == implied { None } else { bound(word) }
}

/// The word at (i, j).
fn entry<D: Domain>(dom: &D, value: &D::V, i: u32, j: u32) -> i64
    requires some { IsSome (D.meaning value.now).matrix }
    requires row { i < 2 * (D.meaning value.now).dims }
    requires column { j < 2 * (D.meaning value.now).dims }
    ensures { bound_of result ≡ at (matrix_at (D.meaning value.now)) i j }
{
    dom.entry(value, i, j)
}

/// The bound that a word stands for.
fn bound(word: i64) -> Option<i64>
    ensures { result ≡ bound_of word }
{
    if word == NONE { None } else { Some(word) }
}

/// The other signed dimension of the same variable.
fn opposite(i: u32) -> u32
    requires { i < 512 }
    ensures { result ≡ opposite i }
{
    if i % 2 == 0 { i + 1 } else { i - 1 }
}

fn plain(variable: u32) -> Term
    ensures { result ≡ plain variable }
{
    Term {
        negative: false,
        variable,
    }
}

fn minus(variable: u32) -> Term
    ensures { result ≡ minus variable }
{
    Term {
        negative: true,
        variable,
    }
}

/// `sum + constant >= 0`.
fn at_least(sum: Sum, constant: i64) -> Constraint
    ensures { result ≡ at_least sum constant }
{
    Constraint {
        first: sum.first,
        second: sum.second,
        constant,
        relation: Relation::AtLeastZero,
    }
}

/// `-sum + constant >= 0`.
fn at_most(sum: Sum, constant: i64) -> Constraint
    ensures { result ≡ at_most_of sum constant }
{
    Constraint {
        first: opposite_term(sum.first),
        second: sum.second.map(|term| opposite_term(term)),
        constant,
        relation: Relation::AtLeastZero,
    }
}

/// `sum + constant = 0`.
fn equal_to(sum: Sum, constant: i64) -> Constraint
    ensures { result ≡ equal_to sum constant }
{
    Constraint {
        first: sum.first,
        second: sum.second,
        constant,
        relation: Relation::Zero,
    }
}

fn opposite_term(term: Term) -> Term
    ensures { result ≡ opposite_term term }
{
    Term {
        negative: !term.negative,
        variable: term.variable,
    }
}
