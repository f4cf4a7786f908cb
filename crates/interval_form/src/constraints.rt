//! The bounds that hold where a form is at most 0.

ghost use Rattle.std.specs.Prelude.{◌≡◌, ℕ, ◌*◌, ◌<◌, ◌++◌, [], OnOk, IfOk, length};
ghost use Rattle.std.specs.List.{All};
ghost use Rattle.oct_def.specs.Bound.{bound_of};
ghost use Rattle.oct_def.specs.Matrix.{opposite};
ghost use Rattle.interval_form.specs.FormBounds.{point_size as point_size_of, form_entry, is_above_zero as is_above_zero_of};
ghost use Rattle.interval_form.specs.Sparse.{Terms, IsFormOver, form_in};
ghost use Rattle.interval_form.specs.Listing.{with_sized, sized_terms, word_bound, size_bound, twins, with_twins, row_list, rows_list, AreSized, listed};
ghost use Rattle.interval_form.specs.Listed.{AreBounds, IsPlaced};

use crate::form::{Form, Term};
use crate::interval::Interval;
use crate::ranges::Ranges;
use oct_def::{NONE, NoMemory, clamp};
use std::alloc::Global;

/// A bound of an octagon: the word at a row and a column.
#[derive(Clone, Copy, Debug, Drop, PartialEq, Eq)]
pub struct OctBound {
    pub row: u32,
    pub column: u32,
    pub word: i64,
}

/// No state, or a few bounds.
#[derive(Drop)]
pub enum Bounds {
    Nothing,
    Few(Vec<OctBound>),
}

/// A signed dimension with a point coefficient of this size above 0.
#[derive(Clone, Copy, Debug, Drop, PartialEq, Eq)]
pub struct Sized {
    pub(crate) dim: u32,
    pub(crate) size: u64,
}

/// The integer of a point above 0; else 0.
fn point_size(i: Interval) -> u64
    ensures { result ≡ point_size_of i }
{
    match (i.low, i.high) {
        (Some(a), Some(b)) => { if a == b && a > 0 { a as u64 } else { 0 } }
        _ => 0,
    }
}

/// The word of a bound on the sum of two signed dimensions, or on twice one.
fn bound_word(unary: bool, size: u64, rest: Option<i64>) -> i64
    requires { 0 < size }
    ensures { bound_of result ≡ word_bound unary size rest }
{
    match rest {
        None => NONE,
        Some(x) => {
            let quotient = (x as i128).div_euclid(size as i128);
            if unary {
                clamp(2 * quotient)
            } else {
                clamp(quotient)
            }
        }
    }
}

/// One more signed dimension, where its size is above 0.
fn push_sized(out: &mut Vec<Sized>, dim: u32, size: u64) -> Result<(), NoMemory>
    ensures { OnOk result (out.new.items ≡ out.old.items ++ with_sized dim size []) }
{
    if size > 0 {
        out.push(Sized { dim, size })?;
    }
    Ok(())
}

/// The signed dimensions with point coefficients.
fn sizes(alloc: Global, ts: &[Term]) -> Result<Vec<Sized>, NoMemory>
    requires { Terms 0 512 ts.now }
    ensures { IfOk result (λ v. v.items ≡ sized_terms ts.now) }
{
    let mut out = Vec::new(alloc);
    'terms: for i in 0..ts.len() {
        let t = ts[i];
        push_sized(&mut out, 2 * t.dimension, point_size(t.coefficient))?;
        push_sized(
            &mut out,
            2 * t.dimension + 1,
            point_size(t.coefficient.negated()),
        )?;
    }
    Ok(out)
}

/// The other signed dimension of the same variable.
fn opposite_dim(i: u32) -> u32
    ensures { result ≡ opposite i }
{
    i ^ 1
}

/// Lists a bound on the sum of two signed dimensions, at its place and at the coherent one.
fn list_twins(out: &mut Vec<OctBound>, x: u32, y: u32, word: i64) -> Result<(), NoMemory>
    ensures { OnOk result (out.new.items ≡ out.old.items ++ twins x y word) }
{
    out.push(OctBound {
        row: opposite_dim(x),
        column: y,
        word,
    })?;
    if x == y {
        return Ok(());
    }
    out.push(OctBound {
        row: opposite_dim(y),
        column: x,
        word,
    })?;
    Ok(())
}

/// Lists the bound on the sum of two signed dimensions, where their coefficients have one size.
fn list_pair<R: Ranges>(
    out: &mut Vec<OctBound>,
    form: &Form,
    x: Sized,
    y: Sized,
    ranges: &R,
) -> Result<(), NoMemory>
    requires over { IsFormOver (length (R.intervals ranges.now)) form.now }
    requires size { 0 < y.size }
    ensures { OnOk result (out.new.items ≡ out.old.items ++ with_twins x.dim y.dim (size_bound (R.intervals ranges.now) (form_in (length (R.intervals ranges.now)) form.now) x y)) }
{
    if x.size != y.size {
        return Ok(());
    }
    let rest = form.rest_bound(x.dim / 2, y.dim / 2, ranges);
    let word = bound_word(x.dim == y.dim, y.size, rest);
    if word == NONE {
        return Ok(());
    }
    list_twins(out, x.dim, y.dim, word)?;
    Ok(())
}

/// Lists the bounds on the sums of a signed dimension with each of some.
fn list_row<R: Ranges>(
    out: &mut Vec<OctBound>,
    form: &Form,
    x: Sized,
    others: &[Sized],
    ranges: &R,
) -> Result<(), NoMemory>
    requires over { IsFormOver (length (R.intervals ranges.now)) form.now }
    requires sizes { AreSized others.now }
    ensures { OnOk result (out.new.items ≡ out.old.items ++ row_list (R.intervals ranges.now) (form_in (length (R.intervals ranges.now)) form.now) x others.now) }
{
    'others: for k in 0..others.len() {
        list_pair(out, form, x, others[k], ranges)?;
    }
    Ok(())
}

/// The bounds on the sums of two signed dimensions. The form is valued once for each two of one size, in time linear in the
/// form.
fn list_rows<R: Ranges>(
    alloc: Global,
    form: &Form,
    sizes: &[Sized],
    ranges: &R,
) -> Result<Vec<OctBound>, NoMemory>
    requires over { IsFormOver (length (R.intervals ranges.now)) form.now }
    requires sizes { AreSized sizes.now }
    ensures { IfOk result (λ v. v.items ≡ rows_list (R.intervals ranges.now) (form_in (length (R.intervals ranges.now)) form.now) sizes.now) }
{
    let mut out = Vec::new(alloc);
    'rows: for k in 0..sizes.len() {
        list_row(&mut out, form, sizes[k], &sizes[k..], ranges)?;
    }
    Ok(out)
}

/// Whether a bound is above 0.
fn is_above_zero(b: Option<i64>) -> bool
    ensures { result ≡ is_above_zero_of b }
{
    match b {
        Some(x) => x > 0,
        None => false,
    }
}

/// The bounds of `form <= 0`, where its least value isn't above 0.
fn listed_bounds<R: Ranges>(
    alloc: Global,
    form: &Form,
    ranges: &R,
) -> Result<Vec<OctBound>, NoMemory>
    requires { IsFormOver (length (R.intervals ranges.now)) form.now }
    ensures placed { IfOk result (λ v. All (IsPlaced (length (R.intervals ranges.now))) v.items) }
    ensures entries { IfOk result (λ v. (i j : ℕ) → i < 2 * length (R.intervals ranges.now) → j < 2 * length (R.intervals ranges.now) → listed v.items i j ≡ form_entry (R.intervals ranges.now) (form_in (length (R.intervals ranges.now)) form.now) i j) }
{
    let _dims = ranges.dims();
    let sizes = sizes(alloc, form.terms())?;
    let list = list_rows(alloc, form, sizes.as_slice(), ranges)?;
    Ok(list)
}

/// The bounds that hold where a form is at most 0: `Nothing` where its least value is above 0. For k dimensions with point
/// coefficients of one size the form is valued k (k + 1) / 2 times.
pub fn form_constraints<R: Ranges>(
    alloc: Global,
    form: &Form,
    ranges: &R,
) -> Result<Bounds, NoMemory>
    requires { IsFormOver (length (R.intervals ranges.now)) form.now }
    ensures { IfOk result (λ b. AreBounds (R.intervals ranges.now) (form_in (length (R.intervals ranges.now)) form.now) b) }
{
    let value = form.value(ranges);
    if is_above_zero(value.low) {
        return Ok(Bounds::Nothing);
    }
    let list = listed_bounds(alloc, form, ranges)?;
    Ok(Bounds::Few(list))
}
