//! The values that invariants give for the points of a core, in the plain domain.
ghost use Rattle.std.specs.Prelude.{◌≡◌, ◌<◌, ◌≤◌, length, map, IfOk};
ghost use Rattle.std.specs.List.{All};
ghost use Rattle.spl_core.specs.Graph.{graph_of, dims_at};
ghost use Rattle.oct_def.specs.Octagon.{IsValueOver};
ghost use Rattle.inv_text.specs.Invariants.{matrix_in, AreInvariants};
ghost use Rattle.inv_check.specs.Given.{dims_of, given_at, values_given};
ghost use Rattle.inv_check.specs.Bounds.{oct_bound};

use domain::Domain;
use full_oct::{FullDomain, FullValue};
use interval_form::OctBound;
use inv_text::{InvBound, Invariants};
use memory::NoMemory;
use spl_core::Core;
use std::alloc::Global;

/// The number of variables of each point of a core: what the text of its invariants is read by.
#[tactic(auto, unfolding(crate::specs::Given::dims_of))]
pub fn point_dims(alloc: Global, core: &Core) -> Result<Vec<u32>, NoMemory>
    ensures dims { IfOk result (λ dims. dims.items ≡ dims_of (graph_of core.now)) }
    ensures few { IfOk result (λ dims. length dims.items ≤ 4096) }
    ensures small { IfOk result (λ dims. All (λ n. n ≤ 256) dims.items) }
{
    let mut dims = Vec::new(alloc);
    for p in 0..core.points() {
        dims.push(dims_here(core, p))?;
    }
    Ok(dims)
}

/// The number of variables of a point.
pub(crate) fn dims_here(core: &Core, p: u32) -> u32
    requires point { p < length core.now.owners }
    ensures dims { result ≡ dims_at (graph_of core.now) p }
    ensures small { result ≤ 256 }
{
    core.proc_at(core.owner(p)).dims
}

/// The bounds of a certificate as the domain takes them.
fn oct_bounds(alloc: Global, bounds: &[InvBound]) -> Result<Vec<OctBound>, NoMemory>
    ensures { IfOk result (λ octs. octs.items ≡ map oct_bound bounds.now) }
{
    let mut octs = Vec::new(alloc);
    for bound in bounds {
        octs.push(OctBound {
            row: bound.row,
            column: bound.column,
            word: bound.word,
        })?;
    }
    Ok(octs)
}

/// What is given for a point.
fn value_here(
    alloc: Global,
    dom: &mut FullDomain,
    dims: u32,
    x: &Invariants,
    p: u32,
) -> Result<FullValue, NoMemory>
    requires small { dims ≤ 256 }
    requires point { p < length x.now }
    requires over { IsValueOver dims (matrix_in x.now p) }
    ensures { IfOk result (λ v. v ≡ record { dims = dims; matrix = matrix_in x.now p }) }
{
    match x.bounds(p) {
        None => Ok(dom.bottom(dims)),
        Some(bounds) => {
            let octs = oct_bounds(alloc, bounds)?;
            let v = dom.from_bounds(alloc, dims, &octs)?;
            Ok(v)
        }
    }
}

/// What is given for each point.
pub(crate) fn values(
    alloc: Global,
    dom: &mut FullDomain,
    core: &Core,
    x: &Invariants,
) -> Result<Vec<FullValue>, NoMemory>
    requires given { AreInvariants (dims_of (graph_of core.now)) x.now }
    ensures { IfOk result (λ values. values.items ≡ values_given (graph_of core.now) x.now) }
{
    let mut values = Vec::new(alloc);
    for p in 0..core.points() {
        let v = value_here(alloc, dom, dims_here(core, p), x, p)?;
        values.push(v)?;
    }
    Ok(values)
}
