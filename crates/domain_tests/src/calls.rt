//! Calls of a domain, and over how many variables their values are.
ghost use Rattle.std.specs.Prelude.{◌≡◌, ◌+◌, ◌<◌, ◌≤◌, IfOk};

use domain::Domain;
use oct_def::NoMemory;
use std::alloc::Global;

/// The tight closure.
pub(crate) fn closed<D: Domain>(alloc: Global, dom: &mut D, v: &D::V) -> Result<D::V, NoMemory>
    ensures dims { IfOk result (λ r. (D.meaning r).dims ≡ (D.meaning v.now).dims) }
{
    let w = dom.close(alloc, v)?;
    Ok(w)
}

/// The join.
pub(crate) fn joined<D: Domain>(
    alloc: Global,
    dom: &mut D,
    a: &D::V,
    b: &D::V,
) -> Result<D::V, NoMemory>
    requires dims { (D.meaning a.now).dims ≡ (D.meaning b.now).dims }
    ensures dims { IfOk result (λ r. (D.meaning r).dims ≡ (D.meaning a.now).dims) }
{
    let w = dom.join(alloc, a, b)?;
    Ok(w)
}

/// The widening.
pub(crate) fn widened<D: Domain>(
    alloc: Global,
    dom: &mut D,
    a: &D::V,
    b: &D::V,
) -> Result<D::V, NoMemory>
    requires dims { (D.meaning a.now).dims ≡ (D.meaning b.now).dims }
    ensures dims { IfOk result (λ r. (D.meaning r).dims ≡ (D.meaning a.now).dims) }
{
    let w = dom.widen(alloc, a, b)?;
    Ok(w)
}

/// The narrowing.
pub(crate) fn narrowed<D: Domain>(
    alloc: Global,
    dom: &mut D,
    a: &D::V,
    b: &D::V,
) -> Result<D::V, NoMemory>
    requires dims { (D.meaning a.now).dims ≡ (D.meaning b.now).dims }
    ensures dims { IfOk result (λ r. (D.meaning r).dims ≡ (D.meaning a.now).dims) }
{
    let w = dom.narrow(alloc, a, b)?;
    Ok(w)
}

/// The value after a variable became a copy of another one.
pub(crate) fn copied<D: Domain>(
    alloc: Global,
    dom: &mut D,
    v: &D::V,
    target: u32,
    origin: u32,
) -> Result<D::V, NoMemory>
    requires target { target < (D.meaning v.now).dims }
    requires origin { origin < (D.meaning v.now).dims }
    ensures dims { IfOk result (λ r. (D.meaning r).dims ≡ (D.meaning v.now).dims) }
{
    let w = dom.copy(alloc, v, target, origin)?;
    Ok(w)
}

/// The value at the entry of a callee with so many variables, whose two inputs are the arguments.
pub(crate) fn entered<D: Domain>(
    alloc: Global,
    dom: &mut D,
    v: &D::V,
    args: (u32, u32),
    dims: u32,
) -> Result<D::V, NoMemory>
    requires first { args.0 < (D.meaning v.now).dims }
    requires second { args.1 < (D.meaning v.now).dims }
    requires inputs { 2 ≤ dims }
    requires small { dims ≤ 256 }
    ensures dims { IfOk result (λ r. (D.meaning r).dims ≡ dims) }
{
    let w = dom.enter(alloc, v, &[args.0, args.1], dims)?;
    Ok(w)
}

/// The value after a call of a callee with two inputs and two outputs, which go to a variable and the next one.
pub(crate) fn returned<D: Domain>(
    alloc: Global,
    dom: &mut D,
    caller: &D::V,
    exit: &D::V,
    args: (u32, u32),
    target: u32,
) -> Result<D::V, NoMemory>
    requires first { args.0 < (D.meaning caller.now).dims }
    requires second { args.1 < (D.meaning caller.now).dims }
    requires target { target + 1 < (D.meaning caller.now).dims }
    requires exit { 4 ≤ (D.meaning exit.now).dims }
    ensures dims { IfOk result (λ r. (D.meaning r).dims ≡ (D.meaning caller.now).dims) }
{
    dom.known(caller);
    let w = dom.back(
        alloc,
        caller,
        exit,
        &[args.0, args.1],
        2,
        &[target, target + 1],
    )?;
    Ok(w)
}
