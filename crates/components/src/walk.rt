//! A plain walk over the entries of a value.
ghost use Rattle.std.specs.Prelude.{◌≡◌, ◌+◌, ◌*◌, ◌<◌, ◌⊎◌, ◌↔◌, IfOk, IsSome, IsTrue, OnOk};
ghost use Rattle.components.specs.Value.{AreComponentsOf, IsGreatestSize};
ghost use Rattle.components.specs.Walk.{AreJoined, Grows, HasJoins, IsBoundAt, IsWithin};

use block_partition::Partition;
use domain::Domain;
use memory::NoMemory;
use oct_def::NONE;
use std::alloc::Global;

/// The components of a value over so many variables, in the order of their least members; none for Bottom.
pub fn components<D: Domain>(
    alloc: Global,
    dom: &D,
    v: &D::V,
    dims: u32,
) -> Result<Partition, NoMemory>
    requires dims { dims ≡ (D.meaning v.now).dims }
    ensures { IfOk result (λ blocks. AreComponentsOf (D.meaning v.now) blocks) }
{
    dom.known(v);
    let mut blocks = Partition::new(alloc);
    if dom.is_bottom(v) {
        return Ok(blocks);
    }
    for u in 0..dims {
        join_all(dom, v, dims, u, &mut blocks)?;
    }
    blocks.known();
    Ok(blocks)
}

/// Merges the block of a variable with that of each one that a finite entry joins to it.
fn join_all<D: Domain>(
    dom: &D,
    v: &D::V,
    dims: u32,
    u: u32,
    blocks: &mut Partition,
) -> Result<(), NoMemory>
    requires dims { dims ≡ (D.meaning v.now).dims }
    requires value { IsSome (D.meaning v.now).matrix }
    requires variable { u < dims }
    ensures within { OnOk result (IsWithin (D.meaning v.now) blocks.old → IsWithin (D.meaning v.now) blocks.new) }
    ensures grows { OnOk result (Grows blocks.old blocks.new) }
    ensures joined { OnOk result (HasJoins (D.meaning v.now) blocks.new dims u) }
{
    dom.known(v);
    for w in 0..dims {
        if joins(dom, v, u, w) {
            blocks.merge(&[u, w])?;
        }
    }
    Ok(())
}

/// Whether a finite entry off the diagonal joins two variables.
fn joins<D: Domain>(dom: &D, v: &D::V, u: u32, w: u32) -> bool
    requires value { IsSome (D.meaning v.now).matrix }
    requires first { u < (D.meaning v.now).dims }
    requires second { w < (D.meaning v.now).dims }
    ensures { IsTrue result ↔ AreJoined (D.meaning v.now).matrix u w }
{
    dom.known(v);
    row_joins(dom, v, 2 * u, w) || row_joins(dom, v, 2 * u + 1, w)
}

/// Whether a row has a finite entry off the diagonal in the columns of a variable.
fn row_joins<D: Domain>(dom: &D, v: &D::V, row: u32, w: u32) -> bool
    requires value { IsSome (D.meaning v.now).matrix }
    requires row { row < 2 * (D.meaning v.now).dims }
    requires variable { w < (D.meaning v.now).dims }
    ensures { IsTrue result ↔ (IsBoundAt (D.meaning v.now).matrix row (2 * w) ⊎ IsBoundAt (D.meaning v.now).matrix row (2 * w + 1)) }
{
    dom.known(v);
    is_bound(dom, v, row, 2 * w) || is_bound(dom, v, row, 2 * w + 1)
}

/// Whether an entry is finite and off the diagonal.
fn is_bound<D: Domain>(dom: &D, v: &D::V, row: u32, column: u32) -> bool
    requires value { IsSome (D.meaning v.now).matrix }
    requires row { row < 2 * (D.meaning v.now).dims }
    requires column { column < 2 * (D.meaning v.now).dims }
    ensures { IsTrue result ↔ IsBoundAt (D.meaning v.now).matrix row column }
{
    row != column && dom.entry(v, row, column) != NONE
}

/// The greatest number of members of a block; 0 where there is none.
pub fn greatest_size(blocks: &Partition) -> u32
    ensures { IsGreatestSize blocks.now result }
{
    blocks.known();
    let mut most = 0;
    for b in 0..blocks.len() {
        let size = blocks.block(b).len() as u32;
        if size > most {
            most = size;
        }
    }
    most
}
