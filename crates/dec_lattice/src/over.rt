// Two values combined over a partition that keeps apart what the result keeps apart.
ghost use Rattle.std.specs.Prelude.{◌≡◌, ℕ, ◌<◌, IfOk, Some, length, true, false};
ghost use Rattle.block_partition.specs.Partition.{block, IsBlock, IsPartition};
ghost use Rattle.block_laws.specs.Assembly.{matrix, restrict};
ghost use Rattle.dec_oct.specs.Value.{octagon, octagon_of, whole};
ghost use Rattle.dec_lattice.specs.Operation.{combined_matrix};
ghost use Rattle.dec_lattice.specs.Over.{AreSides, IsOver, held};
ghost use Rattle.dec_lattice.specs.Marks.{IsEither, TellsEither, KeepsEitherOf};

use crate::combine::combined_with;
use crate::operation::Operation;
use block_partition::Partition;
use dec_oct::{DecOct, Parts, same_matrix};
use half_matrix::HalfMatrix;
use memory::NoMemory;
use std::alloc::Global;

// The combined part over some members. Where both sides have the same matrix, it is shared.
fn combined_part(
    alloc: Global,
    op: Operation,
    a: &DecOct,
    b: &DecOct,
    members: &[u32],
) -> Result<HalfMatrix, NoMemory>
    requires sides { AreSides a.now b.now }
    requires members { IsBlock a.now.dims members.now }
    requires filled { 0 < length members.now }
    ensures { IfOk result (λ m. m ≡ combined_matrix op (restrict members.now (whole a.now.dims (held a.now))) (restrict members.now (whole a.now.dims (held b.now)))) }
{
    let first = a.part(alloc, members)?;
    let second = b.part(alloc, members)?;
    if same_matrix(first.buf(), second.buf()) {
        return Ok(first);
    }
    let made = combined_with(alloc, op, first, &second)?;
    Ok(made)
}

// The combined parts over the blocks of a partition.
fn combined_parts(
    alloc: Global,
    op: Operation,
    a: &DecOct,
    b: &DecOct,
    others: &Partition,
) -> Result<Vec<HalfMatrix>, NoMemory>
    requires sides { AreSides a.now b.now }
    requires others { IsPartition a.now.dims others.now }
    ensures count { IfOk result (λ v. length v.items ≡ length others.now) }
    ensures each { IfOk result (λ v. (c : ℕ) → c < length others.now → matrix v.items c ≡ combined_matrix op (restrict (block others.now c) (whole a.now.dims (held a.now))) (restrict (block others.now c) (whole a.now.dims (held b.now)))) }
{
    others.known();
    let mut made = Vec::new(alloc);
    for c in 0..others.len() {
        let m = combined_part(alloc, op, a, b, others.block(c))?;
        made.push(m)?;
    }
    Ok(made)
}

// Whether these members with this matrix are a marked block of either side.
fn is_in_either(a: &DecOct, b: &DecOct, members: &[u32], m: &HalfMatrix) -> bool
    requires sides { AreSides a.now b.now }
    requires filled { 0 < length members.now }
    ensures yes { result ≡ true → IsEither (held a.now) (held b.now) members.now m.now }
    ensures no { result ≡ false → IsEither (held a.now) (held b.now) members.now m.now → ⊥ }
{
    if a.has_settled(members, m) {
        return true;
    }
    b.has_settled(members, m)
}

// Which parts are marked blocks of either side.
fn marks_of_either(
    alloc: Global,
    a: &DecOct,
    b: &DecOct,
    others: &Partition,
    parts: &[HalfMatrix],
) -> Result<Vec<bool>, NoMemory>
    requires sides { AreSides a.now b.now }
    requires parts { length parts.now ≡ length others.now }
    ensures { IfOk result (λ v. TellsEither (held a.now) (held b.now) others.now parts.now v.items) }
{
    others.known();
    let mut marks = Vec::new(alloc);
    for c in 0..others.len() {
        let yes = is_in_either(a, b, others.block(c), &parts[c as usize]);
        marks.push(yes)?;
    }
    Ok(marks)
}

/// Two values that aren't Bottom, combined over a partition. It takes time quadratic in the size of each of its blocks.
pub(crate) fn combined_over(
    alloc: Global,
    op: Operation,
    a: &DecOct,
    b: &DecOct,
    others: Partition,
) -> Result<DecOct, NoMemory>
    requires sides { AreSides a.now b.now }
    requires others { IsOver op a.now.dims (held a.now) (held b.now) others }
    ensures value { IfOk result (λ v. octagon v ≡ octagon_of a.now.dims (Some (combined_matrix op (whole a.now.dims (held a.now)) (whole a.now.dims (held b.now))))) }
    ensures marks { IfOk result (λ v. KeepsEitherOf (held a.now) (held b.now) v.blocks) }
{
    a.known();
    b.known();
    let matrices = combined_parts(alloc, op, a, b, &others)?;
    let settled = marks_of_either(alloc, a, b, &others, &matrices)?;
    let parts = Parts {
        dims: a.dims(),
        partition: others,
        matrices,
        settled,
    };
    let v = DecOct::from_parts(alloc, parts)?;
    v.known();
    Ok(v)
}
