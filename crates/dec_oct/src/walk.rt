// The components of one block's matrix, by labels: each entry gives the label of the one member to all that have the
// other's. At most as many labels change as there are members, so that the time is quadratic in their number.
ghost use Rattle.std.specs.Prelude.{◌≡◌, ℕ, ◌+◌, ◌*◌, ◌<◌, IfOk, length, map, true, false, None};
ghost use Rattle.oct_def.specs.Table.{at};
ghost use Rattle.oct_def.specs.Bound.{bound_of};
ghost use Rattle.block_partition.specs.Partition.{member};
ghost use Rattle.block_laws.specs.Components.{Joins};
ghost use Rattle.dec_oct.specs.Cut.{relabelled, IsChainLabels, IsLinkLabels, HaveOneLabel};

use half_matrix::HalfBuf;
use memory::NoMemory;
use oct_def::NONE;
use std::alloc::Global;

/// Whether a word stands for a bound.
pub(crate) fn is_finite(word: i64) -> bool
    ensures yes { result ≡ true → bound_of word ≡ None → ⊥ }
    ensures no { result ≡ false → bound_of word ≡ None }
{
    word != NONE
}

// Whether an entry off the diagonal is finite.
fn is_link(m: &HalfBuf, i: u32, j: u32) -> bool
    requires row { i < length m.now }
    requires column { j < length m.now }
    ensures yes { result ≡ true → (i ≡ j → ⊥) × (at m.now i j ≡ None → ⊥) }
    ensures no { result ≡ false → (i ≡ j → ⊥) → at m.now i j ≡ None }
{
    if i == j {
        return false;
    }
    is_finite(m.get(i, j))
}

// Whether a finite entry off the diagonal joins two members.
fn joins(m: &HalfBuf, u: u32, w: u32) -> bool
    requires first { 2 * u + 1 < length m.now }
    requires second { 2 * w + 1 < length m.now }
    ensures yes { result ≡ true → Joins m.now u w }
    ensures no { result ≡ false → Joins m.now u w → ⊥ }
{
    let _ = m.vars();
    if is_link(m, 2 * u, 2 * w) {
        return true;
    }
    if is_link(m, 2 * u, 2 * w + 1) {
        return true;
    }
    if is_link(m, 2 * u + 1, 2 * w) {
        return true;
    }
    is_link(m, 2 * u + 1, 2 * w + 1)
}

fn new_label(label: u32, from: u32, to: u32) -> u32
    ensures { result ≡ relabelled from to label }
{
    if label == from { to } else { label }
}

// Each label `from` becomes `to`.
fn relabel(labels: &mut Vec<u32>, from: u32, to: u32)
    ensures { labels.new.items ≡ map (relabelled from to) labels.old.items }
{
    for i in 0..labels.len() {
        let label = labels[i];
        labels[i] = new_label(label, from, to);
    }
}

// The numbers below n.
fn own_labels(alloc: Global, n: u32) -> Result<Vec<u32>, NoMemory>
    ensures size { IfOk result (λ v. length v.items ≡ n) }
    ensures own { IfOk result (λ v. (k : ℕ) → k < n → member v.items k ≡ k) }
{
    let mut labels = Vec::new(alloc);
    for v in 0..n {
        labels.push(v)?;
    }
    Ok(labels)
}

// The labels of two joined members become one.
fn join_labels(labels: &mut Vec<u32>, u: u32, w: u32)
    requires first { u < length labels.old.items }
    requires second { w < length labels.old.items }
    ensures { labels.new.items ≡ map (relabelled (member labels.old.items w) (member labels.old.items u)) labels.old.items }
{
    let from = labels[w as usize];
    let to = labels[u as usize];
    if from != to {
        relabel(labels, from, to);
    }
}

// One label for each member; two members have one label exactly where a chain of entries leads from one to the other.
fn chain_labels(alloc: Global, m: &HalfBuf) -> Result<Vec<u32>, NoMemory>
    ensures { IfOk result (λ v. (n : ℕ) → length m.now ≡ 2 * n → IsChainLabels n m.now v.items) }
{
    m.shape();
    let n = m.vars();
    let mut labels = own_labels(alloc, n)?;
    'rows: for u in 0..n {
        'columns: for w in 0..n {
            if joins(m, u, w) {
                join_labels(&mut labels, u, w);
            }
        }
    }
    Ok(labels)
}

// Whether an entry joins a member to some member.
fn is_joined(m: &HalfBuf, u: u32) -> bool
    requires member { 2 * u + 1 < length m.now }
    ensures yes { result ≡ true → (w : ℕ) × Joins m.now u w }
    ensures no { result ≡ false → (w : ℕ) → Joins m.now u w → ⊥ }
{
    for w in 0..m.vars() {
        if joins(m, u, w) {
            return true;
        }
    }
    false
}

/// The same labels, and `u32::MAX` for a member that no entry joins to any.
pub(crate) fn link_labels(alloc: Global, m: &HalfBuf) -> Result<Vec<u32>, NoMemory>
    ensures { IfOk result (λ v. (n : ℕ) → length m.now ≡ 2 * n → IsLinkLabels n m.now v.items) }
{
    m.shape();
    let labels = chain_labels(alloc, m)?;
    let mut kept = Vec::new(alloc);
    for v in 0..m.vars() {
        if is_joined(m, v) {
            let label = labels[v as usize];
            kept.push(label)?;
        } else {
            kept.push(u32::MAX)?;
        }
    }
    Ok(kept)
}

/// Whether all members have one label and none leaves.
pub(crate) fn is_whole(labels: &[u32]) -> bool
    ensures yes { result ≡ true → HaveOneLabel labels.now }
    ensures no { result ≡ false → HaveOneLabel labels.now → ⊥ }
{
    for i in 0..labels.len() {
        if labels[i] != labels[0] {
            return false;
        }
        if labels[i] == u32::MAX {
            return false;
        }
    }
    true
}
