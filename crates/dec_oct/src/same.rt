// Tests of equality.
ghost use Rattle.std.specs.Prelude.{◌≡◌, ℕ, ◌<◌, length, true, false};
ghost use Rattle.oct_def.specs.Table.{at};

use block_partition::Partition;
use half_matrix::{HalfBuf, HalfMatrix};

/// Whether two lists of members are equal.
pub(crate) fn same_members(a: &[u32], b: &[u32]) -> bool
    ensures yes { result ≡ true → a.now ≡ b.now }
    ensures no { result ≡ false → a.now ≡ b.now → ⊥ }
{
    if a.len() != b.len() {
        return false;
    }
    for i in 0..a.len() {
        if a[i] != b[i] {
            return false;
        }
    }
    true
}

// Whether two matrices of one size have the same row.
fn same_row(a: &HalfBuf, b: &HalfBuf, i: u32) -> bool
    requires row { i < length a.now }
    requires size { length a.now ≡ length b.now }
    ensures yes { result ≡ true → (j : ℕ) → j < length a.now → at a.now i j ≡ at b.now i j }
    ensures no { result ≡ false → a.now ≡ b.now → ⊥ }
{
    for j in 0..2 * a.vars() {
        if a.get(i, j) != b.get(i, j) {
            return false;
        }
    }
    true
}

/// Whether two matrices are equal. Each word is compared once, up to the first that differs.
pub fn same_matrix(a: &HalfBuf, b: &HalfBuf) -> bool
    ensures yes { result ≡ true → a.now ≡ b.now }
    ensures no { result ≡ false → a.now ≡ b.now → ⊥ }
{
    a.shape();
    b.shape();
    if a.vars() != b.vars() {
        return false;
    }
    for i in 0..2 * a.vars() {
        if !same_row(a, b, i) {
            return false;
        }
    }
    true
}

/// Whether two lists of blocks have the same members and matrices.
pub(crate) fn same_blocks(
    p: &Partition,
    ms: &[HalfMatrix],
    q: &Partition,
    ns: &[HalfMatrix],
) -> bool
    requires first { length ms.now ≡ length p.now }
    requires second { length ns.now ≡ length q.now }
    ensures yes { result ≡ true → (p.now ≡ q.now) × (ms.now ≡ ns.now) }
    ensures no { result ≡ false → p.now ≡ q.now → ms.now ≡ ns.now → ⊥ }
{
    if p.len() != q.len() {
        return false;
    }
    for b in 0..p.len() {
        if !same_members(p.block(b), q.block(b)) {
            return false;
        }
        if !same_matrix(ms[b as usize].buf(), ns[b as usize].buf()) {
            return false;
        }
    }
    true
}
