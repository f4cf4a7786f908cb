//! Whether a value is below another one.
ghost use Rattle.std.specs.Prelude.{◌≡◌, ℕ, ◌*◌, ◌<◌, true, false, IsSome};
ghost use Rattle.oct_def.specs.Bound.{bound_of, at_most};
ghost use Rattle.oct_def.specs.Below.{IsBelow};
ghost use Rattle.inv_check.specs.Entry.{entry_of};

use domain::Domain;

/// Whether a bound isn't above another one, by their words: `NONE` is the greatest word.
fn is_at_most(a: i64, b: i64) -> bool
    ensures { result ≡ at_most (bound_of a) (bound_of b) }
{
    a <= b
}

/// Whether no entry of a row is above the other value's.
fn row_is_below<D: Domain>(dom: &D, a: &D::V, b: &D::V, dims: u32, i: u32) -> bool
    requires first { IsSome (D.meaning a.now).matrix }
    requires second { IsSome (D.meaning b.now).matrix }
    requires dims { (D.meaning a.now).dims ≡ dims }
    requires same { (D.meaning b.now).dims ≡ dims }
    requires row { i < 2 * dims }
    ensures yes { result ≡ true → (j : ℕ) → j < 2 * dims → at_most (entry_of (D.meaning a.now) i j) (entry_of (D.meaning b.now) i j) ≡ true }
    ensures no { result ≡ false → IsBelow (D.meaning a.now) (D.meaning b.now) → ⊥ }
{
    dom.known(a);
    for j in 0..2 * dims {
        if !is_at_most(dom.entry(a, i, j), dom.entry(b, i, j)) {
            return false;
        }
    }
    true
}

/// Whether a value is below another one over as many variables.
pub(crate) fn is_below<D: Domain>(dom: &D, a: &D::V, b: &D::V, dims: u32) -> bool
    requires dims { (D.meaning a.now).dims ≡ dims }
    requires same { (D.meaning b.now).dims ≡ dims }
    ensures yes { result ≡ true → IsBelow (D.meaning a.now) (D.meaning b.now) }
    ensures no { result ≡ false → IsBelow (D.meaning a.now) (D.meaning b.now) → ⊥ }
{
    dom.known(a);
    dom.known(b);
    if dom.is_bottom(a) {
        return true;
    }
    if dom.is_bottom(b) {
        return false;
    }
    for i in 0..2 * dims {
        if !row_is_below(dom, a, b, dims, i) {
            return false;
        }
    }
    true
}
