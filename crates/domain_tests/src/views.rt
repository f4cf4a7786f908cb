//! What a domain shows of a value.
ghost use Rattle.std.specs.Prelude.{◌≡◌, ◌*◌, ◌<◌, ◌≤◌, IsSome};

use domain::Domain;
use oct_def::NONE;
use std::alloc::{AllocError, Global};
use std::process::Abort;
use std::test::Fail;

/// The entries of row i that aren't 0 on the diagonal and `NONE` elsewhere, with their places.
fn row_view<D: Domain>(
    alloc: Global,
    dom: &D,
    v: &D::V,
    dims: u32,
    i: u32,
) -> Result<String, AllocError>
    requires dims { (D.meaning v.now).dims ≡ dims }
    requires small { dims ≤ 256 }
    requires row { i < 2 * dims }
    requires not_bottom { IsSome (D.meaning v.now).matrix }
{
    let mut line = String::new(alloc);
    for j in 0..2 * dims {
        let word = dom.entry(v, i, j);
        let plain = if i == j { 0 } else { NONE };
        if word != plain {
            line.push_str(format!(in alloc; "{i} {j} {word}; ")?.as_str())?;
        }
    }
    Ok(line)
}

/// The entries of a value that aren't 0 on the diagonal and `NONE` elsewhere, with their places; or that it is Bottom.
pub(crate) fn view<D: Domain>(
    alloc: Global,
    dom: &D,
    v: &D::V,
    dims: u32,
) -> Result<String, AllocError>
    requires dims { (D.meaning v.now).dims ≡ dims }
{
    dom.known(v);
    if dom.is_bottom(v) {
        return format!(in alloc; "bottom");
    }
    let mut text = String::new(alloc);
    for i in 0..2 * dims {
        let row = row_view(alloc, dom, v, dims, i)?;
        text.push_str(row.as_str())?;
    }
    Ok(text)
}

/// Ends the test where a value has another view.
pub(crate) fn expect_view<D: Domain>(
    rt: &impl Abort,
    alloc: Global,
    dom: &D,
    v: &D::V,
    dims: u32,
    want: &str,
    name: &str,
) -> Result<(), Fail>
    requires dims { (D.meaning v.now).dims ≡ dims }
{
    let given = view(alloc, dom, v, dims)?;
    assert_eq!(rt; given.as_str(), want, "{name}");
    Ok(())
}

/// Asserts that there are as many views on both sides, each the same. The result is how many aren't Bottom.
pub(crate) fn expect_same(rt: &impl Abort, first: &[String], second: &[String], name: &str) -> u64 {
    assert!(rt; first.len() == second.len(), "the views of {name}");
    let mut values = 0_u64;
    for k in 0..first.len() {
        assert_eq!(rt; first[k].as_str(), second[k].as_str(), "view {k} of {name}");
        if first[k].as_str() != "bottom" {
            values = values.saturating_add(1);
        }
    }
    values
}
