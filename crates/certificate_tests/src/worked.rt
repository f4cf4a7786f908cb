//! The certificate of a loop that counts to ten, and what becomes of it when a number is changed.
ghost use Rattle.std.specs.Prelude.{◌≡◌};

use control_points::core_of;
use inv_check::{Verdict, inductive, point_dims};
use inv_text::{CertFault, InvBound, Invariants, read_invariants, write_invariants};
use spl_core::Core;
use spl_parser::parse;
use spl_text::tokens;
use spl_types::check;
use std::alloc::Global;
use std::test::Fail;

const COUNTING: &[u8] = b"var i:int;\nbegin\ni = 0;\nwhile i < 10 do\ni = i + 1;\ndone;\nend\n";

const COUNTED: &[u8] =
    b"interproc-invariants 1\npoints 6\n0\n1\n2 0 1 0 1 0 20\n3 0 1 0 1 0 18\n4 0 1 -2 1 0 20\n5 0 1 -20 1 0 20\n";

/// The core of an accepted text; any other one fails the test.
fn core_in(alloc: Global, text: &[u8]) -> Result<Core, Fail> {
    if text.len() > 1 << 20 {
        return Err("the text is too long".into());
    }
    let list = tokens(alloc, text)?;
    let tree = parse(alloc, text, &list)?;
    let checked = check(alloc, &tree)?;
    let built = core_of(alloc, &checked)?;
    Ok(built.core)
}

/// What the checker says of a certificate of the program that counts.
fn verdict_on(alloc: Global, certificate: &[u8]) -> Result<Verdict, Fail> {
    let core = core_in(alloc, COUNTING)?;
    let dims = point_dims(alloc, &core)?;
    let x = read_invariants(alloc, &dims, certificate)?;
    let verdict = inductive(alloc, &core, &x)?;
    Ok(verdict)
}

/// What the bytes are refused for as a certificate of the program that counts.
fn fault_of(alloc: Global, certificate: &[u8]) -> Result<Option<CertFault>, Fail> {
    let core = core_in(alloc, COUNTING)?;
    let dims = point_dims(alloc, &core)?;
    Ok(read_invariants(alloc, &dims, certificate).err())
}

#[test]
fn a_certificate_holds_and_is_written_again(rt: HostRuntime) -> Result<(), Fail> {
    let alloc = rt.alloc();
    assert_eq!(&rt; verdict_on(alloc, COUNTED)?, Verdict::Holds);
    let core = core_in(alloc, COUNTING)?;
    let dims = point_dims(alloc, &core)?;
    let x = read_invariants(alloc, &dims, COUNTED)?;
    let text = write_invariants(alloc, &x)?;
    assert!(&rt; text.as_slice() == COUNTED);
    Ok(())
}

#[test]
fn a_bound_too_sharp_breaks_at_its_point(rt: HostRuntime) -> Result<(), Fail> {
    let text =
        b"interproc-invariants 1\npoints 6\n0\n1\n2 0 1 0 1 0 18\n3 0 1 0 1 0 18\n4 0 1 -2 1 0 20\n5 0 1 -20 1 0 20\n";
    assert_eq!(&rt; verdict_on(rt.alloc(), text)?, Verdict::Fails(2));
    Ok(())
}

#[test]
fn a_bottom_that_is_none_breaks_at_its_point(rt: HostRuntime) -> Result<(), Fail> {
    let text =
        b"interproc-invariants 1\npoints 6\n0\n1\n2 0 1 0 1 0 20\n3 bottom\n4 bottom\n5 0 1 -20 1 0 20\n";
    assert_eq!(&rt; verdict_on(rt.alloc(), text)?, Verdict::Fails(3));
    Ok(())
}

#[test]
fn other_texts_are_no_certificates(rt: HostRuntime) -> Result<(), Fail> {
    let alloc = rt.alloc();
    let texts: [&[u8]; 9] = [
        b"interproc-invariants 1\npoints 6\n0\n1\n2 0 1 0 1 0 19\n3\n4\n5\n",
        b"interproc-invariants 1\npoints 6\n0\n1\n2\n3\n4\n5",
        b"interproc-invariants 1\npoints 6\n0\n1\n2\n3\n4\n",
        b"interproc-invariants 1\npoints 06\n0\n1\n2\n3\n4\n5\n",
        b"interproc-invariants 1\npoints 6\n0\n1\n2 1 0 18 0 1 0\n3\n4\n5\n",
        b"interproc-invariants 1\npoints 6\n0\n1\n2 0 1 -0\n3\n4\n5\n",
        b"interproc-invariants 1\npoints 6\n0\n1\n2 0 0 0\n3\n4\n5\n",
        b"interproc-invariants 1\npoints 6\n0\n1\n2 bottom 0 1 0\n3\n4\n5\n",
        b"",
    ];
    for text in texts {
        assert_eq!(&rt; fault_of(alloc, text)?, Some(CertFault::BadCertificate));
    }
    Ok(())
}

/// Two bounds on two variables, the later place first and one at the coherent place.
#[test]
fn bounds_may_come_in_any_order(rt: HostRuntime) -> Result<(), Fail> {
    let alloc = rt.alloc();
    let mut x = Invariants::new(alloc);
    x.push_top(2)?;
    x.bound(InvBound {
        row: 3,
        column: 0,
        word: 6,
    })?;
    x.bound(InvBound {
        row: 0,
        column: 2,
        word: -3,
    })?;
    x.push_bottom()?;
    assert_eq!(&rt; x.len(), 2);
    assert!(&rt; x.bounds(1).is_none());
    let text = write_invariants(alloc, &x)?;
    assert!(&rt;
        text.as_slice()
            == b"interproc-invariants 1\npoints 2\n0 3 0 6 3 1 -3\n1 bottom\n".as_slice()
    );
    Ok(())
}
