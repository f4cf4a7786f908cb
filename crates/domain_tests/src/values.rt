//! Straight programs through the calls of both domains: every word of the values at their ends, worked out apart.
ghost use Rattle.std.specs.Prelude.{◌≡◌};

use crate::calls::{closed, copied, entered, joined, narrowed, returned, widened};
use crate::cores::{core_in, main_dims};
use crate::straight::{at_end, at_main_end, end_of, end_over};
use crate::views::expect_view;
use dec_domain::DecDomain;
use domain::Domain;
use full_oct::FullDomain;
use oct_def::NoMemory;
use std::alloc::Global;
use std::process::Abort;
use std::test::Fail;

/// Two straight programs, and the words of the join, the widening and the narrowing of their ends.
struct Pair {
    first: &'static str,
    second: &'static str,
    join: &'static str,
    widening: &'static str,
    narrowing: &'static str,
}

/// Straight programs, and the words of the value at the end of each: those that aren't 0 on the diagonal and `NONE` elsewhere,
/// with their places.
const ENDS: [(&str, &str); 30] = [
    (
        "var x:int, y:int; begin x = 3; y = x + 4; end",
        "0 1 -6; 0 2 4; 0 3 -10; 1 0 6; 1 2 10; 1 3 -4; 2 0 -4; 2 1 -10; 2 3 -14; 3 0 10; 3 1 4; 3 2 14; ",
    ),
    (
        "var x:int, y:int; begin x = y; y = y + 1; end",
        "0 2 1; 1 3 -1; 2 0 -1; 3 1 1; ",
    ),
    (
        "var x:int; begin x = 1152921504606846976; x = x + 1; end",
        "0 1 -2305843009213693952; ",
    ),
    (
        "var x:int; begin x = 2305843009213693952; end",
        "0 1 -2305843009213693952; ",
    ),
    ("var x:int, y:int, z:int; begin end", ""),
    (
        "var x:int, y:int, z:int; begin y = x; end",
        "0 2 0; 1 3 0; 2 0 0; 3 1 0; ",
    ),
    (
        "var x:int, y:int, z:int; begin y = x; z = x; end",
        "0 2 0; 0 4 0; 1 3 0; 1 5 0; 2 0 0; 2 4 0; 3 1 0; 3 5 0; 4 0 0; 4 2 0; 5 1 0; 5 3 0; ",
    ),
    (
        "var x:int, y:int, z:int; begin y = x; z = x; x = random; end",
        "2 4 0; 3 5 0; 4 2 0; 5 3 0; ",
    ),
    (
        "var x:int, y:int; begin assume 2*x <= 5 and 2*x >= 5; end",
        "bottom",
    ),
    (
        "var x:int, y:int; begin assume x == y and x + y <= 5; end",
        "0 2 0; 1 0 4; 1 2 4; 1 3 0; 2 0 0; 3 0 4; 3 1 0; 3 2 4; ",
    ),
    (
        "var x:int, y:int; begin assume x == y and x + y == 5; end",
        "bottom",
    ),
    (
        "var x:int, y:int, z:int; begin assume z >= 0 and z <= 5; end",
        "4 5 0; 5 4 10; ",
    ),
    (
        "var x:int, y:int, z:int; begin assume z >= 0 and z <= 5; x = y * z; end",
        "4 5 0; 5 4 10; ",
    ),
    (
        "var x:int, y:int, z:int; begin assume z >= 0 and z <= 5 and y >= 1 and y <= 2; end",
        "2 3 -2; 2 4 4; 2 5 -1; 3 2 4; 3 4 7; 3 5 2; 4 2 2; 4 3 -1; 4 5 0; 5 2 7; 5 3 4; 5 4 10; ",
    ),
    (
        "var x:int, y:int, z:int; begin assume z >= 0 and z <= 5 and y >= 1 and y <= 2; x = y * z; end",
        "0 1 0; 0 2 2; 0 3 -1; 0 4 5; 0 5 0; 1 0 20; 1 2 12; 1 3 9; 1 4 15; 1 5 10; 2 0 9; 2 1 -1; 2 3 -2; 2 4 4; 2 5 -1; 3 0 12; 3 1 2; 3 2 4; 3 4 7; 3 5 2; 4 0 10; 4 1 0; 4 2 2; 4 3 -1; 4 5 0; 5 0 15; 5 1 5; 5 2 7; 5 3 4; 5 4 10; ",
    ),
    (
        "var x:int, y:int, z:int; begin x = y; end",
        "0 2 0; 1 3 0; 2 0 0; 3 1 0; ",
    ),
    (
        "var x:int, y:int, z:int; begin x = y; assume x != y; end",
        "bottom",
    ),
    (
        "var x:int, y:int, z:int; begin x = y; assume not (x == y); end",
        "bottom",
    ),
    (
        "var x:int; begin assume x >= 0 and x <= 9; assume x < 3 or x == 4; end",
        "0 1 0; 1 0 8; ",
    ),
    (
        "var x:int; begin assume x >= 0 and x <= 9; assume not (x < 3 or x > 6); end",
        "0 1 -6; 1 0 12; ",
    ),
    (
        "var x:int; begin assume x >= 0 and x <= 9; assume not (x > 3 and x <= 9); end",
        "0 1 0; 1 0 6; ",
    ),
    (
        "var x:int; begin assume x >= 0 and x <= 9; assume x != 9; end",
        "0 1 0; 1 0 16; ",
    ),
    (
        "var x:int; begin assume x >= 0 and x <= 9; assume random and not false; end",
        "0 1 0; 1 0 18; ",
    ),
    (
        "var x:int; begin assume not (true or x == 1); end",
        "bottom",
    ),
    (
        "var x:int, y:int; begin x = 1152921504606846977; y = -x; end",
        "0 1 -2305843009213693952; 0 2 -2305843009213693952; 0 3 0; 1 2 0; 2 1 0; 3 0 0; 3 1 -2305843009213693952; 3 2 -2305843009213693952; ",
    ),
    (
        "var x:int, y:int; begin x = 1152921504606846977; y = -x; assume x <= 0; end",
        "bottom",
    ),
    (
        "var x:int, y:int; begin assume x >= -1152921504606846976 and x <= 1152921504606846976; end",
        "0 1 2305843009213693952; 1 0 2305843009213693952; ",
    ),
    (
        "var x:int, y:int; begin assume x >= -1152921504606846977 and x <= 1152921504606846977; end",
        "",
    ),
    (
        "var a:int, b:int, c:int; begin assume a + b == 1152921504606846975 and -c <= 1152921504606846975; end",
        "0 3 -1152921504606846975; 1 2 1152921504606846975; 2 1 -1152921504606846975; 3 0 1152921504606846975; 4 5 2305843009213693950; ",
    ),
    (
        "var a:int, b:int, c:int; begin assume a + b == 1152921504606846975 and -c <= 1152921504606846975; assume b == -1152921504606846977; end",
        "0 1 -2305843009213693952; 0 2 -2305843009213693952; 0 3 -1152921504606846975; 0 5 -1152921504606846976; 1 2 1152921504606846975; 2 1 -1152921504606846975; 3 0 1152921504606846975; 3 1 -2305843009213693952; 3 2 -2305843009213693952; 3 5 -1; 4 1 -1152921504606846976; 4 2 -1; 4 5 2305843009213693950; ",
    ),
];

/// A program at whose end a closing lowers an entry though no bound came in, since bounds were clamped: the words before it
/// and after it. An equality in place of its last comparison closes once more.
const CLOSING: (&str, &str, &str) = (
    "var a:int, b:int, c:int; begin assume a + b == 1152921504606846975 and -c <= 1152921504606846975; assume b <= -1152921504606846977; end",
    "0 1 -2305843009213693952; 0 2 -2305843009213693952; 0 3 -1152921504606846975; 0 5 -1; 1 2 1152921504606846975; 2 1 -1152921504606846975; 3 0 1152921504606846975; 3 1 -2305843009213693952; 3 2 -2305843009213693952; 3 5 -1; 4 1 -1; 4 2 -1; 4 5 2305843009213693950; ",
    "0 1 -2305843009213693952; 0 2 -2305843009213693952; 0 3 -1152921504606846975; 0 5 -1152921504606846976; 1 2 1152921504606846975; 2 1 -1152921504606846975; 3 0 1152921504606846975; 3 1 -2305843009213693952; 3 2 -2305843009213693952; 3 5 -1; 4 1 -1152921504606846976; 4 2 -1; 4 5 2305843009213693950; ",
);

/// Pairs of straight programs, with what is made of their ends.
const PAIRS: [Pair; 5] = [
    Pair {
        first: "var x:int; begin x = 0; end",
        second: "var x:int; begin assume x >= 0 and x <= 1; end",
        join: "0 1 0; 1 0 2; ",
        widening: "0 1 0; ",
        narrowing: "0 1 0; 1 0 0; ",
    },
    Pair {
        first: "var x:int; begin assume x >= 0; end",
        second: "var x:int; begin assume x >= 1 and x <= 10; end",
        join: "0 1 0; ",
        widening: "0 1 0; ",
        narrowing: "0 1 0; 1 0 20; ",
    },
    Pair {
        first: "var x:int; begin assume false; end",
        second: "var x:int; begin x = 0; end",
        join: "0 1 0; 1 0 0; ",
        widening: "0 1 0; 1 0 0; ",
        narrowing: "bottom",
    },
    Pair {
        first: "var x:int; begin x = 0; end",
        second: "var x:int; begin assume false; end",
        join: "0 1 0; 1 0 0; ",
        widening: "0 1 0; 1 0 0; ",
        narrowing: "bottom",
    },
    Pair {
        first: "var x:int, y:int; begin x = 0; y = 0; end",
        second: "var x:int, y:int; begin x = 1; y = 1; end",
        join: "0 1 0; 0 2 0; 0 3 0; 1 0 2; 1 2 2; 1 3 0; 2 0 0; 2 1 0; 2 3 0; 3 0 2; 3 1 0; 3 2 2; ",
        widening: "0 1 0; 0 2 0; 0 3 0; 1 3 0; 2 0 0; 2 1 0; 2 3 0; 3 1 0; ",
        narrowing: "0 1 0; 0 2 0; 0 3 0; 1 0 0; 1 2 0; 1 3 0; 2 0 0; 2 1 0; 2 3 0; 3 0 0; 3 1 0; 3 2 0; ",
    },
];

/// The program of the call: both arguments are one variable, and the targets are the argument and another one.
const CALL: &str =
    "proc P(a:int, b:int) returns (s:int, d:int) begin s = a + b; d = a - b; end var x:int, y:int; begin assume x >= 0 and x <= 3; (x, y) = P(x, x); end";

/// The words at the callee's entry, at its exit, and after the call.
const CALLED: [&str; 3] = [
    "0 1 0; 0 2 0; 0 3 0; 1 0 6; 1 2 6; 1 3 0; 2 0 0; 2 1 0; 2 3 0; 3 0 6; 3 1 0; 3 2 6; ",
    "0 1 0; 0 2 0; 0 3 0; 0 4 3; 0 5 0; 0 6 0; 0 7 0; 1 0 6; 1 2 6; 1 3 0; 1 4 9; 1 5 0; 1 6 3; 1 7 3; 2 0 0; 2 1 0; 2 3 0; 2 4 3; 2 5 0; 2 6 0; 2 7 0; 3 0 6; 3 1 0; 3 2 6; 3 4 9; 3 5 0; 3 6 3; 3 7 3; 4 0 0; 4 1 0; 4 2 0; 4 3 0; 4 5 0; 4 6 0; 4 7 0; 5 0 9; 5 1 3; 5 2 9; 5 3 3; 5 4 12; 5 6 6; 5 7 6; 6 0 3; 6 1 0; 6 2 3; 6 3 0; 6 4 6; 6 5 0; 6 7 2; 7 0 3; 7 1 0; 7 2 3; 7 3 0; 7 4 6; 7 5 0; 7 6 2; ",
    "0 1 0; 0 2 0; 0 3 0; 1 0 12; 1 2 6; 1 3 6; 2 0 6; 2 1 0; 2 3 2; 3 0 6; 3 1 0; 3 2 2; ",
];

/// A variable within bounds, and the words after the other one became a copy of it.
const COPY: (&str, &str) = (
    "var x:int, y:int; begin assume x >= 0 and x <= 3; end",
    "0 1 0; 0 2 0; 0 3 0; 1 0 6; 1 2 6; 1 3 0; 2 0 0; 2 1 0; 2 3 0; 3 0 6; 3 1 0; 3 2 6; ",
);

/// Ends the test where the value at the end of a program has another view.
fn expect_end<D: Domain>(
    rt: &impl Abort,
    alloc: Global,
    dom: &mut D,
    text: &str,
    want: &str,
) -> Result<(), Fail> {
    let (end, dims) = end_of(alloc, dom, text)?;
    expect_view(rt, alloc, dom, &end, dims, want, text)
}

#[test]
fn straight_programs_have_values(rt: HostRuntime) -> Result<(), Fail> {
    for (text, want) in &ENDS {
        expect_end(&rt, rt.alloc(), &mut FullDomain::new(), text, want)?;
        expect_end(&rt, rt.alloc(), &mut DecDomain::new(), text, want)?;
    }
    Ok(())
}

/// Ends the test where the value at the end of the program or its closing has another view.
fn expect_closing<D: Domain>(rt: &impl Abort, alloc: Global, dom: &mut D) -> Result<(), Fail> {
    let (text, before, after) = CLOSING;
    let (end, dims) = end_of(alloc, dom, text)?;
    expect_view(rt, alloc, dom, &end, dims, before, "before the closing")?;
    let closing = closed(alloc, dom, &end)?;
    expect_view(rt, alloc, dom, &closing, dims, after, "after the closing")
}

#[test]
fn a_closing_lowers_an_entry(rt: HostRuntime) -> Result<(), Fail> {
    expect_closing(&rt, rt.alloc(), &mut FullDomain::new())?;
    expect_closing(&rt, rt.alloc(), &mut DecDomain::new())
}

/// Ends the test where the join, the widening or the narrowing of the values at the ends of two programs has another view.
fn expect_pair<D: Domain>(
    rt: &impl Abort,
    alloc: Global,
    dom: &mut D,
    pair: &Pair,
) -> Result<(), Fail> {
    let (first, dims) = end_of(alloc, dom, pair.first)?;
    let second = end_over(alloc, dom, pair.second, dims)?;
    let join = joined(alloc, dom, &first, &second)?;
    expect_view(rt, alloc, dom, &join, dims, pair.join, "the join")?;
    let widening = widened(alloc, dom, &first, &second)?;
    expect_view(
        rt,
        alloc,
        dom,
        &widening,
        dims,
        pair.widening,
        "the widening",
    )?;
    let narrowing = narrowed(alloc, dom, &first, &second)?;
    expect_view(
        rt,
        alloc,
        dom,
        &narrowing,
        dims,
        pair.narrowing,
        "the narrowing",
    )
}

#[test]
fn pairs_have_joins_widenings_and_narrowings(rt: HostRuntime) -> Result<(), Fail> {
    for pair in &PAIRS {
        expect_pair(&rt, rt.alloc(), &mut FullDomain::new(), pair)?;
        expect_pair(&rt, rt.alloc(), &mut DecDomain::new(), pair)?;
    }
    Ok(())
}

/// Whether a value is the same as its closing and as a share of it, and isn't Bottom.
fn is_settled<D: Domain>(alloc: Global, dom: &mut D, v: &D::V, dims: u32) -> Result<bool, NoMemory>
    requires dims { (D.meaning v.now).dims ≡ dims }
{
    dom.known(v);
    let closing = closed(alloc, dom, v)?;
    let shared = dom.share(v)?;
    let bottom = dom.bottom(dims);
    let is_closed = dom.same(&closing, v);
    let is_shared = dom.same(&shared, v);
    let is_bottom = dom.same(&bottom, v);
    Ok(is_closed && is_shared && !is_bottom)
}

/// Ends the test where the copy isn't settled or has another view.
fn expect_copy<D: Domain>(rt: &impl Abort, alloc: Global, dom: &mut D) -> Result<(), Fail> {
    let (text, want) = COPY;
    let end = end_over(alloc, dom, text, 2)?;
    let copy = copied(alloc, dom, &end, 1, 0)?;
    let settled = is_settled(alloc, dom, &copy, 2)?;
    assert!(rt; settled);
    expect_view(rt, alloc, dom, &copy, 2, want, "the copy")
}

#[test]
fn copies_relate_variables(rt: HostRuntime) -> Result<(), Fail> {
    expect_copy(&rt, rt.alloc(), &mut FullDomain::new())?;
    expect_copy(&rt, rt.alloc(), &mut DecDomain::new())
}

/// Ends the test where the value at the callee's entry, at its exit or after the call has another view.
fn expect_call<D: Domain>(rt: &impl Abort, alloc: Global, dom: &mut D) -> Result<(), Fail> {
    let core = core_in(alloc, CALL.as_bytes())?;
    let dims = main_dims(&core);
    if dims < 2 {
        return Err("main has two variables".into());
    }
    let inner = core.proc_at(0).dims;
    if inner < 4 {
        return Err("the procedure has four variables".into());
    }
    let caller = at_main_end(alloc, dom, &core)?;
    let entry = entered(alloc, dom, &caller, (0, 0), inner)?;
    expect_view(rt, alloc, dom, &entry, inner, CALLED[0], "the entry")?;
    let exit = at_end(alloc, dom, &core, 0, entry)?;
    expect_view(rt, alloc, dom, &exit, inner, CALLED[1], "the exit")?;
    let after = returned(alloc, dom, &caller, &exit, (0, 0), 0)?;
    expect_view(rt, alloc, dom, &after, dims, CALLED[2], "after the call")
}

#[test]
fn a_call_and_its_return(rt: HostRuntime) -> Result<(), Fail> {
    expect_call(&rt, rt.alloc(), &mut FullDomain::new())?;
    expect_call(&rt, rt.alloc(), &mut DecDomain::new())
}
