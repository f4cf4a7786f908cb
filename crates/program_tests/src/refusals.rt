//! Programs that break a rule: which rule, and where.

use crate::outside::Outside;
use std::test::Fail;

/// Programs that break a rule, each with the line that tells of it.
const REFUSED: &[(&str, &str)] = &[
    ("begin @ end", "refused: BadByte at L1 C7\n"),
    ("begin /* x", "refused: OpenComment at L1 C7\n"),
    (
        "var x:int; begin x = y; end\n",
        "refused: UnknownVariable at L1 C22\n",
    ),
    (
        "var x:int;\nbegin\nx = 2305843009213693953;\nend\n",
        "refused: BigLiteral at L3 C5\n",
    ),
    ("", "refused: Syntax at L1 C1\n"),
    ("begin\nend\n\nend\n", "refused: Syntax at L4 C1\n"),
    ("begin skip;", "refused: Syntax at L1 C12\n"),
    (
        "var x:real; begin end",
        "refused: UnsupportedType at L1 C7\n",
    ),
    ("var x:t; begin end", "refused: UnsupportedType at L1 C7\n"),
    (
        "var x:int; begin x = x / y; end",
        "refused: UnknownVariable at L1 C26\n",
    ),
    (
        "var x:int; begin x = 7 % (x < 2); end",
        "refused: WrongKind at L1 C29\n",
    ),
    (
        "var x:int, x:int; begin end",
        "refused: DuplicateName at L1 C12\n",
    ),
    (
        "var x:int, y:int, y:int, x:int; begin end",
        "refused: DuplicateName at L1 C19\n",
    ),
    (
        "proc f() returns () begin end proc f() returns () begin end begin end",
        "refused: DuplicateName at L1 C36\n",
    ),
    ("begin y = 1; end", "refused: UnknownVariable at L1 C7\n"),
    (
        "var x:int; begin x = f(x); end",
        "refused: UnknownProcedure at L1 C22\n",
    ),
    (
        "var x:int; begin x = f(x, x); end",
        "refused: UnknownProcedure at L1 C22\n",
    ),
    (
        "proc f(a:int) returns (r:int) begin end var x:int; begin x = f(x, x); end",
        "refused: WrongCount at L1 C62\n",
    ),
    (
        "proc f(a:int) returns (r:int) begin end var x:int; begin () = f(x); end",
        "refused: WrongCount at L1 C63\n",
    ),
    (
        "proc f(a:int) returns (r:int) begin end var x:int; begin x = f(y); end",
        "refused: UnknownVariable at L1 C64\n",
    ),
    (
        "proc f() returns (r:int, s:int) begin end var x:int; begin (x, x) = f(); end",
        "refused: RepeatedTarget at L1 C64\n",
    ),
    (
        "proc f() returns (r:int, s:int) begin end var x:int; begin (y, y) = f(); end",
        "refused: UnknownVariable at L1 C61\n",
    ),
    (
        "var x:int; begin x = x < 1; end",
        "refused: WrongKind at L1 C24\n",
    ),
    (
        "var x:int; begin x = x + random; end",
        "refused: WrongKind at L1 C26\n",
    ),
    (
        "var x:int; begin assume x; end",
        "refused: WrongKind at L1 C25\n",
    ),
    (
        "var x:int; begin if x < 1 and 2 then skip; endif; end",
        "refused: WrongKind at L1 C31\n",
    ),
    (
        "var x:int; begin while true do y = 1; done; end",
        "refused: UnknownVariable at L1 C32\n",
    ),
    (
        "proc f() returns () begin x = 1; end begin y = 1; end",
        "refused: UnknownVariable at L1 C27\n",
    ),
    (
        "proc f() returns () begin () = g(); end proc g() returns () begin end begin y = 1; end",
        "refused: UnknownVariable at L1 C77\n",
    ),
];

#[test]
fn refusals(rt: HostRuntime) -> Result<(), Fail> {
    for (text, line) in REFUSED {
        let mut o = Outside::new(rt.alloc(), &["f"], text.as_bytes())?;
        o.expect(&rt, rt.alloc(), text, 3, "", line);
    }
    Ok(())
}
