//! Programs whose answers were worked out by hand.

use crate::texts::read;
use spl_text::place_of;
use spl_types::{CheckFault, Checked, check};
use std::alloc::Global;
use std::fmt::Write;
use std::test::Fail;

/// Programs, and the names of the dimensions of each procedure, main last; programs that break a rule, and the first place
/// of one.
const ANSWERS: [(&str, &str); 58] = [
    ("begin end", "0:; "),
    ("var x:int, y:int; begin x = y; end", "2: x y; "),
    (
        "proc f(a:int, b:int) returns (r:int) var t:int; begin t = a; r = b; end begin end",
        "4: a b r t; 0:; ",
    ),
    (
        "proc f(a:int, b:int) returns (r:int) var t:int; begin b = a; end begin end",
        "5: a b@ r t b; 0:; ",
    ),
    (
        "proc f(a:int, b:int) returns () begin while random do b = 1; if random then a = b; endif; done; end begin end",
        "4: a@ b@ a b; 0:; ",
    ),
    (
        "proc f(a:int) returns (r:int) begin a = f(a); a = a; (a) = f(a); end begin end",
        "3: a@ r a; 0:; ",
    ),
    (
        "proc g() returns (r:int) begin r = f(r); end proc f(a:int) returns (r:int) begin r = g(); end var x:int; begin x = f(x); end",
        "1: r; 2: a r; 1: x; ",
    ),
    ("var x:int; begin x = random; assume random; end", "1: x; "),
    ("var f:int; begin f = f; end", "1: f; "),
    (
        "proc f() returns () begin end var f:int; begin () = f(); end",
        "0:; 1: f; ",
    ),
    (
        "var x:int; begin assume not (x < 1 and x + 1 == x * 2 or true); end",
        "1: x; ",
    ),
    (
        "var x:int; begin if x < 1 then halt; else fail; endif; end",
        "1: x; ",
    ),
    ("var x:int; begin assume - - x < - 1; end", "1: x; "),
    (
        "proc p(x:int) returns () begin end proc q(x:int) returns () begin end begin end",
        "1: x; 1: x; 0:; ",
    ),
    (
        "proc p(sqrt:int) returns () begin sqrt = sqrt; end begin end",
        "2: sqrt@ sqrt; 0:; ",
    ),
    (
        "proc P(a:int, b:int) returns (s:int, d:int)\nbegin\ns = a + b;\nd = a - b;\nend\nvar x:int, y:int;\nbegin\nassume x >= 0 and x <= 3;\n(x, y) = P(x, x);\nend",
        "4: a b s d; 2: x y; ",
    ),
    ("var x:real; begin end", "UnsupportedType at L1 C7"),
    ("var x:sqrt; begin end", "UnsupportedType at L1 C7"),
    ("var x:int; begin x = x / 2; end", "1: x; "),
    (
        "var x:int; begin x = x % y; end",
        "UnknownVariable at L1 C26",
    ),
    ("var x:int, x:int; begin end", "DuplicateName at L1 C12"),
    (
        "var x:int, x:int, x:int; begin end",
        "DuplicateName at L1 C12",
    ),
    ("var x:int, x:real; begin end", "DuplicateName at L1 C12"),
    (
        "proc f(a:int) returns (a:int) begin end begin end",
        "DuplicateName at L1 C24",
    ),
    (
        "proc f(a:int) returns (r:int) var a:int; begin end begin end",
        "DuplicateName at L1 C35",
    ),
    (
        "proc f() returns () begin end proc f() returns () begin end begin end",
        "DuplicateName at L1 C36",
    ),
    (
        "proc f() returns () begin end proc g() returns () begin end proc f(a:real) returns () begin end begin end",
        "DuplicateName at L1 C66",
    ),
    (
        "proc g() returns () begin () = f(); x = 1; end proc f() returns () begin end proc f() returns () begin end begin end",
        "UnknownVariable at L1 C37",
    ),
    (
        "proc g() returns () begin () = f(); end proc f() returns () begin end proc f(a:int) returns () begin end begin end",
        "DuplicateName at L1 C76",
    ),
    ("begin y = 1; end", "UnknownVariable at L1 C7"),
    ("var x:int; begin x = y; end", "UnknownVariable at L1 C22"),
    (
        "var x:int; begin x = x + (y - z); end",
        "UnknownVariable at L1 C27",
    ),
    (
        "var x:int; begin x = x + y / z; end",
        "UnknownVariable at L1 C26",
    ),
    (
        "proc f() returns () var y:int; begin end begin y = 1; end",
        "UnknownVariable at L1 C48",
    ),
    (
        "var x:int; begin x = f(x); end",
        "UnknownProcedure at L1 C22",
    ),
    (
        "var x:int; begin x = x(x); end",
        "UnknownProcedure at L1 C22",
    ),
    (
        "var x:int; begin x = f(y); end",
        "UnknownProcedure at L1 C22",
    ),
    (
        "proc f(a:int) returns (r:int) begin end var x:int; begin x = f(x, x); end",
        "WrongCount at L1 C62",
    ),
    (
        "proc f(a:int) returns (r:int) begin end var x:int; begin x = f(x, y); end",
        "WrongCount at L1 C62",
    ),
    (
        "proc f(a:int) returns (r:int) begin end var x:int; begin () = f(x); end",
        "WrongCount at L1 C63",
    ),
    (
        "proc f(a:int) returns (r:int) begin end var x:int; begin x = f(y); end",
        "UnknownVariable at L1 C64",
    ),
    (
        "proc f() returns () begin end var x:int; begin (x, y) = f(); end",
        "UnknownVariable at L1 C52",
    ),
    (
        "proc P(a:int, b:int) returns (s:int, d:int)\nbegin\ns = a + b;\nd = a - b;\nend\nvar x:int, y:int;\nbegin\nassume x >= 0 and x <= 3;\n(x, x) = P(x, y);\nend",
        "RepeatedTarget at L9 C5",
    ),
    (
        "var x:int, y:int; begin (x, y, x, y, z) = f(); end",
        "RepeatedTarget at L1 C32",
    ),
    ("begin (y, y) = f(); end", "UnknownVariable at L1 C8"),
    ("var x:int; begin x = x < 1; end", "WrongKind at L1 C24"),
    ("var x:int; begin x = true; end", "WrongKind at L1 C22"),
    ("var x:int; begin x = - random; end", "WrongKind at L1 C24"),
    ("var x:int; begin assume x; end", "WrongKind at L1 C25"),
    ("begin assume y; end", "WrongKind at L1 C14"),
    ("var x:int; begin assume x / 2; end", "WrongKind at L1 C27"),
    (
        "var x:int; begin assume x < 1 and not x; end",
        "WrongKind at L1 C39",
    ),
    (
        "var x:int; begin assume true == x; end",
        "WrongKind at L1 C25",
    ),
    (
        "var x:int; begin while 1 do y = 2; done; end",
        "WrongKind at L1 C24",
    ),
    (
        "var x:int; begin if true then x = 1; else y = 2; endif; end",
        "UnknownVariable at L1 C43",
    ),
    (
        "var x:int; begin while true do if true then y = 2; endif; done; z = 1; end",
        "UnknownVariable at L1 C45",
    ),
    ("var x:real; begin y = 1; end", "UnsupportedType at L1 C7"),
    (
        "proc f() returns () begin y = 1; end var x:real; begin end",
        "UnknownVariable at L1 C27",
    ),
];

/// A text with a piece so many times, with its number in it or not: the head, what stands before the number and after
/// it, how often, the tail, and the answer.
struct Repeated {
    head: &'static str,
    piece: (&'static str, &'static str),
    numbered: bool,
    count: u32,
    tail: &'static str,
    want: &'static str,
}

/// Texts at the limits, on either side.
const LIMITS: [Repeated; 10] = [
    Repeated {
        head: "var ",
        piece: ("x", ":int, "),
        numbered: true,
        count: 127,
        tail: "y:int; begin end",
        want: "accepted, main has 128",
    },
    Repeated {
        head: "var ",
        piece: ("x", ":int, "),
        numbered: true,
        count: 128,
        tail: "y:int; begin end",
        want: "TooManyVariables at L1 C1175",
    },
    Repeated {
        head: "",
        piece: ("proc p", "() returns () begin end "),
        numbered: true,
        count: 256,
        tail: "begin end",
        want: "accepted, main has 0",
    },
    Repeated {
        head: "",
        piece: ("proc p", "() returns () begin end "),
        numbered: true,
        count: 256,
        tail: "proc q() returns () begin end begin end",
        want: "TooManyProcedures at L1 C8344",
    },
    Repeated {
        head: "begin",
        piece: (" skip;", ""),
        numbered: false,
        count: 4094,
        tail: " end",
        want: "accepted, main has 0",
    },
    Repeated {
        head: "begin",
        piece: (" skip;", ""),
        numbered: false,
        count: 4095,
        tail: " end",
        want: "TooManyPoints at L1 C24576",
    },
    Repeated {
        head: "proc f(a:int) returns () var ",
        piece: ("x", ":int, "),
        numbered: true,
        count: 125,
        tail: "y:int; begin a = 1; a = 2; end begin end",
        want: "accepted, main has 0",
    },
    Repeated {
        head: "proc f(a:int) returns () var ",
        piece: ("x", ":int, "),
        numbered: true,
        count: 126,
        tail: "y:int; begin a = 1; a = 2; end begin end",
        want: "TooManyVariables at L1 C1193",
    },
    Repeated {
        head: "var x:int; begin assume ",
        piece: ("not ", ""),
        numbered: false,
        count: 1000,
        tail: "x < 1; end",
        want: "accepted, main has 1",
    },
    Repeated {
        head: "var x:int; begin x = ",
        piece: ("-", ""),
        numbered: false,
        count: 1000,
        tail: "true; end",
        want: "WrongKind at L1 C1022",
    },
];

/// The names of the dimensions of each procedure.
fn dims_text(alloc: Global, checked: &Checked) -> Result<String, Fail> {
    let mut line = String::new(alloc);
    for p in 0..=checked.tree().proc_count() {
        let names = checked.names(alloc, p)?;
        write!(line, "{}:", checked.dims(p))?;
        for v in 0..names.len() {
            let text = String::from_utf8_lossy(alloc, names.name(v))?;
            write!(line, " {text}")?;
        }
        write!(line, "; ")?;
    }
    Ok(line)
}

/// A fault by its rule and its place.
fn fault_text(alloc: Global, text: &[u8], fault: CheckFault) -> Result<String, Fail> {
    let mut line = String::new(alloc);
    match fault {
        CheckFault::Broken(rule, at) if at <= text.len() && text.len() <= 1 << 20 => {
            let place = place_of(text, at);
            write!(line, "{rule:?} at L{} C{}", place.line, place.column)?;
        }
        _ => write!(line, "{fault}")?,
    }
    Ok(line)
}

/// What the checks answer for a text, with the names of all dimensions or how many main has.
fn answer(alloc: Global, text: &[u8], whole: bool) -> Result<String, Fail> {
    let tree = match read(alloc, text)? {
        Ok(tree) => tree,
        Err(fault) => return Ok(fault),
    };
    match check(alloc, &tree) {
        Ok(checked) if whole => dims_text(alloc, &checked),
        Ok(checked) => {
            let main = checked.tree().proc_count();
            Ok(format!(in alloc; "accepted, main has {}", checked.dims(main))?)
        }
        Err(fault) => fault_text(alloc, text, fault),
    }
}

/// The text of a repetition.
fn text_of(alloc: Global, text: &Repeated) -> Result<String, Fail> {
    let mut line = String::from_str(alloc, text.head)?;
    for k in 0..text.count {
        line.push_str(text.piece.0)?;
        if text.numbered {
            write!(line, "{k}")?;
        }
        line.push_str(text.piece.1)?;
    }
    line.push_str(text.tail)?;
    Ok(line)
}

#[test]
fn texts_are_checked(rt: HostRuntime) -> Result<(), Fail> {
    for &(text, want) in &ANSWERS {
        let given = answer(rt.alloc(), text.as_bytes(), true)?;
        assert_eq!(&rt; given.as_str(), want, "of {text}");
    }
    Ok(())
}

#[test]
fn limits(rt: HostRuntime) -> Result<(), Fail> {
    for text in &LIMITS {
        let line = text_of(rt.alloc(), text)?;
        let given = answer(rt.alloc(), line.as_bytes(), false)?;
        assert_eq!(&rt; given.as_str(), text.want, "of {}", text.count);
    }
    Ok(())
}

/// Appends a procedure with a hundred variables and a dozen long statements.
fn put_large(text: &mut String, p: u32) -> Result<(), Fail> {
    write!(text, "proc p{p}(a:int) returns (r:int) var ")?;
    for k in 0..100 {
        write!(text, "x{p}_{k}:int, ")?;
    }
    text.push_str("y:int; begin ")?;
    for _ in 0..12 {
        put_sum(text, p)?;
    }
    text.push_str("end ")?;
    Ok(())
}

/// Appends a statement with a sum of twenty variables.
fn put_sum(text: &mut String, p: u32) -> Result<(), Fail> {
    text.push_str("y = a")?;
    for k in 0..20 {
        write!(text, " + x{p}_{k}")?;
    }
    text.push_str("; ")?;
    Ok(())
}

/// A text of almost a mebibyte: 256 procedures with a hundred variables and a dozen long statements each.
#[test]
fn large(rt: HostRuntime) -> Result<(), Fail> {
    let mut text = String::new(rt.alloc());
    for p in 0..256 {
        put_large(&mut text, p)?;
    }
    text.push_str("begin end")?;
    let given = answer(rt.alloc(), text.as_bytes(), false)?;
    assert_eq!(&rt; given.as_str(), "accepted, main has 0");
    Ok(())
}
