//! Texts that were parsed by hand.

use crate::texts::{long_text, read, tree_in};
use spl_tree::{ExprId, StmtId, Tree};
use std::alloc::{AllocError, Global};
use std::fmt::Write;
use std::test::Fail;

/// Programs, and how many expressions and statements they have; texts that are no program, and where they stop being one.
const ANSWERS: [(&str, &str); 56] = [
    ("begin end", "0 expressions, 0 statements"),
    ("begin x = - - y ; end", "3 expressions, 1 statements"),
    ("begin x = not not y ; end", "3 expressions, 1 statements"),
    ("begin x = a and not b ; end", "4 expressions, 1 statements"),
    (
        "begin x = ( not a ) + b ; end",
        "4 expressions, 1 statements",
    ),
    (
        "begin if a then skip ; endif end",
        "1 expressions, 2 statements",
    ),
    (
        "begin if a then skip ; endif ; skip ; end",
        "1 expressions, 3 statements",
    ),
    ("begin while a do done end", "1 expressions, 1 statements"),
    ("begin while a do done ; end", "1 expressions, 1 statements"),
    (
        "begin if a then else endif end",
        "1 expressions, 1 statements",
    ),
    ("begin x = P ( ) ; end", "0 expressions, 1 statements"),
    ("begin ( ) = P ( ) ; end", "0 expressions, 1 statements"),
    (
        "begin ( x , y ) = P ( a , b ) ; end",
        "0 expressions, 1 statements",
    ),
    (
        "begin assume a < b and c < d or true ; end",
        "9 expressions, 1 statements",
    ),
    (
        "var x : int , y : t ; begin end",
        "0 expressions, 0 statements",
    ),
    (
        "proc f ( ) returns ( ) begin end begin end",
        "0 expressions, 0 statements",
    ),
    (
        "begin x = random + brandom * 7 / 7 % 7 ; halt ; fail ; end",
        "9 expressions, 3 statements",
    ),
    ("", "syntax error at byte 0"),
    ("begin end end", "syntax error at byte 10"),
    ("begin x = a < b < c ; end", "syntax error at byte 16"),
    ("begin x = - not y ; end", "syntax error at byte 12"),
    ("begin x = a + not b ; end", "syntax error at byte 14"),
    ("begin ; end", "syntax error at byte 6"),
    ("begin skip end", "syntax error at byte 11"),
    ("begin if a then endif ; ; end", "syntax error at byte 24"),
    (
        "begin if a then else else endif end",
        "syntax error at byte 21",
    ),
    ("begin ( x , ) = P ( ) ; end", "syntax error at byte 12"),
    ("begin x = P ( 7 ) ; end", "syntax error at byte 14"),
    ("begin ( x ) = 7 ; end", "syntax error at byte 14"),
    ("begin ( x ) = P ; end", "syntax error at byte 16"),
    ("begin x = P ( a ) + 7 ; end", "syntax error at byte 18"),
    ("begin x = ( P ) ( a ) ; end", "syntax error at byte 16"),
    ("begin x = ; end", "syntax error at byte 10"),
    ("begin x = 7 end", "syntax error at byte 12"),
    ("begin x 7 ; end", "syntax error at byte 8"),
    ("begin assume ; end", "syntax error at byte 13"),
    ("begin if a do done end", "syntax error at byte 11"),
    ("begin while a then end", "syntax error at byte 14"),
    ("begin if ( a then endif end", "syntax error at byte 13"),
    ("begin x = a ) ; end", "syntax error at byte 12"),
    ("var begin end", "syntax error at byte 4"),
    ("var x : int begin end", "syntax error at byte 12"),
    ("proc f ( ) begin end begin end", "syntax error at byte 11"),
    (
        "begin end proc f ( ) returns ( ) begin end",
        "syntax error at byte 10",
    ),
    ("proc f ( ) returns ( ) proc g", "syntax error at byte 23"),
    ("begin done end", "syntax error at byte 6"),
    ("begin else end", "syntax error at byte 6"),
    ("begin endif end", "syntax error at byte 6"),
    ("begin while a do endif end", "syntax error at byte 17"),
    ("begin if a then done end", "syntax error at byte 16"),
    ("begin if a then end", "syntax error at byte 16"),
    ("begin x = a or or b ; end", "syntax error at byte 15"),
    ("begin x = int ; end", "syntax error at byte 10"),
    ("begin x = a == b != c ; end", "syntax error at byte 17"),
    ("begin x = not", "syntax error at byte 13"),
    ("begin", "syntax error at byte 5"),
];

/// Programs, their expressions and their statements, each with its places.
const TREES: [(&str, &str, &str); 7] = [
    (
        "begin x = a - b - c ; end",
        "Variable(NameId(1)) at 10; Variable(NameId(2)) at 14; Binary(Sub, ExprId(0), ExprId(1)) at 12; Variable(NameId(3)) at 18; Binary(Sub, ExprId(2), ExprId(3)) at 16; ",
        "StmtAt { start: 6, called: 6, first_block: 6, second_block: 6, end: 21 }; ",
    ),
    (
        "begin x = not a and b ; end",
        "Variable(NameId(1)) at 14; Not(ExprId(0)) at 10; Variable(NameId(2)) at 20; Binary(And, ExprId(1), ExprId(2)) at 16; ",
        "StmtAt { start: 6, called: 6, first_block: 6, second_block: 6, end: 23 }; ",
    ),
    (
        "begin x = ( a + b ) * c ; end",
        "Variable(NameId(1)) at 12; Variable(NameId(2)) at 16; Binary(Add, ExprId(0), ExprId(1)) at 14; Variable(NameId(3)) at 22; Binary(Mul, ExprId(2), ExprId(3)) at 20; ",
        "StmtAt { start: 6, called: 6, first_block: 6, second_block: 6, end: 25 }; ",
    ),
    (
        "begin x = brandom ; end",
        "Random at 10; ",
        "StmtAt { start: 6, called: 6, first_block: 6, second_block: 6, end: 19 }; ",
    ),
    (
        "begin if a then skip ; else endif end",
        "Variable(NameId(0)) at 9; ",
        "StmtAt { start: 16, called: 16, first_block: 16, second_block: 16, end: 22 }; StmtAt { start: 6, called: 6, first_block: 15, second_block: 27, end: 33 }; ",
    ),
    (
        "begin if a then endif ; end",
        "Variable(NameId(0)) at 9; ",
        "StmtAt { start: 6, called: 6, first_block: 15, second_block: 6, end: 23 }; ",
    ),
    (
        "begin ( x ) = P ( a ) ; end",
        "",
        "StmtAt { start: 6, called: 14, first_block: 6, second_block: 6, end: 23 }; ",
    ),
];

/// Texts of a head, a piece so many times, a middle, another piece as often, and a tail.
const LONG_TEXTS: [(&str, &str, usize, &str, &str, &str, &str); 6] = [
    (
        "begin x=",
        "not ",
        1000,
        "y",
        "",
        ";end",
        "1001 expressions, 1 statements",
    ),
    (
        "begin x=",
        "-",
        1000,
        "y",
        "",
        ";end",
        "1001 expressions, 1 statements",
    ),
    (
        "begin x=",
        "(",
        63,
        "y",
        ")",
        ";end",
        "1 expressions, 1 statements",
    ),
    (
        "begin ",
        "if y then ",
        63,
        "",
        "endif ",
        "end",
        "63 expressions, 63 statements",
    ),
    (
        "begin ",
        "skip;",
        200000,
        "",
        "",
        "end",
        "0 expressions, 200000 statements",
    ),
    ("", "; ", 524288, "", "", "", "syntax error at byte 0"),
];

/// How many expressions and statements the tree of a text has, or why the text has none.
pub(crate) fn answer(alloc: Global, text: &[u8]) -> Result<String, AllocError> {
    match read(alloc, text)? {
        Ok(tree) => format!(in alloc;
            "{} expressions, {} statements",
            tree.expr_count(),
            tree.stmt_count()
        ),
        Err(fault) => Ok(fault),
    }
}

/// The expressions of a tree.
fn exprs_text(alloc: Global, tree: &Tree) -> Result<String, Fail> {
    let mut line = String::new(alloc);
    for k in 0..tree.expr_count() {
        let e = ExprId(k);
        let (expr, place) = (tree.expr(e), tree.expr_place(e));
        write!(line, "{expr:?} at {place}; ")?;
    }
    Ok(line)
}

/// The places of a tree's statements.
fn stmts_text(alloc: Global, tree: &Tree) -> Result<String, Fail> {
    let mut line = String::new(alloc);
    for k in 0..tree.stmt_count() {
        let place = tree.stmt_place(StmtId(k));
        write!(line, "{place:?}; ")?;
    }
    Ok(line)
}

#[test]
fn texts_are_parsed(rt: HostRuntime) -> Result<(), Fail> {
    for &(text, want) in &ANSWERS {
        let given = answer(rt.alloc(), text.as_bytes())?;
        assert_eq!(&rt; given.as_str(), want, "of {text}");
    }
    Ok(())
}

#[test]
fn nodes_have_places(rt: HostRuntime) -> Result<(), Fail> {
    for &(text, exprs, stmts) in &TREES {
        let tree = tree_in(rt.alloc(), text.as_bytes())?;
        let given = exprs_text(rt.alloc(), &tree)?;
        assert_eq!(&rt; given.as_str(), exprs, "of {text}");
        let given = stmts_text(rt.alloc(), &tree)?;
        assert_eq!(&rt; given.as_str(), stmts, "of {text}");
    }
    Ok(())
}

#[test]
fn long_texts_are_parsed(rt: HostRuntime) -> Result<(), Fail> {
    for &(head, open, count, middle, close, tail, want) in &LONG_TEXTS {
        let text = long_text(rt.alloc(), (head, open), count, middle, (close, tail))?;
        let given = answer(rt.alloc(), &text)?;
        assert_eq!(&rt; given.as_str(), want, "of {open}");
    }
    Ok(())
}
