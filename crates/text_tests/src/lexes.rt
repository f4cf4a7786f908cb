//! Texts that were cut into tokens by hand, and places that were counted by hand.

use crate::texts::long_text;
use spl_text::{Place, Tokens, place_of, tokens};
use std::alloc::Global;
use std::fmt::Write;
use std::test::Fail;

/// Texts and their tokens; texts that break a rule, and their fault.
const TEXTS: [(&str, &str); 66] = [
    ("", ""),
    (" \t\r\n", ""),
    ("begin end", "Begin 0-5 End 6-9"),
    (
        "x1 = 007;",
        "Name 0-2 Becomes 3-4 Number(7) 5-8 Semicolon 8-9",
    ),
    ("iffy if_ if", "Name 0-4 Name 5-8 If 9-11"),
    ("_ _9 A_z", "Name 0-1 Name 2-4 Name 5-8"),
    ("9a", "Number(9) 0-1 Name 1-2"),
    ("a9", "Name 0-2"),
    ("Begin", "Name 0-5"),
    ("beginend", "Name 0-8"),
    ("begin\rend", "Begin 0-5 End 6-9"),
    (
        "proc returns var begin end",
        "Proc 0-4 Returns 5-12 Var 13-16 Begin 17-22 End 23-26",
    ),
    (
        "int real skip halt fail",
        "Int 0-3 Real 4-8 Skip 9-13 Halt 14-18 Fail 19-23",
    ),
    (
        "assume random brandom",
        "Assume 0-6 Random 7-13 Brandom 14-21",
    ),
    (
        "if then else endif",
        "If 0-2 Then 3-7 Else 8-12 Endif 13-18",
    ),
    ("while do done", "While 0-5 Do 6-8 Done 9-13"),
    (
        "not and or true false",
        "Not 0-3 And 4-7 Or 8-10 True 11-15 False 16-21",
    ),
    (
        "(),;:",
        "LeftParen 0-1 RightParen 1-2 Comma 2-3 Semicolon 3-4 Colon 4-5",
    ),
    ("= == !=", "Becomes 0-1 Equal 2-4 NotEqual 5-7"),
    (
        "< <= > >=",
        "Less 0-1 LessEqual 2-4 Greater 5-6 GreaterEqual 7-9",
    ),
    ("+-*/%", "Plus 0-1 Minus 1-2 Star 2-3 Slash 3-4 Percent 4-5"),
    ("===", "Equal 0-2 Becomes 2-3"),
    ("!==", "NotEqual 0-2 Becomes 2-3"),
    ("<==", "LessEqual 0-2 Becomes 2-3"),
    ("=<", "Becomes 0-1 Less 1-2"),
    ("a<b", "Name 0-1 Less 1-2 Name 2-3"),
    ("a</b", "Name 0-1 Less 1-2 Slash 2-3 Name 3-4"),
    ("a<//b\nc", "Name 0-1 Less 1-2 Name 6-7"),
    ("a</*b*/c", "Name 0-1 Less 1-2 Name 7-8"),
    ("a/ /b", "Name 0-1 Slash 1-2 Slash 3-4 Name 4-5"),
    ("a//b", "Name 0-1"),
    ("a///\nb", "Name 0-1 Name 5-6"),
    ("//", ""),
    ("//a\rb", ""),
    ("//a\r\nb", "Name 5-6"),
    ("// /*\nx", "Name 6-7"),
    ("a/**/b", "Name 0-1 Name 5-6"),
    ("/**/", ""),
    ("/***/x", "Name 5-6"),
    ("/*/*/x", "Name 5-6"),
    ("/* // */x", "Name 8-9"),
    ("/*\n*/x", "Name 5-6"),
    ("x/*@*/y", "Name 0-1 Name 6-7"),
    ("//\0\nx", "Name 4-5"),
    ("/*é\0*/x", "Name 7-8"),
    ("-5", "Minus 0-1 Number(5) 1-2"),
    (
        "x=-y;",
        "Name 0-1 Becomes 1-2 Minus 2-3 Name 3-4 Semicolon 4-5",
    ),
    ("2305843009213693952", "Number(2305843009213693952) 0-19"),
    ("0002305843009213693952", "Number(2305843009213693952) 0-22"),
    ("2305843009213693953", "BigLiteral at 0"),
    ("x = 99999999999999999999;", "BigLiteral at 4"),
    ("99999999999999999999 @", "BigLiteral at 0"),
    ("@ 99999999999999999999", "BadByte at 0"),
    ("begin @ end", "BadByte at 6"),
    ("!", "BadByte at 0"),
    ("a! =b", "BadByte at 1"),
    ("a.b", "BadByte at 1"),
    ("x & y", "BadByte at 2"),
    ("\0", "BadByte at 0"),
    ("é", "BadByte at 0"),
    ("x\u{b}", "BadByte at 1"),
    ("x\u{7f}", "BadByte at 1"),
    ("begin /* x", "OpenComment at 6"),
    ("/*", "OpenComment at 0"),
    ("/*/", "OpenComment at 0"),
    ("x /* * / //", "OpenComment at 2"),
];

/// Texts of a head, a piece so many times, and a tail.
const LONG_TEXTS: [(&str, &str, usize, &str, &str); 35] = [
    ("", "a", 64, "", "Name 0-64"),
    ("", "a", 65, "", "LongName at 0"),
    ("x ", "a_9", 30, ";", "LongName at 2"),
    ("", "(", 64, "", "64 tokens"),
    ("", "(", 65, "", "TooDeep at 64"),
    ("", "begin ", 64, "", "64 tokens"),
    ("", "begin ", 65, "", "TooDeep at 384"),
    ("", "if ", 64, "", "64 tokens"),
    ("", "if ", 65, "", "TooDeep at 192"),
    ("", "while ", 64, "", "64 tokens"),
    ("", "while ", 65, "", "TooDeep at 384"),
    ("", "(", 64, ")(", "66 tokens"),
    ("", "(", 64, "end(", "66 tokens"),
    ("", "(", 64, "endif(", "66 tokens"),
    ("", "(", 64, "done(", "66 tokens"),
    ("", "(", 64, ")((", "TooDeep at 66"),
    (") end endif done ", "(", 64, "", "68 tokens"),
    (") end endif done ", "(", 65, "", "TooDeep at 81"),
    ("var x:int; begin x = ", "(", 64, "", "TooDeep at 84"),
    ("", "x ", 1024, "", "1024 tokens"),
    ("", "x ", 1025, "", "LongRun at 2048"),
    ("begin", " skip", 1024, "", "1025 tokens"),
    ("begin", " skip", 1025, "", "LongRun at 5126"),
    ("", "x ", 1024, "then x", "1026 tokens"),
    ("", "x ", 1024, "do x", "1026 tokens"),
    ("", "x ", 1024, "begin x", "1026 tokens"),
    ("", "x ", 1024, ";x", "1026 tokens"),
    ("", "x ", 1024, "else x", "LongRun at 2048"),
    (
        "((((((((((((((((((((((((((((((((",
        "((x ",
        17,
        "",
        "TooDeep at 96",
    ),
    (
        "((((((((((((((((((((((((((((((((((((((((((((((((((((((((((((((((",
        "x ",
        960,
        "(",
        "TooDeep at 1984",
    ),
    ("", "x ", 1024, "99999999999999999999", "BigLiteral at 2048"),
    (
        "",
        "x ",
        1024,
        "aaaaaaaaaabbbbbbbbbbccccccccccddddddddddeeeeeeeeeeffffffffffggggg",
        "LongName at 2048",
    ),
    ("", "9", 1000000, "", "BigLiteral at 0"),
    ("x ", "0", 1000000, "7", "Name 0-1 Number(7) 2-1000003"),
    ("/*", "*", 1000000, "/x", "Name 1000003-1000004"),
];

/// Offsets of `a\nbc\n\nd`, and the line and the column of each.
const PLACES: [(usize, u32, u32); 7] = [
    (0, 1, 1),
    (1, 1, 2),
    (2, 2, 1),
    (4, 2, 3),
    (5, 3, 1),
    (6, 4, 1),
    (7, 4, 2),
];

/// The tokens of a list with their spans.
fn tokens_text(alloc: Global, list: &Tokens) -> Result<String, Fail> {
    let mut line = String::new(alloc);
    for k in 0..list.len() {
        let token = list.at(k);
        let between = if k == 0 { "" } else { " " };
        write!(line, "{between}{:?} ", token.kind)?;
        write!(line, "{}-{}", token.start, token.end)?;
    }
    Ok(line)
}

/// The tokens of a text, or their number where they are many, or the fault.
fn answer(alloc: Global, text: &[u8]) -> Result<String, Fail> {
    if text.len() > 1 << 20 {
        return Err(Fail::new("the text is too long"));
    }
    match tokens(alloc, text) {
        Ok(list) if list.len() > 20 => Ok(format!(in alloc; "{} tokens", list.len())?),
        Ok(list) => tokens_text(alloc, &list),
        Err(fault) => Ok(format!(in alloc; "{fault}")?),
    }
}

#[test]
fn texts_have_tokens(rt: HostRuntime) -> Result<(), Fail> {
    for &(text, want) in &TEXTS {
        let given = answer(rt.alloc(), text.as_bytes())?;
        assert_eq!(&rt; given.as_str(), want, "of {text}");
    }
    Ok(())
}

#[test]
fn long_texts_have_tokens(rt: HostRuntime) -> Result<(), Fail> {
    for &(head, piece, count, tail, want) in &LONG_TEXTS {
        let text = long_text(rt.alloc(), (head, piece), count, "", ("", tail))?;
        let given = answer(rt.alloc(), &text)?;
        assert_eq!(&rt; given.as_str(), want, "of {piece}");
    }
    Ok(())
}

#[test]
fn offsets_have_places(rt: HostRuntime) {
    let text = b"a\nbc\n\nd";
    for &(offset, line, column) in &PLACES {
        assert!(rt; offset <= text.len());
        assert_eq!(rt;
            place_of(text, offset),
            Place { line, column },
            "at {offset}"
        );
    }
}
