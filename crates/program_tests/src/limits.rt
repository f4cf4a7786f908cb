//! Texts at the limits of the grammar, of the checks and of the numbers.

use crate::outside::Outside;
use crate::reports::{COUNTED, COUNTING};
use std::alloc::Global;
use std::process::Abort;
use std::test::Fail;

/// A part of a text.
#[derive(Clone, Copy)]
enum Part {
    Once(&'static str),
    Times(usize, &'static str),
    /// So many times the two pieces, with the number of the time between them.
    Numbered(usize, &'static str, &'static str),
}

use Part::{Numbered, Once, Times};

/// How a report ends whose last text is `top`.
const TOP_AT_THE_END: &str = ") top */\nend\n/* rounds: 2 */\n";

/// A name for the case, the parts of a program, the end of its report, and how often some pieces stand in the report.
const ACCEPTED: &[(&str, &[Part], &str, &[(&str, usize)])] = &[
    (
        "63 parentheses",
        &[
            Once("var x:int; begin x = "),
            Times(63, "("),
            Once("1"),
            Times(63, ")"),
            Once("; end"),
        ],
        ") [|x-1=0|] */\nend\n/* rounds: 2 */\n",
        &[("/* (L", 2), (") top */", 1)],
    ),
    (
        "1000 words before a true",
        &[
            Once("begin assume"),
            Times(1000, " not"),
            Once(" true; end"),
        ],
        TOP_AT_THE_END,
        &[("/* (L", 2), (") top */", 2)],
    ),
    (
        "a name of 64 letters",
        &[Once("var "), Times(64, "x"), Once(":int; begin end")],
        TOP_AT_THE_END,
        &[("/* (L", 1)],
    ),
    (
        "128 variables",
        &[
            Once("var a:int"),
            Numbered(127, ", x", ":int"),
            Once("; begin end"),
        ],
        TOP_AT_THE_END,
        &[("/* (L", 1)],
    ),
    (
        "127 inputs, of which one is assigned",
        &[
            Once("proc f(a:int"),
            Numbered(126, ", x", ":int"),
            Once(") returns () begin a = 1; end begin end"),
        ],
        TOP_AT_THE_END,
        &[("/* (L", 3), (") bottom */", 2)],
    ),
    (
        "256 procedures",
        &[
            Numbered(256, "proc p", "() returns () begin end "),
            Once("begin end"),
        ],
        TOP_AT_THE_END,
        &[("/* (L", 257), (") bottom */", 256)],
    ),
    (
        "4094 statements",
        &[Once("begin"), Times(4094, " skip;"), Once(" end")],
        TOP_AT_THE_END,
        &[("/* (L", 4095), (") top */", 4095)],
    ),
];

/// A name for the case, the parts of a text, and the line that tells why it is refused.
const REFUSED: &[(&str, &[Part], &str)] = &[
    (
        "a report that is cut off",
        &[Once("begin\n  /* (L1 C6) top */\nend\n/* r")],
        "refused: OpenComment at L4 C1\n",
    ),
    (
        "64 parentheses",
        &[Once("var x:int; begin x = "), Times(64, "(")],
        "refused: TooDeep at L1 C85\n",
    ),
    (
        "1000 words before a variable",
        &[
            Once("var x:int; begin assume "),
            Times(1000, "not "),
            Once("x; end"),
        ],
        "refused: WrongKind at L1 C4025\n",
    ),
    (
        "1000 signs",
        &[
            Once("var x:int; begin x = "),
            Times(1000, "-"),
            Once("y; end"),
        ],
        "refused: UnknownVariable at L1 C1022\n",
    ),
    (
        "63 conditions",
        &[
            Once("var x:int; begin "),
            Times(63, "if x < 1 then "),
            Once("y = 1; end"),
        ],
        "refused: Syntax at L1 C907\n",
    ),
    (
        "a run of 1025 words",
        &[Once("begin"), Times(1025, " skip")],
        "refused: LongRun at L1 C5127\n",
    ),
    (
        "a name of 65 letters",
        &[Once("var "), Times(65, "x"), Once(":int; begin end")],
        "refused: LongName at L1 C5\n",
    ),
    (
        "129 variables",
        &[
            Once("var a:int"),
            Numbered(128, ", x", ":int"),
            Once("; begin end"),
        ],
        "refused: TooManyVariables at L1 C1172\n",
    ),
    (
        "128 inputs, of which one is assigned",
        &[
            Once("proc f(a:int"),
            Numbered(127, ", x", ":int"),
            Once(") returns () begin a = 1; end begin end"),
        ],
        "refused: TooManyVariables at L1 C1192\n",
    ),
    (
        "257 procedures",
        &[
            Numbered(257, "proc p", "() returns () begin end "),
            Once("begin end"),
        ],
        "refused: TooManyProcedures at L1 C8344\n",
    ),
    (
        "4095 statements",
        &[Once("begin"), Times(4095, " skip;"), Once(" end")],
        "refused: TooManyPoints at L1 C24576\n",
    ),
];

/// As many spaces, and the line: a file of more bytes than are read is too long.
const LONGEST: &[(usize, &str)] = &[
    (1 << 20, "refused: Syntax at L1 C1048577\n"),
    ((1 << 20) + 1, "refused: TooLong\n"),
];

/// The two pieces so many times, with the number of the time between them.
fn numbered(alloc: Global, count: usize, front: &str, back: &str) -> Result<String, Fail> {
    let mut text = String::new(alloc);
    for number in 0..count {
        text.push_str(&format!(in alloc; "{front}{number}{back}")?)?;
    }
    Ok(text)
}

/// The text of a part.
fn part_text(alloc: Global, part: Part) -> Result<String, Fail> {
    let text = match part {
        Once(piece) => piece.repeat(alloc, 1)?,
        Times(count, piece) => piece.repeat(alloc, count)?,
        Numbered(count, front, back) => numbered(alloc, count, front, back)?,
    };
    Ok(text)
}

/// The text of these parts.
fn text_of(alloc: Global, parts: &[Part]) -> Result<Vec<u8>, Fail> {
    let mut text = Vec::new(alloc);
    for part in parts {
        text.extend_from_slice(part_text(alloc, *part)?.as_bytes())?;
    }
    Ok(text)
}

/// How often a piece stands in a text.
fn occurrences(text: &[u8], piece: &[u8]) -> usize {
    let mut count = 0;
    for at in 0..text.len() {
        if text[at..].starts_with(piece) {
            count += 1;
        }
    }
    count
}

/// Runs the program once: it writes a report with this end.
fn expect_end(rt: &impl Abort, alloc: Global, o: &mut Outside, case: &str, end: &str) {
    assert_eq!(rt; o.run(alloc), 0, "{case}");
    assert_eq!(rt; o.err.bytes().len(), 0, "{case}");
    assert!(rt; o.out.bytes().ends_with(end.as_bytes()), "{case}");
}

/// Compares how often some pieces stand in a report.
fn expect_pieces(rt: &impl Abort, report: &[u8], case: &str, wanted: &[(&str, usize)]) {
    for (piece, times) in wanted {
        assert_eq!(rt;
            occurrences(report, piece.as_bytes()),
            *times,
            "{case}: {piece}"
        );
    }
}

#[test]
fn accepted_at_the_limit(rt: HostRuntime) -> Result<(), Fail> {
    for (case, parts, end, wanted) in ACCEPTED {
        let text = text_of(rt.alloc(), parts)?;
        let mut o = Outside::new(rt.alloc(), &["f"], &text)?;
        expect_end(&rt, rt.alloc(), &mut o, case, end);
        expect_pieces(&rt, o.out.bytes(), case, wanted);
    }
    Ok(())
}

#[test]
fn refused_past_the_limit(rt: HostRuntime) -> Result<(), Fail> {
    for (case, parts, line) in REFUSED {
        let text = text_of(rt.alloc(), parts)?;
        let mut o = Outside::new(rt.alloc(), &["f"], &text)?;
        o.expect(&rt, rt.alloc(), case, 3, "", line);
    }
    Ok(())
}

#[test]
fn longest_files(rt: HostRuntime) -> Result<(), Fail> {
    for (count, line) in LONGEST {
        let spaces = vec![in rt.alloc(); b' '; *count]?;
        let mut o = Outside::new(rt.alloc(), &["f"], &spaces)?;
        o.expect(&rt, rt.alloc(), line, 3, "", line);
    }
    Ok(())
}

/// Runs the program once: it refuses the text, of so many bytes, as no program.
fn expect_no_program(rt: &impl Abort, alloc: Global, o: &mut Outside, bytes: usize) {
    assert_eq!(rt; o.run(alloc), 3, "{bytes} bytes");
    assert_eq!(rt; o.out.bytes().len(), 0);
    assert!(rt; o.err.bytes().starts_with(b"refused: Syntax at L"));
}

/// The last line end may be missing, and nothing else.
#[test]
fn each_front_of_a_program(rt: HostRuntime) -> Result<(), Fail> {
    let text = COUNTING.as_bytes();
    for front in 0..=text.len() {
        let mut o = Outside::new(rt.alloc(), &["f"], &text[..front])?;
        if front < 60 {
            expect_no_program(&rt, rt.alloc(), &mut o, front);
        } else {
            o.expect(&rt, rt.alloc(), "the whole program", 0, COUNTED, "");
        }
    }
    Ok(())
}

/// A program with numbers at the limit, and how its report ends.
const NUMBERS: &[(&str, &str)] = &[
    (
        "var x:int, y:int; begin x = 1152921504606846977; y = -x; end",
        "[|x-1152921504606846976>=0; x+y=0; -y-1152921504606846976>=0|] */\nend\n/* rounds: 2 */\n",
    ),
    (
        "var x:int, y:int; begin x = 1152921504606846977; y = -x; assume x <= 0; end",
        ") bottom */\nend\n/* rounds: 2 */\n",
    ),
    (
        "var x:int, y:int; begin assume x >= -1152921504606846976 and x <= 1152921504606846976; end",
        "[|x+1152921504606846976>=0; -x+1152921504606846976>=0|] */\nend\n/* rounds: 2 */\n",
    ),
    (
        "var x:int, y:int; begin assume x >= -1152921504606846977 and x <= 1152921504606846977; end",
        TOP_AT_THE_END,
    ),
    (
        "var x:int, y:int; begin x = 2305843009213693952; y = x * x; end",
        "[|x-1152921504606846976>=0; y-1152921504606846976>=0|] */\nend\n/* rounds: 2 */\n",
    ),
];

/// Runs the programs with numbers at the limit in one domain.
fn expect_numbers(rt: &impl Abort, alloc: Global, domain: &str) -> Result<(), Fail> {
    for (text, end) in NUMBERS {
        let mut o = Outside::new(alloc, &["--domain", domain, "f"], text.as_bytes())?;
        expect_end(rt, alloc, &mut o, text, end);
    }
    Ok(())
}

#[test]
fn numbers_at_the_limit(rt: HostRuntime) -> Result<(), Fail> {
    expect_numbers(&rt, rt.alloc(), "dec")?;
    expect_numbers(&rt, rt.alloc(), "full")
}
