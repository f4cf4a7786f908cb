//! Runs that are followed step by step.

use crate::outside::Outside;
use crate::reports::COUNTING;
use std::test::Fail;

/// A program with a quotient that is missing where x is 0.
const DIVIDING: &str = "var x:int;\nbegin\nx = 7 / x;\nend\n";

/// A program, the word for the choices, the choices as the file `c`, the status, the lines of the run, and the line on
/// the second stream.
const REPLAYS: &[(&str, &str, &str, u8, &str, &str)] = &[
    (
        COUNTING,
        "c",
        "7\n0\n0\n0\n0\n",
        0,
        "0 1 7\n1 1 7\n2 1 0\n3 1 0\n4 1 1\n",
        "",
    ),
    (
        COUNTING,
        "c",
        "7\n0\n0\n0\n1\n",
        3,
        "",
        "refused: NotARun 4\n",
    ),
    (
        "var x:int;\nbegin\nx = x * x;\nend\n",
        "c",
        "18446744073709551616\n0\n0\n",
        3,
        "",
        "refused: Wide 2\n",
    ),
    (COUNTING, "c", "x", 3, "", "refused: BadChoices at L1 C1\n"),
    (COUNTING, "c", "", 3, "", "refused: NotARun 0\n"),
    ("begin fail; end", "c", "\n0", 1, "0 1\n1 1\n", ""),
    (
        "begin y = 1; end",
        "c",
        "x",
        3,
        "",
        "refused: UnknownVariable at L1 C7\n",
    ),
    (
        DIVIDING,
        "c",
        "-2\n0\n0\n",
        0,
        "0 1 -2\n1 1 -2\n2 1 -3\n",
        "",
    ),
    (DIVIDING, "c", "0\n0\n0\n", 3, "", "refused: NotARun 2\n"),
    (COUNTING, "d", "", 4, "", "fault: CannotOpen\n"),
    ("begin @", "d", "", 3, "", "refused: BadByte at L1 C7\n"),
];

#[test]
fn replays(rt: HostRuntime) -> Result<(), Fail> {
    for (text, word, choices, status, lines, line) in REPLAYS {
        let mut o = Outside::new(rt.alloc(), &["replay", "f", *word], text.as_bytes())?;
        o.files.put(b"c", choices.as_bytes())?;
        o.expect(&rt, rt.alloc(), line, *status, lines, line);
    }
    Ok(())
}
