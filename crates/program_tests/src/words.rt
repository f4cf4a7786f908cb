//! The words of the command line.

use crate::outside::Outside;
use crate::reports::{COUNTED, COUNTING};
use std::test::Fail;

/// The line for words of no form.
const USAGE: &str =
    "usage: interproc [--delay N] [--descend N] [--full] [--domain dec|full] FILE\n";

/// Words of no form.
const NO_FORM: &[&[&str]] = &[
    &["-x"],
    &["f", "f"],
    &[],
    &["--delay", "1001", "f"],
    &["--domain", "zone", "f"],
    &["--domain", "dec", "--domain=dec", "f"],
    &["--delay", "1", "--delay", "1", "f"],
    &["bench", "43"],
    &["replay", "f"],
];

#[test]
fn words_of_no_form(rt: HostRuntime) -> Result<(), Fail> {
    for words in NO_FORM {
        let mut o = Outside::new(rt.alloc(), words, b"begin end")?;
        o.expect(&rt, rt.alloc(), "words of no form", 2, "", USAGE);
    }
    Ok(())
}

#[test]
fn a_word_that_is_no_text(rt: HostRuntime) -> Result<(), Fail> {
    let mut o = Outside::new(rt.alloc(), &[], b"begin end")?;
    o.words.push(b"\xff")?;
    o.expect(&rt, rt.alloc(), "not UTF-8", 2, "", USAGE);
    Ok(())
}

/// Words that name no file.
const MISSING: &[&str] = &["-", "", "g"];

#[test]
fn missing_files(rt: HostRuntime) -> Result<(), Fail> {
    for word in MISSING {
        let mut o = Outside::new(rt.alloc(), &[*word], b"begin end")?;
        o.expect(&rt, rt.alloc(), word, 4, "", "fault: CannotOpen\n");
    }
    Ok(())
}

/// Words, a program, and its report.
const OPTIONS: &[(&[&str], &str, &str)] = &[
    (
        &["f", "--descend", "0"],
        COUNTING,
        "var i:int;\nbegin\n  /* (L2 C6) top */\n  i = 0;\n  /* (L3 C7) [|i>=0|] */\n  while i < 10 do\n    /* (L4 C16) [|i>=0; -i+9>=0|] */\n    i = i + 1;\n    /* (L5 C11) [|i-1>=0; -i+10>=0|] */\n  done;\n  /* (L6 C6) [|i-10>=0|] */\nend\n/* rounds: 3 */\n",
    ),
    (
        &["--delay=20", "--descend=0", "f"],
        COUNTING,
        "var i:int;\nbegin\n  /* (L2 C6) top */\n  i = 0;\n  /* (L3 C7) [|i>=0; -i+10>=0|] */\n  while i < 10 do\n    /* (L4 C16) [|i>=0; -i+9>=0|] */\n    i = i + 1;\n    /* (L5 C11) [|i-1>=0; -i+10>=0|] */\n  done;\n  /* (L6 C6) [|i-10=0|] */\nend\n/* rounds: 12 */\n",
    ),
    (
        &["--full", "f"],
        "var x:int, y:int;\nbegin\nx = 0;\ny = 0;\nend\n",
        "var x:int, y:int;\nbegin\n  /* (L2 C6) top */\n  x = 0;\n  /* (L3 C7) [|x=0|] */\n  y = 0;\n  /* (L4 C7) [|x=0; -x+y=0; x+y=0; y=0|] */\nend\n/* rounds: 2 */\n",
    ),
];

#[test]
fn options_of_an_analysis(rt: HostRuntime) -> Result<(), Fail> {
    for (words, text, report) in OPTIONS {
        let mut o = Outside::new(rt.alloc(), words, text.as_bytes())?;
        o.expect(&rt, rt.alloc(), text, 0, report, "");
    }
    Ok(())
}
