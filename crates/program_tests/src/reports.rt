//! Reports: the text, the places, the constraints, and what is said of each `fail`.

use crate::outside::Outside;
use std::test::Fail;

/// A program with a loop.
pub(crate) const COUNTING: &str =
    "var i:int;\nbegin\ni = 0;\nwhile i < 10 do\ni = i + 1;\ndone;\nend\n";

/// Its report.
pub(crate) const COUNTED: &str =
    "var i:int;\nbegin\n  /* (L2 C6) top */\n  i = 0;\n  /* (L3 C7) [|i>=0; -i+10>=0|] */\n  while i < 10 do\n    /* (L4 C16) [|i>=0; -i+9>=0|] */\n    i = i + 1;\n    /* (L5 C11) [|i-1>=0; -i+10>=0|] */\n  done;\n  /* (L6 C6) [|i-10=0|] */\nend\n/* rounds: 3 */\n";

/// Programs without a `fail`, and their reports.
const REPORTS: &[(&str, &str)] = &[
    (
        "begin end\n",
        "begin\n  /* (L1 C6) top */\nend\n/* rounds: 2 */\n",
    ),
    (
        "var x:int, y:int;\nbegin\nx = 3;\ny = x + 4;\nend\n",
        "var x:int, y:int;\nbegin\n  /* (L2 C6) top */\n  x = 3;\n  /* (L3 C7) [|x-3=0|] */\n  y = x + 4;\n  /* (L4 C11) [|x-3=0; y-7=0|] */\nend\n/* rounds: 2 */\n",
    ),
    (
        "var x:int;\nbegin\nx = 1152921504606846976;\nx = x + 1;\nend\n",
        "var x:int;\nbegin\n  /* (L2 C6) top */\n  x = 1152921504606846976;\n  /* (L3 C25) [|x-1152921504606846976=0|] */\n  x = x + 1;\n  /* (L4 C11) [|x-1152921504606846976>=0|] */\nend\n/* rounds: 2 */\n",
    ),
    (
        "var x:int;\nbegin\nx = 2305843009213693952;\nend\n",
        "var x:int;\nbegin\n  /* (L2 C6) top */\n  x = 2305843009213693952;\n  /* (L3 C25) [|x-1152921504606846976>=0|] */\nend\n/* rounds: 2 */\n",
    ),
    (
        "var x:int, y:int;\nbegin\nx = y;\ny = y + 1;\nend\n",
        "var x:int, y:int;\nbegin\n  /* (L2 C6) top */\n  x = y;\n  /* (L3 C7) [|-x+y=0|] */\n  y = y + 1;\n  /* (L4 C11) [|-x+y-1=0|] */\nend\n/* rounds: 2 */\n",
    ),
    (
        "var a:int;begin skip;a=a+007;end",
        "var a:int;\nbegin\n  /* (L1 C16) top */\n  skip;\n  /* (L1 C22) top */\n  a = a + 7;\n  /* (L1 C30) top */\nend\n/* rounds: 2 */\n",
    ),
    (
        "var x:int, y:int;\nbegin\n  /* (L2 C6) top */\n  x = 3;\n  /* (L3 C7) [|x-3=0|] */\n  y = x + 4;\n  /* (L4 C11) [|x-3=0; y-7=0|] */\nend\n/* rounds: 2 */\n",
        "var x:int, y:int;\nbegin\n  /* (L2 C6) top */\n  x = 3;\n  /* (L4 C9) [|x-3=0|] */\n  y = x + 4;\n  /* (L6 C13) [|x-3=0; y-7=0|] */\nend\n/* rounds: 2 */\n",
    ),
    (
        "var x:int; // one\nbegin /* two */ x = ((3)); x = (x) + (0); end // three",
        "var x:int;\nbegin\n  /* (L2 C6) top */\n  x = 3;\n  /* (L2 C27) [|x-3=0|] */\n  x = x + 0;\n  /* (L2 C42) [|x-3=0|] */\nend\n/* rounds: 2 */\n",
    ),
];

#[test]
fn reports(rt: HostRuntime) -> Result<(), Fail> {
    for (text, report) in REPORTS {
        let mut o = Outside::new(rt.alloc(), &["f"], text.as_bytes())?;
        o.expect(&rt, rt.alloc(), text, 0, report, "");
    }
    Ok(())
}

/// Programs with a loop, with fails, with a procedure, and with division, each with its status and its report.
const WORKED: &[(&str, u8, &str)] = &[
    (COUNTING, 0, COUNTED),
    (
        "var x:int;\nbegin\nif x > 0 then\nassume false;\nfail;\nendif;\nfail;\nend\n",
        1,
        "var x:int;\nbegin\n  /* (L2 C6) top */\n  if x > 0 then\n    /* (L3 C14) [|x-1>=0|] */\n    assume false;\n    /* (L4 C14) bottom */\n    fail;\n    /* (L5 C6) bottom */\n  endif;\n  /* (L6 C7) [|-x>=0|] */\n  fail;\n  /* (L7 C6) bottom */\nend\n/* fail (L5 C1): unreachable */\n/* fail (L7 C1): not excluded */\n/* rounds: 2 */\n",
    ),
    (
        "proc inc(n:int) returns (r:int)\nbegin\nn = n + 1;\nr = n;\nend\nvar a:int, b:int;\nbegin\nb = inc(a);\nend\n",
        0,
        "proc inc(n:int) returns (r:int)\nbegin\n  /* (L2 C6) [|-n@+n=0|] */\n  n = n + 1;\n  /* (L3 C11) [|-n@+n-1=0|] */\n  r = n;\n  /* (L4 C7) [|-n@+r-1=0; -n@+n-1=0; -r+n=0|] */\nend\nvar a:int, b:int;\nbegin\n  /* (L7 C6) top */\n  b = inc(a);\n  /* (L8 C12) [|-a+b-1=0|] */\nend\n/* rounds: 3 */\n",
    ),
    (
        "var x:int; begin x = x / 2; end\n",
        0,
        "var x:int;\nbegin\n  /* (L1 C17) top */\n  x = x / 2;\n  /* (L1 C28) top */\nend\n/* rounds: 2 */\n",
    ),
    (
        "var x:int, y:int;\nbegin\nassume x >= -7 and x <= 9;\ny = x / 2;\nend\n",
        0,
        "var x:int, y:int;\nbegin\n  /* (L2 C6) top */\n  assume x >= -7 and x <= 9;\n  /* (L3 C27) [|x+7>=0; -x+9>=0|] */\n  y = x / 2;\n  /* (L4 C11) [|x+7>=0; -x+9>=0; y+3>=0; -y+4>=0|] */\nend\n/* rounds: 2 */\n",
    ),
    (
        "var x:int, y:int;\nbegin\nassume x >= -7 and x <= 9;\ny = x % 4;\nend\n",
        0,
        "var x:int, y:int;\nbegin\n  /* (L2 C6) top */\n  assume x >= -7 and x <= 9;\n  /* (L3 C27) [|x+7>=0; -x+9>=0|] */\n  y = x % 4;\n  /* (L4 C11) [|x+7>=0; -x+9>=0; y+3>=0; -y+3>=0|] */\nend\n/* rounds: 2 */\n",
    ),
    (
        "var x:int, y:int;\nbegin\nx = 5;\ny = 7 / 0;\nend\n",
        0,
        "var x:int, y:int;\nbegin\n  /* (L2 C6) top */\n  x = 5;\n  /* (L3 C7) [|x-5=0|] */\n  y = 7 / 0;\n  /* (L4 C11) [|x-5=0; y=0|] */\nend\n/* rounds: 2 */\n",
    ),
];

/// The words of an analysis in each domain, and in the one that is taken where none is asked for.
const DOMAINS: &[&[&str]] = &[&["f"], &["--domain", "dec", "f"], &["f", "--domain=full"]];

#[test]
fn worked_reports_in_each_domain(rt: HostRuntime) -> Result<(), Fail> {
    for (text, status, report) in WORKED {
        for words in DOMAINS {
            let mut o = Outside::new(rt.alloc(), words, text.as_bytes())?;
            o.expect(&rt, rt.alloc(), text, *status, report, "");
        }
    }
    Ok(())
}
