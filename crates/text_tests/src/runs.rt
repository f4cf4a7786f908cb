//! Choices and the runs that they give, worked out by hand.

use crate::texts::core_in;
use spl_core::Core;
use spl_runs::{ChoiceFault, ReplayFault, Run, Seen, read_choices, replay};
use std::alloc::Global;
use std::fmt::Write;
use std::test::Fail;

/// Texts, choices, and the top frames of the run (the point, the number of frames, the values), one on each line; or why
/// there is none.
const RUNS: [(&str, &str, &str); 27] = [
    (
        "var i:int; begin i = 0; while i < 10 do i = i + 1; done; end",
        "7\n0\n0\n0\n0",
        "0 1 7\n1 1 7\n2 1 0\n3 1 0\n4 1 1\n",
    ),
    (
        "var i:int; begin i = 0; while i < 10 do i = i + 1; done; end",
        "7\n0\n0\n0\n1",
        "not a run 4",
    ),
    (
        "var i:int; begin i = 0; while i < 10 do i = i + 1; done; end",
        "7\n0\n0\n1",
        "not a run 3",
    ),
    (
        "var i:int; begin i = 0; while i < 10 do i = i + 1; done; end",
        "",
        "not a run 0",
    ),
    (
        "var i:int; begin i = 0; while i < 10 do i = i + 1; done; end",
        "7\n-1",
        "not a run 1",
    ),
    (
        "var x:int; begin x = x * x; end",
        "18446744073709551616\n0\n0",
        "wide 2",
    ),
    (
        "var x:int; begin x = x * x; end",
        "-13043817825332782212\n0\n0",
        "0 1 -13043817825332782212\n1 1 -13043817825332782212\n2 1 170141183460469231722567801800623612944\n",
    ),
    (
        "var x:int; begin x = 7 / x; end",
        "-2\n0\n0",
        "0 1 -2\n1 1 -2\n2 1 -3\n",
    ),
    ("var x:int; begin x = 7 / x; end", "0\n0\n0", "not a run 2"),
    (
        "var x:int; begin x = -7 % x; end",
        "2\n0\n0",
        "0 1 2\n1 1 2\n2 1 -1\n",
    ),
    (
        "var x:int; begin if 7 / x > 1 or x == 0 then skip; endif; end",
        "0\n0\n0",
        "0 1 0\n1 1 0\n2 1 0\n",
    ),
    (
        "var x:int; begin if 7 / x > 1 or x == 0 then skip; endif; end",
        "0\n0\n1",
        "not a run 2",
    ),
    (
        "var x:int; begin x = x / -1; end",
        "-170141183460469231731687303715884105728\n0\n0",
        "wide 2",
    ),
    (
        "var x:int; begin x = x % -1; end",
        "-170141183460469231731687303715884105728\n0\n0",
        "0 1 -170141183460469231731687303715884105728\n1 1 -170141183460469231731687303715884105728\n2 1 0\n",
    ),
    (
        "var x:int; begin x = 1 / 0 + x * x; end",
        "18446744073709551616\n0\n0",
        "wide 2",
    ),
    ("var x:int; begin x = x * x; end", "x", "bad choices 0"),
    (
        "proc inc(n:int) returns (r:int) begin n = n + 1; r = n; end var a:int, b:int; begin b = inc(a); end",
        "5 0\n0\n0 9 9\n0\n0\n0\n0",
        "4 1 5 0\n5 1 5 0\n0 2 5 9 9\n1 2 5 9 5\n2 2 5 9 6\n3 2 5 6 6\n6 1 5 6\n",
    ),
    (
        "proc inc(n:int) returns (r:int) begin n = n + 1; r = n; end var a:int, b:int; begin b = inc(a); end",
        "5 0\n0\n0 9 9\n0\n0\n0\n0\n0",
        "not a run 7",
    ),
    (
        "proc inc(n:int) returns (r:int) begin n = n + 1; r = n; end var a:int, b:int; begin b = inc(a); end",
        "5 0\n0\n0 9 9\n0\n0\n0\n1",
        "not a run 6",
    ),
    (
        "begin while random do skip; done; end",
        "\n0\n0\n0\n0\n1",
        "0 1\n1 1\n2 1\n3 1\n1 1\n4 1\n",
    ),
    (
        "var x:int; begin x = random; end",
        "5\n0\n0 -8",
        "0 1 5\n1 1 5\n2 1 -8\n",
    ),
    ("var x:int; begin x = random; end", "5\n0\n0", "not a run 2"),
    (
        "var x:int; begin assume x > 3; end",
        "4\n0\n0",
        "0 1 4\n1 1 4\n2 1 4\n",
    ),
    (
        "var x:int; begin assume true or x * x > 0; end",
        "18446744073709551616\n0\n0",
        "wide 2",
    ),
    (
        "var x:int; begin if x > 0 then assume false; fail; endif; fail; end",
        "0\n0\n1",
        "0 1 0\n1 1 0\n5 1 0\n",
    ),
    (
        "var x:int; begin if x > 0 then assume false; fail; endif; fail; end",
        "1\n0\n0\n0",
        "not a run 3",
    ),
    (
        "proc down(n:int) returns (r:int) begin if n > 0 then n = n - 1; r = down(n); r = r + 2; else r = n; endif; end var x:int; begin x = down(x); end",
        "1\n0\n0 7 7\n0\n0\n0\n0 4 5\n0\n1\n0\n0\n0\n0\n0\n0",
        "9 1 1\n10 1 1\n0 2 1 7 7\n1 2 1 7 1\n2 2 1 7 1\n3 2 1 7 0\n0 3 0 4 5\n1 3 0 4 0\n6 3 0 4 0\n7 3 0 0 0\n8 3 0 0 0\n4 2 1 0 0\n5 2 1 2 0\n8 2 1 2 0\n11 1 2\n",
    ),
];

/// Appends a top frame as a line.
fn put_top(text: &mut String, top: &Seen) -> Result<(), Fail> {
    write!(text, "{} {}", top.point, top.depth)?;
    for x in &top.values {
        write!(text, " {x}")?;
    }
    text.push_str("\n")?;
    Ok(())
}

/// The top frames of a run.
fn run_text(alloc: Global, run: &Run) -> Result<String, Fail> {
    let mut text = String::new(alloc);
    for k in 0..run.len() {
        put_top(&mut text, run.at(k))?;
    }
    Ok(text)
}

/// The run of a core with these choices, or why there is none.
fn answer(alloc: Global, core: &Core, choices: &str) -> Result<String, Fail> {
    let choices = match read_choices(alloc, choices.as_bytes()) {
        Ok(choices) => choices,
        Err(ChoiceFault::BadChoices(at)) => return Ok(format!(in alloc; "bad choices {at}")?),
        Err(ChoiceFault::NoMemory) => return Err("there is memory".into()),
    };
    if choices.steps.len() > 100 {
        return Err("there are few steps".into());
    }
    match replay(alloc, core, &choices) {
        Ok(run) => run_text(alloc, &run),
        Err(ReplayFault::NotARun(k)) => Ok(format!(in alloc; "not a run {k}")?),
        Err(ReplayFault::Wide(k)) => Ok(format!(in alloc; "wide {k}")?),
        Err(ReplayFault::NoMemory) => Err("there is memory".into()),
    }
}

#[test]
fn choices_give_runs(rt: HostRuntime) -> Result<(), Fail> {
    for &(text, choices, want) in &RUNS {
        let core = core_in(rt.alloc(), text.as_bytes())?;
        let given = answer(rt.alloc(), &core, choices)?;
        assert_eq!(&rt; given.as_str(), want, "of {text}");
    }
    Ok(())
}
