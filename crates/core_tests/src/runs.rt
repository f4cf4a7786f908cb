//! Texts of choices, the runs that they give, and the texts of those, worked out by hand.
ghost use Rattle.std.specs.Prelude.{◌≤◌, IfOk, length};

use crate::cores::{incrementing, squaring};
use run_text::run_text;
use spl_core::Core;
use spl_runs::{ChoiceFault, Choices, ReplayFault, law_examples, read_choices, replay};
use std::alloc::Global;
use std::test::Fail;

/// The choices of a text; any other text, and one with many steps, fails the test.
fn choices_in(alloc: Global, text: &str) -> Result<Choices, Fail>
    ensures few { IfOk result (λ c. length c.steps.items ≤ 100) }
{
    let choices = read_choices(alloc, text.as_bytes())
        .ok()
        .ok_or("the text has choices")?;
    if choices.steps.len() > 100 {
        return Err("there are few steps".into());
    }
    Ok(choices)
}

/// The place of the first fault of a text; none if it has choices or memory is short.
fn fault_of(alloc: Global, text: &str) -> Option<usize> {
    match read_choices(alloc, text.as_bytes()) {
        Err(ChoiceFault::BadChoices(at)) => Some(at),
        _ => None,
    }
}

#[test]
fn faults_of_texts(rt: HostRuntime) {
    let cases = [
        ("x", 0),
        ("5 \n", 2),
        ("5 ", 2),
        (" 5", 0),
        ("-", 1),
        ("--1", 1),
        ("5-", 1),
        ("5x", 1),
        ("+5", 0),
        ("1234567890123456789012345678901234567890", 0),
        ("0  1234567890123456789012345678901234567890x", 3),
        ("5\n\n0", 2),
        ("\n\n", 1),
        ("5\n 0", 2),
        ("5\n0\n-", 5),
        ("170141183460469231731687303715884105728", 0),
        ("0\n-170141183460469231731687303715884105729", 2),
    ];
    for &(text, at) in &cases {
        assert_eq!(rt; fault_of(rt.alloc(), text), Some(at), "at {text}");
    }
}

/// The numbers of a text, line by line, with a bar before each step.
fn shown(alloc: Global, text: &str) -> Result<String, Fail> {
    let choices = choices_in(alloc, text)?;
    let mut all = String::new(alloc);
    for x in &choices.start {
        let piece = format!(in alloc; "{x} ")?;
        all.push_str(&piece)?;
    }
    for step in &choices.steps {
        let edge = step.edge;
        let piece = format!(in alloc; "| {edge} ")?;
        all.push_str(&piece)?;
        for x in &step.values {
            let piece = format!(in alloc; "{x} ")?;
            all.push_str(&piece)?;
        }
    }
    Ok(all)
}

#[test]
fn choices_of_texts(rt: HostRuntime) -> Result<(), Fail> {
    let cases = [
        ("", ""),
        ("\n", ""),
        ("\n0", "| 0 "),
        ("5", "5 "),
        ("5\n", "5 "),
        ("5   -07 000\n1\n-2 3", "5 -7 0 | 1 | -2 3 "),
        ("5\n1 2\n", "5 | 1 2 "),
        (
            "-170141183460469231731687303715884105728",
            "-170141183460469231731687303715884105728 ",
        ),
        (
            "170141183460469231731687303715884105727",
            "170141183460469231731687303715884105727 ",
        ),
    ];
    for &(text, want) in &cases {
        let all = shown(rt.alloc(), text)?;
        assert!(rt; all.as_str() == want, "at {text}");
    }
    Ok(())
}

/// The top frames of the run, one on each line; or the step of the fault.
fn followed(alloc: Global, core: &Core, text: &str) -> Result<String, Fail> {
    let choices = choices_in(alloc, text)?;
    let run = match replay(alloc, core, &choices) {
        Ok(run) => run,
        Err(ReplayFault::NotARun(k)) => return Ok(format!(in alloc; "not a run {k}")?),
        Err(ReplayFault::Wide(k)) => return Ok(format!(in alloc; "wide {k}")?),
        Err(ReplayFault::NoMemory) => return Err("there is memory".into()),
    };
    let mut all = String::new(alloc);
    for k in 0..run.len() {
        let top = run.at(k);
        let (point, depth) = (top.point, top.depth);
        let piece = format!(in alloc; "{point} {depth}")?;
        all.push_str(&piece)?;
        for x in &top.values {
            let piece = format!(in alloc; " {x}")?;
            all.push_str(&piece)?;
        }
        all.push_str("\n")?;
    }
    Ok(all)
}

#[test]
fn replays(rt: HostRuntime) -> Result<(), Fail> {
    let alloc = rt.alloc();
    let core = incrementing(alloc)?;
    let tops = "4 1 5 0\n5 1 5 0\n0 2 5 9 9\n1 2 5 9 5\n2 2 5 9 6\n3 2 5 6 6\n6 1 5 6\n";
    let cases = [
        ("5 0\n0\n0 9 9\n0\n0\n0\n0", tops),
        ("5 0\n0\n0 9 9\n0\n0\n0\n0\n0", "not a run 7"),
        ("5", "not a run 0"),
        ("5 0\n1", "not a run 1"),
        ("5 0\n-1", "not a run 1"),
        ("5 0\n0\n0 9", "not a run 2"),
        ("5 0\n0\n0 9 9\n0 1", "not a run 3"),
        ("5 0\n0\n0 9 9\n0\n0\n0\n1", "not a run 6"),
        (
            "170141183460469231731687303715884105727 0\n0\n0 9 9\n0\n0",
            "wide 4",
        ),
    ];
    for &(text, want) in &cases {
        let all = followed(alloc, &core, text)?;
        assert!(rt; all.as_str() == want, "at {text}");
    }
    let square = squaring(alloc)?;
    let all = followed(alloc, &square, "18446744073709551616\n0\n0")?;
    assert!(rt; all.as_str() == "wide 2");
    law_examples();
    Ok(())
}

/// The text of the run of a core with the choices that a text spells.
fn text_of(alloc: Global, core: &Core, text: &str) -> Result<Vec<u8>, Fail> {
    let choices = choices_in(alloc, text)?;
    let run = replay(alloc, core, &choices)
        .ok()
        .ok_or("the choices give a run")?;
    Ok(run_text(alloc, &run)?)
}

#[test]
fn texts_of_runs(rt: HostRuntime) -> Result<(), Fail> {
    let alloc = rt.alloc();
    let core = incrementing(alloc)?;
    let cases = [
        ("7 0", b"4 1 7 0\n".as_slice()),
        (
            "-5 0\n0\n0 9 12",
            b"4 1 -5 0\n5 1 -5 0\n0 2 -5 9 12\n".as_slice(),
        ),
        (
            "-5 0\n0\n0 9 12\n0\n0\n0\n0",
            b"4 1 -5 0\n5 1 -5 0\n0 2 -5 9 12\n1 2 -5 9 -5\n2 2 -5 9 -4\n3 2 -5 -4 -4\n6 1 -5 -4\n".as_slice(),
        ),
    ];
    for &(choices, want) in &cases {
        let text = text_of(alloc, &core, choices)?;
        assert_eq!(rt; text.as_slice(), want, "with {choices}");
    }
    Ok(())
}
