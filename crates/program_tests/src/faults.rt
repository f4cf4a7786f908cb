//! Calls that fail: each call on a file, and each write.

use crate::outside::Outside;
use crate::reports::{COUNTED, COUNTING};
use std::alloc::Global;
use std::process::Abort;
use std::test::Fail;

/// The calls on the file: opening, four reads of at most 16 bytes, and the read that meets the end.
const CALLS: u64 = 6;

/// The writes of the report, of at most 7 bytes.
const WRITES: usize = 36;

#[test]
fn each_call_on_a_file(rt: HostRuntime) -> Result<(), Fail> {
    for call in 0..CALLS {
        let mut o = Outside::new(rt.alloc(), &["f"], COUNTING.as_bytes())?;
        o.files.fail_at(call)?;
        let line = if call == 0 {
            "fault: CannotOpen\n"
        } else {
            "fault: ReadFault\n"
        };
        o.expect(&rt, rt.alloc(), line, 4, "", line);
    }
    Ok(())
}

#[test]
fn calls_that_are_never_made(rt: HostRuntime) -> Result<(), Fail> {
    let mut o = Outside::new(rt.alloc(), &["f"], COUNTING.as_bytes())?;
    o.files.fail_at(CALLS)?;
    o.out.fail_at(WRITES as u64)?;
    o.expect(&rt, rt.alloc(), "after the last", 0, COUNTED, "");
    Ok(())
}

/// The program with a loop, and a write that fails.
fn with_failing_write(alloc: Global, write: usize) -> Result<Outside, Fail> {
    let mut o = Outside::new(alloc, &["f"], COUNTING.as_bytes())?;
    o.out.fail_at(write as u64)?;
    Ok(o)
}

/// Runs the program once: it writes so many bytes of the report before a write fails.
fn expect_front(rt: &impl Abort, alloc: Global, o: &mut Outside, bytes: usize, line: &str) {
    assert_eq!(rt; o.run(alloc), 4);
    assert_eq!(rt; o.out.bytes().len(), bytes);
    assert!(rt; COUNTED.as_bytes().starts_with(o.out.bytes()));
    assert_eq!(rt; o.err.bytes(), line.as_bytes());
}

#[test]
fn each_write(rt: HostRuntime) -> Result<(), Fail> {
    for write in 0..WRITES {
        let mut o = with_failing_write(rt.alloc(), write)?;
        expect_front(&rt, rt.alloc(), &mut o, 7 * write, "fault: WriteFault\n");
    }
    Ok(())
}

/// The status stays where its line can't be written, and the same files serve another run.
#[test]
fn each_write_and_the_line(rt: HostRuntime) -> Result<(), Fail> {
    for write in 0..WRITES {
        let mut o = with_failing_write(rt.alloc(), write)?;
        o.err.fail_at(0)?;
        expect_front(&rt, rt.alloc(), &mut o, 7 * write, "");
        o.renew(rt.alloc())?;
        o.expect(&rt, rt.alloc(), "another run", 0, COUNTED, "");
    }
    Ok(())
}

#[test]
fn a_refusal_that_is_not_told(rt: HostRuntime) -> Result<(), Fail> {
    let mut o = Outside::new(rt.alloc(), &["f"], b"begin @ end")?;
    o.err.fail_at(0)?;
    o.expect(&rt, rt.alloc(), "no line", 3, "", "");
    Ok(())
}
