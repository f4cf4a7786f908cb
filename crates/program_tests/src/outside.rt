//! The outside of one call in memory.

use interproc_top::run;
use spl_io::{MemFiles, MemSink, Words};
use std::alloc::Global;
use std::process::Abort;
use std::test::Fail;

/// Words, a file `f` that is read in pieces of 16 bytes, and two sinks that take 7 bytes a write.
#[derive(Drop)]
pub(crate) struct Outside {
    pub(crate) words: Words,
    pub(crate) files: MemFiles,
    pub(crate) out: MemSink,
    pub(crate) err: MemSink,
}

/// A sink with ample room.
fn sink(alloc: Global) -> Result<MemSink, Fail> {
    let made = MemSink::new(alloc, 7, 1 << 18)?;
    Ok(made)
}

impl Outside {
    /// These words, and a program as the file `f`.
    pub(crate) fn new(alloc: Global, words: &[&str], text: &[u8]) -> Result<Outside, Fail> {
        let mut given = Words::new(alloc);
        for word in words {
            given.push(word.as_bytes())?;
        }
        let mut files = MemFiles::new(alloc, 16);
        files.put(b"f", text)?;
        Ok(Outside {
            words: given,
            files,
            out: sink(alloc)?,
            err: sink(alloc)?,
        })
    }

    /// Two empty sinks in place of those that were written to.
    pub(crate) fn renew(&mut self, alloc: Global) -> Result<(), Fail> {
        self.out = sink(alloc)?;
        self.err = sink(alloc)?;
        Ok(())
    }

    /// Runs the program once. The result is its status.
    pub(crate) fn run(&mut self, alloc: Global) -> u8 {
        run(
            alloc,
            &self.words,
            &mut self.files,
            &mut self.out,
            &mut self.err,
        )
        .number()
    }

    /// Runs the program once, and compares its status and the texts on its two streams.
    pub(crate) fn expect(
        &mut self,
        rt: &impl Abort,
        alloc: Global,
        case: &str,
        status: u8,
        out: &str,
        err: &str,
    ) {
        let answered = self.run(alloc);
        assert_eq!(rt; self.err.bytes(), err.as_bytes(), "{case}");
        assert_eq!(rt; self.out.bytes(), out.as_bytes(), "{case}");
        assert_eq!(rt; answered, status, "{case}");
    }
}
