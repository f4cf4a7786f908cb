//! The program: it hands the words, the files and the streams of the host to the top call, and ends with its status.
#![tactic(auto)]

ghost use Rattle.std.specs.Prelude.{◌≡◌, ◌++◌, map, OnOk};
ghost use Rattle.std.specs.String.{string_bytes};
ghost use Rattle.std.specs.Vec.Iter.{into_iter_items};

use interproc_top::{Status, run};
use spl_io::{HostFiles, HostSink, NoMemory, Words, write_all};
use std::env;
use std::env::Args;
use std::io::ErrorKind;
use std::process::ExitCode;

fn main(rt: HostRuntime) -> ExitCode {
    let mut words = Words::new(rt.alloc());
    let mut out = HostSink::new(rt.stdout());
    let mut err = HostSink::new(rt.stderr());
    if host_words(&rt, &mut words).is_err() {
        let _ = write_all(&mut err, b"out of memory\n");
        return ExitCode::from(Status::NoMemory.number());
    }
    let mut files = HostFiles::new(&rt);
    let status = run(rt.alloc(), &words, &mut files, &mut out, &mut err);
    ExitCode::from(status.number())
}

/// The words after the first, which is the program's name. The environment gives none where one isn't UTF-8: such words are
/// of no form whatever the others are, so one such word stands for them all.
fn host_words(rt: &HostRuntime, words: &mut Words) -> Result<(), NoMemory> {
    match env::args(rt) {
        Ok(mut args) => {
            let _program = args.next();
            take_words(args, words)
        }
        Err(error) if error.kind() == ErrorKind::OutOfMemory => Err(NoMemory),
        Err(_) => words.push(b"\xff"),
    }
}

/// Takes all these words, in their order.
fn take_words(args: Args, words: &mut Words) -> Result<(), NoMemory>
    ensures { OnOk result (words.new ≡ words.old ++ map (λ word. string_bytes word) (into_iter_items args)) }
{
    for word in args {
        words.push(word.as_bytes())?;
    }
    Ok(())
}
