//! Words by hand, and what they ask for.
use crate::{Command, WordsFault, read_words};
use std::alloc::Global;
use std::process::Abort;
use std::test::Fail;

/// The words of a line, which stand between single spaces.
fn words_of(alloc: Global, line: &str) -> Result<Vec<Vec<u8>>, Fail> {
    let mut words = Vec::new(alloc);
    for word in line.split(' ') {
        words.push(Vec::from_slice(alloc, word.as_bytes())?)?;
    }
    Ok(words)
}

/// What an answer says, in one line.
fn told(alloc: Global, answer: &Result<Command, WordsFault>) -> Result<String, Fail> {
    let text = match answer {
        Ok(
            Command::Analyse {
                delay,
                descend,
                full,
                domain,
                file,
            },
        ) => format!(in alloc; "{delay} {descend} {full} {domain:?} {file}")?,
        Ok(Command::Bench { number }) => format!(in alloc; "bench {number}")?,
        Ok(Command::Replay { file, choices }) => format!(in alloc; "replay {file} {choices}")?,
        Err(WordsFault::Usage) => format!(in alloc; "usage")?,
        Err(WordsFault::NoMemory) => format!(in alloc; "out of memory")?,
    };
    Ok(text)
}

fn tell_each(rt: &impl Abort, alloc: Global, cases: &[(&str, &str)]) -> Result<(), Fail> {
    for (line, answer) in cases {
        let words = words_of(alloc, line)?;
        let got = read_words(alloc, words.as_slice());
        assert_eq!(rt; told(alloc, &got)?.as_str(), *answer, "at {line}");
    }
    Ok(())
}

#[test]
fn an_analysis(rt: HostRuntime) -> Result<(), Fail> {
    tell_each(
        &rt,
        rt.alloc(),
        &[
            ("f", "1 2 false Decomposed f"),
            ("-", "1 2 false Decomposed -"),
            ("", "1 2 false Decomposed "),
            ("./bench", "1 2 false Decomposed ./bench"),
            ("--delay 3 f", "3 2 false Decomposed f"),
            ("--delay=3 f", "3 2 false Decomposed f"),
            ("f --delay 3", "3 2 false Decomposed f"),
            (
                "--full f --descend=0 --delay 1000",
                "1000 0 true Decomposed f",
            ),
            ("--delay 0007 f", "7 2 false Decomposed f"),
            ("--domain dec f", "1 2 false Decomposed f"),
            ("--domain full f", "1 2 false Full f"),
            ("f --domain=full --full", "1 2 true Full f"),
            ("--domain=dec --delay 3 f", "3 2 false Decomposed f"),
            ("-- -f", "1 2 false Decomposed -f"),
            ("-- --full", "1 2 false Decomposed --full"),
            ("--full -- bench", "1 2 true Decomposed bench"),
            ("f bench", "usage"),
            ("--full", "usage"),
            ("f g", "usage"),
            ("f -- g", "usage"),
            ("--full --full f", "usage"),
            ("--delay 1 --delay 1 f", "usage"),
            ("--delay 1001 f", "usage"),
            ("--delay 00007 f", "usage"),
            ("--delay +1 f", "usage"),
            ("--delay -1 f", "usage"),
            ("--delay= f", "usage"),
            ("--delay  f", "usage"),
            ("--delay 1x f", "usage"),
            ("--delay -- 1 f", "usage"),
            ("--delay f", "usage"),
            ("f --delay", "usage"),
            ("--full=true f", "usage"),
            ("--del 1 f", "usage"),
            ("-d 1 f", "usage"),
            ("--domain zone f", "usage"),
            ("--domain Full f", "usage"),
            ("--domain full dec f", "usage"),
            ("--domain= f", "usage"),
            ("--domain f", "usage"),
            ("f --domain", "usage"),
            ("--domain dec --domain dec f", "usage"),
            ("--domain dec --domain=full f", "usage"),
            ("--dom dec f", "usage"),
            ("--help", "usage"),
            ("--version", "usage"),
            ("---delay 1 f", "usage"),
        ],
    )
}

#[test]
fn a_bench(rt: HostRuntime) -> Result<(), Fail> {
    tell_each(
        &rt,
        rt.alloc(),
        &[
            ("bench 1", "bench 1"),
            ("bench 42", "bench 42"),
            ("bench 07", "bench 7"),
            ("bench", "usage"),
            ("bench 0", "usage"),
            ("bench 00", "usage"),
            ("bench 43", "usage"),
            ("bench 007", "usage"),
            ("bench +7", "usage"),
            ("bench ", "usage"),
            ("bench 1 2", "usage"),
            ("bench --full 1", "usage"),
        ],
    )
}

#[test]
fn a_replay(rt: HostRuntime) -> Result<(), Fail> {
    tell_each(
        &rt,
        rt.alloc(),
        &[
            ("replay f c", "replay f c"),
            ("replay - -", "replay - -"),
            ("replay bench replay", "replay bench replay"),
            ("replay", "usage"),
            ("replay f", "usage"),
            ("replay f c d", "usage"),
            ("replay -f c", "usage"),
            ("replay f --", "usage"),
            ("replay --full f c", "usage"),
        ],
    )
}

#[test]
fn no_words_and_words_that_are_no_text(rt: HostRuntime) -> Result<(), Fail> {
    let alloc = rt.alloc();
    let mut words = Vec::new(alloc);
    assert_eq!(rt; read_words(alloc, words.as_slice()), Err(WordsFault::Usage));
    words.push(Vec::from_slice(alloc, b"bench")?)?;
    words.push(Vec::from_slice(alloc, b"\xff")?)?;
    assert_eq!(rt; read_words(alloc, words.as_slice()), Err(WordsFault::Usage));
    Ok(())
}
