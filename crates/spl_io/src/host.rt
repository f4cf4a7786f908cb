// The thin edge to real files and real streams. What these hold, no clause can say.
ghost use Rattle.std.specs.Prelude.{[], None, is_some};

use crate::{Failed, Files, OpenFault, Sink, Words};
use std::fs::File;
use std::io::{Read, Write};

/// Real files, by their paths. A name that isn't UTF-8 can't be opened.
#[derive(Drop)]
pub struct HostFiles<'a> {
    rt: &'a HostRuntime,
    in_hand: Option<File>,
    open_faults: u64,
    read_faults: u64,
    calls: u64,
}

impl<'a> HostFiles<'a> {
    /// The files that the process can reach, none of them in hand.
    pub fn new(rt: &'a HostRuntime) -> HostFiles<'a> {
        HostFiles {
            rt,
            in_hand: None,
            open_faults: 0,
            read_faults: 0,
            calls: 0,
        }
    }
}

impl<'a> Files for HostFiles<'a> {
    ghost files = { λ _. None };

    ghost in_hand = { λ f. is_some f.in_hand };

    ghost left = { λ _. [] };

    ghost open_faults = { λ f. f.open_faults };

    ghost read_faults = { λ f. f.read_faults };

    ghost calls = { λ f. f.calls };

    fn open_word(&mut self, words: &Words, place: usize) -> Result<(), OpenFault> {
        self.calls = self.calls.saturating_add(1);
        self.in_hand = None;
        if let Ok(name) = str::from_utf8(words.word(place))
            && let Ok(file) = File::open(self.rt, name)
        {
            self.in_hand = Some(file);
            return Ok(());
        }
        self.open_faults = self.open_faults.saturating_add(1);
        Err(OpenFault::Failed)
    }

    fn read(&mut self, buf: &mut [u8]) -> Result<usize, Failed> {
        self.calls = self.calls.saturating_add(1);
        match &mut self.in_hand {
            None => Ok(0),
            Some(file) => match file.read(buf) {
                Ok(count) => Ok(count),
                Err(_) => {
                    self.read_faults = self.read_faults.saturating_add(1);
                    Err(Failed)
                }
            },
        }
    }
}

/// A real stream.
#[derive(Drop)]
pub struct HostSink<W: Write> {
    stream: W,
    faults: u64,
}

impl<W: Write> HostSink<W> {
    /// A sink over a stream, with no fault yet.
    pub fn new(stream: W) -> HostSink<W> {
        HostSink { stream, faults: 0 }
    }
}

impl<W: Write> Sink for HostSink<W> {
    ghost written = { λ _. None };

    ghost faults = { λ s. s.faults };

    fn write(&mut self, piece: &[u8]) -> Result<usize, Failed> {
        match self.stream.write(piece) {
            Ok(count) if count > 0 => Ok(count),
            _ => {
                self.faults = self.faults.saturating_add(1);
                Err(Failed)
            }
        }
    }
}
