// Files in memory, for tests: which call fails and how many bytes a read takes is told beforehand.
ghost use Rattle.std.specs.Prelude.{◌≡◌, ◌<◌, ◌≤◌, ◌++◌, List, ℕ, Bool, false, length, min, take, drop, Some, is_ok, IsOk, IfOk, OnOk, OnErr, IsErrOf, ◌+◌, ◌↔◌, []};
ghost use Rattle.std.specs.Io.{ReadsAtMost};
ghost use Rattle.std.specs.FinMap as finite;
ghost use Rattle.spl_io.specs.Counts.{Rose};
ghost use Rattle.spl_io.specs.MemEntries.{Finds};
ghost use Rattle.spl_io.specs.MemFiles.{is_listed, no_files, with_file, with_failing, open_answer, after_open, read_answer, after_read, after_read_buffer};
ghost use Rattle.spl_io.specs.Store.{Lacks, Has, WhereTold};
ghost use Rattle.spl_io.specs.Words.{name_at};

use crate::{Failed, Files, NoMemory, OpenFault, Words};
use std::alloc::Global;
use std::marker::Model;

/// One put. A later one of the same name counts in its place.
#[derive(Drop)]
struct Entry {
    name: Vec<u8>,
    bytes: Vec<u8>,
}

/// The file in hand: its entry, and how many of its bytes were read.
#[derive(Clone, Copy)]
struct Hand {
    entry: usize,
    from: usize,
}

/// Files in memory, for tests. Calls of `open_word` and `read` are numbered together from 0; those listed fail.
///
/// A read takes as many bytes as the greatest piece, the buffer and the rest allow.
#[derive(Drop)]
pub struct MemFiles {
    alloc: Global,
    entries: Vec<Entry>,
    hand: Option<Hand>,
    piece: usize,
    failing: Vec<u64>,
    calls: u64,
    open_faults: u64,
    read_faults: u64,
}

impl Model for MemFiles {
    ghost use Rattle.std.specs.Prelude.{◌≤◌, is_some};
    ghost use Rattle.spl_io.specs.MemFiles.{MemFilesState, mem_files_code};
    ghost use Rattle.spl_io.specs.MemEntries.{store_of, left_of, IsHand};

    ghost Value = { MemFilesState };

    ghost coded = { mem_files_code };

    ghost view = { λ f. record {
      store = store_of f.entries.items;
      in_hand = is_some f.hand;
      left = left_of f.entries.items f.hand;
      piece = f.piece;
      failing = f.failing.items;
      calls = f.calls;
      open_faults = f.open_faults;
      read_faults = f.read_faults;
    } };

    ghost invariant = { λ f. (1 ≤ f.piece) × IsHand f.entries.items f.hand };
}

/// The place of the last entry of a name.
fn last_named(entries: &[Entry], name: &[u8]) -> Option<usize>
    ensures { Finds entries.now name.now result }
{
    let mut found = None;
    for (place, entry) in entries.iter().enumerate() {
        if name == entry.name.as_slice() {
            found = Some(place);
        }
    }
    found
}

/// Copies the front of what is left into the front of a buffer, at most `piece` bytes, and says how many.
fn copy_front(piece: usize, left: &[u8], buf: &mut [u8]) -> usize
    ensures count { result ≡ min piece (min (length buf.old) (length left.now)) }
    ensures copied { buf.new ≡ take result left.now ++ drop result buf.old }
    ensures front { left.now ≡ take result buf.new ++ drop result left.now }
{
    let count = piece.min(buf.len().min(left.len()));
    buf[..count].copy_from_slice(&left[..count]);
    count
}

impl MemFiles {
    /// No files, read in pieces of at most `piece` bytes. It takes no memory.
    pub fn new(alloc: Global, piece: usize) -> MemFiles
        requires { 1 ≤ piece }
        ensures { result ≡ no_files piece }
    {
        MemFiles {
            alloc,
            entries: Vec::new(alloc),
            hand: None,
            piece,
            failing: Vec::new(alloc),
            calls: 0,
            open_faults: 0,
            read_faults: 0,
        }
    }

    /// Puts a file of these bytes under a name, in place of one that had it. What is left of the file in hand stays.
    pub fn put(&mut self, name: &[u8], bytes: &[u8]) -> Result<(), NoMemory>
        ensures stored { OnOk result (self.new ≡ with_file self.old name.now bytes.now) }
        ensures kept { OnErr result (self.new ≡ self.old) }
    {
        let name = Vec::from_slice(self.alloc, name)?;
        let bytes = Vec::from_slice(self.alloc, bytes)?;
        self.entries.push(Entry { name, bytes })?;
        Ok(())
    }

    /// Lets the call of this number fail, counted from 0 over all calls of `open_word` and `read`.
    pub fn fail_at(&mut self, call: u64) -> Result<(), NoMemory>
        ensures listed { OnOk result (self.new ≡ with_failing self.old call) }
        ensures kept { OnErr result (self.new ≡ self.old) }
    {
        self.failing.push(call)?;
        Ok(())
    }
}

impl Files for MemFiles {
    ghost files = { λ f. Some f.store };

    ghost in_hand = { λ f. f.in_hand };

    ghost left = { λ f. f.left };

    ghost open_faults = { λ f. f.open_faults };

    ghost read_faults = { λ f. f.read_faults };

    ghost calls = { λ f. f.calls };

    fn open_word(&mut self, words: &Words, place: usize) -> Result<(), OpenFault>
        requires { place < length words.now }
        ensures opened { OnOk result (Has (Some self.old.store) (name_at words.now place) self.new.left) }
        ensures missing { IsErrOf result OpenFault.Missing → Lacks (Some self.old.store) (name_at words.now place) }
        ensures missing_is_no_fault { IsErrOf result OpenFault.Missing → self.new.open_faults ≡ self.old.open_faults }
        ensures failed { IsErrOf result OpenFault.Failed → Rose self.old.open_faults self.new.open_faults }
        ensures nothing_left { OnErr result (WhereTold (Some self.old.store) (self.new.left ≡ [])) }
        ensures in_hand { self.new.in_hand ≡ is_ok result }
        ensures same_files { self.new.store ≡ self.old.store }
        ensures open_faults_never_fall { self.old.open_faults ≤ self.new.open_faults }
        ensures read_faults_stay { self.new.read_faults ≡ self.old.read_faults }
        ensures calls_never_fall { self.old.calls ≤ self.new.calls }
        ensures one_call { self.new.calls ≤ self.old.calls + 1 }
        ensures no_failing_call { self.old.failing ≡ [] → ¬ (IsErrOf result OpenFault.Failed) }
        ensures exact_answer { result ≡ open_answer (is_listed self.old.failing self.old.calls) (finite.get self.old.store (name_at words.now place)) }
        ensures exact_state { self.new ≡ after_open (is_listed self.old.failing self.old.calls) (finite.get self.old.store (name_at words.now place)) self.old }
    {
        let open_fails = self.failing.contains(&self.calls);
        self.calls = self.calls.saturating_add(1);
        self.hand = None;
        if open_fails {
            self.open_faults = self.open_faults.saturating_add(1);
            return Err(OpenFault::Failed);
        }
        match last_named(&self.entries, words.word(place)) {
            Some(entry) => {
                self.hand = Some(Hand { entry, from: 0 });
                Ok(())
            }
            None => Err(OpenFault::Missing),
        }
    }

    fn read(&mut self, buf: &mut [u8]) -> Result<usize, Failed>
        requires { 0 < length buf.old }
        ensures bound { ReadsAtMost result buf.new }
        ensures taken { IfOk result (λ count. WhereTold (Some self.old.store) (self.old.left ≡ take count buf.new ++ self.new.left)) }
        ensures end { IfOk result (λ count. WhereTold (Some self.old.store) (count ≡ 0 ↔ self.old.left ≡ [])) }
        ensures failed { OnErr result (Rose self.old.read_faults self.new.read_faults) }
        ensures kept { OnErr result (WhereTold (Some self.old.store) (self.new.left ≡ self.old.left)) }
        ensures none_in_hand { self.old.in_hand ≡ false → WhereTold (Some self.old.store) (self.old.left ≡ []) }
        ensures same_hand { self.new.in_hand ≡ self.old.in_hand }
        ensures same_files { self.new.store ≡ self.old.store }
        ensures open_faults_stay { self.new.open_faults ≡ self.old.open_faults }
        ensures read_faults_never_fall { self.old.read_faults ≤ self.new.read_faults }
        ensures calls_never_fall { self.old.calls ≤ self.new.calls }
        ensures one_call { self.new.calls ≤ self.old.calls + 1 }
        ensures no_failing_call { self.old.failing ≡ [] → IsOk result }
        ensures exact_answer { result ≡ read_answer (is_listed self.old.failing self.old.calls) self.old (length buf.old) }
        ensures exact_state { self.new ≡ after_read (is_listed self.old.failing self.old.calls) self.old (length buf.old) }
        ensures exact_buffer { buf.new ≡ after_read_buffer (is_listed self.old.failing self.old.calls) self.old buf.old }
    {
        let read_fails = self.failing.contains(&self.calls);
        self.calls = self.calls.saturating_add(1);
        if read_fails {
            self.read_faults = self.read_faults.saturating_add(1);
            return Err(Failed);
        }
        match self.hand {
            None => Ok(0),
            Some(Hand { entry, from }) => {
                let left = &self.entries[entry].bytes[from..];
                let count = copy_front(self.piece, left, buf);
                self.hand = Some(Hand {
                    entry,
                    from: from + count,
                });
                Ok(count)
            }
        }
    }
}
