// Files by name: the trait, and the reading of one whole file.
ghost use Rattle.std.specs.Prelude.{◌≡◌, ◌≢◌, ◌<◌, ◌≤◌, ◌+◌, ◌^◌, ◌⊎◌, ◌↔◌, ◌++◌, [], List, ℕ, Bool, true, false, length, take, is_ok, IfOk, IfErr, OnOk, OnErr, IsErrOf};
ghost use Rattle.std.specs.Io.{ReadsAtMost};
ghost use Rattle.spl_io.specs.Counts.{Rose};
ghost use Rattle.spl_io.specs.Store.{Told, Lacks, Has, WhereTold, EndsWith, IsLong, IsTooLong, IsLongOver, HasOver, most_bytes};
ghost use Rattle.spl_io.specs.Words.{name_at};

use crate::Words;
use std::alloc::Global;
use thiserror::Error;

/// A call on the outside failed, and its object's count of faults says so.
#[derive(Clone, Copy, Debug, PartialEq, Eq)]
pub struct Failed;

/// Why a file isn't in hand.
#[derive(Clone, Copy, Debug, PartialEq, Eq, Error)]
pub enum OpenFault {
    /// The files are known, and none has the name.
    #[error("no file has this name")]
    Missing,
    /// The device failed.
    #[error("opening the file failed")]
    Failed,
}

/// Files by name, of which one at a time is in hand and is read from its front to its end.
///
/// An object may tell its files and what is left of the one in hand; the clauses on bytes hold where it does.
pub trait Files {
    /// The files by name, where the object tells them.
    ghost files: { Self → Told };

    /// Whether a file is in hand.
    ghost in_hand: { Self → Bool };

    /// The bytes that are left of the file in hand.
    ghost left: { Self → List ℕ };

    /// How often opening has failed.
    ghost open_faults: { Self → ℕ };

    /// How often reading has failed.
    ghost read_faults: { Self → ℕ };

    /// How many calls there were.
    ghost calls: { Self → ℕ };

    /// Takes the file named by the word at a place in hand, at its front.
    fn open_word(&mut self, words: &Words, place: usize) -> Result<(), OpenFault>
        requires { place < length words.now }
        ensures opened { OnOk result (Has (files self.old) (name_at words.now place) (left self.new)) }
        ensures missing { IsErrOf result OpenFault.Missing → Lacks (files self.old) (name_at words.now place) }
        ensures missing_is_no_fault { IsErrOf result OpenFault.Missing → open_faults self.new ≡ open_faults self.old }
        ensures failed { IsErrOf result OpenFault.Failed → Rose (open_faults self.old) (open_faults self.new) }
        ensures nothing_left { OnErr result (WhereTold (files self.old) (left self.new ≡ [])) }
        ensures in_hand { in_hand self.new ≡ is_ok result }
        ensures same_files { files self.new ≡ files self.old }
        ensures open_faults_never_fall { open_faults self.old ≤ open_faults self.new }
        ensures read_faults_stay { read_faults self.new ≡ read_faults self.old }
        ensures calls_never_fall { calls self.old ≤ calls self.new }
        ensures one_call { calls self.new ≤ calls self.old + 1 };

    /// Takes the next bytes of the file in hand, as many as it likes, and answers how many. With no file in hand none are left.
    fn read(&mut self, buf: &mut [u8]) -> Result<usize, Failed>
        requires { 0 < length buf.old }
        ensures bound { ReadsAtMost result buf.new }
        ensures taken { IfOk result (λ count. WhereTold (files self.old) (left self.old ≡ take count buf.new ++ left self.new)) }
        ensures end { IfOk result (λ count. WhereTold (files self.old) (count ≡ 0 ↔ left self.old ≡ [])) }
        ensures failed { OnErr result (Rose (read_faults self.old) (read_faults self.new)) }
        ensures kept { OnErr result (WhereTold (files self.old) (left self.new ≡ left self.old)) }
        ensures none_in_hand { in_hand self.old ≡ false → WhereTold (files self.old) (left self.old ≡ []) }
        ensures same_hand { in_hand self.new ≡ in_hand self.old }
        ensures same_files { files self.new ≡ files self.old }
        ensures open_faults_stay { open_faults self.new ≡ open_faults self.old }
        ensures read_faults_never_fall { read_faults self.old ≤ read_faults self.new }
        ensures calls_never_fall { calls self.old ≤ calls self.new }
        ensures one_call { calls self.new ≤ calls self.old + 1 };
}

/// Why a whole file wasn't read.
#[derive(Clone, Copy, Debug, PartialEq, Eq, Error)]
pub enum ReadAllError {
    /// The file can't be opened, or there is none.
    #[error("the file can't be opened")]
    CannotOpen,
    /// A read failed.
    #[error("reading the file failed")]
    ReadFault,
    /// The file has more bytes than asked for: in `read_all` more than 2^20.
    #[error("the file is too long")]
    TooLong,
    /// Memory was wanting.
    #[error("out of memory")]
    NoMemory,
}

/// The most bytes of a whole file: 1 MiB.
const MOST: u32 = 1 << 20;

/// The most bytes of one read.
const PIECE: usize = 4096;

/// Reads the whole file named by the word at a place, which has at most so many bytes. It opens the file once; each read but the last takes at least one byte.
///
/// Takes memory in the file's length, and 4096 bytes of stack.
pub fn read_up_to<F: Files>(
    alloc: Global,
    files: &mut F,
    words: &Words,
    place: usize,
    most: u32,
) -> Result<Vec<u8>, ReadAllError>
    requires { place < length words.now }
    ensures whole { IfOk result (λ all. Has (F.files files.old) (name_at words.now place) all.items) }
    ensures not_long { IfOk result (λ all. length all.items ≤ most) }
    ensures nothing_left { OnOk result (WhereTold (F.files files.old) (F.left files.new ≡ [])) }
    ensures cannot_open { IsErrOf result ReadAllError.CannotOpen → Rose (F.open_faults files.old) (F.open_faults files.new) ⊎ Lacks (F.files files.old) (name_at words.now place) }
    ensures cannot_open_reads_nothing { IsErrOf result ReadAllError.CannotOpen → F.read_faults files.new ≡ F.read_faults files.old }
    ensures cannot_open_left { IsErrOf result ReadAllError.CannotOpen → WhereTold (F.files files.old) (F.left files.new ≡ []) }
    ensures read_fault { IsErrOf result ReadAllError.ReadFault → Rose (F.read_faults files.old) (F.read_faults files.new) }
    ensures read_fault_left { IsErrOf result ReadAllError.ReadFault → EndsWith (F.files files.old) (name_at words.now place) (F.left files.new) }
    ensures no_memory_left { IsErrOf result ReadAllError.NoMemory → EndsWith (F.files files.old) (name_at words.now place) (F.left files.new) }
    ensures too_long { IsErrOf result ReadAllError.TooLong → IsLongOver most (F.files files.old) (name_at words.now place) (F.left files.new) }
    ensures long_is_told { HasOver most (F.files files.old) (name_at words.now place) → IsErrOf result ReadAllError.TooLong ⊎ IsErrOf result ReadAllError.NoMemory ⊎ Rose (F.open_faults files.old) (F.open_faults files.new) ⊎ Rose (F.read_faults files.old) (F.read_faults files.new) }
    ensures same_files { F.files files.new ≡ F.files files.old }
    ensures open_faults_never_fall { F.open_faults files.old ≤ F.open_faults files.new }
    ensures read_faults_never_fall { F.read_faults files.old ≤ F.read_faults files.new }
    ensures calls_never_fall { F.calls files.old ≤ F.calls files.new }
    ensures few_calls { F.calls files.new ≤ F.calls files.old + (most + 3) }
{
    if files.open_word(words, place).is_err() {
        return Err(ReadAllError::CannotOpen);
    }
    let most = most as usize;
    let mut all = Vec::new(alloc);
    let mut buf = [0u8; PIECE];
    while all.len() <= most {
        let room = (most + 1 - all.len()).min(PIECE);
        let part = &mut buf[..room];
        let count = match files.read(part) {
            Ok(0) => return Ok(all),
            Ok(count) => count,
            Err(Failed) => return Err(ReadAllError::ReadFault),
        };
        if all.extend_from_slice(&buf[..count]).is_err() {
            return Err(ReadAllError::NoMemory);
        }
    }
    Err(ReadAllError::TooLong)
}

/// Reads the whole file named by the word at a place, which has at most 2^20 bytes. It opens the file once; each read but the last takes at least one byte.
///
/// Takes memory in the file's length, and 4096 bytes of stack.
pub fn read_all<F: Files>(
    alloc: Global,
    files: &mut F,
    words: &Words,
    place: usize,
) -> Result<Vec<u8>, ReadAllError>
    requires { place < length words.now }
    ensures whole { IfOk result (λ all. Has (F.files files.old) (name_at words.now place) all.items) }
    ensures not_long { IfOk result (λ all. length all.items ≤ most_bytes) }
    ensures nothing_left { OnOk result (WhereTold (F.files files.old) (F.left files.new ≡ [])) }
    ensures cannot_open { IsErrOf result ReadAllError.CannotOpen → Rose (F.open_faults files.old) (F.open_faults files.new) ⊎ Lacks (F.files files.old) (name_at words.now place) }
    ensures cannot_open_reads_nothing { IsErrOf result ReadAllError.CannotOpen → F.read_faults files.new ≡ F.read_faults files.old }
    ensures cannot_open_left { IsErrOf result ReadAllError.CannotOpen → WhereTold (F.files files.old) (F.left files.new ≡ []) }
    ensures read_fault { IsErrOf result ReadAllError.ReadFault → Rose (F.read_faults files.old) (F.read_faults files.new) }
    ensures read_fault_left { IsErrOf result ReadAllError.ReadFault → EndsWith (F.files files.old) (name_at words.now place) (F.left files.new) }
    ensures no_memory_left { IsErrOf result ReadAllError.NoMemory → EndsWith (F.files files.old) (name_at words.now place) (F.left files.new) }
    ensures too_long { IsErrOf result ReadAllError.TooLong → IsLong (F.files files.old) (name_at words.now place) (F.left files.new) }
    ensures long_is_told { IsTooLong (F.files files.old) (name_at words.now place) → IsErrOf result ReadAllError.TooLong ⊎ IsErrOf result ReadAllError.NoMemory ⊎ Rose (F.open_faults files.old) (F.open_faults files.new) ⊎ Rose (F.read_faults files.old) (F.read_faults files.new) }
    ensures same_files { F.files files.new ≡ F.files files.old }
    ensures open_faults_never_fall { F.open_faults files.old ≤ F.open_faults files.new }
    ensures read_faults_never_fall { F.read_faults files.old ≤ F.read_faults files.new }
    ensures calls_never_fall { F.calls files.old ≤ F.calls files.new }
    ensures few_calls { F.calls files.new ≤ F.calls files.old + (2 ^ 20 + 3) }
{
    read_up_to(alloc, files, words, place, MOST)
}
