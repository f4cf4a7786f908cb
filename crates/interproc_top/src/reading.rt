//! Whole files by their names.
ghost use Rattle.std.specs.Prelude.{◌≡◌, ◌≤◌, IfOk, IfErr};
ghost use Rattle.interproc_top.specs.Reading.{IsRead, Withholds};

use crate::cause::Cause;
use spl_io::{Files, ReadAllError, Words, read_all};
use std::alloc::Global;

/// The bytes of the file of this name, or why it wasn't read.
pub fn file_bytes<F: Files>(alloc: Global, files: &mut F, name: &str) -> Result<Vec<u8>, Cause>
    ensures read { IfOk result (λ bytes. IsRead (F.files files.old) name.now bytes.items) }
    ensures withheld { IfErr result (λ cause. Withholds (record {
      files = F.files files.old;
      open_before = F.open_faults files.old;
      open_now = F.open_faults files.new;
      read_before = F.read_faults files.old;
      read_now = F.read_faults files.new;
    }) name.now cause) }
    ensures same_files { F.files files.new ≡ F.files files.old }
    ensures open_faults_never_fall { F.open_faults files.old ≤ F.open_faults files.new }
    ensures read_faults_never_fall { F.read_faults files.old ≤ F.read_faults files.new }
{
    let mut words = Words::new(alloc);
    if words.push(name.as_bytes()).is_err() {
        return Err(Cause::NoMemory);
    }
    match read_all(alloc, files, &words, 0) {
        Ok(bytes) => Ok(bytes),
        Err(ReadAllError::CannotOpen) => Err(Cause::CannotOpen),
        Err(ReadAllError::ReadFault) => Err(Cause::ReadFault),
        Err(ReadAllError::TooLong) => Err(Cause::TooLong),
        Err(ReadAllError::NoMemory) => Err(Cause::NoMemory),
    }
}
