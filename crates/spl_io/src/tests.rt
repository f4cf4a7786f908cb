ghost use Rattle.std.specs.Prelude.{◌≤◌, ◌<◌, ◌≡◌, length, IfOk};

use crate::{
    HostFiles, HostSink, MemFiles, MemSink, NoMemory, ReadAllError, Words, WriteFault, read_all,
    read_up_to, write_all,
};
use std::alloc::{AllocError, Global};
use std::fs::File;
use std::test::Fail;

/// So many bytes, no two neighbours alike.
fn bytes_of(alloc: Global, len: usize) -> Result<Vec<u8>, AllocError> {
    let mut bytes = Vec::new(alloc);
    for place in 0..len {
        bytes.push((place % 251) as u8)?;
    }
    Ok(bytes)
}

/// One word.
fn one_word(alloc: Global, name: &[u8]) -> Result<Words, NoMemory>
    ensures { IfOk result (λ words. length words ≡ 1) }
{
    let mut words = Words::new(alloc);
    words.push(name)?;
    Ok(words)
}

#[test]
fn words_stand_in_order(rt: HostRuntime) -> Result<(), Fail> {
    let mut words = Words::new(rt.alloc());
    assert_eq!(rt; words.len(), 0);
    words.push(b"--full")?;
    words.push(b"")?;
    words.push(b"\xff")?;
    assert_eq!(rt; words.len(), 3);
    assert_eq!(rt; words.word(0), b"--full".as_slice());
    assert_eq!(rt; words.word(1), b"".as_slice());
    assert_eq!(rt; words.word(2), b"\xff".as_slice());
    assert_eq!(rt; words.as_slice()[0].as_slice(), b"--full".as_slice());
    Ok(())
}

#[test]
fn a_whole_file_is_read_in_pieces(rt: HostRuntime) -> Result<(), Fail> {
    let alloc = rt.alloc();
    let words = one_word(alloc, b"a.spl")?;
    for (piece, len) in [
        (1, 0),
        (1, 1),
        (7, 50),
        (16, 64),
        (16, 5000),
        (5000, 5000),
        (1 << 20, 1 << 20),
    ] {
        assert!(rt; piece >= 1);
        let bytes = bytes_of(alloc, len)?;
        let mut files = MemFiles::new(alloc, piece);
        files.put(b"b.spl", b"another")?;
        files.put(b"a.spl", &bytes)?;
        let all = read_all(alloc, &mut files, &words, 0)?;
        assert!(rt;
            all.as_slice() == bytes.as_slice(),
            "{len} bytes in pieces of {piece}"
        );
    }
    Ok(())
}

#[test]
fn a_file_of_at_most_so_many_bytes(rt: HostRuntime) -> Result<(), Fail> {
    let alloc = rt.alloc();
    let words = one_word(alloc, b"a.spl")?;
    for (len, most, is_whole) in [(9, 9, true), (10, 9, false), ((1 << 20) + 1, 1 << 24, true)] {
        let bytes = bytes_of(alloc, len)?;
        let mut files = MemFiles::new(alloc, 4096);
        files.put(b"a.spl", &bytes)?;
        match read_up_to(alloc, &mut files, &words, 0, most) {
            Ok(all) => assert!(rt; is_whole && all.as_slice() == bytes.as_slice()),
            Err(fault) => assert!(rt; !is_whole && fault == ReadAllError::TooLong),
        }
    }
    Ok(())
}

#[test]
fn a_file_past_the_limit_is_too_long(rt: HostRuntime) -> Result<(), Fail> {
    let alloc = rt.alloc();
    let words = one_word(alloc, b"a.spl")?;
    for len in [(1 << 20) + 1, (1 << 20) + 2, (1 << 20) + 5000] {
        let mut files = MemFiles::new(alloc, 1 << 20);
        files.put(b"a.spl", &bytes_of(alloc, len)?)?;
        let fault = read_all(alloc, &mut files, &words, 0).err();
        assert_eq!(rt; fault, Some(ReadAllError::TooLong), "{len} bytes");
    }
    Ok(())
}

#[test]
fn a_later_put_replaces(rt: HostRuntime) -> Result<(), Fail> {
    let alloc = rt.alloc();
    let words = one_word(alloc, b"a.spl")?;
    let mut files = MemFiles::new(alloc, 7);
    assert_eq!(rt;
        read_all(alloc, &mut files, &words, 0).err(),
        Some(ReadAllError::CannotOpen)
    );
    files.put(b"a.spl", b"the first bytes")?;
    files.put(b"b.spl", b"others")?;
    files.put(b"a.spl", b"second")?;
    let all = read_all(alloc, &mut files, &words, 0)?;
    assert_eq!(rt; all.as_slice(), b"second".as_slice());
    Ok(())
}

#[test]
fn a_listed_call_fails(rt: HostRuntime) -> Result<(), Fail> {
    let alloc = rt.alloc();
    let words = one_word(alloc, b"a.spl")?;
    // Twenty bytes in pieces of 16 are read by calls 1 and 2, and call 3 finds the end.
    for (call, fault) in [
        (0, Some(ReadAllError::CannotOpen)),
        (1, Some(ReadAllError::ReadFault)),
        (2, Some(ReadAllError::ReadFault)),
        (3, Some(ReadAllError::ReadFault)),
        (4, None),
    ] {
        let mut files = MemFiles::new(alloc, 16);
        files.put(b"a.spl", &bytes_of(alloc, 20)?)?;
        files.fail_at(call)?;
        let answer = read_all(alloc, &mut files, &words, 0).err();
        assert_eq!(rt; answer, fault, "call {call}");
    }
    Ok(())
}

#[test]
fn a_sink_takes_what_its_room_allows(rt: HostRuntime) -> Result<(), Fail> {
    let alloc = rt.alloc();
    let text = bytes_of(alloc, 50)?;
    for (piece, room, failing, gone) in [
        (1, 50, 99, 50),
        (7, 60, 99, 50),
        (16, 50, 99, 50),
        (1, 20, 99, 20),
        (7, 20, 99, 20),
        (16, 0, 99, 0),
        (7, 50, 0, 0),
        (7, 50, 2, 14),
    ] {
        assert!(rt; piece >= 1);
        let mut sink = MemSink::new(alloc, piece, room)?;
        sink.fail_at(failing)?;
        let answer = write_all(&mut sink, &text).err();
        let fault = if gone < 50 {
            Some(WriteFault { gone })
        } else {
            None
        };
        assert_eq!(rt;
            answer,
            fault,
            "pieces of {piece}, room of {room}, call {failing}"
        );
        assert_eq!(rt;
            Some(sink.bytes()),
            text.get(..gone),
            "pieces of {piece}, room of {room}, call {failing}"
        );
    }
    Ok(())
}

#[test]
fn host_objects_write_and_read_a_file(rt: HostRuntime) -> Result<(), Fail> {
    let alloc = rt.alloc();
    let text = bytes_of(alloc, 10_000)?;
    let mut sink = HostSink::new(File::create(&rt, "a.spl")?);
    write_all(&mut sink, &text)?;
    let words = one_word(alloc, b"a.spl")?;
    let mut files = HostFiles::new(&rt);
    let all = read_all(alloc, &mut files, &words, 0)?;
    assert!(rt; all.as_slice() == text.as_slice());

    // A file that is open for reading alone takes nothing.
    let mut closed = HostSink::new(File::open(&rt, "a.spl")?);
    assert_eq!(rt;
        write_all(&mut closed, &text).err(),
        Some(WriteFault { gone: 0 })
    );
    Ok(())
}

#[test]
fn host_files_refuse_what_is_no_file(rt: HostRuntime) -> Result<(), Fail> {
    let alloc = rt.alloc();
    let mut files = HostFiles::new(&rt);
    for name in [
        b"missing.spl".as_slice(),
        b"".as_slice(),
        b"\xff.spl".as_slice(),
    ] {
        let words = one_word(alloc, name)?;
        let answer = read_all(alloc, &mut files, &words, 0).err();
        assert_eq!(rt; answer, Some(ReadAllError::CannotOpen));
    }

    // A folder opens on most hosts, and then can't be read.
    let folder = one_word(alloc, b".")?;
    assert!(rt; read_all(alloc, &mut files, &folder, 0).is_err());
    Ok(())
}
