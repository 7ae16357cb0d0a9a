//! The whole calls over ports in memory, and over readers and writers of std.
use bmp_ports::{
    MemSink, MemSource, READ_LIMIT, ReadError, StdSink, StdSource, SureSink, SureSource,
    WriteError, read_all, write_all,
};
use std::io;
use std::io::{ErrorKind, Read};
use std::test::Fail;

/// By row the bytes, how many come a call, the call that fails, and the limit; then what is read, and what a second
/// call reads.
#[test]
fn reads_up_to_the_limit(rt: HostRuntime) -> Result<(), Fail> {
    let alloc = rt.alloc();
    for (bytes, most, fails, limit, want, then) in [
        ("abcdef", 4, 9, 6, Ok("abcdef"), ""),
        ("abc", 1, 9, 3, Ok("abc"), ""),
        ("abcd", 4, 9, 3, Err(ReadError::TooLong), ""),
        ("abcd", 1, 9, 3, Err(ReadError::TooLong), ""),
        ("abcdef", 4, 1, 6, Err(ReadError::ReadFault), "ef"),
        ("abcdef", 4, 0, 6, Err(ReadError::ReadFault), "abcdef"),
        ("ef", 2, 9, 1, Err(ReadError::TooLong), ""),
    ] {
        let left = Vec::from_slice(alloc, bytes.as_bytes())?;
        let mut source = MemSource::new(left, most.max(1), Vec::from_slice(alloc, &[fails])?);
        let first = read_all(alloc, &mut source, limit.min(READ_LIMIT));
        let second = read_all(alloc, &mut source, 9)?;
        let got = first.as_ref().map(|v| v.as_slice()).map_err(|e| *e);
        let ends = (got, second.as_slice());
        assert_eq!(rt;
            ends,
            (want.map(|s| s.as_bytes()), then.as_bytes()),
            "at {bytes}, limit {limit}"
        );
    }
    Ok(())
}

/// By row how many bytes a call takes and which call fails; then how all ends, and what was taken.
#[test]
fn writes_all_or_a_prefix(rt: HostRuntime) -> Result<(), Fail> {
    let alloc = rt.alloc();
    for (most, fails, want, taken) in [
        (4, 9, Ok(()), "abcdef"),
        (1, 9, Ok(()), "abcdef"),
        (9, 9, Ok(()), "abcdef"),
        (2, 1, Err(WriteError::Failed), "ab"),
        (2, 0, Err(WriteError::Failed), ""),
    ] {
        let mut sink = MemSink::new(alloc, most.max(1), Vec::from_slice(alloc, &[fails])?);
        let got = write_all(&mut sink, b"abcdef");
        assert_eq!(rt;
            (got, sink.bytes()),
            (want, taken.as_bytes()),
            "most {most}, fails {fails}"
        );
    }
    Ok(())
}

#[test]
fn ports_that_never_fail(rt: HostRuntime) -> Result<(), Fail> {
    let alloc = rt.alloc();
    let mut source = SureSource::new(Vec::from_slice(alloc, b"abcdef")?);
    let mut sink = SureSink::new(alloc);
    write_all(&mut sink, &read_all(alloc, &mut source, 6)?)?;
    assert_eq!(rt; sink.bytes(), b"abcdef".as_slice());
    Ok(())
}

// A reader whose calls fail.
#[derive(Drop)]
struct Broken;

impl Read for Broken {
    fn read(&mut self, _: &mut [u8]) -> io::Result<usize> {
        Err(io::Error::from(ErrorKind::Other))
    }
}

#[test]
fn a_reader_is_read_to_its_end(rt: HostRuntime) -> Result<(), Fail> {
    let mut whole = StdSource::new(b"abc".as_slice());
    let bytes = read_all(rt.alloc(), &mut whole, 3)?;
    assert_eq!(rt; bytes.as_slice(), b"abc".as_slice());
    Ok(())
}

#[test]
fn a_reader_is_read_to_its_first_error(rt: HostRuntime) {
    let mut broken = StdSource::new(b"abc".as_slice().chain(Broken));
    let got = read_all(rt.alloc(), &mut broken, 9).err();
    assert_eq!(rt; got, Some(ReadError::ReadFault));
}

#[test]
fn a_writer_takes_all_or_what_it_has_room_for(rt: HostRuntime) {
    let mut room = [0; 4];
    let mut sink = StdSink::new(&mut room[..]);
    let ends = (write_all(&mut sink, b"abc"), write_all(&mut sink, b"de"));
    assert_eq!(rt; (ends, room), ((Ok(()), Err(WriteError::Failed)), *b"abcd"));
}
