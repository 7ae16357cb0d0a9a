//! What the tests share: runs of the top call over ports in memory.
ghost use Rattle.std.specs.Prelude.{◌<◌};

use bmp_ports::{MemSink, MemSource};
use bmp_program::{Status, run};
use std::alloc::{AllocError, Global};
use std::process::Abort;
use std::test::Fail;
use std::thread::Threads;

/// The words of a command line, behind the program's name.
pub(crate) fn words_of(alloc: Global, line: &str) -> Result<Vec<String>, AllocError> {
    let mut words = Vec::new(alloc);
    words.push(String::from_str(alloc, "bmp")?)?;
    for word in line.split(' ') {
        words.push(String::from_str(alloc, word)?)?;
    }
    Ok(words)
}

/// Asserts how a command line ends on an input, and what it writes, where nothing fails.
pub(crate) fn assert_run(
    rt: &(impl Abort + Threads + Sync),
    alloc: Global,
    line: &str,
    input: &str,
    status: Status,
    written: &str,
) -> Result<(), Fail> {
    let words = words_of(alloc, line)?;
    let bytes = Vec::from_slice(alloc, input.as_bytes())?;
    let mut source = MemSource::new(bytes, usize::MAX, Vec::new(alloc));
    let mut sink = MemSink::new(alloc, usize::MAX, Vec::new(alloc));
    let ended = run(rt, alloc, &words, &mut source, &mut sink);
    assert_eq!(rt;
        (ended, sink.bytes()),
        (status, written.as_bytes()),
        "at {line}: {input}"
    );
    Ok(())
}

/// How a command line ends on an input, and the bytes that it writes, where nothing fails.
pub(crate) fn written_by(
    rt: &(impl Threads + Sync),
    alloc: Global,
    line: &str,
    input: &str,
) -> Result<(Status, Vec<u8>), AllocError> {
    let words = words_of(alloc, line)?;
    let bytes = Vec::from_slice(alloc, input.as_bytes())?;
    let mut source = MemSource::new(bytes, usize::MAX, Vec::new(alloc));
    let mut sink = MemSink::new(alloc, usize::MAX, Vec::new(alloc));
    let status = run(rt, alloc, &words, &mut source, &mut sink);
    let taken = Vec::from_slice(alloc, sink.bytes())?;
    Ok((status, taken))
}

/// How `check` ends on an input where source and sink move at most so many bytes a call and one call of each fails, by
/// number; and what the sink took.
pub(crate) fn check_by_pieces(
    rt: &(impl Threads + Sync),
    alloc: Global,
    input: &str,
    most: usize,
    source_fails: u32,
    sink_fails: u32,
) -> Result<(Status, Vec<u8>), Fail>
    requires { 0 < most }
{
    let words = words_of(alloc, "check")?;
    let bytes = Vec::from_slice(alloc, input.as_bytes())?;
    let mut source = MemSource::new(bytes, most, Vec::from_slice(alloc, &[source_fails])?);
    let mut sink = MemSink::new(alloc, most, Vec::from_slice(alloc, &[sink_fails])?);
    let status = run(rt, alloc, &words, &mut source, &mut sink);
    let taken = Vec::from_slice(alloc, sink.bytes())?;
    Ok((status, taken))
}

/// The text with another line at one place, counted from 1.
pub(crate) fn with_line(
    alloc: Global,
    text: &str,
    place: usize,
    line: &str,
) -> Result<String, AllocError> {
    with_lines(alloc, text, place, place, line)
}

/// The text with other lines in place of those from `first` to `last`, counted from 1.
pub(crate) fn with_lines(
    alloc: Global,
    text: &str,
    first: usize,
    last: usize,
    lines: &str,
) -> Result<String, AllocError> {
    let before = first.saturating_sub(1);
    let mut changed = String::new(alloc);
    for (index, old) in text.lines().enumerate() {
        let is_kept = index < before || index >= last;
        if is_kept || index == before {
            changed.push_str(if is_kept { old } else { lines })?;
            changed.push('\n')?;
        }
    }
    Ok(changed)
}
