//! Runs of the program on texts in memory.
use bmp_par::Gate;
use bmp_ports::{MemSink, MemSource};
use bmp_program::{Status, run_with};
use std::alloc::Global;
use std::test::Fail;
use std::thread::Threads;

/// How a run with these words ends on a text.
pub fn ended<G: Gate>(
    rt: &(impl Threads + Sync),
    alloc: Global,
    words: &[&str],
    text: &str,
    gate: &G,
) -> Result<Status, Fail> {
    let mut strings = Vec::new(alloc);
    for word in words {
        strings.push(String::from_str(alloc, word)?)?;
    }
    let bytes = Vec::from_slice(alloc, text.as_bytes())?;
    let mut source = MemSource::new(bytes, usize::MAX, Vec::new(alloc));
    let mut sink = MemSink::new(alloc, usize::MAX, Vec::new(alloc));
    Ok(run_with(rt, alloc, &strings, &mut source, &mut sink, gate))
}
