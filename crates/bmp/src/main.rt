//! The program `bmp`: the top call on the process's words, its standard input and its standard output.
#![tactic(auto)]

use bmp_ports::{StdSink, StdSource, write_all};
use bmp_program::{Status, run};
use std::alloc::AllocError;
use std::io;
use std::io::ErrorKind;
use std::process::ExitCode;

/// Why the process's words can't be had.
enum WordsFault {
    /// A word is no text.
    NoText,
    /// Memory was wanting.
    Memory,
}

impl From<io::Error> for WordsFault {
    fn from(error: io::Error) -> Self {
        if error.kind() == ErrorKind::OutOfMemory {
            WordsFault::Memory
        } else {
            WordsFault::NoText
        }
    }
}

impl From<AllocError> for WordsFault {
    fn from(_: AllocError) -> Self {
        WordsFault::Memory
    }
}

// The words of the process, the program's name first.
fn words_of(rt: &HostRuntime) -> Result<Vec<String>, WordsFault> {
    let words = std::env::args(rt)?;
    Ok(words.collect::<Vec<String>>(rt.alloc())?)
}

fn main(rt: HostRuntime) -> ExitCode {
    let mut sink = StdSink::new(rt.stdout());
    let status = match words_of(&rt) {
        Ok(words) => {
            let mut source = StdSource::new(rt.stdin());
            run(&rt, rt.alloc(), &words, &mut source, &mut sink)
        }
        Err(WordsFault::NoText) => {
            let _ = write_all(&mut sink, b"usage\n");
            Status::Usage
        }
        Err(WordsFault::Memory) => Status::NoMemory,
    };
    status.exit_code()
}
