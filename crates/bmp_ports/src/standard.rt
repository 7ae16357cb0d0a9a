//! Sources and sinks over a reader and a writer of std. As ports they tell nothing of their bytes: their own clauses
//! say that they hand on what the reader gives and what the writer takes.
ghost use Rattle.std.specs.Prelude.{◌≡◌, ◌≤◌, ◌<◌, None, false, length, take, IfOk, OnOk, OnErr, IsErrOf, IsTrue};
ghost use Rattle.std.specs.Io.KnownBytes.{ReadConsumes, WriteAppends};
ghost use Rattle.bmp_ports.specs.Ports.{Rose, Passes, IsAtEnd, Takes};
ghost use Rattle.bmp_ports.specs.Memory.{next_count};
ghost use Rattle.bmp_ports.specs.Standard.{Device};

use crate::{Failed, Sink, Source, WriteError};
use std::io::{Read, Write};
use std::marker::Model;

/// A source over a reader. Each error of the reader counts as a fault.
#[derive(Drop)]
pub struct StdSource<R: Read + Drop> {
    reader: R,
    faults: u64,
}

impl<R: Read + Drop> Model for StdSource<R> {
    ghost use Rattle.bmp_ports.specs.Standard.{Device};

    ghost Value = { Device };

    ghost view = { λ s. record { bytes = R.remaining s.reader; faults = s.faults } };
}

impl<R: Read + Drop> StdSource<R> {
    /// The source over this reader, which has not failed yet.
    pub fn new(reader: R) -> StdSource<R>
        ensures { result ≡ record { bytes = R.remaining reader; faults = 0 } }
    {
        StdSource { reader, faults: 0 }
    }
}

impl<R: Read + Drop> Source for StdSource<R> {
    ghost left = { λ _. None };

    ghost faults = { λ s. s.faults };

    fn read(&mut self, buf: &mut [u8]) -> Result<usize, Failed>
        requires { 0 < length buf.old }
        ensures within { IfOk result (λ n. n ≤ length buf.new) }
        ensures later { self.old.faults ≤ self.new.faults }
        ensures cause { OnErr result (Rose self.old.faults self.new.faults) }

        // What comes is what the reader gives, and each of its errors is one fault.
        ensures gave { ReadConsumes self.old.bytes self.new.bytes result buf.new }
        ensures ok { OnOk result (self.new.faults ≡ self.old.faults) }
        ensures failed { OnErr result (self.new.faults ≡ next_count self.old.faults) }
    {
        match self.reader.read(buf) {
            Ok(n) => Ok(n),
            Err(_) => {
                self.faults = self.faults.saturating_add(1);
                Err(Failed)
            }
        }
    }
}

/// A sink over a writer, which it never flushes. Each error of the writer counts as a fault, and so does a write
/// that takes no byte.
#[derive(Drop)]
pub struct StdSink<W: Write + Drop> {
    writer: W,
    faults: u64,
}

impl<W: Write + Drop> Model for StdSink<W> {
    ghost use Rattle.bmp_ports.specs.Standard.{Device};

    ghost Value = { Device };

    ghost view = { λ s. record { bytes = W.contents s.writer; faults = s.faults } };
}

impl<W: Write + Drop> StdSink<W> {
    /// The sink over this writer, which has not failed yet.
    pub fn new(writer: W) -> StdSink<W>
        ensures { result ≡ record { bytes = W.contents writer; faults = 0 } }
    {
        StdSink { writer, faults: 0 }
    }
}

impl<W: Write + Drop> Sink for StdSink<W> {
    ghost taken = { λ _. None };

    ghost faults = { λ s. s.faults };

    ghost keeps = { λ _. false };

    fn write(&mut self, piece: &[u8]) -> Result<usize, WriteError>
        requires { 0 < length piece.now }
        ensures some { IfOk result (λ n. 0 < n) }
        ensures within { IfOk result (λ n. n ≤ length piece.now) }
        ensures later { self.old.faults ≤ self.new.faults }
        ensures cause { IsErrOf result WriteError.Failed → Rose self.old.faults self.new.faults }
        ensures no_memory { OnErr result (result ≡ Err WriteError.Failed) }

        // What goes is what the writer takes, and each of its errors is one fault.
        ensures took { WriteAppends self.old.bytes self.new.bytes result piece.now }
        ensures ok { OnOk result (self.new.faults ≡ self.old.faults) }
        ensures failed { OnErr result (self.new.faults ≡ next_count self.old.faults) }
    {
        match self.writer.write(piece) {
            Ok(n) if n > 0 => Ok(n),
            _ => {
                self.faults = self.faults.saturating_add(1);
                Err(WriteError::Failed)
            }
        }
    }
}
