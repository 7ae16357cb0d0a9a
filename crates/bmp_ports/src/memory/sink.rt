//! Sinks that keep their bytes in memory.
ghost use Rattle.std.specs.Prelude.{◌≡◌, ◌≤◌, ◌<◌, List, [], Some, length, take, min, IfOk, OnErr, IsErrOf, IsTrue, true, ◌↔◌};
ghost use Rattle.bmp_ports.specs.Ports.{Rose, Takes};
ghost use Rattle.bmp_ports.specs.Memory.{Port, fails_next, after_failure, after_refusal, after_writing};

use super::is_listed;
use crate::{Sink, WriteError};
use std::alloc::Global;
use std::marker::Model;

/// A sink that keeps its bytes and never fails. Contracts see it as the bytes that it took.
#[derive(Drop)]
pub struct SureSink {
    bytes: Vec<u8>,
}

impl Model for SureSink {
    ghost use Rattle.std.specs.Prelude.{ℕ, List};

    ghost Value = { List ℕ };

    ghost view = { λ s. s.bytes.items };
}

impl SureSink {
    /// An empty sink. It takes no memory yet.
    pub fn new(alloc: Global) -> SureSink
        ensures { result ≡ [] }
    {
        SureSink {
            bytes: Vec::new(alloc),
        }
    }

    /// What was taken.
    pub fn bytes(&self) -> &[u8]
        ensures { result.now ≡ self.now }
    {
        &self.bytes
    }
}

impl Sink for SureSink {
    ghost taken = { λ s. Some s };

    ghost faults = { λ s. 0 };

    ghost keeps = { λ s. true };

    fn write(&mut self, piece: &[u8]) -> Result<usize, WriteError> {
        self.bytes.extend_from_slice(piece)?;
        Ok(piece.len())
    }
}

/// A sink that keeps its bytes, takes at most so many bytes a call, and whose listed calls fail.
/// Contracts see it as a `Port` of the bytes that it took.
#[derive(Drop)]
pub struct MemSink {
    bytes: Vec<u8>,
    most: usize,
    fails: Vec<u32>,
    calls: u64,
    faults: u64,
}

impl Model for MemSink {
    ghost use Rattle.std.specs.Prelude.{ℕ, ◌<◌, List};
    ghost use Rattle.bmp_ports.specs.Memory.{Port};

    ghost Value = { Port };

    ghost view = { λ s. record {
      bytes = s.bytes.items;
      most = s.most;
      fails = s.fails.items;
      calls = s.calls;
      faults = s.faults;
    } };

    ghost invariant = { λ s. 0 < s.most };
}

impl MemSink {
    /// An empty sink that takes at most `most` bytes a call. `fails` has the numbers of the calls that fail,
    /// from 0. It takes no memory yet.
    pub fn new(alloc: Global, most: usize, fails: Vec<u32>) -> MemSink
        requires { 0 < most }
        ensures { result ≡ record {
          bytes = [];
          most = most;
          fails = fails.items;
          calls = 0;
          faults = 0;
        } }
    {
        MemSink {
            bytes: Vec::new(alloc),
            most,
            fails,
            calls: 0,
            faults: 0,
        }
    }

    /// What was taken.
    pub fn bytes(&self) -> &[u8]
        ensures { result.now ≡ self.now.bytes }
    {
        &self.bytes
    }
}

impl Sink for MemSink {
    ghost taken = { λ s. Some s.bytes };

    ghost faults = { λ s. s.faults };

    ghost keeps = { λ s. true };

    fn write(&mut self, piece: &[u8]) -> Result<usize, WriteError>
        requires { 0 < length piece.now }
        ensures some { IfOk result (λ n. 0 < n) }
        ensures within { IfOk result (λ n. n ≤ length piece.now) }
        ensures takes { IfOk result (λ n. Takes (Some self.old.bytes) (Some self.new.bytes) (take n piece.now)) }
        ensures stays { OnErr result (Some self.new.bytes ≡ Some self.old.bytes) }
        ensures later { self.old.faults ≤ self.new.faults }
        ensures cause { IsErrOf result WriteError.Failed → Rose self.old.faults self.new.faults }

        // The listed calls fail and no others; a call takes as much as it may.
        ensures fails { IsErrOf result WriteError.Failed ↔ IsTrue (fails_next self.old) }
        ensures count { IfOk result (λ n. n ≡ min self.old.most (length piece.now)) }
        ensures took { IfOk result (λ n. self.new ≡ after_writing self.old piece.now n) }
        ensures failed { IsErrOf result WriteError.Failed → (self.new ≡ after_failure self.old) }
        ensures refused { IsErrOf result WriteError.Memory → (self.new ≡ after_refusal self.old) }
    {
        let fails = is_listed(&self.fails, self.calls);
        self.calls = self.calls.saturating_add(1);
        if fails {
            self.faults = self.faults.saturating_add(1);
            return Err(WriteError::Failed);
        }
        let n = self.most.min(piece.len());
        if self.bytes.extend_from_slice(&piece[..n]).is_err() {
            return Err(WriteError::Memory);
        }
        Ok(n)
    }
}
