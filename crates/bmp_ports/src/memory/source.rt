//! Sources over bytes in memory.
ghost use Rattle.std.specs.Prelude.{◌≡◌, ◌≤◌, ◌<◌, ◌-◌, List, Some, length, take, drop, min, IfOk, OnErr, is_err};
ghost use Rattle.bmp_ports.specs.Ports.{Rose, Passes, IsAtEnd};
ghost use Rattle.bmp_ports.specs.Memory.{Port, fails_next, after_failure, after_reading};

use super::is_listed;
use crate::{Failed, Source};
use std::marker::Model;

// Copies from a place on: as much as there is, as fits and as may be copied.
fn copy_front(buf: &mut [u8], bytes: &[u8], at: usize, most: usize) -> usize
    requires { at ≤ length bytes.now }
    ensures count { result ≡ min most (min (length buf.old) (length bytes.now - at)) }
    ensures front { take result buf.new ≡ take result (drop at bytes.now) }
{
    let (_, rest) = bytes.split_at(at);
    let n = most.min(buf.len().min(rest.len()));
    buf[..n].copy_from_slice(&rest[..n]);
    n
}

/// A source over bytes in memory that never fails. Contracts see it as the bytes that are left.
#[derive(Drop)]
pub struct SureSource {
    bytes: Vec<u8>,
    at: usize,
}

impl Model for SureSource {
    ghost use Rattle.std.specs.Prelude.{ℕ, ◌≤◌, List, drop, length};

    ghost Value = { List ℕ };

    ghost view = { λ s. drop s.at s.bytes.items };

    ghost invariant = { λ s. s.at ≤ length s.bytes.items };
}

impl SureSource {
    /// The source of these bytes.
    pub fn new(bytes: Vec<u8>) -> SureSource
        ensures { result ≡ bytes.items }
    {
        SureSource { bytes, at: 0 }
    }
}

impl Source for SureSource {
    ghost left = { λ s. Some s };

    ghost faults = { λ s. 0 };

    fn read(&mut self, buf: &mut [u8]) -> Result<usize, Failed> {
        let n = copy_front(buf, &self.bytes, self.at, usize::MAX);
        self.at += n;
        Ok(n)
    }
}

/// A source over bytes in memory that gives at most so many bytes a call, and whose listed calls fail.
/// Contracts see it as a `Port` of the bytes that are left.
#[derive(Drop)]
pub struct MemSource {
    bytes: Vec<u8>,
    at: usize,
    most: usize,
    fails: Vec<u32>,
    calls: u64,
    faults: u64,
}

impl Model for MemSource {
    ghost use Rattle.std.specs.Prelude.{ℕ, ◌≤◌, ◌<◌, List, drop, length};
    ghost use Rattle.bmp_ports.specs.Memory.{Port};

    ghost Value = { Port };

    ghost view = { λ s. record {
      bytes = drop s.at s.bytes.items;
      most = s.most;
      fails = s.fails.items;
      calls = s.calls;
      faults = s.faults;
    } };

    ghost invariant = { λ s. (s.at ≤ length s.bytes.items) × (0 < s.most) };
}

impl MemSource {
    /// The source of these bytes, with at most `most` of them a call. `fails` has the numbers of the calls
    /// that fail, from 0.
    pub fn new(bytes: Vec<u8>, most: usize, fails: Vec<u32>) -> MemSource
        requires { 0 < most }
        ensures { result ≡ record {
          bytes = bytes.items;
          most = most;
          fails = fails.items;
          calls = 0;
          faults = 0;
        } }
    {
        MemSource {
            bytes,
            at: 0,
            most,
            fails,
            calls: 0,
            faults: 0,
        }
    }
}

impl Source for MemSource {
    ghost left = { λ s. Some s.bytes };

    ghost faults = { λ s. s.faults };

    fn read(&mut self, buf: &mut [u8]) -> Result<usize, Failed>
        requires { 0 < length buf.old }
        ensures within { IfOk result (λ n. n ≤ length buf.new) }
        ensures passes { IfOk result (λ n. Passes (Some self.old.bytes) (Some self.new.bytes) (take n buf.new)) }
        ensures end { IfOk result (λ n. n ≡ 0 → IsAtEnd (Some self.old.bytes)) }
        ensures stays { OnErr result (Some self.new.bytes ≡ Some self.old.bytes) }
        ensures later { self.old.faults ≤ self.new.faults }
        ensures cause { OnErr result (Rose self.old.faults self.new.faults) }

        // The listed calls fail and no others; a call gives as much as it may.
        ensures fails { is_err result ≡ fails_next self.old }
        ensures count { IfOk result (λ n. n ≡ min self.old.most (min (length buf.old) (length self.old.bytes))) }
        ensures gave { IfOk result (λ n. self.new ≡ after_reading self.old n) }
        ensures failed { OnErr result (self.new ≡ after_failure self.old) }
    {
        let fails = is_listed(&self.fails, self.calls);
        self.calls = self.calls.saturating_add(1);
        if fails {
            self.faults = self.faults.saturating_add(1);
            return Err(Failed);
        }
        let n = copy_front(buf, &self.bytes, self.at, self.most);
        self.at += n;
        Ok(n)
    }
}
