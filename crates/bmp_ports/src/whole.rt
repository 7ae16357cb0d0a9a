//! All of a source's bytes, and all bytes into a sink.
ghost use Rattle.std.specs.Prelude.{◌≡◌, ◌≤◌, ◌<◌, ◌+◌, ℕ, List, length, take, vec_len, IfOk, OnOk, OnErr, IsErrOf, IsTrue};
ghost use Rattle.bmp_ports.specs.Ports.{Rose, Passes, PassesExactly, PassesAtMost, IsAtEnd, Takes, TakesPrefix};
ghost use Rattle.bmp_ports.specs.declared.whole.ReadError.TheVariants.{ReadFault, Memory};

use crate::{Failed, Sink, Source, WriteError};
use std::alloc::{AllocError, Global};

/// The most bytes that `read_all` can be told to read.
pub const READ_LIMIT: usize = 268_435_456;

// As many bytes as the first call of a source is asked for.
const FIRST_PIECE: usize = 65_536;

/// Why not all was read.
#[derive(Clone, Copy, Debug, PartialEq, Eq)]
pub enum ReadError {
    /// The source failed, and its count of faults rose.
    ReadFault,
    /// More bytes came than the limit.
    TooLong,
    /// There is no memory to keep the bytes.
    Memory,
}

impl From<AllocError> for ReadError {
    ghost from_gives = { λ _ e. e ≡ Memory };

    fn from(_: AllocError) -> Self {
        ReadError::Memory
    }
}

impl From<Failed> for ReadError {
    ghost from_gives = { λ _ e. e ≡ ReadFault };

    fn from(_: Failed) -> Self {
        ReadError::ReadFault
    }
}

// Makes sure that there is room behind the filled bytes: where there is none, as much again as there are, but for
// one byte more than the limit at most.
fn make_room(bytes: &mut Vec<u8>, filled: usize, limit: usize) -> Result<(), AllocError>
    requires limit { limit ≤ READ_LIMIT }
    requires within { filled ≤ limit }
    requires front { filled ≤ vec_len bytes.old }
    requires most { vec_len bytes.old ≤ limit + 1 }
    ensures filled { take filled bytes.new.items ≡ take filled bytes.old.items }
    ensures room { OnOk result (filled < vec_len bytes.new) }
    ensures most { vec_len bytes.new ≤ limit + 1 }
    ensures err { OnErr result (bytes.new.items ≡ bytes.old.items) }
{
    if filled < bytes.len() {
        return Ok(());
    }
    let wanted = FIRST_PIECE.max(2 * filled);
    bytes.resize(wanted.min(limit + 1), 0)
}

/// Reads to the end of input. After an error the bytes that were read are gone and the rest is unread.
///
/// `TooLong` comes exactly where one byte more than the limit came, and `ReadFault` only where the source's count of
/// faults rose.
pub fn read_all<S: Source>(
    alloc: Global,
    source: &mut S,
    limit: usize,
) -> Result<Vec<u8>, ReadError>
    requires { limit ≤ READ_LIMIT }
    ensures all { IfOk result (λ v. Passes (S.left source.old) (S.left source.new) v.items) }
    ensures end { OnOk result (IsAtEnd (S.left source.new)) }
    ensures within { IfOk result (λ v. length v.items ≤ limit) }

    ensures fault { IsErrOf result ReadError.ReadFault → Rose (S.faults source.old) (S.faults source.new) }
    ensures too_long { IsErrOf result ReadError.TooLong →
        PassesExactly (S.left source.old) (S.left source.new) (limit + 1) }
    ensures fault_within { IsErrOf result ReadError.ReadFault →
        PassesAtMost (S.left source.old) (S.left source.new) limit }
    ensures memory_within { IsErrOf result ReadError.Memory →
        PassesAtMost (S.left source.old) (S.left source.new) limit }

    ensures later { S.faults source.old ≤ S.faults source.new }
{
    let mut bytes = Vec::new(alloc);
    let mut filled = 0;
    'pieces: loop {
        make_room(&mut bytes, filled, limit)?;
        let n = source.read(bytes.slice_mut(filled..))?;
        if n == 0 {
            bytes.truncate(filled);
            bytes.shrink_to_fit();
            return Ok(bytes);
        }
        filled += n;
        if filled > limit {
            return Err(ReadError::TooLong);
        }
    }
}

/// Writes all bytes, and hands each call of the sink all those that are left. After an error the sink has taken a
/// prefix of them.
pub fn write_all<K: Sink>(sink: &mut K, bytes: &[u8]) -> Result<(), WriteError>
    ensures ok { OnOk result (Takes (K.taken sink.old) (K.taken sink.new) bytes.now) }
    ensures err { OnErr result (TakesPrefix (K.taken sink.old) (K.taken sink.new) bytes.now) }
    ensures failed { IsErrOf result WriteError.Failed → Rose (K.faults sink.old) (K.faults sink.new) }
    ensures memory { IsErrOf result WriteError.Memory → IsTrue (K.keeps sink.old) }
    ensures same { K.keeps sink.new ≡ K.keeps sink.old }
    ensures later { K.faults sink.old ≤ K.faults sink.new }
{
    let mut at = 0;
    while at < bytes.len() {
        let n = sink.write(&bytes[at..])?;
        at += n;
    }
    Ok(())
}
