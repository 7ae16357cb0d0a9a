//! What a source and a sink of bytes promise.
ghost use Rattle.std.specs.Prelude.{◌≡◌, ◌≤◌, ◌<◌, List, ℕ, Bool, Option, length, take, IfOk, OnErr, IsErrOf, IsTrue};
ghost use Rattle.bmp_ports.specs.Ports.{Rose, Passes, IsAtEnd, Takes};
ghost use Rattle.bmp_ports.specs.declared.port.WriteError.TheVariants.{Memory};

use std::alloc::AllocError;

/// A call failed, and the port's count of faults rose.
#[derive(Clone, Copy, Debug, PartialEq, Eq)]
pub struct Failed;

/// Why a sink took nothing.
#[derive(Clone, Copy, Debug, PartialEq, Eq)]
pub enum WriteError {
    /// The sink failed, and its count of faults rose.
    Failed,
    /// There is no memory to keep the bytes.
    Memory,
}

impl From<AllocError> for WriteError {
    ghost from_gives = { λ _ e. e ≡ Memory };

    fn from(_: AllocError) -> Self {
        WriteError::Memory
    }
}

/// A source of bytes.
pub trait Source {
    /// The bytes still to come, where they are told. Whether they are never changes.
    ghost left: { Self → Option (List ℕ) };

    /// How often the source has failed. The count never falls, and stays at the last value of 64 bits.
    ghost faults: { Self → ℕ };

    /// Reads into the front of the buffer and says how many bytes came: none exactly at the end of input.
    /// After a failure nothing is lost.
    fn read(&mut self, buf: &mut [u8]) -> Result<usize, Failed>
        requires { 0 < length buf.old }
        ensures within { IfOk result (λ n. n ≤ length buf.new) }
        ensures passes { IfOk result (λ n. Passes (left self.old) (left self.new) (take n buf.new)) }
        ensures end { IfOk result (λ n. n ≡ 0 → IsAtEnd (left self.old)) }
        ensures stays { OnErr result (left self.new ≡ left self.old) }
        ensures later { faults self.old ≤ faults self.new }
        ensures cause { OnErr result (Rose (faults self.old) (faults self.new)) };
}

/// A sink of bytes.
pub trait Sink {
    /// The bytes that it took, where they are told. Whether they are never changes.
    ghost taken: { Self → Option (List ℕ) };

    /// How often the sink has failed. The count never falls, and stays at the last value of 64 bits.
    ghost faults: { Self → ℕ };

    /// Whether it keeps its bytes, for which memory may be wanting.
    ghost keeps: { Self → Bool };

    /// Takes at least one byte from the front of the piece and says how many. After an error it took none.
    fn write(&mut self, piece: &[u8]) -> Result<usize, WriteError>
        requires { 0 < length piece.now }
        ensures some { IfOk result (λ n. 0 < n) }
        ensures within { IfOk result (λ n. n ≤ length piece.now) }
        ensures takes { IfOk result (λ n. Takes (taken self.old) (taken self.new) (take n piece.now)) }
        ensures stays { OnErr result (taken self.new ≡ taken self.old) }
        ensures same { keeps self.new ≡ keeps self.old }
        ensures later { faults self.old ≤ faults self.new }
        ensures cause { IsErrOf result WriteError.Failed → Rose (faults self.old) (faults self.new) }
        ensures memory { IsErrOf result WriteError.Memory → IsTrue (keeps self.old) };
}
