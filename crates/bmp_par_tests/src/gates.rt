//! Gates that see who passes.
use bmp_par::Gate;
use std::sync::atomic::{AtomicBool, AtomicU64, Ordering};

/// Counts the passes, and adds up their numbers.
#[derive(Drop)]
pub struct Counter {
    passes: AtomicU64,
    numbers: AtomicU64,
}

impl Counter {
    pub fn new() -> Counter {
        Counter {
            passes: AtomicU64::new(0),
            numbers: AtomicU64::new(0),
        }
    }

    /// The number of passes, and the sum of the numbers that passed.
    pub fn seen(&self) -> (u64, u64) {
        (
            self.passes.load(Ordering::SeqCst),
            self.numbers.load(Ordering::SeqCst),
        )
    }
}

impl Gate for Counter {
    fn pass(&self, i: u32) {
        self.passes.fetch_add(1, Ordering::SeqCst);
        self.numbers.fetch_add(u64::from(i), Ordering::SeqCst);
    }
}

/// How often a pass looks for the other one.
const MOST_LOOKS: u32 = 500_000_000;

/// The first passes of the numbers 0 and 1 wait for each other, for a stated number of looks, which one thread alone
/// would use up.
#[derive(Drop)]
pub struct Meeting {
    zero: AtomicBool,
    one: AtomicBool,
    met: AtomicU64,
}

impl Meeting {
    pub fn new() -> Meeting {
        Meeting {
            zero: AtomicBool::new(false),
            one: AtomicBool::new(false),
            met: AtomicU64::new(0),
        }
    }

    /// How many of the two found the other there.
    pub fn met(&self) -> u64 {
        self.met.load(Ordering::SeqCst)
    }
}

impl Gate for Meeting {
    fn pass(&self, i: u32) {
        let (own, other) = match i {
            0 => (&self.zero, &self.one),
            1 => (&self.one, &self.zero),
            _ => return,
        };
        if own.swap(true, Ordering::SeqCst) {
            return;
        }
        for _ in 0..MOST_LOOKS {
            if other.load(Ordering::SeqCst) {
                self.met.fetch_add(1, Ordering::SeqCst);
                return;
            }
        }
    }
}
