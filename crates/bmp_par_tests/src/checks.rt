//! Whole checks by several workers: each passes the gate once, and two of them are at work at once.
use crate::gates::{Counter, Meeting};
use crate::runs::ended;
use bmp_par::Gate;
use bmp_program::Status;
use std::alloc::Global;
use std::test::Fail;
use std::thread::Threads;

/// A square: the product of two lines, up to degree 0.
const SQUARE: &str = "\
bmp-cert 1
rank 2
row 2 -1
row -1 2
prime 3
word 2 1 2
degree 0
vertices 4
vertex 3 1 0
vertex 2 1 0
edges 1
lift 1 0 1
block 0 0 1
pivots
tuple 1 0 1
cover 1 0 1
source 1 0 1
dual 1 0 1
vertex 1 1 0
edges 1
lift 1 0 1
block 0 0 1
pivots
tuple 1 0 1
cover 1 0 1
source 1 0 1
dual 1 0 1
vertex 0 1 0
edges 2
lift 1 0 1
lift 1 0 1
block 0 2 1
pivots 0 1
tuple 3 0 1 1 1 2 1
row 1 0 1
row 1 1 1
cover 1 0 1
source 1 0 1
dual 1 0 1
end
";

/// How `check` ends on the square, by so many workers.
fn check_square<G: Gate>(
    rt: &(impl Threads + Sync),
    alloc: Global,
    workers: &str,
    gate: &G,
) -> Result<Status, Fail> {
    ended(
        rt,
        alloc,
        &["bmp", "check", "--workers", workers],
        SQUARE,
        gate,
    )
}

#[test]
fn each_worker_passes_once(rt: HostRuntime) -> Result<(), Fail> {
    for (workers, seen) in [
        ("1", (1, 0)),
        ("2", (2, 1)),
        ("7", (7, 21)),
        ("32", (32, 496)),
    ] {
        let gate = Counter::new();
        let ended = check_square(&rt, rt.alloc(), workers, &gate)?;
        assert_eq!(rt;
            (ended, gate.seen()),
            (Status::Done, seen),
            "{workers} workers"
        );
    }
    Ok(())
}

#[test]
fn two_workers_check_at_once(rt: HostRuntime) -> Result<(), Fail> {
    let gate = Meeting::new();
    let ended = check_square(&rt, rt.alloc(), "2", &gate)?;
    assert_eq!(rt; (ended, gate.met()), (Status::Done, 2));
    Ok(())
}
