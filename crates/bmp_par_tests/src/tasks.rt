//! Tasks by number.
ghost use Rattle.std.specs.Prelude.{◌≡◌, ◌*◌};

use crate::gates::{Counter, Meeting};
use bmp_par::{OpenGate, Task, run_tasks};
use std::alloc::AllocError;
use std::test::Fail;

/// The squares of the numbers. One task may want memory.
#[derive(Drop)]
struct Squares {
    wanting: Option<u32>,
}

impl Task for Squares {
    type Out = u64;

    ghost gives = { λ _ i out. out ≡ i * i };

    fn run(&self, i: u32) -> Result<u64, AllocError> {
        if self.wanting == Some(i) {
            return Err(AllocError);
        }
        Ok(u64::from(i) * u64::from(i))
    }
}

#[test]
fn results_come_in_order(rt: HostRuntime) -> Result<(), Fail> {
    let task = Squares { wanting: None };
    for n in [0u32, 1, 2, 5, 31, 32, 33, 100] {
        for workers in [1, 2, 7, 32] {
            let gate = Counter::new();
            let outs = run_tasks(&rt, rt.alloc(), &task, n, workers, &gate)?;
            let mut wanted = Vec::new(rt.alloc());
            for i in 0..u64::from(n) {
                wanted.push(i * i)?;
            }
            let passes = u64::from(n);
            let numbers = passes * passes.saturating_sub(1) / 2;
            assert_eq!(rt;
                (outs, gate.seen()),
                (wanted, (passes, numbers)),
                "{n} tasks, {workers} workers"
            );
        }
    }
    Ok(())
}

#[test]
fn one_task_wants_memory(rt: HostRuntime) {
    for (n, wanting, done) in [
        (1, 0, false),
        (5, 0, false),
        (5, 4, false),
        (33, 17, false),
        (5, 5, true),
        (0, 0, true),
    ] {
        let task = Squares {
            wanting: Some(wanting),
        };
        for workers in [1, 2, 7, 32] {
            let outs = run_tasks(&rt, rt.alloc(), &task, n, workers, &OpenGate);
            assert_eq!(rt;
                outs.is_ok(),
                done,
                "task {wanting} of {n}, {workers} workers"
            );
        }
    }
}

#[test]
fn two_tasks_at_once(rt: HostRuntime) -> Result<(), Fail> {
    let gate = Meeting::new();
    let outs = run_tasks(&rt, rt.alloc(), &Squares { wanting: None }, 2, 2, &gate)?;
    assert_eq!(rt; (outs.len(), gate.met()), (2, 2));
    Ok(())
}
