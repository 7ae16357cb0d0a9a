//! Tasks by number, and their results in order.
ghost use Rattle.std.specs.Prelude.{◌≡◌, ◌≤◌, ◌<◌, ◌^◌, ℕ, vec_len, IfOk, IfSome};
ghost use Rattle.bmp_par.specs.Outcomes.{AllGiven};

use crate::gate::Gate;
use std::alloc::{AllocError, Global};
use std::thread;
use std::thread::Threads;

/// Work that falls into tasks with numbers. All threads share it and none of them changes it.
pub trait Task: Sync {
    /// What a task results in.
    type Out: Send + Drop;

    /// What the task of a number may result in.
    ghost gives: { Self → ℕ → Self.Out → Type 0 };

    /// Does the task of a number. It may want memory.
    fn run(&self, i: u32) -> Result<Self::Out, AllocError>
        ensures { IfOk result (λ out. gives self.now i out) };
}

/// The results of the tasks 0 to `n - 1`, in the order of their numbers, by at most so many threads, each with tasks
/// of neighbouring numbers. The gate is passed before each task, with its number.
///
/// Where a task wants memory, so does the whole call; all tasks have been run all the same.
pub fn run_tasks<T: Task, G: Gate>(
    rt: &(impl Threads + Sync),
    alloc: Global,
    task: &T,
    n: u32,
    workers: u32,
    gate: &G,
) -> Result<Vec<T::Out>, AllocError>
    requires workers { (1 ≤ workers) × (workers ≤ 32) }
    ensures count { IfOk result (λ outs. vec_len outs ≡ n) }
    ensures each { IfOk result (λ outs. AllGiven (T.gives task.now) outs.items) }
{
    let mut places = Vec::new(alloc);
    'places: for _ in 0..n {
        places.push(None)?;
    }
    thread::for_each_mut(
        rt,
        &mut places,
        workers as usize,
        &|i: usize, place: &mut Option<T::Out>|
            requires { i < 2 ^ 32 }
            ensures { IfSome place.exit.now (T.gives task.entry.now i) }
        {
            gate.pass(i as u32);
            *place = task.run(i as u32).ok();
        },
    );
    let mut outs = Vec::new(alloc);
    'outs: for place in places {
        match place {
            Some(out) => outs.push(out)?,
            None => return Err(AllocError),
        }
    }
    Ok(outs)
}
