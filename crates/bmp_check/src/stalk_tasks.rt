//! The stalks that parts write down, added at once at the vertices of one length.
ghost use Rattle.std.specs.Prelude.{◌≡◌, ℕ, ◌+◌, ◌-◌, ◌<◌, ◌≤◌, OnOk, IfOk, length};
ghost use Rattle.bmp_graph.specs.Graph.{vertex_count};
ghost use Rattle.bmp_check.specs.Accepted.{IsCheckable};
ghost use Rattle.bmp_check.specs.ShapedViews.{method_in, written_in};
ghost use Rattle.bmp_check.specs.StalkTasks.{IsSheafUpTo, CanAdd, HasAdded, BringStalks};
ghost use Rattle.bmp_check.specs.Verdicts.{CountPasses, ShapePasses};

use crate::given::Given;
use crate::written::push_part;
use bmp_field::PrimeField;
use bmp_par::{OpenGate, Task, run_tasks};
use bmp_sheaf::Sheaf;
use std::alloc::{AllocError, Global};
use std::thread::Threads;

/// The vertices of one length, `count` in number, whose stalks are those that parts write down. The sheaf has these of
/// the `before` longer vertices, and some at the vertices of this length, which are not read.
#[derive(Drop)]
pub(crate) struct StalkTasks<'a> {
    pub(crate) sheaf: &'a Sheaf<PrimeField>,
    pub(crate) given: &'a Given<'a>,
    pub(crate) before: u32,
    pub(crate) count: u32,
    pub(crate) ghost counted: { before + count ≡ length sheaf.now.stalks },
    pub(crate) ghost parts_are: { (n : ℕ) → before ≤ n → n < before + count →
        CanAdd (written_in given.now) sheaf.now n },
}

impl Task for StalkTasks<'_> {
    type Out = Sheaf<PrimeField>;

    ghost gives = { λ t i out. i < t.count
        → HasAdded (written_in t.given.now) t.sheaf.now (t.before + t.count - 1 - i) out };

    fn run(&self, i: u32) -> Result<Sheaf<PrimeField>, AllocError> {
        if i >= self.count {
            return Err(AllocError);
        }
        let number = self.sheaf.pushed() - 1 - i;
        let mut sheaf = self.sheaf.first(number)?;
        push_part(&mut sheaf, self.given.parts.at(number))?;
        Ok(sheaf)
    }
}

/// Sheaves that bring the stalks of the vertices of the next length: each by a task of its own, over the stalks of the
/// longer vertices. The gate is open, and the sheaf is as before.
fn next_stalks(
    rt: &(impl Threads + Sync),
    alloc: Global,
    sheaf: &mut Sheaf<PrimeField>,
    given: &Given,
    workers: u32,
) -> Result<Vec<Sheaf<PrimeField>>, AllocError>
    requires checkable { IsCheckable sheaf.old.graph given.now.version (written_in given.now) }
    requires count { CountPasses sheaf.old.graph (written_in given.now) }
    requires shape { ShapePasses sheaf.old.graph (method_in given.now) (written_in given.now) }
    requires so_far { IsSheafUpTo sheaf.old.graph (written_in given.now) (length sheaf.old.stalks) sheaf.old }
    requires left { length sheaf.old.stalks < vertex_count sheaf.old.graph }
    requires workers { (1 ≤ workers) × (workers ≤ 32) }
    ensures sheaf { OnOk result (sheaf.new ≡ sheaf.old) }
    ensures bring { IfOk result
        (λ made. BringStalks sheaf.old.graph (written_in given.now) (length sheaf.old.stalks) made.items) }
    ensures some { IfOk result (λ made. 0 < length made.items) }
{
    let before = sheaf.pushed();
    let level = sheaf.next_length();
    let count = sheaf.open_length(level)?;
    let tasks = StalkTasks {
        sheaf,
        given,
        before,
        count,
    };
    let made = run_tasks(rt, alloc, &tasks, count, workers, &OpenGate)?;
    let closed = sheaf.first(before)?;
    *sheaf = closed;
    Ok(made)
}

/// Adds the stalks of the vertices of the next length.
fn add_length(
    rt: &(impl Threads + Sync),
    alloc: Global,
    sheaf: &mut Sheaf<PrimeField>,
    given: &Given,
    workers: u32,
) -> Result<(), AllocError>
    requires checkable { IsCheckable sheaf.old.graph given.now.version (written_in given.now) }
    requires count { CountPasses sheaf.old.graph (written_in given.now) }
    requires shape { ShapePasses sheaf.old.graph (method_in given.now) (written_in given.now) }
    requires so_far { IsSheafUpTo sheaf.old.graph (written_in given.now) (length sheaf.old.stalks) sheaf.old }
    requires left { length sheaf.old.stalks < vertex_count sheaf.old.graph }
    requires workers { (1 ≤ workers) × (workers ≤ 32) }
    ensures so_far { OnOk result
        (IsSheafUpTo sheaf.old.graph (written_in given.now) (length sheaf.new.stalks) sheaf.new) }
    ensures more { OnOk result (length sheaf.old.stalks < length sheaf.new.stalks) }
    ensures few { OnOk result (length sheaf.new.stalks ≤ vertex_count sheaf.old.graph) }
{
    let mut made = next_stalks(rt, alloc, sheaf, given, workers)?;
    'made: while let Some(one) = made.pop() {
        sheaf.adopt(&one)?;
    }
    Ok(())
}

/// Adds all stalks to a sheaf that has none, length by length.
pub(crate) fn add_stalks(
    rt: &(impl Threads + Sync),
    alloc: Global,
    sheaf: &mut Sheaf<PrimeField>,
    given: &Given,
    workers: u32,
) -> Result<(), AllocError>
    requires checkable { IsCheckable sheaf.old.graph given.now.version (written_in given.now) }
    requires count { CountPasses sheaf.old.graph (written_in given.now) }
    requires shape { ShapePasses sheaf.old.graph (method_in given.now) (written_in given.now) }
    requires none { length sheaf.old.stalks ≡ 0 }
    requires degree { sheaf.old.degree ≡ given.now.degree }
    requires workers { (1 ≤ workers) × (workers ≤ 32) }
    ensures { OnOk result
        (IsSheafUpTo sheaf.old.graph (written_in given.now) (vertex_count sheaf.old.graph) sheaf.new) }
{
    let vertices = sheaf.graph().vertices();
    'lengths: while sheaf.pushed() < vertices {
        add_length(rt, alloc, sheaf, given, workers)?;
    }
    Ok(())
}
