//! One level: the stalks of the vertices of one length, at once, and then the families over the level.
ghost use Rattle.std.specs.Prelude.{◌≡◌, suc, ◌-◌, ◌<◌, ◌≤◌, IfOk, OnOk};
ghost use Rattle.bmp_graph.specs.Graph.{vertex_count, length_at};
ghost use Rattle.bmp_check.specs.Accepted.{IsCheckableGraph};
ghost use Rattle.bmp_build.specs.Building.{IsBuiltDown, IsLevelThere, AreCounts};
ghost use Rattle.bmp_build.specs.Tasks.{HaveMembersOver, IsBuiltBy, IsLengthMade};

use crate::level_parts::LevelParts;
use crate::level_tasks::LevelTasks;
use crate::tasks::MadeStalk;
use bmp_cert::Parts;
use bmp_field::Field;
use bmp_levels::Family;
use bmp_linear::RowSpace;
use bmp_par::{Gate, run_tasks};
use bmp_sheaf::Sheaf;
use std::alloc::{AllocError, Global};
use std::thread::Threads;

/// The numbers of members.
pub(crate) fn counts_of(alloc: Global, families: &[Family]) -> Result<Vec<u32>, AllocError>
    ensures { IfOk result (λ counts. AreCounts families.now counts.items) }
{
    let mut counts = Vec::new(alloc);
    'each: for d in 0..families.len() {
        let family = &families[d];
        counts.push(family.count())?;
    }
    Ok(counts)
}

/// Builds the stalks of the vertices of length `k`, the length of the next vertex, where those of all longer ones are
/// there: at once, a task for each vertex. The sheaf is as before.
fn level_stalks<F: Field + Drop + Send + Sync, A: RowSpace<F> + Send + Sync, G: Gate>(
    rt: &(impl Threads + Sync),
    alloc: Global,
    sheaf: &mut Sheaf<F>,
    k: u32,
    families: &[Family],
    counts: &[u32],
    rows: &A,
    workers: u32,
    gate: &G,
) -> Result<Vec<MadeStalk<F>>, AllocError>
where
    F::E: Send + Sync,
    requires on { IsCheckableGraph sheaf.old.graph }
    requires members { HaveMembersOver k sheaf.old families.now counts.now }
    requires workers { (1 ≤ workers) × (workers ≤ 32) }
    ensures made { IfOk result
        (λ made. IsLengthMade (IsBuiltBy families.now counts.now) k sheaf.old made.items) }
    ensures sheaf { OnOk result (sheaf.new ≡ sheaf.old) }
{
    let longer = sheaf.pushed();
    let count = sheaf.open_length(k)?;
    let tasks = LevelTasks {
        alloc,
        sheaf,
        low: sheaf.graph().vertices() - sheaf.pushed(),
        count,
        families,
        counts,
        rows,
    };
    let made = run_tasks(rt, alloc, &tasks, count, workers, gate)?;
    let closed = sheaf.first(longer)?;
    *sheaf = closed;
    Ok(made)
}

/// Builds the parts of the vertices of length `k`, the length of the next vertex, where those of all longer ones are
/// there, in rows that are kept as `rows` are.
pub(crate) fn build_level<F: Field + Drop + Send + Sync, A: RowSpace<F> + Send + Sync, G: Gate>(
    rt: &(impl Threads + Sync),
    alloc: Global,
    sheaf: &mut Sheaf<F>,
    k: u32,
    families: &[Family],
    counts: &[u32],
    rows: &A,
    parts: &mut Parts,
    workers: u32,
    gate: &G,
) -> Result<(), AllocError>
where
    F::E: Send + Sync,
    requires on { IsCheckableGraph sheaf.old.graph }
    requires down { IsBuiltDown sheaf.old.graph sheaf.old.degree (suc k) k sheaf.old parts.old families.now }
    requires counts { AreCounts families.now counts.now }
    requires workers { (1 ≤ workers) × (workers ≤ 32) }
    ensures down { OnOk result
        (IsBuiltDown sheaf.old.graph sheaf.old.degree (suc k) k sheaf.new parts.new families.now) }
    ensures level { OnOk result (IsLevelThere sheaf.old.graph k parts.new) }
{
    let mut made = level_stalks(rt, alloc, sheaf, k, families, counts, rows, workers, gate)?;
    'vertices: while let Some(stalk) = made.pop() {
        sheaf.adopt(&stalk.sheaf)?;
        parts.push(stalk.part)?;
    }
    Ok(())
}

/// Extends the families by the blocks of the vertices of length `k`, the shortest that are there.
pub(crate) fn extend_families<F: Field>(
    sheaf: &Sheaf<F>,
    k: u32,
    parts: &Parts,
    families: &mut Vec<Family>,
) -> Result<(), AllocError>
    requires on { IsCheckableGraph sheaf.now.graph }
    requires down { IsBuiltDown sheaf.now.graph sheaf.now.degree (suc k) k sheaf.now parts.now families.old.items }
    requires level { IsLevelThere sheaf.now.graph k parts.now }
    requires shorter { let top = vertex_count sheaf.now.graph - 1 in k < length_at sheaf.now.graph top }
    ensures { OnOk result
        (IsBuiltDown sheaf.now.graph sheaf.now.degree k k sheaf.now parts.now families.new.items) }
{
    let vertices = sheaf.graph().vertices();
    'degrees: for degree in 0..sheaf.degree() + 1 {
        let family = families.remove(0);
        let blocks = LevelParts {
            parts,
            vertices,
            degree,
        };
        let longer = family.extend_level(sheaf, k, degree, &blocks)?;
        families.push(longer)?;
    }
    Ok(())
}
