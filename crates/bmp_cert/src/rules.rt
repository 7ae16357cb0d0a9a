//! The rules of a job, in the order in which they are tried.
ghost use Rattle.std.specs.Prelude.{◌≡◌, ◌≤◌, OnOk, IfOk, IfErr, IsOk, IsOkUnless};
ghost use Rattle.bmp_interval.specs.Intervals.{IsIntervalOf};
ghost use Rattle.bmp_interval.specs.IntervalViews.{system_of, letters_of, vertices_of};
ghost use Rattle.bmp_graph.specs.Graph.{IsGraph, HasGkm};
ghost use Rattle.bmp_bruhat.specs.Edges.{IsBruhatGraph};
ghost use Rattle.bmp_cert.specs.JobGraphs.{form_of_job, IsSystemOf, IsJobGraph, IsPrepared};
ghost use Rattle.bmp_cert.specs.JobRules.{system_rules, letter_rules, interval_rules, size_rules, graph_rules, rules, KeepsAll, IsFirstFault, IsErrorOf};
ghost use Rattle.bmp_cert.specs.JobViews.{job_of, interval_of, graph_of, prepared_of};

use crate::Job;
use crate::job_fault::{JobError, JobFault};
use crate::prepared::{Accepted, Prepared};
use bmp_bruhat::{BruhatError, graph_in};
use bmp_field::PrimeField;
use bmp_graph::MomentGraph;
use bmp_interval::{Interval, IntervalFault};
use bmp_poly::monomials::count;
use bmp_roots::{Cartan, Roots};
use bmp_weyl::product;
use std::alloc::Global;

/// The greatest number of vertices times monomials.
const MAX_SIZE: u32 = 400_000;

/// The greatest degree bound.
const MAX_DEGREE: u8 = 6;

// The rules of the root system.
fn roots_of(j: &Job) -> Result<Roots, JobFault>
    ensures kept { OnOk result (KeepsAll system_rules j.now) }
    ensures system { IfOk result (IsSystemOf j.now) }
    ensures fault { IfErr result (IsFirstFault j.now) }
    ensures only { KeepsAll system_rules j.now → IsOk result }
{
    let cartan = match Cartan::new(j.cartan.as_slice(), j.rank) {
        Ok(cartan) => cartan,
        Err(fault) => return Err(JobFault::Cartan(fault)),
    };
    match Roots::close(&cartan) {
        Ok(roots) => Ok(roots),
        Err(fault) => Err(JobFault::Finite(fault)),
    }
}

// The rules of the prime and of the letters.
fn check_letters(j: &Job, roots: &Roots) -> Result<(), JobFault>
    requires before { KeepsAll system_rules j.now }
    requires system { IsSystemOf j.now roots.now }
    ensures kept { OnOk result (KeepsAll letter_rules j.now) }
    ensures fault { IfErr result (IsFirstFault j.now) }
    ensures only { KeepsAll letter_rules j.now → IsOk result }
{
    if PrimeField::new(j.prime).is_err() {
        return Err(JobFault::Prime(j.prime));
    }
    match product(roots, j.word.as_slice()) {
        Ok(_) => Ok(()),
        Err(place) => Err(JobFault::Letter(place)),
    }
}

// The rules of the interval.
fn interval_below(alloc: Global, j: &Job, roots: &Roots) -> Result<Interval, JobError>
    requires before { KeepsAll letter_rules j.now }
    requires system { IsSystemOf j.now roots.now }
    ensures kept { OnOk result (KeepsAll interval_rules j.now) }
    ensures roots { IfOk result (λ interval. system_of interval ≡ roots.now) }
    ensures word { IfOk result (λ interval. letters_of interval ≡ j.now.word) }
    ensures interval { IfOk result (λ interval. IsIntervalOf roots.now j.now.word (vertices_of interval)) }
    ensures fault { IfErr result (IsErrorOf j.now) }
    ensures only { KeepsAll interval_rules j.now → IsOkUnless result JobError.Memory }
{
    match Interval::below(alloc, roots, j.word.as_slice()) {
        Ok(interval) => Ok(interval),
        Err(IntervalFault::NotReduced { length }) => {
            Err(JobError::Fault(JobFault::Reduced { length }))
        }
        Err(IntervalFault::TooMany { count }) => Err(JobError::Fault(JobFault::TooMany { count })),
        Err(IntervalFault::Memory) => Err(JobError::Memory),
    }
}

// The rules up to those of the interval.
fn interval_of_job(alloc: Global, j: &Job) -> Result<Interval, JobError>
    ensures kept { OnOk result (KeepsAll interval_rules j.now) }
    ensures system { IfOk result (λ interval. IsSystemOf j.now (system_of interval)) }
    ensures word { IfOk result (λ interval. letters_of interval ≡ j.now.word) }
    ensures interval { IfOk result (λ interval.
        IsIntervalOf (system_of interval) j.now.word (vertices_of interval)) }
    ensures fault { IfErr result (IsErrorOf j.now) }
    ensures only { KeepsAll interval_rules j.now → IsOkUnless result JobError.Memory }
{
    let roots = roots_of(j)?;
    check_letters(j, &roots)?;
    interval_below(alloc, j, &roots)
}

// The rules of size: the degree bound, and the number of vertices times monomials.
fn check_size(j: &Job, interval: &Interval) -> Result<(), JobFault>
    requires before { KeepsAll interval_rules j.now }
    requires system { IsSystemOf j.now (system_of interval.now) }
    requires interval { IsIntervalOf (system_of interval.now) j.now.word (vertices_of interval.now) }
    ensures kept { OnOk result (KeepsAll size_rules j.now) }
    ensures fault { IfErr result (IsFirstFault j.now) }
    ensures only { KeepsAll size_rules j.now → IsOk result }
{
    if j.degree > MAX_DEGREE {
        return Err(JobFault::DegreeBound(j.degree));
    }
    let size = interval.len() * count(j.rank, u32::from(j.degree));
    if size > MAX_SIZE {
        return Err(JobFault::TooLarge { size });
    }
    Ok(())
}

// The rule of the labels: the moment graph.
fn graph_of_job(alloc: Global, j: &Job, interval: &Interval) -> Result<MomentGraph, JobError>
    requires before { KeepsAll size_rules j.now }
    requires system { IsSystemOf j.now (system_of interval.now) }
    requires interval { IsIntervalOf (system_of interval.now) j.now.word (vertices_of interval.now) }
    ensures kept { OnOk result (KeepsAll graph_rules j.now) }
    ensures bruhat { IfOk result
        (IsBruhatGraph (system_of interval.now) (vertices_of interval.now) j.now.prime (form_of_job j.now)) }
    ensures graph { IfOk result IsGraph }
    ensures fault { IfErr result (IsErrorOf j.now) }
    ensures only { KeepsAll graph_rules j.now → IsOkUnless result JobError.Memory }
{
    match graph_in(alloc, interval, j.prime, j.lattice.by_weights()) {
        Ok(graph) => Ok(graph),
        Err(BruhatError::ZeroLabel { lower, upper }) => {
            Err(JobError::Fault(JobFault::ZeroLabel { lower, upper }))
        }
        Err(BruhatError::Memory) => Err(JobError::Memory),
    }
}

/// Tries all rules but that of parallel labels, and gives the first that fails. Where all hold, the job is kept with
/// its interval and its moment graph.
pub fn prepare_job(alloc: Global, j: &Job) -> Result<Prepared, JobError>
    ensures kept { OnOk result (KeepsAll graph_rules j.now) }
    ensures job { IfOk result (λ p. job_of p ≡ j.now) }
    ensures prepared { IfOk result (λ p. IsPrepared j.now (interval_of p) (graph_of p)) }
    ensures graph { IfOk result (λ p. IsJobGraph j.now (graph_of p)) }
    ensures fault { IfErr result (IsErrorOf j.now) }
    ensures only { KeepsAll graph_rules j.now → IsOkUnless result JobError.Memory }
{
    let interval = interval_of_job(alloc, j)?;
    check_size(j, &interval)?;
    let graph = graph_of_job(alloc, j, &interval)?;
    Ok(Prepared {
        job: j.copy()?,
        interval,
        graph,
    })
}

/// Tries all rules, and gives the first that fails.
pub fn accept_job(alloc: Global, j: &Job) -> Result<Accepted, JobError>
    ensures kept { OnOk result (KeepsAll rules j.now) }
    ensures job { IfOk result (λ a. job_of (prepared_of a) ≡ j.now) }
    ensures prepared { IfOk result (λ a.
        IsPrepared j.now (interval_of (prepared_of a)) (graph_of (prepared_of a))) }
    ensures graph { IfOk result (λ a. IsJobGraph j.now (graph_of (prepared_of a))) }
    ensures fault { IfErr result (IsErrorOf j.now) }
    ensures only { KeepsAll rules j.now → IsOkUnless result JobError.Memory }
{
    let prepared = prepare_job(alloc, j)?;
    match prepared.accept() {
        Ok(accepted) => Ok(accepted),
        Err(pair) => Err(JobError::Fault(JobFault::Gkm(pair))),
    }
}
