//! Jobs that keep the rules, with their intervals and graphs.
ghost use Rattle.std.specs.Prelude.{◌≡◌, IfOk, OnOk, IfErr};
ghost use Rattle.bmp_graph.specs.Graph.{HasGkm};
ghost use Rattle.bmp_graph.specs.Faults.{IsFirstParallelPair};
ghost use Rattle.bmp_cert.specs.JobGraphs.{IsPrepared};
ghost use Rattle.bmp_cert.specs.JobRules.{graph_rules, rules, KeepsAll};

use crate::Job;
use bmp_graph::{GkmPair, MomentGraph};
use bmp_interval::Interval;

/// A job that keeps all rules but that of parallel labels, with the interval below its word and the moment graph of the
/// interval.
#[derive(Drop)]
pub struct Prepared {
    pub(crate) job: Job,
    pub(crate) interval: Interval,
    pub(crate) graph: MomentGraph,
    pub ghost prepared: { ∥ IsPrepared job interval graph ∥₁ },
    pub ghost keeps: { ∥ KeepsAll graph_rules job ∥₁ },
}

/// A job that keeps all rules.
#[derive(Drop)]
pub struct Accepted {
    prepared: Prepared,
    pub ghost holds: { HasGkm prepared.graph },
    pub ghost keeps: { ∥ KeepsAll rules prepared.job ∥₁ },
}

impl Prepared {
    ghost use Rattle.bmp_cert.specs.JobViews.{job_of, interval_of, graph_of, prepared_of};

    /// The job.
    pub fn job(&self) -> &Job
        ensures { result.now ≡ job_of self.now }
    {
        &self.job
    }

    /// The interval below the word.
    pub fn interval(&self) -> &Interval
        ensures { result.now ≡ interval_of self.now }
    {
        &self.interval
    }

    /// The moment graph of the interval.
    pub fn graph(&self) -> &MomentGraph
        ensures { result.now ≡ graph_of self.now }
    {
        &self.graph
    }

    /// Tries the last rule: no two edges at one vertex have parallel labels. Else gives the first two that have, by
    /// vertex, then first, then second edge. Takes no memory.
    pub fn accept(self) -> Result<Accepted, GkmPair>
        ensures kept { IfOk result (λ a. prepared_of a ≡ self) }
        ensures holds { OnOk result (HasGkm (graph_of self)) }
        ensures fails { IfErr result (λ p. IsFirstParallelPair (graph_of self) p.vertex p.first p.second) }
    {
        self.graph.gkm()?;
        Ok(Accepted { prepared: self })
    }
}

impl Accepted {
    ghost use Rattle.bmp_cert.specs.JobViews.{job_of, interval_of, graph_of, prepared_of};

    /// The job.
    pub fn job(&self) -> &Job
        ensures { result.now ≡ job_of (prepared_of self.now) }
    {
        self.prepared.job()
    }

    /// The interval below the word.
    pub fn interval(&self) -> &Interval
        ensures { result.now ≡ interval_of (prepared_of self.now) }
    {
        self.prepared.interval()
    }

    /// The moment graph of the interval, in which no two edges at one vertex have parallel labels.
    pub fn graph(&self) -> &MomentGraph
        ensures value { result.now ≡ graph_of (prepared_of self.now) }
        ensures gkm { HasGkm result.now }
    {
        self.prepared.graph()
    }
}
