//! Jobs there and back, and the rules that they keep or break.
use bmp_cert::{
    CertError, Job, JobError, JobFault, Lattice, accept_job, prepare_job, print_job, read_job,
    well_formed_job,
};
use bmp_roots::CartanFault;
use std::alloc::Global;
use std::test::Fail;

/// Type A2, the word 1 2, three elements.
const JOB: &str = "bmp-job 1\nrank 2\nrow 2 -1\nrow -1 2\nprime 3\nword 2 1 2\ndegree 0\nend\n";

fn job(alloc: Global) -> Result<Job, CertError> {
    read_job(alloc, JOB.as_bytes())
}

/// The same in the other lattices.
const ROOT_JOB: &str =
    "bmp-job 2\nlattice 0\nrank 2\nrow 2 -1\nrow -1 2\nprime 3\nword 2 1 2\ndegree 0\nend\n";

const WEIGHT_JOB: &str =
    "bmp-job 2\nlattice 1\nrank 2\nrow 2 -1\nrow -1 2\nprime 3\nword 2 1 2\ndegree 0\nend\n";

// Whether the text of a job with this lattice is read, and printed again.
fn is_there_and_back(alloc: Global, text: &str, lattice: Lattice) -> Result<bool, Fail> {
    let job = read_job(alloc, text.as_bytes())?;
    if !well_formed_job(&job) {
        return Ok(false);
    }
    let printed = print_job(alloc, &job)?;
    Ok(job.lattice == lattice && printed.as_slice() == text.as_bytes())
}

#[test]
fn reads_and_prints_a_job(rt: HostRuntime) -> Result<(), Fail> {
    let plain = is_there_and_back(rt.alloc(), JOB, Lattice::Plain)?;
    let root = is_there_and_back(rt.alloc(), ROOT_JOB, Lattice::Root)?;
    let weight = is_there_and_back(rt.alloc(), WEIGHT_JOB, Lattice::Weight)?;
    assert_eq!(rt; [plain, root, weight], [true; 3]);
    Ok(())
}

#[test]
fn prepares_a_job(rt: HostRuntime) -> Result<(), Fail> {
    let prepared = prepare_job(rt.alloc(), &job(rt.alloc())?)?;
    let sizes = (prepared.interval().len(), prepared.graph().edges());
    let prime = prepared.job().prime;
    assert_eq!(rt;
        (prime, sizes, prepared.accept().is_ok()),
        (3, (4, 4), true)
    );
    Ok(())
}

#[test]
fn accepts_a_job(rt: HostRuntime) -> Result<(), Fail> {
    let accepted = accept_job(rt.alloc(), &job(rt.alloc())?)?;
    let sizes = (accepted.interval().len(), accepted.graph().vertices());
    assert_eq!(rt; (accepted.job().degree, sizes), (0, (4, 4)));
    Ok(())
}

#[test]
fn refuses_by_the_first_rule(rt: HostRuntime) -> Result<(), Fail> {
    for (rank, prime, degree, fault) in [
        (0, 4, 7, JobFault::Cartan(CartanFault::BadRank)),
        (2, 4, 7, JobFault::Prime(4)),
        (2, 3, 7, JobFault::DegreeBound(7)),
    ] {
        let mut job = job(rt.alloc())?;
        job.rank = rank;
        job.prime = prime;
        job.degree = degree;
        let got = (
            prepare_job(rt.alloc(), &job).err(),
            accept_job(rt.alloc(), &job).err(),
        );
        let want = Some(JobError::Fault(fault));
        assert_eq!(rt;
            got,
            (want, want),
            "rank {rank} prime {prime} degree {degree}"
        );
    }
    Ok(())
}
