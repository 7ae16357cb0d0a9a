//! The lines of job faults with numbers, and the texts of a graph.
use bmp_cert::{JobFault, accept_job, prepare_job, read_job};
use bmp_graph::GkmPair;
use bmp_report::{gkm_text, graph_text, job_line};
use bmp_roots::{CartanFault, FiniteKind, NotFinite};
use std::alloc::AllocError;
use std::test::Fail;

#[test]
fn names_job_faults(rt: HostRuntime) -> Result<(), AllocError> {
    let far = NotFinite {
        kind: FiniteKind::Coordinate,
        root: [31, 30, 0, 0, 0, 0],
        coroot: [1, 32, 0, 0, 0, 0],
    };
    let parallel = GkmPair {
        vertex: 1,
        first: 0,
        second: 2,
    };
    let unpaired = CartanFault::UnpairedZero { i: 1, j: 2 };
    for (rank, fault, want) in [
        (
            2,
            JobFault::Cartan(unpaired),
            "job cartan unpaired-zero 1 2\n",
        ),
        (2, JobFault::Finite(far), "job finite coordinate 31 30\n"),
        // The root has as many coordinates as the rank, those that are 0 too.
        (3, JobFault::Finite(far), "job finite coordinate 31 30 0\n"),
        (
            1,
            JobFault::ZeroLabel { lower: 0, upper: 1 },
            "job label 0 1\n",
        ),
        (2, JobFault::Gkm(parallel), "gkm vertex 1 edges 0 2\n"),
    ] {
        let line = job_line(rt.alloc(), rank, &fault)?;
        assert_eq!(rt; line.as_slice(), want.as_bytes(), "rank {rank}");
    }
    Ok(())
}

/// Type A1, the word 1.
const JOB: &str = "bmp-job 1\nrank 1\nrow 2\nprime 2\nword 1 1\ndegree 0\nend\n";

#[test]
fn prints_a_graph(rt: HostRuntime) -> Result<(), Fail> {
    let job = read_job(rt.alloc(), JOB.as_bytes())?;
    let text = graph_text(rt.alloc(), &prepare_job(rt.alloc(), &job)?)?;
    let want = "vertices 2\nvertex 0 0 1\nvertex 1 1 -1\nedges 1\nedge 0 1 1\n";
    assert_eq!(rt; text.as_slice(), want.as_bytes());
    Ok(())
}

#[test]
fn prints_the_gkm_condition(rt: HostRuntime) -> Result<(), Fail> {
    let job = read_job(rt.alloc(), JOB.as_bytes())?;
    let text = gkm_text(rt.alloc(), &accept_job(rt.alloc(), &job)?)?;
    assert_eq!(rt;
        text.as_slice(),
        b"gkm holds vertices 2 edges 1\n".as_slice()
    );
    Ok(())
}
