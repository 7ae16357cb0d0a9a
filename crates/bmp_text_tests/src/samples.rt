//! The jobs of `sample`.
use bmp_cert::accept_job;
use bmp_report::sample_job;
use std::test::Fail;

/// The six whole words of the table, and words that are cut: each job is accepted.
#[test]
fn samples_are_accepted(rt: HostRuntime) -> Result<(), Fail> {
    for (seed, rank, prime, degree, letters, vertices, edges) in [
        (0, 4, 3, 3, 12, 192, 1152),
        (1, 3, 3, 2, 6, 24, 72),
        (2, 2, 3, 3, 4, 8, 16),
        (3, 4, 2, 1, 10, 120, 600),
        (4, 2, 5, 3, 6, 12, 36),
        (5, 3, 3, 2, 9, 48, 216),
        (14, 2, 3, 3, 2, 4, 4),
        (26, 2, 3, 3, 0, 1, 0),
        (32, 2, 3, 3, 4, 8, 16),
        (72, 4, 3, 3, 0, 1, 0),
    ] {
        let job = sample_job(rt.alloc(), seed)?;
        let accepted = accept_job(rt.alloc(), &job)?;
        assert_eq!(rt;
            (job.rank, job.prime, job.degree, job.word.len()),
            (rank, prime, degree, letters),
            "{seed}"
        );
        let graph = accepted.graph();
        assert_eq!(rt;
            (graph.vertices(), graph.edges()),
            (vertices, edges),
            "{seed}"
        );
    }
    Ok(())
}
