//! What is built: the commands `build`, `ranks`, `compare` and `sample`.
use crate::runs::{assert_run, written_by};
use bmp_program::Status;
use std::test::Fail;

const A2: &str = "bmp-job 1\nrank 2\nrow 2 -1\nrow -1 2\nprime 3\nword 3 1 2 1\ndegree 2\nend\n";

/// Parallel labels modulo 2, but not below this word.
const B2: &str = "bmp-job 1\nrank 2\nrow 2 -1\nrow -2 2\nprime 2\nword 2 1 2\ndegree 1\nend\n";

const PARALLEL: &str =
    "bmp-job 1\nrank 2\nrow 2 -1\nrow -2 2\nprime 2\nword 4 1 2 1 2\ndegree 0\nend\n";

/// By the simple roots, as the plain job, with certificates of version 3.
const A1_ROOT: &str = "bmp-job 2\nlattice 0\nrank 1\nrow 2\nprime 2\nword 1 1\ndegree 1\nend\n";

const A3: &str = "\
bmp-job 1
rank 3
row 2 -1 0
row -1 2 -1
row 0 -1 2
prime 3
word 4 2 1 3 2
degree 1
end
";

const A2_RANKS: &str =
    "rank 0 1 0 0\nrank 1 1 0 0\nrank 2 1 0 0\nrank 3 1 0 0\nrank 4 1 0 0\nrank 5 1 0 0\n";

const B2_RANKS: &str = "rank 0 1 0\nrank 1 1 0\nrank 2 1 0\nrank 3 1 0\n";

const A3_RANKS: &str = "\
rank 0 1 1
rank 1 1 0
rank 2 1 0
rank 3 1 1
rank 4 1 0
rank 5 1 0
rank 6 1 0
rank 7 1 0
rank 8 1 0
rank 9 1 0
rank 10 1 0
rank 11 1 0
rank 12 1 0
rank 13 1 0
";

/// The ranks of a job, and what `check` says of the certificate that is built.
#[test]
fn ranks_of_jobs(rt: HostRuntime) -> Result<(), Fail> {
    for (input, first, ranks) in [
        (A2, "bmp-cert 2\n", A2_RANKS),
        (B2, "bmp-cert 2\n", B2_RANKS),
        (A1_ROOT, "bmp-cert 3\n", "rank 0 1 0\nrank 1 1 0\n"),
        (A3, "bmp-cert 2\n", A3_RANKS),
    ] {
        for line in ["ranks", "ranks --workers 7"] {
            assert_run(&rt, rt.alloc(), line, input, Status::Done, ranks)?;
        }
        let (status, cert) = written_by(&rt, rt.alloc(), "build --workers 2", input)?;
        let text = String::from_utf8(cert).map_err(|_| "no text")?;
        assert_eq!(rt;
            (status, text.starts_with(first)),
            (Status::Done, true),
            "{input}"
        );
        for line in ["check", "check --workers 2", "check --workers 7"] {
            assert_run(&rt, rt.alloc(), line, &text, Status::Done, ranks)?;
        }
    }
    Ok(())
}

const A1: &str = "bmp-job 1\nrank 1\nrow 2\nprime 2\nword 1 1\ndegree 1\nend\n";

/// The polynomials of A3 and its word are 1 + q at the vertices 0 and 3, and else 1, as the ranks.
#[test]
fn ranks_beside_tables(rt: HostRuntime) -> Result<(), Fail> {
    for (input, written) in [
        (A1, "self-dual yes\nagree 2 of 2\n"),
        (A1_ROOT, "self-dual yes\nagree 2 of 2\n"),
        (A3, "self-dual yes\nagree 14 of 14\n"),
    ] {
        for line in ["compare", "compare --workers 7"] {
            assert_run(&rt, rt.alloc(), line, input, Status::Done, written)?;
        }
    }
    Ok(())
}

#[test]
fn jobs_that_are_not_built(rt: HostRuntime) -> Result<(), Fail> {
    for (input, status, written) in [
        (PARALLEL, Status::GkmFailed, "gkm vertex 0 edges 0 3\n"),
        (
            "bmp-cert 1\n",
            Status::BadText,
            "text line 1 kind WrongKeyword\n",
        ),
        (
            "bmp-job 1\nrank 1\nrow 2\nprime 4\nword 1 1\ndegree 0\nend\n",
            Status::BadJob,
            "job prime 4\n",
        ),
    ] {
        for line in ["build", "ranks", "compare"] {
            assert_run(&rt, rt.alloc(), line, input, status, written)?;
        }
    }
    for line in ["build --seed 1", "ranks --seed 1", "compare --seed 1"] {
        assert_run(&rt, rt.alloc(), line, A2, Status::Usage, "usage\n")?;
    }
    Ok(())
}

const SAMPLE_26: &str = "\
sample seed 26
rank 2
prime 3
letters 0
degree 3
vertices 1
edges 0
counts 1 0 0 0
";

const SAMPLE_14: &str = "\
sample seed 14
rank 2
prime 3
letters 2
degree 3
vertices 4
edges 4
counts 4 0 0 0
";

/// The whole group of type A3, where each vertex has one generator.
const SAMPLE_1: &str = "\
sample seed 1
rank 3
prime 3
letters 6
degree 2
vertices 24
edges 72
counts 24 0 0
";

/// The input is not read.
#[test]
fn samples(rt: HostRuntime) -> Result<(), Fail> {
    for (line, written) in [
        ("sample --seed 26", SAMPLE_26),
        ("sample --seed 14", SAMPLE_14),
        ("sample --seed +14 --workers 3", SAMPLE_14),
        ("sample --seed 1", SAMPLE_1),
    ] {
        for input in ["", "bmp-cert 1\n"] {
            assert_run(&rt, rt.alloc(), line, input, Status::Done, written)?;
        }
    }
    Ok(())
}
