//! Whole builds by several workers: each vertex but the greatest passes the gate once, with its number among those of
//! its length, and two vertices are built at once.
use crate::gates::{Counter, Meeting};
use crate::runs::ended;
use bmp_program::Status;
use std::test::Fail;

/// The job of a square, whose vertices have the lengths 0, 1, 1 and 2.
const SQUARE_JOB: &str =
    "bmp-job 1\nrank 2\nrow 2 -1\nrow -1 2\nprime 3\nword 2 1 2\ndegree 0\nend\n";

/// Commands that build, with their input, how often the gate is passed by two workers, and the sum of the numbers: once
/// for each vertex but the greatest, and where the certificate is checked once for each worker.
const BUILDS: [(&[&str], &str, (u64, u64)); 4] = [
    (&["bmp", "build", "--workers", "2"], SQUARE_JOB, (3, 1)),
    (&["bmp", "ranks", "--workers", "2"], SQUARE_JOB, (5, 2)),
    (&["bmp", "compare", "--workers", "2"], SQUARE_JOB, (5, 2)),
    (
        &["bmp", "sample", "--seed", "14", "--workers", "2"],
        "",
        (5, 2),
    ),
];

#[test]
fn each_vertex_passes_once(rt: HostRuntime) -> Result<(), Fail> {
    for (words, text, seen) in BUILDS {
        let gate = Counter::new();
        let status = ended(&rt, rt.alloc(), words, text, &gate)?;
        assert_eq!(rt; (status, gate.seen()), (Status::Done, seen), "{}", words[1]);
    }
    Ok(())
}

#[test]
fn two_vertices_at_once(rt: HostRuntime) -> Result<(), Fail> {
    let gate = Meeting::new();
    let words = ["bmp", "build", "--workers", "2"];
    let status = ended(&rt, rt.alloc(), &words, SQUARE_JOB, &gate)?;
    assert_eq!(rt; (status, gate.met()), (Status::Done, 2));
    Ok(())
}
