//! Certificates that are built, against the numbers of generators of files that other builders made, those by whole
//! spaces against those by levels, and those of several workers against those of one.
ghost use Rattle.std.specs.Prelude.{◌≤◌};

use bmp_build::{build, level_version};
use bmp_cert::{Accepted, Cert, Lattice, Ranks, accept_job, print_cert, read_job};
use bmp_check::check;
use std::alloc::Global;
use std::test::Fail;
use std::thread::Threads;

/// Type A3, the word 2 1 3 2: Kazhdan-Lusztig polynomials 1 + q at two vertices.
const A3: &str =
    "bmp-job 1\nrank 3\nrow 2 -1 0\nrow -1 2 -1\nrow 0 -1 2\nprime 3\nword 4 2 1 3 2\ndegree 1\nend\n";

/// The same in a text that states its lattice.
const A3_ROOT: &str =
    "bmp-job 2\nlattice 0\nrank 3\nrow 2 -1 0\nrow -1 2 -1\nrow 0 -1 2\nprime 3\nword 4 2 1 3 2\n\
    degree 1\nend\n";

/// Type B3, the word 2 3 1 2 3.
const B3: &str =
    "bmp-job 1\nrank 3\nrow 2 -1 0\nrow -1 2 -1\nrow 0 -2 2\nprime 5\nword 5 2 3 1 2 3\ndegree 2\nend\n";

/// Type D4, the word 1 3 4 2 1 3 4, modulo 2: counts 1 2 1 where the Kazhdan-Lusztig polynomial is 1 + 2q.
const D4: &str =
    "bmp-job 1\nrank 4\nrow 2 -1 0 0\nrow -1 2 -1 -1\nrow 0 -1 2 0\nrow 0 -1 0 2\nprime 2\n\
    word 7 1 3 4 2 1 3 4\ndegree 2\nend\n";

/// A job, how many vertices its interval has, those with more than one generator, and the numbers of these by degree.
const BUILT: [(&str, u32, &[u32], &[u32]); 4] = [
    (A3, 14, &[0, 3], &[1, 1]),
    (A3_ROOT, 14, &[0, 3], &[1, 1]),
    (B3, 20, &[0, 2, 3, 8], &[1, 1, 0]),
    (D4, 72, &[0, 1, 2, 3, 6, 7, 9, 18], &[1, 2, 1]),
];

/// What the check answers of the certificate that is built for a job.
fn built_ranks(rt: &(impl Threads + Sync), alloc: Global, text: &str) -> Result<Ranks, Fail> {
    let job = read_job(alloc, text.as_bytes())?;
    let a = accept_job(alloc, &job)?;
    let version = level_version(job.lattice);
    let cert = build(rt, alloc, &a, version, 1)?;
    Ok(check(rt, alloc, &a, &cert, 1)?)
}

/// The number of generators of degree `d` at a vertex: 1 of degree 0, or these numbers.
fn expected(is_special: bool, counts: &[u32], d: u32) -> u32 {
    if !is_special {
        return u32::from(d == 0);
    }
    match counts.get(d as usize) {
        Some(count) => *count,
        None => 0,
    }
}

#[test]
fn built_certificates(rt: HostRuntime) -> Result<(), Fail> {
    for (text, vertices, special, counts) in BUILT {
        let ranks = built_ranks(&rt, rt.alloc(), text)?;
        assert_eq!(rt; ranks.vertices(), vertices);
        for x in 0..ranks.vertices() {
            let is_special = special.contains(&x);
            for d in 0..ranks.degree() + 1 {
                assert_eq!(rt;
                    ranks.count(x, d),
                    expected(is_special, counts, d),
                    "vertex {x} degree {d}"
                );
            }
        }
    }
    Ok(())
}

/// What the check answers of the certificate of version 1 that is built for a job with a plain lattice.
fn whole_ranks(rt: &(impl Threads + Sync), alloc: Global, text: &str) -> Result<Ranks, Fail> {
    let job = read_job(alloc, text.as_bytes())?;
    let a = accept_job(alloc, &job)?;
    match job.lattice {
        Lattice::Plain => {
            let cert = build(rt, alloc, &a, 1, 1)?;
            Ok(check(rt, alloc, &a, &cert, 1)?)
        }
        _ => Err(Fail::new("the lattice isn't plain")),
    }
}

#[test]
fn versions_agree(rt: HostRuntime) -> Result<(), Fail> {
    for text in [A3, B3] {
        let whole = whole_ranks(&rt, rt.alloc(), text)?;
        let levels = built_ranks(&rt, rt.alloc(), text)?;
        assert_eq!(rt; whole.vertices(), levels.vertices());
        assert_eq!(rt; whole.degree(), levels.degree());
        for x in 0..whole.vertices() {
            for d in 0..whole.degree() + 1 {
                assert_eq!(rt;
                    whole.count(x, d),
                    levels.count(x, d),
                    "vertex {x} degree {d}"
                );
            }
        }
    }
    Ok(())
}

/// The text of the certificate that so many workers build for a job, of version 1 or of one by levels.
fn built_text(
    rt: &(impl Threads + Sync),
    alloc: Global,
    text: &str,
    whole: bool,
    workers: u32,
) -> Result<Vec<u8>, Fail>
    requires { (1 ≤ workers) × (workers ≤ 32) }
{
    let job = read_job(alloc, text.as_bytes())?;
    let a = accept_job(alloc, &job)?;
    match job.lattice {
        Lattice::Plain if whole => {
            let cert = build(rt, alloc, &a, 1, workers)?;
            Ok(print_cert(alloc, &cert)?)
        }
        lattice => {
            let cert = build(rt, alloc, &a, level_version(lattice), workers)?;
            Ok(print_cert(alloc, &cert)?)
        }
    }
}

#[test]
fn any_number_of_workers(rt: HostRuntime) -> Result<(), Fail> {
    for (text, whole) in [
        (A3, true),
        (B3, true),
        (A3, false),
        (A3_ROOT, false),
        (B3, false),
        (D4, false),
    ] {
        let one = built_text(&rt, rt.alloc(), text, whole, 1)?;
        for workers in [2, 7, 32] {
            let several = built_text(&rt, rt.alloc(), text, whole, workers)?;
            assert!(rt; several == one, "{workers} workers");
        }
    }
    Ok(())
}
