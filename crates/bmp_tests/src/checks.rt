//! Certificates: what holds, and the first comparison that fails, by any number of workers.
use crate::a3::A3;
use crate::runs::{assert_run, with_line, with_lines};
use crate::texts::{LEVELS, LINE, LINE_RANKS, POINT, SQUARE, SQUARE_RANKS, SURPLUS, WEIGHTS};
use bmp_program::Status;
use std::alloc::Global;
use std::process::Abort;
use std::test::Fail;
use std::thread::Threads;

// Asserts how the check of a text ends, and what it writes, with one, two, seven and 32 workers.
fn assert_check(
    rt: &(impl Abort + Threads + Sync),
    alloc: Global,
    text: &str,
    status: Status,
    written: &str,
) -> Result<(), Fail> {
    for line in [
        "check --workers 1",
        "check --workers 2",
        "check --workers 7",
        "check --workers 32",
    ] {
        assert_run(rt, alloc, line, text, status, written)?;
    }
    Ok(())
}

const A3_RANKS: &str = "rank 0 1 1\nrank 1 1 0\nrank 2 1 0\nrank 3 1 1\nrank 4 1 0\n\
    rank 5 1 0\nrank 6 1 0\nrank 7 1 0\nrank 8 1 0\nrank 9 1 0\nrank 10 1 0\nrank 11 1 0\n\
    rank 12 1 0\nrank 13 1 0\n";

#[test]
fn certificates_that_hold(rt: HostRuntime) -> Result<(), Fail> {
    for (text, written) in [
        (POINT, "rank 0 1\n"),
        (LINE, LINE_RANKS),
        (SQUARE, SQUARE_RANKS),
        (A3, A3_RANKS),
        (LEVELS, LINE_RANKS),
        (WEIGHTS, "rank 0 1\nrank 1 1\n"),
    ] {
        assert_check(&rt, rt.alloc(), text, Status::Done, written)?;
    }
    Ok(())
}

/// In degree 1 the boundary of the line's lower vertex has no coordinate, so that any cover is as good. On the square
/// a form on the other edge reads the same generator.
#[test]
fn other_evidence_is_accepted(rt: HostRuntime) -> Result<(), Fail> {
    for (text, place, line, written) in [
        (LINE, 21, "cover 1 0 1", LINE_RANKS),
        (SQUARE, 39, "dual 1 1 1", SQUARE_RANKS),
    ] {
        let changed = with_line(rt.alloc(), text, place, line)?;
        assert_check(&rt, rt.alloc(), &changed, Status::Done, written)?;
    }
    Ok(())
}

/// By row the text, the line that is put in place of one, and the comparison at vertex 0 that fails first: its degree
/// and kind, its index and place, and the two numbers.
#[test]
fn one_line_altered(rt: HostRuntime) -> Result<(), Fail> {
    for (text, place, line, refused) in [
        (
            POINT,
            5,
            "word 1 1",
            "0 kind Shape index 0 place 0 left 1 right 2",
        ),
        (
            POINT,
            8,
            "vertex 0 2 0 0",
            "0 kind Top index 0 place 0 left 2 right 1",
        ),
        (
            POINT,
            8,
            "vertex 0 0",
            "0 kind Top index 0 place 0 left 0 right 1",
        ),
        (
            LINE,
            20,
            "tuple 1 7 1",
            "1 kind Shape index 2 place 0 left 8 right 1",
        ),
        (
            LINE,
            11,
            "lift 1 1 1",
            "0 kind Shape index 1 place 0 left 2 right 1",
        ),
        (
            LINE,
            8,
            "vertex 1 2 0 0",
            "0 kind Shape index 2 place 0 left 1 right 2",
        ),
        (
            LINE,
            8,
            "vertex 1 0",
            "0 kind Shape index 1 place 0 left 1 right 0",
        ),
        (
            LINE,
            8,
            "vertex 1 1 1",
            "0 kind Shape index 1 place 0 left 1 right 0",
        ),
        (
            LINE,
            11,
            "lift 0",
            "0 kind Cover index 0 place 0 left 0 right 1",
        ),
        (
            LINE,
            15,
            "cover 0",
            "0 kind Cover index 0 place 0 left 0 right 1",
        ),
        (
            LINE,
            16,
            "source 0",
            "0 kind Source index 0 place 0 left 1 right 0",
        ),
        (
            LINE,
            17,
            "dual 0",
            "0 kind Dual index 0 place 0 left 0 right 1",
        ),
        (
            SQUARE,
            34,
            "tuple 2 0 1 2 1",
            "0 kind Section index 0 place 2 left 2 right 0",
        ),
        (
            SQUARE,
            34,
            "tuple 3 0 1 1 1 2 2",
            "0 kind Section index 0 place 0 left 2 right 1",
        ),
        (
            SQUARE,
            35,
            "row 1 0 2",
            "0 kind Row index 0 place 0 left 2 right 1",
        ),
        (
            SQUARE,
            36,
            "row 1 0 1",
            "0 kind Row index 1 place 0 left 1 right 0",
        ),
        (
            SQUARE,
            37,
            "cover 1 0 2",
            "0 kind Cover index 0 place 0 left 2 right 1",
        ),
        (
            SQUARE,
            38,
            "source 1 0 2",
            "0 kind Source index 0 place 0 left 1 right 2",
        ),
        (
            SQUARE,
            39,
            "dual 1 0 2",
            "0 kind Dual index 0 place 0 left 2 right 1",
        ),
        (
            SQUARE,
            33,
            "pivots 0 3",
            "0 kind Shape index 4 place 0 left 4 right 3",
        ),
        (
            LEVELS,
            13,
            "pivots 1",
            "0 kind Shape index 4 place 0 left 2 right 1",
        ),
        (
            LEVELS,
            14,
            "cover 0",
            "0 kind Cover index 0 place 0 left 0 right 1",
        ),
        (
            LEVELS,
            15,
            "source 0",
            "0 kind Source index 0 place 0 left 1 right 0",
        ),
        (
            LEVELS,
            16,
            "dual 0",
            "0 kind Dual index 0 place 0 left 0 right 1",
        ),
        (
            LEVELS,
            17,
            "row 0",
            "0 kind Kernel index 0 place 0 left 0 right 1",
        ),
        (
            LEVELS,
            21,
            "basis 0",
            "1 kind Kernel index 0 place 0 left 0 right 1",
        ),
    ] {
        let changed = with_line(rt.alloc(), text, place, line)?;
        let written = format!(in rt.alloc(); "refused vertex 0 degree {refused}\n")?;
        assert_check(&rt, rt.alloc(), &changed, Status::Refused, &written)?;
    }
    Ok(())
}

/// The generator of the point is one of degree 1, the edge of the line is taken out, the line by levels has a pivot
/// where its boundary map is zero, the tuple of the square is taken out, two blocks of the square are wrong, of which
/// that of the greater vertex is told, and a second generator of the line has no dual form, since its boundary is zero.
#[test]
fn several_lines_altered(rt: HostRuntime) -> Result<(), Fail> {
    let alloc = rt.alloc();
    let risen = with_lines(alloc, POINT, 6, 8, "degree 1\nvertices 1\nvertex 0 1 1")?;
    let no_edge = with_lines(alloc, LINE, 10, 11, "edges 0")?;
    let pivot = with_lines(
        alloc,
        LEVELS,
        18,
        21,
        "block 1 1 1 0\npivots 0\ncover 0\nrow 0",
    )?;
    let pivots = "block 0 3 0\npivots 0 1 2\nrow 1 0 1\nrow 1 1 1\nrow 0\nsource 0";
    let no_tuple = with_lines(alloc, SQUARE, 32, 38, pivots)?;
    let one_cover = with_line(alloc, SQUARE, 16, "cover 0")?;
    let no_covers = with_line(alloc, &one_cover, 25, "cover 0")?;
    for (text, refused) in [
        (
            risen.as_str(),
            "0 degree 0 kind Top index 1 place 0 left 1 right 0",
        ),
        (
            &no_edge,
            "0 degree 0 kind Shape index 0 place 0 left 0 right 1",
        ),
        (
            &pivot,
            "0 degree 1 kind Kernel index 0 place 0 left 0 right 1",
        ),
        (
            &no_tuple,
            "0 degree 0 kind Row index 0 place 2 left 2 right 0",
        ),
        (
            &no_covers,
            "2 degree 0 kind Cover index 0 place 0 left 0 right 1",
        ),
        (
            SURPLUS,
            "0 degree 0 kind Dual index 1 place 1 left 0 right 1",
        ),
    ] {
        let written = format!(in alloc; "refused vertex {refused}\n")?;
        assert_check(&rt, alloc, text, Status::Refused, &written)?;
    }
    Ok(())
}

/// The whole group of type B2 modulo 2: the job is refused before its one vertex is counted.
#[test]
fn a_job_without_the_gkm_condition_is_refused(rt: HostRuntime) -> Result<(), Fail> {
    let text = "\
bmp-cert 1
rank 2
row 2 -1
row -2 2
prime 2
word 4 1 2 1 2
degree 0
vertices 1
vertex 0 1 0
end
";
    let written = "gkm vertex 0 edges 0 3\n";
    assert_check(&rt, rt.alloc(), text, Status::GkmFailed, written)
}
