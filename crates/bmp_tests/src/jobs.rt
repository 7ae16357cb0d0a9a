//! Jobs: the commands `graph` and `gkm`, and the first rule that a job breaks.
use crate::runs::assert_run;
use bmp_program::Status;
use std::alloc::{AllocError, Global};
use std::test::Fail;

// How job texts begin, by lattice.
const PLAIN: &str = "bmp-job 1\n";

const ROOT: &str = "bmp-job 2\nlattice 0\n";

const WEIGHT: &str = "bmp-job 2\nlattice 1\n";

// A job text: how it begins, the rows of the matrix, the prime, the word with its length, and the degree bound.
fn job(
    alloc: Global,
    head: &str,
    rows: &[&str],
    prime: &str,
    word: &str,
    degree: &str,
) -> Result<String, AllocError> {
    let rank = rows.len();
    let mut text = format!(in alloc; "{head}rank {rank}\n")?;
    for row in rows {
        for part in ["row ", row, "\n"] {
            text.push_str(part)?;
        }
    }
    for part in [
        "prime ",
        prime,
        "\nword ",
        word,
        "\ndegree ",
        degree,
        "\nend\n",
    ] {
        text.push_str(part)?;
    }
    Ok(text)
}

const A1: &[&str] = &["2"];

const A2: &[&str] = &["2 -1", "-1 2"];

const B2: &[&str] = &["2 -1", "-2 2"];

const D5: &[&str] = &[
    "2 -1 0 0 0",
    "-1 2 -1 0 0",
    "0 -1 2 -1 -1",
    "0 0 -1 2 0",
    "0 0 -1 0 2",
];

const A6: &[&str] = &[
    "2 -1 0 0 0 0",
    "-1 2 -1 0 0 0",
    "0 -1 2 -1 0 0",
    "0 0 -1 2 -1 0",
    "0 0 0 -1 2 -1",
    "0 0 0 0 -1 2",
];

/// Four Coxeter words one behind the other.
const D5_LONGEST: &str = "20 1 3 2 4 5 1 3 2 4 5 1 3 2 4 5 1 3 2 4 5";

const A6_LONGEST: &str = "21 1 2 1 3 2 1 4 3 2 1 5 4 3 2 1 6 5 4 3 2 1";

#[test]
fn jobs_that_break_a_rule(rt: HostRuntime) -> Result<(), Fail> {
    for (rows, prime, word, degree, rule) in [
        (&[] as &[&str], "2", "0", "0", "cartan rank"),
        (&["3"], "2", "0", "0", "cartan diagonal 1"),
        (&["2 0", "-1 2"], "2", "0", "0", "cartan unpaired-zero 1 2"),
        (&["2 1", "1 2"], "2", "0", "0", "cartan off-diagonal 1 2"),
        (&["2 -2", "-2 2"], "2", "1 1", "0", "finite pairs 18 19"),
        // Only the coroot is too large.
        (
            &["2 -32", "-1 2"],
            "2",
            "1 1",
            "0",
            "finite coordinate 31 30",
        ),
        (A1, "4", "1 1", "0", "prime 4"),
        (A1, "63", "1 1", "0", "prime 63"),
        (A1, "67", "1 1", "0", "prime 67"),
        (A1, "2", "1 2", "0", "letter 0"),
        (A1, "2", "2 1 1", "0", "reduced 0"),
        (A6, "2", A6_LONGEST, "0", "vertices 4097"),
        (A1, "3", "1 1", "7", "degree 7"),
        (D5, "3", D5_LONGEST, "6", "size 403200"),
    ] {
        let written = format!(in rt.alloc(); "job {rule}\n")?;
        for (head, command) in [(PLAIN, "gkm"), (ROOT, "graph"), (WEIGHT, "gkm")] {
            let text = job(rt.alloc(), head, rows, prime, word, degree)?;
            assert_run(&rt, rt.alloc(), command, &text, Status::BadJob, &written)?;
        }
    }
    Ok(())
}

/// By the fundamental weights a label may be zero, which is told behind the sizes and before parallel labels.
#[test]
fn jobs_with_a_zero_label(rt: HostRuntime) -> Result<(), Fail> {
    for (rows, prime, word, degree, rule) in [
        (A1, "2", "1 1", "0", "label 0 1"),
        (A1, "2", "1 1", "7", "degree 7"),
        // The first edge has the label 2 0 or 0 2; both are zero, and parallel.
        (&["2 0", "0 2"], "2", "2 1 2", "0", "label 0 1"),
        // The root (1, 0) gives 2 -2, and in the dual system (0, 1) gives -2 2, while (1, 0) gives 2 -1.
        (B2, "2", WHOLE_B2, "0", "label 0 1"),
        (&["2 -2", "-1 2"], "2", WHOLE_B2, "0", "label 0 2"),
    ] {
        let text = job(rt.alloc(), WEIGHT, rows, prime, word, degree)?;
        let written = format!(in rt.alloc(); "job {rule}\n")?;
        for command in ["gkm", "graph"] {
            assert_run(&rt, rt.alloc(), command, &text, Status::BadJob, &written)?;
        }
    }
    Ok(())
}

/// The roots of A2 by the fundamental weights are 2 -1, -1 2 and 1 1.
#[test]
fn jobs_by_the_fundamental_weights(rt: HostRuntime) -> Result<(), Fail> {
    let parallel = "gkm vertex 0 edges 0 1\n";
    for (head, rows, prime, word, command, status, written) in [
        (WEIGHT, A2, "3", "2 1 2", "gkm", Status::GkmFailed, parallel),
        (ROOT, A2, "3", "2 1 2", "gkm", Status::Done, SQUARE_HOLDS),
        (WEIGHT, A2, "5", "2 1 2", "gkm", Status::Done, SQUARE_HOLDS),
        (WEIGHT, A1, "3", "1 1", "graph", Status::Done, WEIGHT_LINE),
        (
            WEIGHT,
            A2,
            "5",
            "2 1 2",
            "graph",
            Status::Done,
            WEIGHT_SQUARE,
        ),
    ] {
        let text = job(rt.alloc(), head, rows, prime, word, "0")?;
        assert_run(&rt, rt.alloc(), command, &text, status, written)?;
    }
    Ok(())
}

const SQUARE_HOLDS: &str = "gkm holds vertices 4 edges 4\n";

const WEIGHT_LINE: &str = "vertices 2\nvertex 0 0 1\nvertex 1 1 -1\nedges 1\nedge 0 1 2\n";

const WEIGHT_SQUARE: &str = "\
vertices 4
vertex 0 0 1 0 0 1
vertex 1 1 -1 1 0 1
vertex 2 1 1 0 1 -1
vertex 3 2 0 -1 1 -1
edges 4
edge 0 1 2 4
edge 0 2 4 2
edge 1 3 1 1
edge 2 3 2 4
";

#[test]
fn jobs_with_the_gkm_condition(rt: HostRuntime) -> Result<(), Fail> {
    for (rows, prime, word, degree, written) in [
        (A1, "2", "0", "0", "gkm holds vertices 1 edges 0\n"),
        (A1, "61", "1 1", "6", "gkm holds vertices 2 edges 1\n"),
        (B2, "2", "2 1 2", "1", "gkm holds vertices 4 edges 4\n"),
        (
            D5,
            "3",
            D5_LONGEST,
            "5",
            "gkm holds vertices 1920 edges 19200\n",
        ),
    ] {
        let text = job(rt.alloc(), PLAIN, rows, prime, word, degree)?;
        assert_run(&rt, rt.alloc(), "gkm", &text, Status::Done, written)?;
    }
    Ok(())
}

const WHOLE_B2: &str = "4 1 2 1 2";

#[test]
fn a_job_without_the_gkm_condition_has_a_graph(rt: HostRuntime) -> Result<(), Fail> {
    let text = job(rt.alloc(), PLAIN, B2, "2", WHOLE_B2, "0")?;
    let line = "gkm vertex 0 edges 0 3\n";
    assert_run(&rt, rt.alloc(), "gkm", &text, Status::GkmFailed, line)?;
    let graph = "\
vertices 8
vertex 0 0 1 0 0 1
vertex 1 1 -1 1 0 1
vertex 2 1 1 0 2 -1
vertex 3 2 -1 1 -2 1
vertex 4 2 1 -1 2 -1
vertex 5 3 -1 0 -2 1
vertex 6 3 1 -1 0 -1
vertex 7 4 -1 0 0 -1
edges 16
edge 0 1 1 0
edge 0 2 0 1
edge 0 5 1 1
edge 0 6 1 0
edge 1 3 0 1
edge 1 4 1 1
edge 1 7 1 0
edge 2 3 1 0
edge 2 4 1 0
edge 2 7 1 1
edge 3 5 1 0
edge 3 6 1 1
edge 4 5 1 0
edge 4 6 0 1
edge 5 7 0 1
edge 6 7 1 0
";
    assert_run(&rt, rt.alloc(), "graph", &text, Status::Done, graph)
}

#[test]
fn the_graph_of_a_line(rt: HostRuntime) -> Result<(), Fail> {
    let text = job(rt.alloc(), PLAIN, A1, "2", "1 1", "0")?;
    let graph = "vertices 2\nvertex 0 0 1\nvertex 1 1 -1\nedges 1\nedge 0 1 1\n";
    assert_run(&rt, rt.alloc(), "graph", &text, Status::Done, graph)
}

#[test]
fn job_texts_have_their_first_fault(rt: HostRuntime) -> Result<(), Fail> {
    for (text, written) in [
        ("", "text line 1 kind MissingLine\n"),
        ("bmp-job 3\n", "text line 1 kind OutOfRange\n"),
        ("bmp-job 2\n", "text line 2 kind MissingLine\n"),
        ("bmp-job 2\nrank 1\n", "text line 2 kind WrongKeyword\n"),
        ("bmp-job 1\nlattice 1\n", "text line 2 kind WrongKeyword\n"),
        ("bmp-job 2\nlattice 2\n", "text line 2 kind OutOfRange\n"),
        ("bmp-job 2\nlattice\n", "text line 2 kind WrongCount\n"),
        ("bmp-job 2\nlattice 0 1\n", "text line 2 kind WrongCount\n"),
        (
            "bmp-job 2\nlattice 0\nlattice 0\n",
            "text line 3 kind WrongKeyword\n",
        ),
        ("bmp-cert 1\n", "text line 1 kind WrongKeyword\n"),
        ("bmp-job 1\nrank 17\n", "text line 2 kind OutOfRange\n"),
        (
            "bmp-job 1\nrank 1\nrow 2\nprime 2\nword 2 1\n",
            "text line 5 kind WrongCount\n",
        ),
        (
            "bmp-job 1\nrank 1\nrow 2\nprime 2\nword 1 1 \n",
            "text line 5 kind WrongCount\n",
        ),
        (
            "bmp-job 1\nrank 1\nrow 2\nprime 2\nword 0\ndegree -0\n",
            "text line 6 kind NotANumber\n",
        ),
        (
            "bmp-job 1\nrank 1\nrow 2\nprime 2\nword 0\ndegree 0\nend \n",
            "text line 7 kind WrongCount\n",
        ),
        (
            "bmp-job 1\nrank 1\nrow 2\nprime 2\nword 0\ndegree 0\nend\n\n",
            "text line 8 kind TrailingText\n",
        ),
    ] {
        for command in ["gkm", "graph"] {
            assert_run(&rt, rt.alloc(), command, text, Status::BadText, written)?;
        }
    }
    Ok(())
}
