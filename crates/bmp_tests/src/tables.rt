//! Tables: the command `kl`, on words whose tables were worked out elsewhere (`bench/kl/independent.py`).
use crate::runs::assert_run;
use bmp_program::Status;
use std::test::Fail;

const LINE: &str = "bmp-job 1\nrank 1\nrow 2\nprime 2\nword 1 1\ndegree 0\nend\n";

/// By the fundamental weights the label of A1 is zero modulo 2.
const ZERO_LABEL: &str = "bmp-job 2\nlattice 1\nrank 1\nrow 2\nprime 2\nword 1 1\ndegree 0\nend\n";

const TRIANGLE: &str =
    "bmp-job 1\nrank 2\nrow 2 -1\nrow -1 2\nprime 3\nword 3 1 2 1\ndegree 0\nend\n";

/// Two edges at vertex 0 have parallel labels.
const PARALLEL: &str =
    "bmp-job 1\nrank 2\nrow 2 -1\nrow -2 2\nprime 2\nword 4 1 2 1 2\ndegree 0\nend\n";

const SQUARE: &str = "\
bmp-job 1
rank 3
row 2 -1 0
row -1 2 -1
row 0 -1 2
prime 3
word 4 2 1 3 2
degree 1
end
";

const POINT: &str = "bmp-job 1\nrank 1\nrow 2\nprime 61\nword 0\ndegree 6\nend\n";

#[test]
fn tables_of_words(rt: HostRuntime) -> Result<(), Fail> {
    for (input, written) in [
        (POINT, "kl 0 0:1\nself-dual yes\n"),
        (LINE, "kl 0 1:1\nkl 1 0:1\nself-dual yes\n"),
        (TRIANGLE, TRIANGLE_TABLE),
        (SQUARE, SQUARE_TABLE),
        (PARALLEL, PARALLEL_TABLE),
    ] {
        assert_run(&rt, rt.alloc(), "kl", input, Status::Done, written)?;
        assert_run(
            &rt,
            rt.alloc(),
            "kl --workers 7",
            input,
            Status::Done,
            written,
        )?;
    }
    Ok(())
}

const TRIANGLE_TABLE: &str = "\
kl 0 3:1
kl 1 2:1
kl 2 2:1
kl 3 1:1
kl 4 1:1
kl 5 0:1
self-dual yes
";

const SQUARE_TABLE: &str = "\
kl 0 2:1 4:1
kl 1 3:1
kl 2 3:1
kl 3 1:1 3:1
kl 4 2:1
kl 5 2:1
kl 6 2:1
kl 7 2:1
kl 8 2:1
kl 9 1:1
kl 10 1:1
kl 11 1:1
kl 12 1:1
kl 13 0:1
self-dual yes
";

const PARALLEL_TABLE: &str = "\
kl 0 4:1
kl 1 3:1
kl 2 3:1
kl 3 2:1
kl 4 2:1
kl 5 1:1
kl 6 1:1
kl 7 0:1
self-dual yes
";

#[test]
fn jobs_without_a_table(rt: HostRuntime) -> Result<(), Fail> {
    for (line, input, status, written) in [
        ("kl", ZERO_LABEL, Status::BadJob, "job label 0 1\n"),
        (
            "kl",
            "bmp-cert 1\n",
            Status::BadText,
            "text line 1 kind WrongKeyword\n",
        ),
        ("kl --seed 1", LINE, Status::Usage, "usage\n"),
    ] {
        assert_run(&rt, rt.alloc(), line, input, status, written)?;
    }
    Ok(())
}
