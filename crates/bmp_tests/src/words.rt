//! Words of the command line: which ask for `check`, and which for nothing; and the numbers of statuses.
use crate::runs::assert_run;
use crate::texts::POINT;
use bmp_program::Status;
use std::test::Fail;

#[test]
fn words_that_ask_for_a_check(rt: HostRuntime) -> Result<(), Fail> {
    for line in [
        "check",
        "check --workers 1",
        "check --workers 32",
        "check --workers=2",
        "check --workers=1",
        "--workers 2 check",
        // A number is read as `parse` reads it.
        "check --workers 01",
        "check --workers +5",
        // What follows `--` is no option.
        "-- check",
    ] {
        assert_run(&rt, rt.alloc(), line, POINT, Status::Done, "rank 0 1\n")?;
    }
    Ok(())
}

#[test]
fn words_that_ask_for_nothing(rt: HostRuntime) -> Result<(), Fail> {
    for line in [
        "frob",
        "",
        "check check",
        "check --workers 0",
        "check --workers 33",
        "check --workers",
        "check --workers two",
        "check --workers 2 --workers 2",
        "check --seed 1",
        "graph --seed 1",
        "gkm --seed 0",
        "gkm --workers 0",
        "check --seed",
        "check --help",
        "check --version",
        "check -- --workers",
        "-- check --workers 2",
    ] {
        assert_run(&rt, rt.alloc(), line, POINT, Status::Usage, "usage\n")?;
    }
    Ok(())
}

#[test]
fn statuses_have_numbers(rt: HostRuntime) {
    for (status, number) in [
        (Status::Done, 0),
        (Status::Refused, 1),
        (Status::BadText, 2),
        (Status::BadJob, 3),
        (Status::GkmFailed, 4),
        (Status::ReadFault, 5),
        (Status::WriteFault, 6),
        (Status::NoMemory, 7),
        (Status::TooLong, 8),
        (Status::TableLimit, 9),
        (Status::Usage, 64),
    ] {
        assert_eq!(rt; status.number(), number, "at {status:?}");
    }
}
