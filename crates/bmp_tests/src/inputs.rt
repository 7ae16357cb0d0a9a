//! Inputs of `check` that are no certificate, with their first fault; and certificates of one vertex.
use crate::runs::{assert_run, with_line};
use crate::texts::{LINE, POINT};
use bmp_program::Status;
use std::test::Fail;

/// By row the text, the line that is put in place of one, and that of the fault with its kind.
#[test]
fn changed_lines_have_their_text_fault(rt: HostRuntime) -> Result<(), Fail> {
    for (text, place, line, fault) in [
        (POINT, 1, "bmp-cert 4", "1 kind OutOfRange"),
        (POINT, 2, "rank 0", "3 kind WrongKeyword"),
        (POINT, 3, "row 1001", "3 kind OutOfRange"),
        (POINT, 4, "prime\t2", "4 kind NotAscii"),
        (POINT, 4, "prime", "4 kind WrongCount"),
        (POINT, 4, "primes 2", "4 kind WrongKeyword"),
        (POINT, 7, "vertices 0", "7 kind OutOfRange"),
        (POINT, 8, "vertex 1 1 0", "8 kind OutOfRange"),
        (POINT, 8, "vertex 0 1 1", "8 kind OutOfRange"),
        (POINT, 9, "end\nx", "10 kind TrailingText"),
        (LINE, 4, "prime 02", "4 kind NotANumber"),
        (LINE, 4, "prime 256", "4 kind OutOfRange"),
        (LINE, 4, "prime 2 2", "4 kind WrongCount"),
        (LINE, 4, "Prime 2", "4 kind WrongKeyword"),
        (LINE, 4, "prime\t2", "4 kind NotAscii"),
        (LINE, 4, "prime  2", "4 kind NotANumber"),
        (LINE, 4, "prime 2 ", "4 kind WrongCount"),
        (LINE, 7, "vertices 3", "8 kind OutOfRange"),
        (LINE, 8, "vertex 0 1 0", "8 kind OutOfRange"),
        (LINE, 10, "edges 0", "11 kind WrongKeyword"),
        (LINE, 10, "edges 4294967295", "12 kind WrongKeyword"),
        (LINE, 11, "lift 4294967295 0 1", "11 kind WrongCount"),
    ] {
        let changed = with_line(rt.alloc(), text, place, line)?;
        let written = format!(in rt.alloc(); "text line {fault}\n")?;
        assert_run(
            &rt,
            rt.alloc(),
            "check",
            &changed,
            Status::BadText,
            &written,
        )?;
    }
    Ok(())
}

/// The first lines of the line, from none to all but the last.
#[test]
fn a_cut_text_misses_its_next_line(rt: HostRuntime) -> Result<(), Fail> {
    let mut front = String::new(rt.alloc());
    for (index, line) in LINE.lines().enumerate() {
        let next = index.saturating_add(1);
        let written = format!(in rt.alloc(); "text line {next} kind MissingLine\n")?;
        assert_run(&rt, rt.alloc(), "check", &front, Status::BadText, &written)?;
        front.push_str(line)?;
        front.push('\n')?;
    }
    Ok(())
}

/// A last line without its line feed, and a byte behind all lines.
#[test]
fn the_end_of_a_text_is_exact(rt: HostRuntime) -> Result<(), Fail> {
    let mut longer = String::from_str(rt.alloc(), LINE)?;
    longer.push('x')?;
    for (text, written) in [
        ("bmp-cert 1", "text line 1 kind MissingLine\n"),
        (&longer, "text line 23 kind TrailingText\n"),
    ] {
        assert_run(&rt, rt.alloc(), "check", text, Status::BadText, written)?;
    }
    Ok(())
}

#[test]
fn changed_jobs_have_their_fault(rt: HostRuntime) -> Result<(), Fail> {
    for (place, line, written) in [
        (3, "row 3", "job cartan diagonal 1\n"),
        (4, "prime 4", "job prime 4\n"),
    ] {
        let text = with_line(rt.alloc(), POINT, place, line)?;
        assert_run(&rt, rt.alloc(), "check", &text, Status::BadJob, written)?;
    }
    Ok(())
}
