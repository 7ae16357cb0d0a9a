//! Sources and sinks that fail, and those that move few bytes a call.
use crate::a3::A3;
use crate::runs::check_by_pieces;
use crate::texts::{LINE, LINE_RANKS, POINT};
use bmp_program::Status;
use std::test::Fail;

/// A call that is never made.
const NEVER: u32 = 1_000_000;

/// By row the input, how many bytes a call moves, and which call of the source and of the sink fails.
#[test]
fn ports_that_fail(rt: HostRuntime) -> Result<(), Fail> {
    for (input, most, source_fails, sink_fails, status, written) in [
        (POINT, 1, NEVER, NEVER, Status::Done, "rank 0 1\n"),
        (LINE, 1, NEVER, NEVER, Status::Done, LINE_RANKS),
        (LINE, 1, 217, 22, Status::Done, LINE_RANKS),
        (LINE, 100, 1, NEVER, Status::ReadFault, "read fault\n"),
        (POINT, 100, 1, NEVER, Status::ReadFault, "read fault\n"),
        (POINT, 100, 2, NEVER, Status::Done, "rank 0 1\n"),
        (POINT, 4, NEVER, 0, Status::WriteFault, ""),
        (POINT, 4, NEVER, 1, Status::WriteFault, "rank"),
        (POINT, 4, 1, 1, Status::WriteFault, "read"),
        (A3, 10, NEVER, 1, Status::WriteFault, "rank 0 1 1"),
    ] {
        let most = most.max(1);
        let (ended, taken) = check_by_pieces(
            &rt,
            rt.alloc(),
            input,
            most,
            source_fails,
            sink_fails,
        )?;
        let want = (status, written.as_bytes());
        assert_eq!(rt;
            (ended, taken.as_slice()),
            want,
            "calls {source_fails}, {sink_fails} at {input}"
        );
    }
    Ok(())
}

/// The line has 216 bytes: byte by byte, call 216 tells its end.
#[test]
fn each_read_fails_in_turn(rt: HostRuntime) -> Result<(), Fail> {
    for call in 0..217 {
        let (ended, taken) = check_by_pieces(&rt, rt.alloc(), LINE, 1, call, NEVER)?;
        let want = (Status::ReadFault, b"read fault\n".as_slice());
        assert_eq!(rt; (ended, taken.as_slice()), want, "call {call}");
    }
    Ok(())
}

/// The ranks of the line have 22 bytes, of which those before the call that fails are taken.
#[test]
fn each_write_fails_in_turn(rt: HostRuntime) -> Result<(), Fail> {
    for call in 0..22 {
        let (ended, taken) = check_by_pieces(&rt, rt.alloc(), LINE, 1, NEVER, call)?;
        let is_front = LINE_RANKS.as_bytes().starts_with(&taken);
        let want = (Status::WriteFault, call as usize, true);
        assert_eq!(rt; (ended, taken.len(), is_front), want, "call {call}");
    }
    Ok(())
}
