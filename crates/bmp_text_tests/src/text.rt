//! Lines, words, numbers and spans of small texts.
use bmp_text::{Lines, NumberFault, TextFault, TextKind, push_int, push_number, read_int};
use std::alloc::AllocError;

// The number of a text of one line `n NUMBER`, from 1 to 12, or the first fault.
fn read(text: &[u8]) -> Result<i64, TextFault> {
    let mut lines = Lines::new(text);
    let mut line = lines.next_line()?;
    line.keyword(b"n")?;
    let n = line.number(1, 12)?;
    line.finish()?;
    lines.finish()?;
    Ok(n)
}

#[test]
fn reads_lines(rt: HostRuntime) {
    let kind = |kind: TextKind, line: u64| Err(TextFault { line, kind });
    for (text, want) in [
        ("n 12\n", Ok(12)),
        ("n 12", kind(TextKind::MissingLine, 1)),
        ("n\t12\n", kind(TextKind::NotAscii, 1)),
        ("m 12\n", kind(TextKind::WrongKeyword, 1)),
        ("\n", kind(TextKind::WrongKeyword, 1)),
        ("n 02\n", kind(TextKind::NotANumber, 1)),
        ("n  2\n", kind(TextKind::NotANumber, 1)),
        ("n 13\n", kind(TextKind::OutOfRange, 1)),
        ("n 99999999999999999999\n", kind(TextKind::OutOfRange, 1)),
        ("n\n", kind(TextKind::WrongCount, 1)),
        ("n 2 \n", kind(TextKind::WrongCount, 1)),
        ("n 2\nx", kind(TextKind::TrailingText, 2)),
    ] {
        assert_eq!(rt; read(text.as_bytes()), want, "at {text}");
    }
}

#[test]
fn gives_spans(rt: HostRuntime) {
    let mut lines = Lines::new(b"end\n\nlast 7\n");
    for span in [(0, 3), (4, 4), (5, 11)] {
        let got = lines.next_line().map(|line| line.span());
        assert_eq!(rt; got, Ok(span));
    }
}

/// A count decides on room only as far as its own line goes, whatever comes behind it.
#[test]
fn room_ends_with_the_line(rt: HostRuntime) {
    for (text, count, room) in [
        (" 0 1\n 2 3 4 5 6 7 8\n", 4_294_967_295, 1),
        (" 0 1 2 3 4 5\n", 2, 2),
        ("\n 0 1 2 3\n", 9, 0),
        (" 0 1 2", 9, 1),
    ] {
        let ahead = Lines::new(text.as_bytes()).ahead();
        assert_eq!(rt; ahead.room(count, 4), room, "at {text}");
    }
}

const NUMBERS: [(&str, Result<i64, NumberFault>); 8] = [
    ("0", Ok(0)),
    ("-9223372036854775808", Ok(i64::MIN)),
    ("9223372036854775807", Ok(i64::MAX)),
    ("9223372036854775808", Err(NumberFault::TooBig)),
    ("-0", Err(NumberFault::NotANumber)),
    ("00", Err(NumberFault::NotANumber)),
    ("", Err(NumberFault::NotANumber)),
    ("99999999999999999999999x", Err(NumberFault::NotANumber)),
];

#[test]
fn reads_numbers(rt: HostRuntime) {
    for (word, want) in NUMBERS {
        assert_eq!(rt; read_int(word.as_bytes()), want, "at {word}");
    }
}

#[test]
fn prints_numbers(rt: HostRuntime) -> Result<(), AllocError> {
    for (word, number) in NUMBERS {
        let Ok(n) = number else {
            continue;
        };
        let mut out = Vec::new(rt.alloc());
        push_int(&mut out, i128::from(n))?;
        assert_eq!(rt; out.as_slice(), word.as_bytes());
    }
    Ok(())
}

#[test]
fn prints_a_number_behind_a_space(rt: HostRuntime) -> Result<(), AllocError> {
    let mut out = Vec::from_slice(rt.alloc(), b"n")?;
    push_number(&mut out, u64::MAX)?;
    assert_eq!(rt; out.as_slice(), b"n 18446744073709551615".as_slice());
    Ok(())
}
