//! One certificate of each version with a line cut out, doubled, exchanged with the next one, or put behind the end:
//! its first fault.
use bmp_cert::{CertError, read_cert};
use bmp_text::TextFault;
use bmp_text::TextKind::{self, MissingLine, OutOfRange, TrailingText, WrongKeyword};
use std::alloc::{AllocError, Global};

/// Version 1: type A2, the word 1 2, three elements, up to degree 0.
const SQUARE: &str = "\
bmp-cert 1
rank 2
row 2 -1
row -1 2
prime 3
word 2 1 2
degree 0
vertices 4
vertex 3 1 0
vertex 2 1 0
edges 1
lift 1 0 1
block 0 0 1
pivots
tuple 1 0 1
cover 1 0 1
source 1 0 1
dual 1 0 1
vertex 1 1 0
edges 1
lift 1 0 1
block 0 0 1
pivots
tuple 1 0 1
cover 1 0 1
source 1 0 1
dual 1 0 1
vertex 0 1 0
edges 2
lift 1 0 1
lift 1 0 1
block 0 2 1
pivots 0 1
tuple 3 0 1 1 1 2 1
row 1 0 1
row 1 1 1
cover 1 0 1
source 1 0 1
dual 1 0 1
end
";

/// Version 2: a line, the word of one letter, two elements, up to degree 1.
const LINE_BY_LEVELS: &str = "\
bmp-cert 2
rank 1
row 2
prime 2
word 1 1
degree 1
vertices 2
vertex 1 1 0
vertex 0 1 0
edges 1
lift 1 0 1
block 0 1 1 0
pivots 0
cover 1 0 1
source 1 0 1
dual 1 0 1
row 1 0 1
block 1 1 0 1
pivots
cover 0
basis 1 0 1
end
";

/// Version 3: the line by the fundamental weights, three elements, up to degree 0.
const WEIGHT_LINE: &str = "\
bmp-cert 3
lattice 1
rank 1
row 2
prime 3
word 1 1
degree 0
vertices 2
vertex 1 1 0
vertex 0 1 0
edges 1
lift 1 0 1
block 0 1 1 0
pivots 0
cover 1 0 1
source 1 0 1
dual 1 0 1
row 1 0 1
end
";

/// What is done with a line of a text.
#[derive(Clone, Copy, Debug, PartialEq, Eq)]
enum Change {
    Cut,
    Doubled,
    Exchanged,
    Appended,
}

use Change::{Appended, Cut, Doubled, Exchanged};

/// What is done with a line, its number from 1, and the first fault that then comes.
type Fault = (Change, u64, Option<(u64, TextKind)>);

// The faults that the rule in `fault_of` doesn't give, from a reader of the formats in another language. Exchanged
// lines may be equal, or both be rows of the matrix.
const SQUARE_FAULTS: [Fault; 14] = [
    (Cut, 3, Some((4, WrongKeyword))),
    (Cut, 9, Some((9, OutOfRange))),
    (Cut, 30, Some((31, WrongKeyword))),
    (Cut, 35, Some((36, WrongKeyword))),
    (Cut, 40, Some((40, MissingLine))),
    (Doubled, 3, Some((5, WrongKeyword))),
    (Doubled, 9, Some((10, OutOfRange))),
    (Doubled, 30, Some((32, WrongKeyword))),
    (Doubled, 35, Some((37, WrongKeyword))),
    (Doubled, 40, Some((41, TrailingText))),
    (Exchanged, 3, None),
    (Exchanged, 9, Some((9, OutOfRange))),
    (Exchanged, 30, None),
    (Exchanged, 35, None),
];

const LEVEL_FAULTS: [Fault; 5] = [
    (Cut, 8, Some((8, OutOfRange))),
    (Cut, 22, Some((22, MissingLine))),
    (Doubled, 8, Some((9, OutOfRange))),
    (Doubled, 22, Some((23, TrailingText))),
    (Exchanged, 8, Some((8, OutOfRange))),
];

const WEIGHT_FAULTS: [Fault; 5] = [
    (Cut, 9, Some((9, OutOfRange))),
    (Cut, 19, Some((19, MissingLine))),
    (Doubled, 9, Some((10, OutOfRange))),
    (Doubled, 19, Some((20, TrailingText))),
    (Exchanged, 9, Some((9, OutOfRange))),
];

// The fault of a change, in a text of so many lines: the first line that isn't the one to come has another keyword.
fn fault_of(faults: &[Fault], change: Change, number: u64, count: u64) -> Option<(u64, TextKind)> {
    for (other, place, fault) in faults {
        if *other == change && *place == number {
            return *fault;
        }
    }
    match change {
        Cut | Exchanged => Some((number, WrongKeyword)),
        Doubled => Some((number.saturating_add(1), WrongKeyword)),
        Appended => Some((count.saturating_add(1), TrailingText)),
    }
}

// The lines with one of them changed.
fn changed<'a>(
    alloc: Global,
    lines: &[&'a str],
    change: Change,
    at: usize,
) -> Result<Vec<&'a str>, AllocError> {
    let mut others = Vec::from_slice(alloc, lines)?;
    if at < others.len() {
        let line = others[at];
        match change {
            Cut => {
                others.remove(at);
            }
            Doubled => others.insert(at, line)?,
            Exchanged => others.swap(at, (at + 1).min(others.len() - 1)),
            Appended => others.push(line)?,
        }
    }
    Ok(others)
}

// The text of lines.
fn joined(alloc: Global, lines: &[&str]) -> Result<String, AllocError> {
    let mut text = String::new(alloc);
    for line in lines {
        text.push_str(line)?;
        text.push('\n')?;
    }
    Ok(text)
}

#[test]
fn changed_lines_have_their_first_fault(rt: HostRuntime) -> Result<(), AllocError> {
    let alloc = rt.alloc();
    for (text, faults) in [
        (SQUARE, SQUARE_FAULTS.as_slice()),
        (LINE_BY_LEVELS, LEVEL_FAULTS.as_slice()),
        (WEIGHT_LINE, WEIGHT_FAULTS.as_slice()),
    ] {
        let mut lines = Vec::new(alloc);
        for line in text.lines() {
            lines.push(line)?;
        }
        for change in [Cut, Doubled, Exchanged, Appended] {
            // The last line has no next one.
            let last = if change == Exchanged { 1 } else { 0 };
            for at in 0..lines.len().saturating_sub(last) {
                let other = joined(alloc, &changed(alloc, &lines, change, at)?)?;
                let number = at as u64 + 1;
                let want = fault_of(faults, change, number, lines.len() as u64);
                let got = read_cert(alloc, other.as_bytes()).err();
                assert_eq!(rt;
                    got,
                    want.map(|(line, kind)| CertError::Text(TextFault { line, kind })),
                    "{change:?} line {number} of {text}"
                );
            }
        }
    }
    Ok(())
}
