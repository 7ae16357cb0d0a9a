//! The line certificate and its altered forms.
use bmp_cert::{
    CertError, Ranks, parts_formed, print_cert, push_job_lines, push_parts, read_cert, well_formed,
};
use bmp_text::TextFault;
use bmp_text::TextKind::{self, NotANumber, OutOfRange, WrongCount, WrongKeyword};
use std::alloc::{AllocError, Global};
use std::test::Fail;

// A vertex and one below it, over the field of two elements.
const LINE: &str = "bmp-cert 1\nrank 1\nrow 2\nprime 2\nword 1 1\ndegree 1\nvertices 2\n\
    vertex 1 1 0\nvertex 0 1 0\nedges 1\nlift 1 0 1\nblock 0 0 1\npivots\ntuple 1 0 1\n\
    cover 1 0 1\nsource 1 0 1\ndual 1 0 1\nblock 1 0 1\npivots\ntuple 1 0 1\ncover 0\nend\n";

// The line certificate with another line of this number, from 1.
fn altered(alloc: Global, number: usize, line: &str) -> Result<String, AllocError> {
    let mut text = String::new(alloc);
    for (index, old) in LINE.lines().enumerate() {
        text.push_str(if index.saturating_add(1) == number {
            line
        } else {
            old
        })?;
        text.push('\n')?;
    }
    Ok(text)
}

#[test]
fn reads_a_certificate(rt: HostRuntime) -> Result<(), CertError> {
    let c = read_cert(rt.alloc(), LINE.as_bytes())?;
    let parts = c.vertices.copy()?;
    let formed = (
        well_formed(&c),
        parts_formed(&parts, 1, 2, 1),
        parts_formed(&parts, 1, 2, 0),
    );
    let ranks = Ranks::of(rt.alloc(), &c)?;
    let sizes = (c.version, parts.len(), ranks.vertices(), ranks.degree());
    assert_eq!(rt; (formed, sizes), ((true, true, false), (1, 2, 2, 1)));
    Ok(())
}

#[test]
fn prints_a_certificate(rt: HostRuntime) -> Result<(), CertError> {
    let c = read_cert(rt.alloc(), LINE.as_bytes())?;
    let text = print_cert(rt.alloc(), &c)?;
    assert_eq!(rt; text.as_slice(), LINE.as_bytes());
    Ok(())
}

/// The lines of the job and of the parts, put behind what stands.
#[test]
fn appends_the_lines_of_a_certificate(rt: HostRuntime) -> Result<(), Fail> {
    let c = read_cert(rt.alloc(), LINE.as_bytes())?;
    assert!(rt; well_formed(&c));
    let mut text = Vec::from_slice(rt.alloc(), b"bmp-cert 1\n")?;
    push_job_lines(&mut text, &c.job)?;
    push_parts(&mut text, c.version, &c.vertices)?;
    text.extend_from_slice(b"end\n")?;
    assert_eq!(rt; text.as_slice(), LINE.as_bytes());
    Ok(())
}

#[test]
fn finds_first_faults(rt: HostRuntime) -> Result<(), AllocError> {
    let cases: [(usize, &str, u64, TextKind); 9] = [
        (4, "prime 02", 4, NotANumber),
        (4, "prime 256", 4, OutOfRange),
        (4, "prime 2 2", 4, WrongCount),
        (4, "Prime 2", 4, WrongKeyword),
        (8, "vertex 0 1 0", 8, OutOfRange),
        (10, "edges 4294967295", 12, WrongKeyword),
        (4, "prime  2", 4, NotANumber),
        (4, "prime 2 ", 4, WrongCount),
        // A count that its line doesn't hold.
        (11, "lift 4294967295 0 1", 11, WrongCount),
    ];
    for (number, line, fault, kind) in cases {
        let text = altered(rt.alloc(), number, line)?;
        let want = CertError::Text(TextFault { line: fault, kind });
        let got = read_cert(rt.alloc(), text.as_bytes()).err();
        assert_eq!(rt; got, Some(want), "at {line}");
    }
    Ok(())
}
