//! The line of a lattice, read and printed.
ghost use Rattle.std.specs.Prelude.{◌≡◌, ◌++◌, OnOk};
ghost use Rattle.bmp_text.specs.LaterLines.{PassesLines};
ghost use Rattle.bmp_cert.specs.Answers.{Gives};
ghost use Rattle.bmp_cert.specs.LatticeGrammar.{lattice_line, lattice_if, lattice_text};

use crate::job_reader::single_of;
use crate::print::push_single;
use crate::{CertError, Lattice};
use bmp_text::Lines;
use std::alloc::AllocError;

// The line.
#[tactic(auto, unfolding(crate::specs::LatticeGrammar::lattice_line))]
fn lattice_line(lines: &mut Lines) -> Result<Lattice, CertError>
    ensures gives { Gives (λ l. l) lines.new result (lattice_line lines.old) }
    ensures later { PassesLines lines.old lines.new }
{
    let number = single_of(lines, b"lattice", 0, 1)?;
    if number == 0 {
        Ok(Lattice::Root)
    } else {
        Ok(Lattice::Weight)
    }
}

/// The line of the lattice where it is to stand, else the lattice of texts without it.
pub(crate) fn lattice_if(lines: &mut Lines, stated: bool) -> Result<Lattice, CertError>
    ensures gives { Gives (λ l. l) lines.new result (lattice_if stated lines.old) }
    ensures later { PassesLines lines.old lines.new }
{
    if stated {
        lattice_line(lines)
    } else {
        Ok(Lattice::Plain)
    }
}

/// Appends the line of the lattice, where it has one.
pub(crate) fn push_lattice(out: &mut Vec<u8>, lattice: Lattice) -> Result<(), AllocError>
    ensures { OnOk result (out.new.items ≡ out.old.items ++ lattice_text lattice) }
{
    if lattice.has_line() {
        push_single(out, b"lattice", u64::from(lattice.number()))?;
    }
    Ok(())
}
