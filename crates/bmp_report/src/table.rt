//! The text of a Kazhdan-Lusztig table, and the line of one that is too large.
ghost use Rattle.std.specs.Prelude.{◌≡◌, ◌<◌, ◌++◌, ◌∷◌, [], ℕ, List, pos, codes, IfOk, OnOk};
ghost use Rattle.std.specs.Fmt.{signed_decimal};
ghost use Rattle.bmp_text.specs.Printing.{spaced_words};
ghost use Rattle.bmp_kl.specs.KlTables.{count_of, sum_of, coefficient_of};
ghost use Rattle.bmp_report.specs.TableText.{coefficient_words, polynomial_words, kl_line, kl_lines, not_dual_line, IsDualLine, IsKlText, limit_line};

use crate::faults::push_numbered;
use bmp_kl::{KlTable, NotDual, self_dual};
use bmp_text::{push_int, push_number};
use std::alloc::{AllocError, Global};

// An exponent as a signed number.
fn signed(exponent: u32) -> i32
    requires { exponent < 37 }
    ensures { result ≡ pos exponent }
{
    exponent as i32
}

// The coefficient at an exponent, behind a space; nothing where it is 0.
fn push_coefficient(out: &mut Vec<u8>, exponent: u32, coefficient: i64) -> Result<(), AllocError>
    ensures { OnOk result (out.new.items ≡ out.old.items ++ spaced_words (coefficient_words exponent coefficient)) }
{
    if coefficient == 0 {
        return Ok(());
    }
    push_number(out, u64::from(exponent))?;
    out.push(b':')?;
    push_int(out, i128::from(coefficient))
}

// The coefficients of h_x.
#[tactic(auto, unfolding(crate::specs::TableText::polynomial_words))]
fn push_polynomial(out: &mut Vec<u8>, table: &KlTable, x: u32) -> Result<(), AllocError>
    requires { x < count_of table.now }
    ensures { OnOk result (out.new.items ≡ out.old.items
        ++ spaced_words (polynomial_words (coefficient_of table.now x))) }
{
    'exponents: for e in 0_u32..37 {
        let coefficient = table.coefficient(x, signed(e));
        push_coefficient(out, e, coefficient)?;
    }
    Ok(())
}

// The line of a vertex.
fn push_line(out: &mut Vec<u8>, table: &KlTable, x: u32) -> Result<(), AllocError>
    requires { x < count_of table.now }
    ensures { OnOk result (out.new.items ≡ out.old.items ++ kl_line (coefficient_of table.now) x) }
{
    out.extend_from_slice(b"kl")?;
    push_number(out, u64::from(x))?;
    push_polynomial(out, table, x)?;
    out.push(b'\n')?;
    Ok(())
}

// The lines of all vertices.
fn push_lines(out: &mut Vec<u8>, table: &KlTable) -> Result<(), AllocError>
    ensures { OnOk result (out.new.items ≡ out.old.items
        ++ kl_lines (count_of table.now) (coefficient_of table.now)) }
{
    'vertices: for x in 0..table.vertices() {
        push_line(out, table, x)?;
    }
    Ok(())
}

// A name and a signed number.
fn push_signed(out: &mut Vec<u8>, name: &[u8], n: i128) -> Result<(), AllocError>
    ensures { OnOk result (out.new.items ≡ out.old.items ++ (name.now ++ signed_decimal n)) }
{
    out.extend_from_slice(name)?;
    push_int(out, n)
}

// The line of the first equation that fails.
fn push_not_dual(out: &mut Vec<u8>, fault: &NotDual) -> Result<(), AllocError>
    ensures { OnOk result (out.new.items ≡ out.old.items ++ not_dual_line fault.now) }
{
    push_numbered(out, b"self-dual no vertex", u64::from(fault.x))?;
    push_signed(out, b" exponent ", i128::from(fault.exponent))?;
    push_signed(out, b" left ", fault.left)?;
    push_signed(out, b" right ", fault.right)?;
    out.push(b'\n')?;
    Ok(())
}

/// Whether the table is self-dual: the line of it.
pub(crate) fn push_duality(out: &mut Vec<u8>, table: &KlTable) -> Result<(), AllocError>
    ensures { OnOk result ((line : List ℕ) × IsDualLine (count_of table.now) (coefficient_of table.now)
        (sum_of table.now) line × (out.new.items ≡ out.old.items ++ line)) }
{
    match self_dual(table) {
        Ok(()) => out.extend_from_slice(b"self-dual yes\n"),
        Err(fault) => push_not_dual(out, &fault),
    }
}

/// The text of a table: for each vertex x the line `kl x` with a word `e:c` for each exponent e, rising, at which h_x
/// has a coefficient c other than 0; and then `self-dual yes`, or the first equation q_x = h_x - bar(h_x) that fails,
/// as `self-dual no vertex x exponent e left l right r`.
pub fn kl_text(alloc: Global, table: &KlTable) -> Result<Vec<u8>, AllocError>
    ensures { IfOk result (λ v. IsKlText (count_of table.now) (coefficient_of table.now) (sum_of table.now) v.items) }
{
    let mut out = Vec::new(alloc);
    push_lines(&mut out, table)?;
    push_duality(&mut out, table)?;
    Ok(out)
}

/// The line of a table that is too large: `table limit vertex x`, where a coefficient of h_x passes the limit.
pub fn limit_line(alloc: Global, x: u32) -> Result<Vec<u8>, AllocError>
    ensures { IfOk result (λ v. v.items ≡ limit_line x) }
{
    let mut out = Vec::new(alloc);
    push_numbered(&mut out, b"table limit vertex", u64::from(x))?;
    out.push(b'\n')?;
    Ok(out)
}
