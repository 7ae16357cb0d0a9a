//! The text that compares ranks with a Kazhdan-Lusztig table.
ghost use Rattle.std.specs.Prelude.{◌≡◌, ◌<◌, ◌≤◌, ◌++◌, ◌∷◌, ◌==◌, codes, pos, if◌then◌else◌, IfOk, OnOk};
ghost use Rattle.std.specs.Fmt.{decimal, signed_decimal};
ghost use Rattle.bmp_text.specs.Printing.{line_text};
ghost use Rattle.bmp_cert.specs.Counts.{rank_in};
ghost use Rattle.bmp_kl.specs.KlTables.{count_of, sum_of, coefficient_of};
ghost use Rattle.bmp_report.specs.CompareText.{polynomial_of, comparison_of, equals, agrees, agree_count, differ_line, vertex_lines, differ_lines, agree_line, IsCompareText};

use crate::faults::push_numbered;
use crate::table::push_duality;
use bmp_cert::Ranks;
use bmp_kl::KlTable;
use bmp_text::{push_int, push_number};
use std::alloc::{AllocError, Global};

// The coefficient at an exponent; h_x has none below 0 or above 36.
fn coefficient_at(table: &KlTable, x: u32, exponent: i64) -> i64
    requires { x < count_of table.now }
    ensures { result ≡ coefficient_of table.now x exponent }
{
    if exponent < 0 || exponent > 36 {
        0
    } else {
        table.coefficient(x, exponent as i32)
    }
}

// The coefficient of the polynomial of x at q^d.
fn polynomial_at(table: &KlTable, x: u32, d: u32) -> i64
    requires { x < count_of table.now }
    ensures { result ≡ polynomial_of table.now x d }
{
    let greatest = table.length(table.vertices() - 1);
    let exponent = i64::from(greatest) - i64::from(table.length(x)) - 2 * i64::from(d);
    coefficient_at(table, x, exponent)
}

// Whether a count is a coefficient.
fn equals(count: u32, coefficient: i64) -> bool
    ensures { result ≡ equals count coefficient }
{
    i64::from(count) == coefficient
}

// The line of a vertex and a degree where count and coefficient differ; nothing where they are equal.
fn push_difference(
    out: &mut Vec<u8>,
    x: u32,
    d: u32,
    count: u32,
    coefficient: i64,
) -> Result<(), AllocError>
    ensures { OnOk result (out.new.items ≡ out.old.items ++ differ_line x d count coefficient) }
{
    if equals(count, coefficient) {
        return Ok(());
    }
    push_numbered(out, b"differ", u64::from(x))?;
    push_number(out, u64::from(d))?;
    push_number(out, u64::from(count))?;
    out.push(b' ')?;
    push_int(out, i128::from(coefficient))?;
    out.push(b'\n')?;
    Ok(())
}

// The lines of a vertex.
fn push_vertex(out: &mut Vec<u8>, r: &Ranks, table: &KlTable, x: u32) -> Result<(), AllocError>
    requires rank { x < r.now.vertices }
    requires vertex { x < count_of table.now }
    ensures { OnOk result (out.new.items ≡ out.old.items ++ vertex_lines (comparison_of r.now table.now) x) }
{
    let bound = r.degree();
    'degrees: for d in 0..bound + 1 {
        push_difference(out, x, d, r.count(x, d), polynomial_at(table, x, d))?;
    }
    Ok(())
}

// The lines of all vertices.
fn push_differences(out: &mut Vec<u8>, r: &Ranks, table: &KlTable) -> Result<(), AllocError>
    requires { r.now.vertices ≡ count_of table.now }
    ensures { OnOk result (out.new.items ≡ out.old.items ++ differ_lines (comparison_of r.now table.now)) }
{
    'vertices: for x in 0..r.vertices() {
        push_vertex(out, r, table, x)?;
    }
    Ok(())
}

// Whether each count of a vertex is the coefficient beside it.
fn agrees(r: &Ranks, table: &KlTable, x: u32) -> bool
    requires rank { x < r.now.vertices }
    requires vertex { x < count_of table.now }
    ensures { result ≡ agrees (comparison_of r.now table.now) x }
{
    let bound = r.degree();
    let mut agree = true;
    'degrees: for d in 0..bound + 1 {
        agree = agree && equals(r.count(x, d), polynomial_at(table, x, d));
    }
    agree
}

// At how many vertices it is so.
fn agreeing(r: &Ranks, table: &KlTable) -> u32
    requires { r.now.vertices ≡ count_of table.now }
    ensures { result ≡ agree_count (comparison_of r.now table.now) r.now.vertices }
{
    let mut number = 0;
    'vertices: for x in 0..r.vertices() {
        if agrees(r, table, x) {
            number += 1;
        }
    }
    number
}

// The last line.
fn push_agreement(out: &mut Vec<u8>, r: &Ranks, table: &KlTable) -> Result<(), AllocError>
    requires { r.now.vertices ≡ count_of table.now }
    ensures { OnOk result (out.new.items ≡ out.old.items ++ agree_line (comparison_of r.now table.now)) }
{
    push_numbered(out, b"agree", u64::from(agreeing(r, table)))?;
    push_numbered(out, b" of", u64::from(r.vertices()))?;
    out.push(b'\n')?;
    Ok(())
}

/// The comparison of ranks with a table of as many vertices: `self-dual yes` or the first equation that fails, as in
/// the text of the table; for each vertex x and each degree d where the number n(x,d) of generators isn't the
/// coefficient of h_x at l(w) - l(x) - 2 d, w the greatest vertex, the line `differ x d` with the two numbers; and
/// `agree A of n`, where A is the number of vertices without such a line.
pub fn compare_text(alloc: Global, r: &Ranks, table: &KlTable) -> Result<Vec<u8>, AllocError>
    requires { r.now.vertices ≡ count_of table.now }
    ensures { IfOk result (λ v. IsCompareText (comparison_of r.now table.now) (coefficient_of table.now)
        (sum_of table.now) v.items) }
{
    let mut out = Vec::new(alloc);
    push_duality(&mut out, table)?;
    push_differences(&mut out, r, table)?;
    push_agreement(&mut out, r, table)?;
    Ok(out)
}
