//! Tables of normal forms by a label, made once.
ghost use Rattle.std.specs.Prelude.{◌≡◌, ℕ, ◌<◌, ◌≤◌, ◌+◌, ◌-◌, ◌*◌, IfOk, All, List, length, map, slice_index};
ghost use Rattle.bmp_poly.specs.Exponents.{count};
ghost use Rattle.bmp_poly.specs.Labels.{prime_of, rank_of, leading_of, coordinate_of};
ghost use Rattle.bmp_module.specs.Tables.{IsNormalColumn, HasNormalColumns, HasNormalForms};

use crate::{blocks, coordinates, normal};
use bmp_field::Field;
use bmp_poly::{Label, monomials};
use std::alloc::{AllocError, Global};

/// The numbers of the normal form of the monomial at place `t`, of those without the leading variable.
fn column<F: Field>(
    alloc: Global,
    f: &F,
    label: &Label,
    degree: u32,
    t: u32,
) -> Result<Vec<u8>, AllocError>
    requires prime { F.size f.now ≡ prime_of label.now }
    requires degree { degree ≤ 6 }
    requires place { t < count (rank_of label.now) degree }
    ensures { IfOk result (λ v. IsNormalColumn (prime_of label.now) (rank_of label.now) (coordinate_of label.now)
        (leading_of label.now) degree t v.items) }
{
    let members = u64::from(blocks::count(label.rank(), degree));
    let mut coefficients = coordinates::unit(alloc, f, members, u64::from(t))?;
    let mut normal = Vec::new(alloc);
    normal::push_normal(f, label, degree, &mut coefficients, &mut normal)?;
    let mut numbers = Vec::with_capacity(alloc, normal.len())?;
    for value in &normal {
        numbers.push(f.num(*value) as u8)?;
    }
    Ok(numbers)
}

/// The numbers of the normal forms of all monomials of a degree, one after another.
fn columns<F: Field>(
    alloc: Global,
    f: &F,
    label: &Label,
    degree: u32,
) -> Result<Vec<u8>, AllocError>
    requires prime { F.size f.now ≡ prime_of label.now }
    requires degree { degree ≤ 6 }
    ensures { IfOk result (λ v. HasNormalColumns (prime_of label.now) (rank_of label.now) (coordinate_of label.now)
        (leading_of label.now) degree (count (rank_of label.now) degree) v.items) }
{
    let mut numbers = Vec::new(alloc);
    for t in 0..monomials::count(label.rank(), degree) {
        let column = column(alloc, f, label, degree, t)?;
        numbers.extend_from_slice(&column)?;
    }
    Ok(numbers)
}

/// The normal forms of the monomials of each degree up to a bound, by one label.
///
/// For each degree the numbers stand in one run of bytes: a column for each monomial, with a number for
/// each monomial without the label's leading variable.
#[derive(Debug, Drop)]
pub struct NormalTable {
    label: Label,
    columns: Vec<Vec<u8>>,
    ghost few: { length columns.items ≤ 7 },
    ghost forms: { HasNormalForms label.prime label.rank (slice_index label.coords) label.leading
        (map (λ v. v.items) columns.items) },
}

impl NormalTable {
    ghost use Rattle.bmp_poly.specs.Labels.{prime_of, rank_of, leading_of, coordinate_of};
    ghost use Rattle.bmp_module.specs.NormalTables.{label_of, degrees_of};
    ghost use Rattle.bmp_poly.specs.Exponents.{count};

    /// The table of the label, for the degrees from 0 to `degree`.
    pub fn new<F: Field>(
        alloc: Global,
        f: &F,
        label: &Label,
        degree: u32,
    ) -> Result<NormalTable, AllocError>
        requires prime { F.size f.now ≡ prime_of label.now }
        requires degree { degree ≤ 6 }
        ensures label { IfOk result (λ t. label_of t ≡ label.now) }
        ensures degrees { IfOk result (λ t. degrees_of t ≡ degree + 1) }
    {
        let mut table = Vec::with_capacity(alloc, degree as usize + 1)?;
        for s in 0..degree + 1 {
            table.push(columns(alloc, f, label, s)?)?;
        }
        Ok(NormalTable {
            label: *label,
            columns: table,
        })
    }

    /// The label.
    pub fn label(&self) -> &Label
        ensures { result.now ≡ label_of self.now }
    {
        &self.label
    }

    /// For how many degrees it has the normal forms, from 0 on.
    pub fn degrees(&self) -> u32
        ensures number { result ≡ degrees_of self.now }
        ensures few { result ≤ 7 }
    {
        self.columns.len() as u32
    }

    /// The normal form of the monomial at place `t` of degree `s`: its numbers at the monomials without the
    /// leading variable, in order.
    pub fn column(&self, s: u32, t: u32) -> &[u8]
        requires degree { s < degrees_of self.now }
        requires place { t < count (rank_of (label_of self.now)) s }
        ensures { let x = label_of self.now in
            IsNormalColumn (prime_of x) (rank_of x) (coordinate_of x) (leading_of x) s t result.now }
    {
        let rows = blocks::count(self.label.rank() - 1, s) as usize;
        let start = t as usize * rows;
        &self.columns[s as usize][start..start + rows]
    }
}
