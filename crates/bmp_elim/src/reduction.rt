//! Reduced echelon form.
ghost use Rattle.std.specs.Prelude.{IfOk};
ghost use Rattle.bmp_math.specs.Matrices.{Matrix, NumbersBelow};
ghost use Rattle.bmp_linear.specs.RowTables.{matrix_of_entries};
ghost use Rattle.bmp_elim.specs.Echelons.{IsEchelon};
ghost use Rattle.bmp_elim.specs.Traces.{IsTrace, HasTrace};

use crate::eliminate::eliminate;
use crate::eliminated::eliminate_rows;
use crate::unit_rows::no_columns;
use bmp_field::Field;
use bmp_linear::{Places, RowSpace, Rows, SparseRows, stored};
use std::alloc::{AllocError, Global};

/// Rows in reduced echelon form, the places of their leading ones, and the trace that leads to them: it has
/// as many rows and columns as there are rows.
#[derive(Drop)]
pub struct Reduced<F: Field, A: RowSpace<F>> {
    pub rows: A,
    pub trace: SparseRows<F>,
    pub pivots: Places,
}

/// Rows in reduced echelon form, and the places of their leading ones.
#[derive(Drop)]
pub struct EchelonRows<A: Drop> {
    pub rows: A,
    pub pivots: Places,
}

/// Brings rows to reduced echelon form. The trace times the old rows gives the new ones, and it sends
/// only 0 to 0.
pub fn reduce<F: Field, A: RowSpace<F>>(
    alloc: Global,
    f: &F,
    a: A,
) -> Result<Reduced<F, A>, AllocError>
    requires { NumbersBelow (F.size f.now) (A.matrix a) }
    ensures echelon { IfOk result (λ r. IsEchelon (A.matrix r.rows) r.pivots) }
    ensures trace { IfOk result
        (λ r. IsTrace (F.size f.now) (A.matrix a) (A.matrix r.rows) (matrix_of_entries r.trace)) }
    ensures numbers { IfOk result (λ r. NumbersBelow (F.size f.now) (A.matrix r.rows)) }
    ensures trace_numbers { IfOk result (λ r. NumbersBelow (F.size f.now) (matrix_of_entries r.trace)) }
{
    let eliminated = eliminate_rows(alloc, f, a)?;
    let trace = stored(alloc, f, &eliminated.trace, &SparseRows::new(alloc, 0))?;
    Ok(Reduced {
        rows: eliminated.rows,
        trace,
        pivots: eliminated.pivots,
    })
}

/// Brings rows to reduced echelon form without keeping the trace, in about half the time of `reduce`.
pub fn echelon<F: Field, A: RowSpace<F>>(
    alloc: Global,
    f: &F,
    a: A,
) -> Result<EchelonRows<A>, AllocError>
    requires { NumbersBelow (F.size f.now) (A.matrix a) }
    ensures echelon { IfOk result (λ r. IsEchelon (A.matrix r.rows) r.pivots) }
    ensures trace { IfOk result (λ r. HasTrace (F.size f.now) (A.matrix a) (A.matrix r.rows)) }
    ensures numbers { IfOk result (λ r. NumbersBelow (F.size f.now) (A.matrix r.rows)) }
{
    let mut rows = a;
    let mut none = no_columns(alloc, f, &rows, rows.rows())?;
    let pivots = eliminate(alloc, f, &mut rows, &mut none)?;
    Ok(EchelonRows { rows, pivots })
}
