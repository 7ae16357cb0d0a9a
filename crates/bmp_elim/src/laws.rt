//! Laws of matrices over a field, each the contract of a function that does nothing: they hold however much
//! memory there is.
ghost use Rattle.bmp_elim.specs.Laws.{EachHasReducedForm, WideHaveKernelVectors, InversesAreSquare, BasesAreIndependent, DualsRead};

use bmp_field::Field;

/// Every matrix has a reduced echelon form, and a faithful trace leads to it.
pub fn matrices_are_reduced<F: Field>(f: &F)
    ensures { EachHasReducedForm (F.size f.now) }
{
    let _ = f;
}

/// Where there are more columns than rows, the rows send a vector to 0 that isn't 0.
pub fn wide_matrices_have_kernel_vectors<F: Field>(f: &F)
    ensures { WideHaveKernelVectors (F.size f.now) }
{
    let _ = f;
}

/// Matrices that are inverse to each other on both sides have as many rows as columns.
pub fn inverses_are_square<F: Field>(f: &F)
    ensures { InversesAreSquare (F.size f.now) }
{
    let _ = f;
}

/// The basis of kernel evidence whose comparisons all pass is independent.
pub fn bases_are_independent<F: Field>(f: &F)
    ensures { BasesAreIndependent (F.size f.now) }
{
    let _ = f;
}

/// A dual form says of a combination of the span's rows and the chosen rows the factor of its own row.
pub fn duals_read<F: Field>(f: &F)
    ensures { DualsRead (F.size f.now) }
{
    let _ = f;
}
