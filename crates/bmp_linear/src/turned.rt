//! Rows read as columns.
ghost use Rattle.bmp_math.specs.Matrices.{Matrix, turned};

use crate::rows::Rows;
use bmp_field::Field;
use std::marker::Model;

/// Rows with the rows and columns of others exchanged, seen as those others. Keeps no rows of its own.
#[derive(Drop)]
pub struct Turned<'a, A> {
    of: &'a A,
}

impl<'a, A> Model for Turned<'a, A> {
    ghost Value = { A };

    ghost view = { λ t. t.of.now };
}

impl<'a, A> Turned<'a, A> {
    ghost use Rattle.std.specs.Prelude.{◌≡◌};

    /// The columns of `rows`, as rows.
    pub fn of(rows: &'a A) -> Turned<'a, A>
        ensures { result ≡ rows.now }
    {
        Turned { of: rows }
    }
}

impl<'a, F: Field, A: Rows<F>> Rows<F> for Turned<'a, A> {
    ghost matrix = { λ a. turned (A.matrix a) };

    fn rows(&self) -> u32 {
        self.of.cols()
    }

    fn cols(&self) -> u32 {
        self.of.rows()
    }

    fn at(&self, f: &F, i: u32, j: u32) -> F::E {
        self.of.at(f, j, i)
    }
}
