//! Stalks that are built at once, one for each vertex of a length, over a sheaf that the tasks share.
use bmp_cert::VertexPart;
use bmp_field::Field;
use bmp_sheaf::Sheaf;
use std::marker::Model;

/// What a task makes: the part of its vertex, and the sheaf upon which it was built, with the stalk at last.
#[derive(Drop)]
pub(crate) struct MadeStalk<F: Field> {
    pub(crate) sheaf: Sheaf<F>,
    pub(crate) part: VertexPart,
}

impl<F: Field> Model for MadeStalk<F> {
    ghost use Rattle.bmp_build.specs.Tasks.{Made};

    ghost Value = { Made F };

    ghost view = { λ s. record { sheaf = s.sheaf; part = s.part } };
}
