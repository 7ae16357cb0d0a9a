//! The laws of parts that were built, each the contract of a function without a body.
ghost use Rattle.bmp_build.specs.BuiltGraphs.{BuiltPartsPass};
ghost use Rattle.bmp_build.specs.WholeSpaces.{WholePartsPass};

use bmp_field::Field;

/// Parts that were built one by one from the greatest vertex down, each for the families over the longer vertices, have
/// lines of the versions 2 and 3, and no comparison of their verdict fails.
pub fn built_parts_pass<F: Field>()
    ensures { BuiltPartsPass F }
{}

/// Parts that were built one by one from the greatest vertex down, each for the whole spaces of sections over the
/// vertices above, have lines of version 1, and no comparison of their verdict fails.
pub fn whole_parts_pass<F: Field>()
    ensures { WholePartsPass F }
{}
