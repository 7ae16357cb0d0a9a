//! Laws of the definitions, each the contract of a function without a body.
ghost use Rattle.bmp_stalk.specs.Blocks.{ChosenColumnsPass, GrownStalksHaveKeptBoundaries, GrownStalksPass, KernelPassesOnEqual};
ghost use Rattle.bmp_stalk.specs.Above.{EquationsStay, EqualValuesPass, EquationBlocksPass};
ghost use Rattle.bmp_stalk.specs.Drafts.{BuiltDegreesPass, BuiltDegreesStay};

use bmp_field::Field;

/// Where the columns that a choice keeps are the boundary matrix, what was read off the choice passes as evidence.
pub fn chosen_columns_pass()
    ensures { ChosenColumnsPass }
{}

/// The boundary matrix of a stalk that has grown is what the choice keeps, whatever generators of greater degree
/// follow.
pub fn grown_stalks_have_kept_boundaries()
    ensures kept { GrownStalksHaveKeptBoundaries }
    ensures passes { GrownStalksPass }
{}

/// Kernel evidence passes on equal matrices alike.
pub fn kernel_passes_on_equal()
    ensures { KernelPassesOnEqual }
{}

/// What was built in a degree passes in the sheaf with the stalk that has grown by it, and stays built whatever
/// follows.
pub fn built_degrees_pass<F: Field>()
    ensures passes { BuiltDegreesPass F }
    ensures stay { BuiltDegreesStay F }
{}

/// The edge equations over the vertices above a vertex rest on the stalks there, and the comparisons on the tuples'
/// values.
pub fn equations_stay()
    ensures equations { EquationsStay }
    ensures values { EqualValuesPass }
{}

/// What was built from the kernel of the edge equations beside a draft passes beside the stalk that grew from it.
pub fn equation_blocks_pass<F: Field>()
    ensures { EquationBlocksPass F }
{}
