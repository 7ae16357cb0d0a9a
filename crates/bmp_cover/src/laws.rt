//! Laws of the definitions, each the contract of a function without a body.
ghost use Rattle.bmp_cover.specs.Laws.{CountsOfAllAreDimensions};

/// The numbers of generators of a Braden-MacPherson sheaf are dimensions, at each vertex and in each degree.
pub fn counts_of_all_are_dimensions()
    ensures { CountsOfAllAreDimensions }
{}
