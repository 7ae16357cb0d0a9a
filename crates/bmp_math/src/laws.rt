//! The main laws of the definitions, each the contract of a function without a body.
ghost use Rattle.bmp_math.specs.Statements.{SumsExchange, SumsJoin, ImagesAreLinear, FormsMove, CombinationsCompose, AgreementOnUnits};

/// The order of two sums is free.
pub fn sums_exchange()
    ensures { SumsExchange }
{}

/// A sum over a joined bound is two sums.
pub fn sums_join()
    ensures { SumsJoin }
{}

/// What the rows of a matrix say of a vector is linear in it.
pub fn images_are_linear()
    ensures { ImagesAreLinear }
{}

/// A combination of rows, taken at a vector, is the combination of what the rows say of it.
pub fn forms_move()
    ensures { FormsMove }
{}

/// A combination of combinations is a combination.
pub fn combinations_compose()
    ensures { CombinationsCompose }
{}

/// Two linear maps that agree on the unit vectors agree on every vector.
pub fn agreement_on_units()
    ensures { AgreementOnUnits }
{}
