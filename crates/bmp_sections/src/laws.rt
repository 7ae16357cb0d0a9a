//! Laws of the definitions, each the contract of a function without a body.
ghost use Rattle.bmp_sections.specs.Statements.{EquationsDecide, EquationNumbersDecide, AboveIsTested};

/// A tuple is a section exactly where all values of its edge equations are 0.
pub fn equations_decide()
    ensures { EquationsDecide }
{}

/// Chains as long as there are vertices reach all that is above a vertex, and nothing else.
pub fn above_is_tested()
    ensures { AboveIsTested }
{}

/// A tuple is a section exactly where the numbers of all its edge equations are 0.
pub fn equation_numbers_decide()
    ensures { EquationNumbersDecide }
{}
