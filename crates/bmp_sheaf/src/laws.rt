//! Laws of the definitions, each the contract of a function without a body.
ghost use Rattle.bmp_sheaf.specs.GradedStatements.{StalksAreFreeModules, EdgeModulesAreQuotients, CongruentIsSameModulo, EdgeNumbersAreProjections, EdgeMapsAreModuleMaps, EdgeMatricesAreOfModuleMaps};
ghost use Rattle.bmp_sheaf.specs.Statements.{EdgeCoordinatesDecide, EdgeNumbersAreCoordinates, EdgeNumbersAreSmall, BoundaryNumbersDecide, LowerMatrixIsOfLift, UpperMatrixIsOfElement, BoundaryMatrixIsOfBoundary};

/// Elements are equal on an edge exactly where their coordinates there are.
pub fn edge_coordinates_decide()
    ensures { EdgeCoordinatesDecide }
{}

/// Over a field, an element's numbers on an edge are the coefficients, below the prime, of normal forms of its
/// components.
pub fn edge_numbers_are_coordinates()
    ensures coordinates { EdgeNumbersAreCoordinates }
    ensures small { EdgeNumbersAreSmall }
{}

/// Boundaries are the same on each edge going up from a vertex exactly where their numbers are.
pub fn boundary_numbers_decide()
    ensures { BoundaryNumbersDecide }
{}

/// The two matrices of an edge take the coordinates of an element at its lower end to the numbers of the lift, and
/// those of an element at its upper end to its own numbers. The matrix of a vertex takes coordinates to the numbers of
/// the boundary.
pub fn matrices_are_those_of_maps()
    ensures lower { LowerMatrixIsOfLift }
    ensures upper { UpperMatrixIsOfElement }
    ensures boundary { BoundaryMatrixIsOfBoundary }
{}

/// Stalks and edge modules are the graded modules of the layer below: free modules and their quotients, with the same
/// coordinates, the same equality, and module maps between them, whose matrices are those of the edges.
pub fn stalks_and_edges_are_graded_modules()
    ensures stalks { StalksAreFreeModules }
    ensures edges { EdgeModulesAreQuotients }
    ensures equality { CongruentIsSameModulo }
    ensures coordinates { EdgeNumbersAreProjections }
    ensures maps { EdgeMapsAreModuleMaps }
    ensures matrices { EdgeMatricesAreOfModuleMaps }
{}
