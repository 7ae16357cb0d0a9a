//! The laws of what is checked, for every certificate.
ghost use Rattle.bmp_check.specs.Accepted.{AcceptedIsCheckable, PassedIsBradenMacPherson, PassedGeneratorsAreBounded, PassedCountsAreDimensions, NoneFailsBesidePasses};
ghost use Rattle.bmp_check.specs.BlockOrder.{BlocksAreNumbered};
ghost use Rattle.bmp_check.specs.Fits.{ShapeGivesFits};

/// Each block has a number, and numbers rise in the order in which blocks are checked.
pub fn blocks_are_numbered()
    ensures { BlocksAreNumbered }
{}

/// Where all sizes pass, the evidence of each block fits the sizes of the block, and the lifts of each vertex fit the
/// stalks above it.
pub fn shape_gives_fits()
    ensures { ShapeGivesFits }
{}

/// What a certificate of an accepted job writes can be checked on the graph of the job.
pub fn accepted_is_checkable()
    ensures { AcceptedIsCheckable }
{}

/// Where no comparison of a certificate fails, its sheaf is a Braden-MacPherson sheaf of the moment graph of its job,
/// up to the degree of the job (Braden-MacPherson 2001; Fiebig-Williamson).
pub fn passed_is_braden_macpherson()
    ensures { PassedIsBradenMacPherson }
{}

/// No generator of it has a degree above that of the job, then.
pub fn passed_generators_are_bounded()
    ensures { PassedGeneratorsAreBounded }
{}

/// Its numbers of generators are then dimensions, at each vertex and in each degree up to that of the job.
pub fn passed_counts_are_dimensions()
    ensures { PassedCountsAreDimensions }
{}

/// Where no comparison fails, none is the first that fails.
pub fn none_fails_beside_passes()
    ensures { NoneFailsBesidePasses }
{}
