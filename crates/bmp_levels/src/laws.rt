//! Laws of families by levels, each the contract of a function without a body.
ghost use Rattle.bmp_levels.specs.Statements.{SectionsExtend, ExtensionKeepsSections, ExtensionKeepsSpanning};
ghost use Rattle.bmp_levels.specs.Statements.{ExtensionKeepsIndependence, TopFamilyIsBasis};
ghost use Rattle.bmp_levels.specs.Statements.{PassedByLevelsIsBradenMacPherson, PassedByLevelsCountsAreDimensions};
ghost use Rattle.bmp_levels.specs.Statements.{PassedByLevelsFamiliesAreBases, FamiliesAreCounted};
ghost use Rattle.bmp_levels.specs.Statements.{FirstMembersAreFamily, FamiliesAreBelow, FamiliesGoOn, BasesCarry};
ghost use Rattle.bmp_levels.specs.Statements.{ComparisonsAgree};

/// Where each section is lifted at all longer vertices, a section over the vertices above x goes on to all vertices
/// longer than x.
pub fn sections_extend()
    ensures { SectionsExtend }
{}

/// The extension of a list of sections consists of sections.
pub fn extension_keeps_sections()
    ensures { ExtensionKeepsSections }
{}

/// The extension of a list that spans all sections spans all sections.
pub fn extension_keeps_spanning()
    ensures { ExtensionKeepsSpanning }
{}

/// The extension of an independent list is independent.
pub fn extension_keeps_independence()
    ensures { ExtensionKeepsIndependence }
{}

/// The monomials at the longest vertex are a basis of the sections there.
pub fn top_family_is_basis()
    ensures { TopFamilyIsBasis }
{}

/// Where evidence by levels passes, the sheaf is a Braden-MacPherson sheaf (Braden-MacPherson 2001; Fiebig-Williamson).
pub fn passed_is_braden_macpherson()
    ensures { PassedByLevelsIsBradenMacPherson }
{}

/// Its numbers of generators are then dimensions.
pub fn passed_counts_are_dimensions()
    ensures { PassedByLevelsCountsAreDimensions }
{}

/// And each family is a basis of the sections over its level.
pub fn passed_families_are_bases()
    ensures { PassedByLevelsFamiliesAreBases }
{}

/// A family has a member for each monomial, and one for each basis vector of its vertices but the top.
pub fn families_are_counted()
    ensures { FamiliesAreCounted }
{}

/// The first members of a family are, over a higher level, the family of that level.
pub fn first_members_are_family()
    ensures { FirstMembersAreFamily }
{}

/// The values of families are below the prime where the numbers of the blocks are.
pub fn families_are_below()
    ensures { FamiliesAreBelow }
{}

/// What extends a list with the values of a family has the values of the next family.
pub fn families_go_on()
    ensures { FamiliesGoOn }
{}

/// Lists with the same values over a level are bases of the sections there together.
pub fn bases_carry()
    ensures { BasesCarry }
{}

/// Lists with the same values above a vertex make the same comparisons there.
pub fn comparisons_agree()
    ensures { ComparisonsAgree }
{}
