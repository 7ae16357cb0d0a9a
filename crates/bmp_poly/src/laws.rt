//! The main laws of the definitions, each the contract of a function without a body.
ghost use Rattle.bmp_poly.specs.Statements.{ListingIsInOrder, NormalFormExistsOnce, EqualNormalForms, CongruenceIsKept, ConstantsAreNotDivided, ProductsCommute, ProductsAssociate, OneIsNeutral};
ghost use Rattle.bmp_poly.specs.LabelStatements.{LabelsOfOneForm};

/// The places of the monomials of a degree are the numbers below their count, each once, in the
/// order of the listing: by the exponents from the first variable on, the larger first.
pub fn listing_is_in_order()
    ensures { ListingIsInOrder }
{}

/// Each polynomial has exactly one normal form by a label.
pub fn normal_form_exists_once()
    ensures { NormalFormExistsOnce }
{}

/// Two polynomials have equal normal forms exactly where the label divides their difference.
pub fn equal_normal_forms()
    ensures { EqualNormalForms }
{}

/// Congruence by a linear form is an equivalence, which sums, multiples, monomials and products keep.
pub fn congruence_is_kept()
    ensures { CongruenceIsKept }
{}

/// In degree 0 a linear form divides zero alone.
pub fn constants_are_not_divided()
    ensures { ConstantsAreNotDivided }
{}

/// The order of two factors is free.
pub fn products_commute()
    ensures { ProductsCommute }
{}

/// Products of three factors need no brackets.
pub fn products_associate()
    ensures { ProductsAssociate }
{}

/// The constant 1 times a polynomial is the polynomial.
pub fn one_is_neutral()
    ensures { OneIsNeutral }
{}

/// A label is known by its prime, its rank and its coordinates.
pub fn labels_of_one_form()
    ensures { LabelsOfOneForm }
{}
