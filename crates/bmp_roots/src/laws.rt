//! Laws of root pairs, each the contract of a function without a body.
ghost use Rattle.bmp_roots.specs.Statements.{RootsHaveOneCoroot, RootsArePrimitive, ReflectionsKeepRootPairs, SimpleReflectionsPermute, RootsHaveOneSign, AtMost36ArePositive};

/// A root of a finite system has one coroot, so that to count roots and to count root pairs is the same.
pub fn roots_have_one_coroot()
    ensures { RootsHaveOneCoroot }
{}

/// A root is a primitive vector: it is zero modulo no number from 2 on.
pub fn roots_are_primitive()
    ensures { RootsArePrimitive }
{}

/// The reflection of a root pair sends root pairs to root pairs.
pub fn reflections_keep_root_pairs()
    ensures { ReflectionsKeepRootPairs }
{}

/// A simple reflection permutes the positive root pairs other than its own.
pub fn simple_reflections_permute()
    ensures { SimpleReflectionsPermute }
{}

/// Each root of a finite system is positive, or its negative is, and not both.
pub fn roots_have_one_sign()
    ensures { RootsHaveOneSign }
{}

/// A finite system has at most 36 positive roots.
pub fn at_most_36_are_positive()
    ensures { AtMost36ArePositive }
{}
