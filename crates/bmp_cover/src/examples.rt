//! The smallest examples and counterexamples of the definitions, each the contract of a function without a body.
ghost use Rattle.bmp_cover.specs.Examples.{PointIsBradenMacPherson, LineIsBradenMacPherson, LineCountsAreDimensions};
ghost use Rattle.bmp_cover.specs.Examples.{SplitIsNotReached, SplitIsLifted, SplitIsMinimal};
ghost use Rattle.bmp_cover.specs.Examples.{MissingIsReached, MissingIsNotLifted, MissingIsMinimal};
ghost use Rattle.bmp_cover.specs.Examples.{SurplusIsReached, SurplusIsLifted, SurplusIsNotMinimal};

/// On a point the stalk with one generator of degree 0 is a Braden-MacPherson sheaf up to each degree.
pub fn point_is_braden_macpherson()
    ensures { PointIsBradenMacPherson }
{}

/// On a line the sheaf with one generator of degree 0 at both vertices and the lift 1 is one.
pub fn line_is_braden_macpherson()
    ensures { LineIsBradenMacPherson }
{}

/// And its counts, 1 in degree 0 and 0 in every other degree, are dimensions.
pub fn line_counts_are_dimensions()
    ensures { LineCountsAreDimensions }
{}

/// On a triangle with two generators at the bottom, each with a lift on one edge alone, an element has the values 1 and
/// 0 on the two edges, and no section above has.
pub fn split_generators_are_not_reached()
    ensures { SplitIsNotReached }
{}

/// But each section has the boundary of an element.
pub fn sections_lift_to_split_generators()
    ensures { SplitIsLifted }
{}

/// And an element with zero boundary has the coefficient 0 at both.
pub fn split_generators_are_minimal()
    ensures { SplitIsMinimal }
{}

/// On a line without a generator at the bottom the one element has the boundary of a section.
pub fn zero_stalk_is_reached()
    ensures { MissingIsReached }
{}

/// But the section 1 has no element's boundary.
pub fn sections_do_not_lift_to_zero_stalk()
    ensures { MissingIsNotLifted }
{}

/// And no generator is there that could be left out.
pub fn zero_stalk_is_minimal()
    ensures { MissingIsMinimal }
{}

/// With a second generator whose lift is 0 each element still has the boundary of a section.
pub fn surplus_generator_is_reached()
    ensures { SurplusIsReached }
{}

/// And each section has the boundary of an element.
pub fn sections_lift_beside_surplus_generator()
    ensures { SurplusIsLifted }
{}

/// But its boundary is zero and its coefficient at itself is 1, so the generators are not minimal.
pub fn surplus_generator_is_not_minimal()
    ensures { SurplusIsNotMinimal }
{}
