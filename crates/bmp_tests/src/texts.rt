//! Texts that the tests run on.

/// A point: rank 1, the empty word.
pub const POINT: &str = "\
bmp-cert 1
rank 1
row 2
prime 2
word 0
degree 0
vertices 1
vertex 0 1 0
end
";

/// A line: rank 1, the word of one letter, up to degree 1.
pub const LINE: &str = "\
bmp-cert 1
rank 1
row 2
prime 2
word 1 1
degree 1
vertices 2
vertex 1 1 0
vertex 0 1 0
edges 1
lift 1 0 1
block 0 0 1
pivots
tuple 1 0 1
cover 1 0 1
source 1 0 1
dual 1 0 1
block 1 0 1
pivots
tuple 1 0 1
cover 0
end
";

/// The line by levels.
pub const LEVELS: &str = "\
bmp-cert 2
rank 1
row 2
prime 2
word 1 1
degree 1
vertices 2
vertex 1 1 0
vertex 0 1 0
edges 1
lift 1 0 1
block 0 1 1 0
pivots 0
cover 1 0 1
source 1 0 1
dual 1 0 1
row 1 0 1
block 1 1 0 1
pivots
cover 0
basis 1 0 1
end
";

/// The line by levels and by the fundamental weights, in degree 0 and over the field of three elements.
pub const WEIGHTS: &str = "\
bmp-cert 3
lattice 1
rank 1
row 2
prime 3
word 1 1
degree 0
vertices 2
vertex 1 1 0
vertex 0 1 0
edges 1
lift 1 0 1
block 0 1 1 0
pivots 0
cover 1 0 1
source 1 0 1
dual 1 0 1
row 1 0 1
end
";

/// The line with a second generator at its lower vertex, whose boundary is zero.
pub const SURPLUS: &str = "\
bmp-cert 1
rank 1
row 2
prime 2
word 1 1
degree 1
vertices 2
vertex 1 1 0
vertex 0 2 0 0
edges 1
lift 1 0 1
lift 0
block 0 0 1
pivots
tuple 1 0 1
cover 1 0 1
source 1 0 1
source 0
dual 1 0 1
dual 0
block 1 0 1
pivots
tuple 1 0 1
cover 0
end
";

/// A square: type A2, the word 1 2, three elements, up to degree 0.
pub const SQUARE: &str = "\
bmp-cert 1
rank 2
row 2 -1
row -1 2
prime 3
word 2 1 2
degree 0
vertices 4
vertex 3 1 0
vertex 2 1 0
edges 1
lift 1 0 1
block 0 0 1
pivots
tuple 1 0 1
cover 1 0 1
source 1 0 1
dual 1 0 1
vertex 1 1 0
edges 1
lift 1 0 1
block 0 0 1
pivots
tuple 1 0 1
cover 1 0 1
source 1 0 1
dual 1 0 1
vertex 0 1 0
edges 2
lift 1 0 1
lift 1 0 1
block 0 2 1
pivots 0 1
tuple 3 0 1 1 1 2 1
row 1 0 1
row 1 1 1
cover 1 0 1
source 1 0 1
dual 1 0 1
end
";

/// The ranks of the line.
pub const LINE_RANKS: &str = "rank 0 1 0\nrank 1 1 0\n";

/// The ranks of the square.
pub const SQUARE_RANKS: &str = "rank 0 1\nrank 1 1\nrank 2 1\nrank 3 1\n";
