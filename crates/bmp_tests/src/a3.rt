//! A longer text: type A3, the word 2 1 3 2, three elements, up to degree 1.

/// `examples/a3-2132-d1.cert`: 14 vertices, two of them with a generator of degree 1.
pub const A3: &str = "\
bmp-cert 1\nrank 3\nrow 2 -1 0\nrow -1 2 -1\nrow 0 -1 2\nprime 3\nword 4 2 1 3 2\ndegree 1\n\
vertices 14\nvertex 13 1 0\nvertex 12 1 0\nedges 1\nlift 1 0 1\nblock 0 0 1\npivots\n\
tuple 1 0 1\ncover 1 0 1\nsource 1 0 1\ndual 1 0 1\nblock 1 0 3\npivots\ntuple 1 0 1\n\
tuple 1 1 1\ntuple 1 2 1\ncover 1 0 1\ncover 1 0 2\ncover 1 2 1\nvertex 11 1 0\nedges 1\n\
lift 1 0 1\nblock 0 0 1\npivots\ntuple 1 0 1\ncover 1 0 1\nsource 1 0 1\ndual 1 0 1\n\
block 1 0 3\npivots\ntuple 1 0 1\ntuple 1 1 1\ntuple 1 2 1\ncover 1 0 1\ncover 0\n\
cover 1 2 1\nvertex 10 1 0\nedges 1\nlift 1 0 1\nblock 0 0 1\npivots\ntuple 1 0 1\n\
cover 1 0 1\nsource 1 0 1\ndual 1 0 1\nblock 1 0 3\npivots\ntuple 1 0 1\ntuple 1 1 1\n\
tuple 1 2 1\ncover 1 0 1\ncover 1 1 1\ncover 1 1 2\nvertex 9 1 0\nedges 1\nlift 1 0 1\n\
block 0 0 1\npivots\ntuple 1 0 1\ncover 1 0 1\nsource 1 0 1\ndual 1 0 1\nblock 1 0 3\n\
pivots\ntuple 1 0 1\ntuple 1 1 1\ntuple 1 2 1\ncover 1 0 1\ncover 1 1 1\ncover 2 0 2 1 2\n\
vertex 8 1 0\nedges 2\nlift 1 0 1\nlift 1 0 1\nblock 0 2 1\npivots 0 1\n\
tuple 3 0 1 1 1 2 1\nrow 1 0 1\nrow 1 1 1\ncover 1 0 1\nsource 1 0 1\ndual 1 0 1\n\
block 1 4 5\npivots 0 1 3 5\ntuple 3 0 1 1 1 2 1\ntuple 2 3 1 4 1\ntuple 3 0 1 3 1 6 1\n\
tuple 3 1 1 3 2 7 1\ntuple 4 0 2 1 2 5 1 8 1\nrow 1 1 2\nrow 2 0 1 1 2\nrow 1 2 2\n\
row 1 3 1\ncover 1 2 1\ncover 2 0 1 1 1\ncover 1 0 1\ncover 1 0 2\ncover 0\nvertex 7 1 0\n\
edges 2\nlift 1 0 1\nlift 1 0 1\nblock 0 2 1\npivots 0 1\ntuple 3 0 1 1 1 2 1\nrow 1 0 1\n\
row 1 1 1\ncover 1 0 1\nsource 1 0 1\ndual 1 0 1\nblock 1 4 5\npivots 0 2 3 5\ntuple 1 1 1\n\
tuple 2 3 1 4 1\ntuple 3 0 1 3 1 6 1\ntuple 2 3 2 7 1\ntuple 3 2 1 5 1 8 1\nrow 1 0 1\n\
row 1 1 1\nrow 1 2 2\nrow 1 3 1\ncover 1 1 1\ncover 1 0 1\ncover 1 0 1\ncover 1 0 2\n\
cover 1 2 1\nvertex 6 1 0\nedges 2\nlift 1 0 1\nlift 1 0 1\nblock 0 2 1\npivots 0 1\n\
tuple 3 0 1 1 1 2 1\nrow 1 0 1\nrow 1 1 1\ncover 1 0 1\nsource 1 0 1\ndual 1 0 1\n\
block 1 4 5\npivots 0 1 3 5\ntuple 2 1 1 2 1\ntuple 1 4 1\ntuple 3 0 1 3 1 6 1\n\
tuple 2 1 1 7 1\ntuple 3 1 2 5 1 8 1\nrow 1 0 1\nrow 1 1 2\nrow 1 2 1\nrow 1 3 1\n\
cover 1 2 1\ncover 1 1 1\ncover 1 0 1\ncover 0\ncover 0\nvertex 5 1 0\nedges 2\nlift 1 0 1\n\
lift 1 0 1\nblock 0 2 1\npivots 0 1\ntuple 3 0 1 1 1 2 1\nrow 1 0 1\nrow 1 1 1\n\
cover 1 0 1\nsource 1 0 1\ndual 1 0 1\nblock 1 4 5\npivots 0 1 3 5\ntuple 3 0 1 1 1 2 1\n\
tuple 1 4 1\ntuple 3 0 1 3 1 6 1\ntuple 2 1 1 7 1\ntuple 4 0 2 1 2 5 1 8 1\nrow 1 1 2\n\
row 2 0 1 1 2\nrow 1 2 1\nrow 1 3 1\ncover 3 0 1 1 1 2 1\ncover 1 1 1\ncover 1 0 1\n\
cover 0\ncover 2 0 2 1 2\nvertex 4 1 0\nedges 2\nlift 1 0 1\nlift 1 0 1\nblock 0 2 1\n\
pivots 0 1\ntuple 3 0 1 1 1 2 1\nrow 1 0 1\nrow 1 1 1\ncover 1 0 1\nsource 1 0 1\n\
dual 1 0 1\nblock 1 4 5\npivots 0 1 3 4\ntuple 3 0 1 1 1 2 1\ntuple 2 4 1 5 1\n\
tuple 3 0 1 3 1 6 1\ntuple 3 1 1 4 1 7 1\ntuple 4 0 2 1 2 4 2 8 1\nrow 1 1 2\n\
row 2 0 1 1 2\nrow 1 2 1\nrow 1 3 2\ncover 1 0 1\ncover 2 1 1 2 1\ncover 1 0 1\n\
cover 1 1 1\ncover 2 0 2 1 2\nvertex 3 2 0 1\nedges 4\nlift 1 0 1\nlift 0\nlift 1 0 1\n\
lift 0\nlift 1 0 1\nlift 1 0 1\nlift 1 0 1\nlift 2 0 1 1 1\nblock 0 8 1\n\
pivots 0 1 2 3 4 5 6 7\ntuple 9 0 1 1 1 2 1 3 1 4 1 5 1 6 1 7 1 8 1\nrow 2 0 1 8 1\n\
row 4 0 1 1 2 2 1 8 1\nrow 6 0 1 1 2 2 1 3 2 4 1 8 1\nrow 2 6 1 8 1\nrow 1 8 1\n\
row 3 0 1 1 2 8 1\nrow 5 0 1 1 2 2 1 3 2 8 1\nrow 7 0 1 1 2 2 1 3 2 4 1 5 2 8 1\n\
cover 1 0 1\nsource 1 0 1\ndual 1 0 1\nblock 1 20 7\n\
pivots 0 1 2 3 4 5 6 7 8 9 10 11 12 13 15 16 18 20 21 23\ntuple 5 0 1 11 1 12 1 13 1 14 1\n\
tuple 5 1 1 2 1 5 1 16 1 17 1\ntuple 3 4 1 7 1 19 1\ntuple 5 6 1 9 1 10 1 21 1 22 1\n\
tuple 9 0 1 3 1 6 1 9 1 12 1 15 1 18 1 21 1 24 1\ntuple 7 1 1 6 2 9 2 13 1 16 1 21 2 25 1\n\
tuple 9 0 2 1 2 8 1 12 2 13 2 16 2 20 1 23 1 26 1\nrow 2 0 1 17 2\nrow 4 1 2 3 1 16 1 17 2\n\
row 1 3 1\nrow 2 4 1 18 1\nrow 1 7 1\nrow 1 5 1\nrow 5 10 1 12 2 14 2 15 1 16 2\nrow 1 8 1\n\
row 2 9 1 21 1\nrow 3 12 2 15 1 16 2\nrow 1 15 1\nrow 1 13 1\nrow 1 17 2\nrow 2 16 1 17 2\n\
row 1 18 1\nrow 5 1 2 2 2 3 1 16 1 17 2\nrow 3 4 1 6 2 18 1\nrow 1 21 1\n\
row 4 12 2 14 2 15 1 16 2\nrow 3 9 1 11 2 21 1\ncover 2 0 1 3 2\ncover 3 0 2 2 1 3 1\n\
cover 3 0 1 1 1 3 2\ncover 1 3 1\ncover 1 0 1\ncover 1 0 2\ncover 0\nsource 1 3 1\n\
dual 3 0 1 2 2 4 1\nvertex 2 1 0\nedges 3\nlift 1 0 1\nlift 1 0 1\nlift 1 0 1\nblock 0 6 1\n\
pivots 0 1 2 3 4 5\ntuple 7 0 1 1 1 2 1 3 1 4 1 5 1 6 1\nrow 2 0 1 6 1\n\
row 4 0 1 1 2 2 1 6 1\nrow 2 4 1 6 1\nrow 1 6 1\nrow 3 0 1 1 2 6 1\n\
row 5 0 1 1 2 2 1 3 2 6 1\ncover 1 0 1\nsource 1 0 1\ndual 1 0 1\nblock 1 15 6\n\
pivots 0 1 2 3 4 5 6 7 8 9 10 12 14 15 17\ntuple 7 0 1 1 1 2 1 8 1 9 1 10 1 11 1\n\
tuple 3 1 1 4 1 13 1\ntuple 5 3 1 6 1 7 1 15 1 16 1\n\
tuple 7 0 1 3 1 6 1 9 1 12 1 15 1 18 1\ntuple 5 3 2 6 2 10 1 15 2 19 1\n\
tuple 8 0 2 1 2 5 1 9 2 10 2 14 1 17 1 20 1\nrow 2 0 1 13 2\nrow 4 0 1 2 1 13 2 14 2\n\
row 1 1 1\nrow 5 6 1 8 2 10 2 11 1 12 2\nrow 1 4 1\nrow 6 0 2 1 1 3 2 5 1 13 1 14 1\n\
row 3 8 2 11 1 12 2\nrow 1 11 1\nrow 1 9 1\nrow 1 13 2\nrow 2 12 1 13 2\nrow 1 14 1\n\
row 5 0 2 1 1 3 2 13 1 14 1\nrow 4 8 2 10 2 11 1 12 2\nrow 7 0 2 1 1 3 2 5 1 7 2 13 1 14 1\n\
cover 2 1 1 2 1\ncover 1 1 1\ncover 1 0 1\ncover 1 0 1\ncover 1 0 2\ncover 1 1 2\n\
vertex 1 1 0\nedges 3\nlift 1 0 1\nlift 1 0 1\nlift 1 0 1\nblock 0 6 1\npivots 0 1 2 3 4 5\n\
tuple 7 0 1 1 1 2 1 3 1 4 1 5 1 6 1\nrow 2 0 1 6 1\nrow 2 2 1 6 1\nrow 4 0 1 1 2 4 1 6 1\n\
row 1 6 1\nrow 3 0 1 1 2 6 1\nrow 3 2 1 3 2 6 1\ncover 1 0 1\nsource 1 0 1\ndual 1 0 1\n\
block 1 15 6\npivots 0 1 2 3 4 5 6 7 8 9 10 12 13 15 17\n\
tuple 7 0 1 3 1 4 1 5 1 9 1 10 1 11 1\ntuple 5 1 1 2 1 8 1 13 1 14 1\ntuple 3 4 1 7 1 16 1\n\
tuple 7 0 1 3 1 6 1 9 1 12 1 15 1 18 1\ntuple 4 1 1 10 1 13 1 19 1\n\
tuple 9 0 2 1 2 3 2 4 2 9 2 10 2 13 2 17 1 20 1\nrow 2 0 1 13 2\nrow 4 1 2 3 1 12 1 13 2\n\
row 1 3 1\nrow 2 4 1 13 2\nrow 6 4 1 6 1 8 2 10 1 13 2 14 2\nrow 1 5 1\nrow 2 8 1 14 1\n\
row 1 11 1\nrow 1 9 1\nrow 1 13 2\nrow 2 12 1 13 2\nrow 1 14 1\n\
row 5 1 2 2 2 3 1 12 1 13 2\nrow 3 8 1 10 2 14 1\nrow 7 4 2 5 1 7 2 8 1 10 2 13 1 14 1\n\
cover 2 0 1 1 1\ncover 1 2 1\ncover 1 1 1\ncover 1 0 1\ncover 0\ncover 2 0 2 1 2\n\
vertex 0 2 0 1\nedges 5\nlift 1 0 1\nlift 0\nlift 1 0 1\nlift 1 0 1\nlift 1 0 1\n\
lift 1 3 1\nlift 1 0 1\nlift 0\nlift 1 0 1\nlift 2 0 1 1 1\nblock 0 12 1\n\
pivots 0 1 2 3 4 5 6 7 8 9 10 11\n\
tuple 13 0 1 1 1 2 1 3 1 4 1 5 1 6 1 7 1 8 1 9 1 10 1 11 1 12 1\nrow 3 0 1 10 1 20 1\n\
row 5 0 1 1 2 3 1 10 1 20 1\nrow 3 6 1 10 1 20 1\nrow 2 10 1 20 1\nrow 4 0 1 1 2 10 1 20 1\n\
row 4 0 1 2 2 10 1 20 1\nrow 6 0 1 1 2 3 1 4 2 10 1 20 1\nrow 6 0 1 1 2 3 1 5 2 10 1 20 1\n\
row 1 20 1\nrow 3 10 1 11 2 20 1\nrow 5 0 1 1 2 10 1 13 2 20 1\n\
row 7 0 1 1 2 3 1 4 2 10 1 17 2 20 1\ncover 1 0 1\nsource 1 0 1\ndual 1 0 1\nblock 1 33 7\n\
pivots 0 1 2 3 4 5 6 7 8 9 10 11 12 13 14 15 16 17 18 19 20 21 22 23 24 25 26 28 29 31 33 34 36\n\
tuple 14 0 1 1 1 4 1 5 1 6 1 9 2 10 1 13 1 14 1 15 1 24 1 25 1 26 1 27 1\n\
tuple 9 2 1 6 2 8 1 9 1 11 1 12 1 18 1 29 1 30 1\n\
tuple 9 1 1 4 1 6 1 7 1 9 2 14 1 17 1 20 1 32 1\ntuple 7 3 1 9 1 19 1 22 1 23 1 34 1 35 1\n\
tuple 13 0 1 3 1 6 1 10 1 13 1 16 1 19 1 22 1 25 1 28 1 31 1 34 1 37 1\n\
tuple 9 3 2 6 2 11 1 19 2 22 2 26 1 29 1 34 2 38 1\n\
tuple 14 0 2 1 2 4 2 10 2 11 2 13 2 14 2 21 1 25 2 26 2 29 2 33 1 36 1 39 1\n\
row 3 0 1 20 1 41 2\nrow 9 0 1 2 2 3 1 20 1 26 1 28 2 30 1 41 2 42 2\nrow 2 1 1 23 1\n\
row 12 7 2 8 1 11 1 12 2 13 1 16 2 19 2 20 1 21 1 25 2 39 1 40 2\n\
row 9 0 1 2 2 6 1 20 1 26 1 28 2 30 1 41 2 42 2\nrow 2 7 1 25 1\n\
row 11 2 2 3 1 4 2 12 2 14 1 20 1 21 1 23 2 26 1 30 1 40 2\n\
row 6 2 2 3 1 4 2 14 1 26 1 30 1\nrow 2 13 1 23 1\n\
row 13 2 1 3 2 4 1 7 2 11 1 13 1 14 2 19 2 23 1 25 2 26 2 30 2 39 1\nrow 2 20 1 41 2\n\
row 4 21 2 23 1 40 1 41 2\nrow 1 23 1\nrow 4 0 1 2 2 20 1 41 2\n\
row 8 0 1 2 2 20 1 26 1 28 2 30 1 41 2 42 2\nrow 1 25 1\nrow 2 28 1 42 1\n\
row 5 2 2 3 1 4 2 26 1 30 1\nrow 3 1 1 5 2 23 1\n\
row 11 7 2 11 1 12 2 13 1 16 2 19 2 20 1 21 1 25 2 39 1 40 2\n\
row 7 2 2 3 1 4 2 14 1 17 2 26 1 30 1\n\
row 13 0 2 3 1 4 2 6 2 7 1 9 2 14 1 17 2 20 2 25 1 28 1 41 1 42 1\n\
row 13 7 2 8 1 10 2 11 1 12 2 13 1 16 2 19 2 20 1 21 1 25 2 39 1 40 2\nrow 1 39 1\n\
row 3 7 1 11 2 25 1\nrow 1 41 2\nrow 2 40 1 41 2\nrow 1 42 1\n\
row 5 21 2 22 2 23 1 40 1 41 2\nrow 3 28 1 30 2 42 1\n\
row 9 0 2 2 1 20 2 25 1 27 2 28 1 30 2 41 1 42 1\n\
row 12 7 2 11 1 12 2 13 1 16 2 19 2 20 1 21 1 25 2 34 2 39 1 40 2\n\
row 14 0 2 3 1 4 2 6 2 7 1 9 2 14 1 17 2 20 2 25 1 28 1 35 2 41 1 42 1\n\
cover 3 0 1 1 1 3 2\ncover 3 0 2 2 1 3 1\ncover 3 0 1 1 1 3 2\ncover 1 3 1\ncover 1 0 1\n\
cover 1 0 2\ncover 1 1 2\nsource 1 3 1\ndual 2 2 1 4 2\nend\n";
