//! The laws of what lies above a vertex, for every graph.
ghost use Rattle.bmp_graph.specs.Laws.{EdgesRise, AboveIsTransitive, AboveIsHigher, AboveIsIrreflexive, AboveByEdges};

/// The upper end of an edge has the greater number.
pub fn edges_rise()
    ensures { EdgesRise }
{}

/// What is above a vertex above x is above x.
pub fn above_is_transitive()
    ensures { AboveIsTransitive }
{}

/// What is above x is a vertex with a greater number and a greater length.
pub fn above_is_higher()
    ensures { AboveIsHigher }
{}

/// No vertex is above itself.
pub fn above_is_irreflexive()
    ensures { AboveIsIrreflexive }
{}

/// A vertex is above x exactly where an edge leads from x to it, or to a vertex that it is above.
pub fn above_by_edges()
    ensures { AboveByEdges }
{}
