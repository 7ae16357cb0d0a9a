//! The laws of Bruhat moment graphs, for every interval.
ghost use Rattle.bmp_bruhat.specs.Laws.{EdgeIsUnique, LabelIsNotZero, ReflectionIsEdge, GraphIsOne};

/// Two vertices have at most one edge.
pub fn edge_is_unique()
    ensures { EdgeIsUnique }
{}

/// No root is zero modulo a number from 2 on.
pub fn label_is_not_zero()
    ensures { LabelIsNotZero }
{}

/// Where a reflection leads from a vertex to a vertex, an edge joins them.
pub fn reflection_is_edge()
    ensures { ReflectionIsEdge }
{}

/// The vertices of an interval have one graph, whatever the order in which the positive roots are listed.
pub fn graph_is_one()
    ensures { GraphIsOne }
{}
