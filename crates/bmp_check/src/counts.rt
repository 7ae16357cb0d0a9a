//! How many coordinates stalks and boundaries have, from the degrees in the text.
ghost use Rattle.std.specs.Prelude.{◌≡◌, ◌+◌, ◌-◌, ◌*◌, ◌^◌, ◌<◌, ◌≤◌, length};
ghost use Rattle.bmp_graph.specs.Graph.{vertex_count};
ghost use Rattle.bmp_sheaf.specs.Coordinates.{stalk_count, boundary_count};
ghost use Rattle.bmp_check.specs.PartsSheaf.{parts_sheaf};
ghost use Rattle.bmp_check.specs.SizeLists.{MOST_SIZE};
ghost use Rattle.bmp_check.specs.ShapedViews.{written_in};

use crate::given::Given;
use crate::part::part_of;
use bmp_cert::Degrees;
use bmp_graph::MomentGraph;
use bmp_module::free;

/// How many coordinates of degree `d` a free module in `rank` variables with generators of these degrees has.
pub(crate) fn stalk_size(rank: u8, degrees: &Degrees, d: u32) -> u64
    requires rank { rank ≤ 6 }
    requires degree { d ≤ 6 }
    ensures number { result ≡ stalk_count rank degrees.now d }
    ensures small { result ≤ MOST_SIZE }
    ensures smaller { rank ≤ 5 → result ≤ 255 * 2 ^ 32 }
{
    let items = degrees.as_slice();
    free::dimension(rank, items, d)
}

/// How many coordinates of degree `d` a boundary at the vertex has.
pub(crate) fn boundary_size(graph: &MomentGraph, c: &Given, x: u32, d: u32) -> u64
    requires vertices { length c.now.parts.now ≡ vertex_count graph.now }
    requires few { vertex_count graph.now ≤ 4096 }
    requires vertex { x < vertex_count graph.now }
    requires degree { d ≤ 6 }
    ensures number { result ≡ boundary_count graph.now (parts_sheaf graph.now (written_in c.now)) x d }
    ensures small { result ≤ MOST_SIZE }
{
    let rank = graph.rank() - 1;
    let (from, to) = graph.up(x);
    let mut size = 0;
    'edges: for e in from..to {
        let upper = part_of(c, graph.edge(e).upper);
        size += stalk_size(rank, &upper.degrees, d);
    }
    size
}
