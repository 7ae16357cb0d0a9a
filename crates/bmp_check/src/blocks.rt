//! Blocks by number: the order in which they are checked.
ghost use Rattle.std.specs.Prelude.{◌≡◌, ◌+◌, ◌<◌, ◌≤◌};
ghost use Rattle.bmp_check.specs.BlockOrder.{block_count, block_vertex, block_degree};

/// How many blocks there are: one for each vertex but the greatest, and each degree.
pub fn block_count(vertices: u32, degree: u32) -> u32
    requires some { 1 ≤ vertices }
    requires vertices { vertices ≤ 4096 }
    requires degree { degree ≤ 6 }
    ensures count { result ≡ block_count vertices degree }
    ensures few { result ≤ 28665 }
{
    (vertices - 1) * (degree + 1)
}

/// The vertex and the degree of the block number `i`. Blocks go by falling vertex, and then by rising degree.
pub fn block_at(vertices: u32, degree: u32, i: u32) -> (u32, u32)
    requires vertices { vertices ≤ 4096 }
    requires degree { degree ≤ 6 }
    requires block { i < block_count vertices degree }
    ensures vertex { result.0 ≡ block_vertex vertices degree i }
    ensures degree { result.1 ≡ block_degree degree i }
    ensures within { (result.0 + 1 < vertices) × (result.1 ≤ degree) }
{
    (vertices - 2 - i / (degree + 1), i % (degree + 1))
}
