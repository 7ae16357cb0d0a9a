//! Where the coordinates of generators stand.
ghost use Rattle.std.specs.Prelude.{◌≡◌, ◌+◌, ◌^◌, ◌<◌, ◌≤◌, length};
ghost use Rattle.bmp_module.specs.FreeModules.{rank_of, degrees_of};
ghost use Rattle.bmp_sheaf.specs.Coordinates.{stalk_start, stalk_count};

use bmp_module::Free;

/// Where the coordinates of degree `d` of the generator after `g` start, if those of `g` start at `start`.
pub(crate) fn next_start(module: &Free, d: u32, g: u32, start: u32) -> u32
    requires degree { d ≤ 6 }
    requires generator { g < length (degrees_of module.now) }
    requires few { stalk_count (rank_of module.now) (degrees_of module.now) d < 2 ^ 32 }
    requires start { start ≡ stalk_start (rank_of module.now) (degrees_of module.now) d g }
    ensures { result ≡ stalk_start (rank_of module.now) (degrees_of module.now) d (g + 1) }
{
    let own = module.coordinates_of(g, d);
    start + own
}
