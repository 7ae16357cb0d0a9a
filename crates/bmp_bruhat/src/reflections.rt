//! The reflections of the positive roots.
ghost use Rattle.std.specs.Prelude.{◌≡◌, ◌<◌, ◌≤◌, length, IfOk};
ghost use Rattle.bmp_roots.specs.RootSystems.{positives};
ghost use Rattle.bmp_bruhat.specs.Building.{HasReflections};

use bmp_roots::Roots;
use bmp_weyl::Elem;
use std::alloc::{AllocError, Global};

/// The reflections of all positive roots, by their numbers.
pub fn reflections(alloc: Global, roots: &Roots) -> Result<Vec<Elem>, AllocError>
    ensures { IfOk result (λ all. HasReflections roots.now (length (positives roots.now)) all.items) }
{
    let mut reflections = Vec::with_capacity(alloc, roots.positive() as usize)?;
    for i in 0..roots.positive() {
        reflections.push(Elem::reflection(roots, i))?;
    }
    Ok(reflections)
}
