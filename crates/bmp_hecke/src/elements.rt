//! Products of elements with simple reflections, and sets of elements.
ghost use Rattle.std.specs.Prelude.{◌≡◌, ◌-◌, OnOk, OnErr};
ghost use Rattle.bmp_roots.specs.RootSystems.{matrix_of};
ghost use Rattle.bmp_weyl.specs.Elements.{IsElement, IsLetter};
ghost use Rattle.bmp_hecke.specs.Groups.{descends};
ghost use Rattle.bmp_weyl.specs.SimpleProducts.{identity_element, times_simple};
ghost use Rattle.bmp_hecke.specs.WeylGroups.{group_of};
ghost use Rattle.bmp_hecke.specs.ElementSets.{IsAdded};

use bmp_roots::Roots;
use bmp_weyl::Elem;
use indexmap::IndexSet;
use std::alloc::AllocError;

/// The identity.
pub fn identity(roots: &Roots) -> Elem
    ensures value { result ≡ identity_element (matrix_of roots.now) }
    ensures element { IsElement (matrix_of roots.now) result }
{
    Elem::identity(roots)
}

/// Whether the product with the simple reflection k, from 1, on the right is shorter.
pub fn is_descent(roots: &Roots, x: &Elem, k: u8) -> bool
    requires element { IsElement (matrix_of roots.now) x.now }
    requires letter { IsLetter (matrix_of roots.now).rank k }
    ensures { result ≡ descends (group_of roots.now) x.now (k - 1) }
{
    x.is_right_descent(roots, k)
}

/// Adds an element, unless the set has it.
pub fn add(set: &mut IndexSet<Elem>, e: Elem) -> Result<(), AllocError>
    ensures ok { OnOk result (IsAdded set.old.keys set.new.keys e) }
    ensures err { OnErr result (set.new.keys ≡ set.old.keys) }
{
    match set.insert_full(e) {
        Ok(_) => Ok(()),
        Err(_) => Err(AllocError),
    }
}
