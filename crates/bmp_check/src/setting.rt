//! What all blocks share.
ghost use Rattle.std.specs.Prelude.{◌≡◌, ◌+◌, ◌<◌, IfOk, length, slice_index_or};
ghost use Rattle.bmp_check.specs.declared.method.Method.TheVariants.{Levels};
ghost use Rattle.bmp_check.specs.Settings.{no_family, AreFamilies, shaped_in, IsSet};
ghost use Rattle.bmp_check.specs.ShapedViews.{graph_in, method_at, cert_in, IsWhole};
ghost use Rattle.bmp_check.specs.Verdicts.{TopPasses};

use crate::degree_blocks::DegreeBlocks;
use crate::method::Method;
use crate::shaped::Shaped;
use bmp_levels::Family;
use std::alloc::{AllocError, Global};

/// Parts whose sizes all pass, and with evidence by levels the families that it is about: for each degree one over all
/// vertices, whose first members are the family of each level. All blocks read it, and nothing changes it.
#[derive(Drop)]
pub struct Setting<'a> {
    pub(crate) shaped: Shaped<'a>,
    pub(crate) families: Vec<Family>,
}

/// The families of all degrees.
fn families_of(alloc: Global, s: &Shaped) -> Result<Vec<Family>, AllocError>
    requires whole { IsWhole s.now }
    requires levels { method_at s.now ≡ Levels }
    requires top { TopPasses (graph_in s.now) (cert_in s.now) }
    ensures { IfOk result
        (λ families. AreFamilies (graph_in s.now) (cert_in s.now) ((cert_in s.now).degree + 1) families.items) }
{
    let given = *s.given();
    let mut families = Vec::new(alloc);
    'degrees: for degree in 0..given.degree + 1 {
        let blocks = DegreeBlocks { given, degree };
        families.push(Family::of_blocks(alloc, s.sheaf(), degree, &blocks)?)?;
    }
    Ok(families)
}

impl<'a> Setting<'a> {
    /// Shaped parts whose greatest vertex passes, with their families.
    pub fn of(alloc: Global, shaped: Shaped<'a>) -> Result<Setting<'a>, AllocError>
        requires whole { IsWhole shaped }
        requires top { TopPasses (graph_in shaped) (cert_in shaped) }
        ensures set { IfOk result IsSet }
        ensures shaped { IfOk result (λ s. shaped_in s ≡ shaped.entry) }
    {
        let families = match shaped.given().method() {
            Method::Spaces => Vec::new(alloc),
            Method::Levels => families_of(alloc, &shaped)?,
        };
        Ok(Setting { shaped, families })
    }

    /// The parts.
    pub fn shaped(&self) -> &Shaped<'a>
        ensures { result.now ≡ shaped_in self.now }
    {
        &self.shaped
    }

    /// The family of a degree, by levels.
    pub(crate) fn family(&self, d: u32) -> &Family
        requires { d < length self.now.families.items }
        ensures { result.now ≡ slice_index_or self.now.families.items d no_family }
    {
        &self.families[d as usize]
    }
}
