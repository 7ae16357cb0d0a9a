//! A stalk that is built degree by degree, on top of a sheaf.
ghost use Rattle.std.specs.Prelude.{◌≡◌, ◌+◌, ◌<◌, ◌≤◌, All, OnOk, IfOk, length};
ghost use Rattle.bmp_linear.specs.SparseVectors.{ValuesBelow};
ghost use Rattle.bmp_graph.specs.Graph.{vertex_count};
ghost use Rattle.bmp_sheaf.specs.States.{no_stalk, next_vertex, with_stalk};
ghost use Rattle.bmp_sheaf.specs.StalkFaults.{IsStalk};
ghost use Rattle.bmp_cover.specs.CoverInputs.{HasStalks, HasTuples};
ghost use Rattle.bmp_stalk.specs.Blocks.{AreTuplesOf};
ghost use Rattle.bmp_stalk.specs.Drafts.{under, IsDrafted, GrowsBy};

use crate::growth::grown;
use bmp_cert::{Degrees, VertexPart};
use bmp_field::Field;
use bmp_linear::{Blocks, Places, Vectors};
use bmp_sections::Sections;
use bmp_sheaf::{Sheaf, SheafFault};
use std::alloc::{AllocError, Global};
use std::marker::Model;

/// The stalk so far: the degrees of its generators, and their lifts by edge going up and then by generator.
#[derive(Debug, Drop)]
pub struct Draft {
    pub(crate) degrees: Degrees,
    pub(crate) lifts: Vectors,
}

impl Model for Draft {
    ghost use Rattle.bmp_sheaf.specs.States.{Stalk};

    ghost Value = { Stalk };

    ghost view = { λ t. record { degrees = t.degrees; lifts = t.lifts } };
}

impl Draft {
    /// A stalk without generators. Takes no memory.
    fn new(alloc: Global) -> Draft
        ensures { result ≡ no_stalk }
    {
        Draft {
            degrees: Degrees::new(alloc),
            lifts: Vectors::new(alloc),
        }
    }

    /// The stalk as the part of a certificate, with so many edges going up and these blocks.
    pub fn into_part(self, edges: u32, blocks: Blocks) -> VertexPart
        ensures { result
            ≡ record { degrees = self.degrees; edges = edges; lifts = self.lifts; blocks = blocks } }
    {
        VertexPart {
            degrees: self.degrees,
            edges,
            lifts: self.lifts,
            blocks,
        }
    }
}

/// Adds the draft as the stalk at the next vertex. Since it is one, memory alone can be wanting.
fn push_draft<F: Field>(sheaf: &mut Sheaf<F>, draft: &Draft) -> Result<(), AllocError>
    requires left { length sheaf.old.stalks < vertex_count sheaf.old.graph }
    requires values { All (λ v. ValuesBelow v sheaf.old.graph.prime) draft.now.lifts }
    requires stalk { IsStalk sheaf.old (next_vertex sheaf.old) draft.now.degrees draft.now.lifts }
    ensures { OnOk result (sheaf.new ≡ with_stalk sheaf.old draft.now) }
{
    match sheaf.push_vertex(draft.degrees.as_slice(), draft.lifts.as_slice()) {
        Ok(()) => Ok(()),
        Err(SheafFault::Memory) => Err(AllocError),
        Err(_) => unreachable!(),
    }
}

/// Puts a stalk without generators at the next vertex of the sheaf, for its degrees to be built.
pub fn begin_stalk<F: Field>(alloc: Global, sheaf: &mut Sheaf<F>) -> Result<Draft, AllocError>
    requires { length sheaf.old.stalks < vertex_count sheaf.old.graph }
    ensures drafted { IfOk result (IsDrafted sheaf.new (next_vertex sheaf.old) 0) }
    ensures under { OnOk result (under sheaf.new ≡ sheaf.old) }
{
    let _ = sheaf.graph();
    let draft = Draft::new(alloc);
    push_draft(sheaf, &draft)?;
    Ok(draft)
}

/// The draft with a further generator of degree `d` for each chosen tuple, put in the place of the old one. Where none
/// is chosen nothing is done.
pub(crate) fn next_draft<F: Field, T: Sections>(
    alloc: Global,
    sheaf: &mut Sheaf<F>,
    x: u32,
    d: u32,
    tuples: &T,
    chosen: &Places,
    draft: Draft,
) -> Result<Draft, AllocError>
    requires degree { d ≤ sheaf.old.degree }
    requires drafted { IsDrafted sheaf.old x d draft }
    requires stalks { HasStalks sheaf.old x d }
    requires tuples { HasTuples (under sheaf.old) x d (T.list tuples.now) }
    requires chosen { AreTuplesOf (T.list tuples.now) chosen.now }
    ensures drafted { IfOk result (IsDrafted sheaf.new x (d + 1)) }
    ensures under { OnOk result (under sheaf.new ≡ under sheaf.old) }
    ensures grows { IfOk result (GrowsBy (under sheaf.old) x d (T.list tuples.now) chosen.now draft) }
{
    if chosen.len() == 0 {
        return Ok(draft);
    }
    let longer = grown(alloc, sheaf, x, d, tuples, chosen, &draft)?;
    sheaf.pop_vertex();
    push_draft(sheaf, &longer)?;
    Ok(longer)
}
