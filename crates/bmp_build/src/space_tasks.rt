//! The tasks of one length by whole spaces of sections.
ghost use Rattle.std.specs.Prelude.{◌+◌};
ghost use Rattle.bmp_build.specs.WholeSpaces.{IsWholePart};
ghost use Rattle.bmp_build.specs.Tasks.{above_number, IsOpen, IsMadeUpon};

use crate::held::read_part;
use crate::tasks::MadeStalk;
use crate::whole_stalk::build_whole_stalk;
use bmp_field::Field;
use bmp_par::Task;
use bmp_sheaf::Sheaf;
use std::alloc::{AllocError, Global};

/// The vertices of one length, from `low` on and `count` in number, whose stalks are built for the whole spaces of
/// sections. The sheaf has stalks at them and at all greater vertices; those at vertices of this length are not read.
#[derive(Drop)]
pub(crate) struct SpaceTasks<'a, F: Field> {
    pub(crate) alloc: Global,
    pub(crate) sheaf: &'a Sheaf<F>,
    pub(crate) low: u32,
    pub(crate) count: u32,
    pub(crate) ghost opened: { IsOpen sheaf.now low count },
}

impl<'a, F: Field + Drop + Send + Sync> Task for SpaceTasks<'a, F> {
    type Out = MadeStalk<F>;

    ghost gives = { λ t i out. IsMadeUpon IsWholePart (above_number t.sheaf.now (t.low + i)) out };

    fn run(&self, i: u32) -> Result<MadeStalk<F>, AllocError> {
        if i >= self.count {
            return Err(AllocError);
        }
        let longer = self.sheaf.pushed() - 1 - i;
        let above = self.sheaf.first(longer)?;
        let mut sheaf = self.sheaf.first(longer)?;
        let part = build_whole_stalk(self.alloc, &above, &mut sheaf)?;
        read_part(&part);
        Ok(MadeStalk { sheaf, part })
    }
}
