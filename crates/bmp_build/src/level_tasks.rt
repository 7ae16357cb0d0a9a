//! The tasks of one length by levels.
ghost use Rattle.std.specs.Prelude.{◌≡◌, ℕ, ◌+◌, ◌<◌, length};
ghost use Rattle.bmp_stalk.specs.BuiltParts.{HaveMembers};
ghost use Rattle.bmp_build.specs.Tasks.{above_number, IsOpen, IsBuiltBy, IsMadeUpon};

use crate::held::read_part;
use crate::tasks::MadeStalk;
use bmp_field::Field;
use bmp_levels::Family;
use bmp_linear::RowSpace;
use bmp_par::Task;
use bmp_sheaf::Sheaf;
use bmp_stalk::build_stalk;
use std::alloc::{AllocError, Global};

/// The vertices of one length, from `low` on and `count` in number, whose stalks are built for the first `counts[d]`
/// members of `families[d]`, in rows that are kept as `rows` are. The sheaf has stalks at them and at all greater
/// vertices; those at vertices of this length are not read.
#[derive(Drop)]
pub(crate) struct LevelTasks<'a, F: Field, A: RowSpace<F>> {
    pub(crate) alloc: Global,
    pub(crate) sheaf: &'a Sheaf<F>,
    pub(crate) low: u32,
    pub(crate) count: u32,
    pub(crate) families: &'a [Family],
    pub(crate) counts: &'a [u32],
    pub(crate) rows: &'a A,
    pub(crate) ghost opened: { IsOpen sheaf.now low count },
    pub(crate) ghost families_are: { length families.now ≡ sheaf.now.degree + 1 },
    pub(crate) ghost counts_are: { length counts.now ≡ sheaf.now.degree + 1 },
    pub(crate) ghost members: { (i : ℕ) → i < count →
        HaveMembers (above_number sheaf.now (low + i)) families.now counts.now },
}

impl<'a, F: Field + Drop + Send + Sync, A: RowSpace<F> + Sync> Task for LevelTasks<'a, F, A> {
    type Out = MadeStalk<F>;

    ghost gives = { λ t i out.
        IsMadeUpon (IsBuiltBy t.families.now t.counts.now) (above_number t.sheaf.now (t.low + i)) out };

    fn run(&self, i: u32) -> Result<MadeStalk<F>, AllocError> {
        if i >= self.count {
            return Err(AllocError);
        }
        let longer = self.sheaf.pushed() - 1 - i;
        let mut sheaf = self.sheaf.first(longer)?;
        let part = build_stalk(
            self.alloc,
            &mut sheaf,
            self.families,
            self.counts,
            self.rows,
        )?;
        read_part(&part);
        Ok(MadeStalk { sheaf, part })
    }
}
