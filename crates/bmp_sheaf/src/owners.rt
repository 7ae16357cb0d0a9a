//! Lists of values that have several owners.
ghost use Rattle.std.specs.Prelude.{◌≡◌, ◌++◌, map, IfOk, OnOk};
ghost use Rattle.std.specs.Arc.{arc_value};

use std::alloc::{AllocError, Global};
use std::sync::Arc;

/// Appends further owners of the values.
pub(crate) fn add_owners<T: Drop>(
    list: &mut Vec<Arc<T, Global>>,
    values: &[Arc<T, Global>],
) -> Result<(), AllocError>
    ensures { OnOk result (map arc_value list.new.items ≡ map arc_value list.old.items ++ map arc_value values.now) }
{
    list.reserve(values.len())?;
    for value in values {
        list.push(Arc::try_clone(value)?)?;
    }
    Ok(())
}

/// Further owners of the values.
pub(crate) fn owners<T: Drop>(
    alloc: Global,
    values: &[Arc<T, Global>],
) -> Result<Vec<Arc<T, Global>>, AllocError>
    ensures { IfOk result (λ owners. map arc_value owners.items ≡ map arc_value values.now) }
{
    let mut owners = Vec::new(alloc);
    add_owners(&mut owners, values)?;
    Ok(owners)
}
