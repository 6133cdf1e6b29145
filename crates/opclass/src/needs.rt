ghost use Rattle.std.specs.Prelude.{◌≡◌, IfOk};
ghost use Rattle.opclass.specs.Needed.{EachNamedOnce, named_columns};

use crate::spec::IndexSpec;
use crate::table::Columns;
use pg_bytes::Items;
use std::alloc::{AllocError, Global};

/// The columns of the table that an index needs, ascending and each once: those of its keys, its
/// INCLUDE columns and those that WHERE names.
pub fn needed(alloc: Global, spec: &IndexSpec) -> Result<Columns, AllocError>
    ensures { IfOk result (EachNamedOnce spec.now) }
{
    let mut columns = named(alloc, spec)?;
    columns.sort_unstable();
    columns.dedup();
    Ok(Items::from_vec(columns))
}

// The columns as the index names them.
fn named(alloc: Global, spec: &IndexSpec) -> Result<Vec<u16>, AllocError>
    ensures { IfOk result (λ columns. columns.items ≡ named_columns spec.now) }
{
    let mut columns: Vec<u16> = spec
        .keys
        .as_slice()
        .iter()
        .map(|key| key.column)
        .collect(alloc)?;
    let conditions: Vec<u16> = spec
        .filter
        .as_slice()
        .iter()
        .map(|cond| cond.column)
        .collect(alloc)?;
    columns.extend_from_slice(spec.includes.as_slice())?;
    columns.extend_from_slice(&conditions)?;
    Ok(columns)
}
