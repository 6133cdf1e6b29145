ghost use Rattle.std.specs.Prelude.{◌≡◌, ◌-◌, IfOk, option_map, slice_get};
ghost use Rattle.build_leader.specs.IndexRow.{index_kinds};
ghost use Rattle.build_leader.specs.Outcome.{order_of_index};

use opclass::{ColType, IndexSpec, Kinds, SortPart, SortSpec, Table};
use pg_bytes::Items;
use std::alloc::{AllocError, Global};

/// How the rows of an index are sorted: by its key columns.
pub(crate) fn order_of(alloc: Global, spec: &IndexSpec) -> Result<SortSpec, AllocError>
    ensures { IfOk result (λ order. order ≡ order_of_index spec.now) }
{
    let mut parts = Vec::new(alloc);
    for key in spec.keys.as_slice() {
        parts.push(SortPart {
            descending: key.descending,
            nulls_first: key.nulls_first,
        })?;
    }
    Ok(Items::from_vec(parts))
}

/// The types of an index's columns, the keys first.
pub(crate) fn kinds_of(alloc: Global, table: &Table, spec: &IndexSpec) -> Result<Kinds, AllocError>
    ensures { IfOk result (λ kinds. kinds ≡ index_kinds table.now spec.now) }
{
    let keys = spec.keys.as_slice().iter().map(|key| key.column);
    let includes = spec.includes.as_slice().iter().copied();
    let kinds: Vec<ColType> = keys
        .chain(includes)
        .filter_map(|number| kind_of(table, number))
        .collect(alloc)?;
    Ok(Items::from_vec(kinds))
}

// The type of a column. Columns are numbered from 1.
fn kind_of(table: &Table, number: u16) -> Option<ColType>
    ensures { result ≡ option_map (λ column. column.kind)
        (slice_get table.now.columns (number - 1)) }
{
    let place = usize::from(number.saturating_sub(1));
    let column = table.columns.as_slice().get(place)?;
    Some(column.kind)
}
