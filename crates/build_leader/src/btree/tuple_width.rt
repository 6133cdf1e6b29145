//! Which rows are too large for a B-tree (`_bt_check_third_page` of `nbtutils.c`).

ghost use Rattle.std.specs.Prelude.{◌<◌, ◌≤◌, ◌^◌, IfErr, OnOk};
ghost use Rattle.btree_item.specs.Tuple.{size_of};
ghost use Rattle.build_leader.specs.IndexRow.{most_tuple};
ghost use Rattle.build_leader.specs.Reader.{IsTupleFault};

use crate::scan::{WidthCause, refusal};
use btree_item::size_of;
use heap_row::RowFault;
use opclass::{KeyList, Kinds};

/// The most bytes of a B-tree's tuple (`BTMaxItemSize` of `nbtree.h`).
const MOST_TUPLE: u64 = 2704;

/// Refuses the values of a row's columns whose tuple is too large.
pub(crate) fn check_tuple(kinds: &Kinds, values: &KeyList) -> Result<(), RowFault>
    requires { size_of kinds.now values.now < 2 ^ 63 }
    ensures refused { IfErr result (IsTupleFault kinds.now values.now) }
    ensures narrow { OnOk result (size_of kinds.now values.now ≤ most_tuple) }
{
    if size_of(kinds, values) > MOST_TUPLE {
        Err(refusal(WidthCause::Tuple))
    } else {
        Ok(())
    }
}
