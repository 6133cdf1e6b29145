ghost use Rattle.std.specs.Prelude.{◌≡◌, ◌+◌, ◌*◌, ◌<◌, ◌≤◌, ◌^◌, ◌++◌, ◌∷◌, ◌&&◌, [], IfOk, IfSome, OnOk, None, length, nat_le, nat_lt};
ghost use Rattle.btree_item.specs.Tuple.{size_of};
ghost use Rattle.btree_pack.specs.Groups.{posting_size};
ghost use Rattle.btree_pack.specs.Nodes.{shares_tuples};
ghost use Rattle.btree_pack.specs.Pass.Grouped.{HasRoom, IsGroupOf, group_image};
ghost use Rattle.btree_pack.specs.Pass.Put.{AreColumnsOf};
ghost use Rattle.btree_pack.specs.Pass.Taken.{HasBegun, HasTaken, HasTakenLast, IsDone, IsOfOneIndex, IsReady, IsRowOf, row_of};

use crate::row_group::RowGroup;
use btree_item::{size_of, truncate};
use opclass::{IndexSpec, KeyList, Kinds};
use pg_bytes::{RowPtr, al8};
use shared_tape::Record;
use std::alloc::{AllocError, Global};
use std::mem;

// The most bytes of a tuple with a list of row pointers (`maxpostingsize` of `nbtsort.c`).
const POSTING_LIMIT: u64 = 812;

/// Joins rows with equal keys, and writes the tuples of the groups: the group that another row may
/// still join (`BTDedupState` of `nbtree.h`).
#[derive(Debug, Drop)]
pub struct Grouper {
    pub alloc: Global,
    pub kinds: Kinds,
    pub keys: usize,
    pub shares: bool,
    pub pending: Option<RowGroup>,
    // Values that no group has any more, for their memory.
    pub spare: KeyList,
    pub ptrs: Vec<RowPtr>,
    // The tuple of the group that was done last.
    pub tuple: Vec<u8>,
}

impl Grouper {
    /// No rows, for an index with these columns, the keys first.
    pub fn new(alloc: Global, spec: &IndexSpec, kinds: Kinds) -> Grouper
        requires { AreColumnsOf spec.now kinds }
        ensures ready { IsReady result }
        ensures pending { result.pending ≡ None }
        ensures kinds { result.kinds ≡ kinds }
        ensures keys { result.keys ≡ length spec.now.keys }
        ensures shares { result.shares ≡ shares_tuples spec.now }
    {
        Grouper {
            alloc,
            keys: spec.keys.len(),
            kinds,
            shares: may_share(spec),
            pending: None,
            spare: KeyList::new(alloc),
            ptrs: Vec::new(alloc),
            tuple: Vec::new(alloc),
        }
    }

    /// Takes one row more. Where it doesn't join the group of the last one, that is done: it is
    /// given back, and its tuple is written. The record's values are others then, whose memory the
    /// next row can have.
    pub fn take(&mut self, row: &mut Record) -> Result<Option<RowGroup>, AllocError>
        requires ready { IsReady self.old }
        requires row { IsRowOf self.old.kinds self.old.keys (row_of row.old) }
        ensures ready { OnOk result (IsReady self.new) }
        ensures same { OnOk result (IsOfOneIndex self.old self.new) }
        ensures done { IfOk result (λ over. IfSome over (IsDone self.new)) }
        ensures taken { IfOk result (HasTaken self.old self.new (row_of row.old)) }
    {
        let ptr = row.ptr;
        let mut values = mem::replace(&mut self.spare, KeyList::new(self.alloc));
        exchange(row, &mut values)?;
        let Some(group) = self.pending.take() else {
            self.begin(values, ptr, 0, None)?;
            return Ok(None);
        };
        let kept = truncate(&group.values, &values);
        if self.joins(&group, kept) {
            self.ptrs.push(ptr)?;
            self.pending = Some(group);
            self.spare = values;
            return Ok(None);
        }
        self.write(&group)?;
        if usize::from(kept) > self.keys {
            let last = self.ptrs[self.ptrs.len() - 1];
            self.begin(values, ptr, self.keys as u16, Some(last))?;
            return Ok(Some(group));
        }
        self.begin(values, ptr, kept, None)?;
        Ok(Some(group))
    }

    /// The group of the last row, whose tuple is written then: no row joins it any more. None comes
    /// where no rows were taken.
    pub fn take_last(&mut self) -> Result<Option<RowGroup>, AllocError>
        requires ready { IsReady self.old }
        ensures ready { OnOk result (IsReady self.new) }
        ensures same { OnOk result (IsOfOneIndex self.old self.new) }
        ensures done { IfOk result (λ over. IfSome over (IsDone self.new)) }
        ensures taken { IfOk result (HasTakenLast self.old self.new) }
    {
        let Some(group) = self.pending.take() else {
            return Ok(None);
        };
        self.write(&group)?;
        Ok(Some(group))
    }

    // Whether a row joins a group, of whose values a separator would keep so many.
    fn joins(&self, group: &RowGroup, kept: u16) -> bool
        requires small { group.now.size ≤ 2704 }
        requires few { length self.now.ptrs.items < 2 ^ 32 }
        ensures { result ≡ (self.now.shares && (nat_lt self.now.keys kept
            && nat_le (posting_size group.now.size (length self.now.ptrs.items + 1)) 812)) }
    {
        let size = al8(group.size + 6 * (self.ptrs.len() as u64 + 1));
        self.shares && usize::from(kept) > self.keys && size <= POSTING_LIMIT
    }

    // A row begins a group.
    fn begin(
        &mut self,
        values: KeyList,
        ptr: RowPtr,
        kept: u16,
        pointer: Option<RowPtr>,
    ) -> Result<(), AllocError>
        requires { size_of self.old.kinds values ≤ 2704 }
        ensures { OnOk result (HasBegun self.old self.new values ptr kept pointer) }
    {
        self.ptrs.clear();
        self.ptrs.push(ptr)?;
        let size = size_of(&self.kinds, &values);
        self.pending = Some(RowGroup {
            values,
            size,
            kept,
            pointer,
        });
        Ok(())
    }

    // Writes the tuple of a group, whose rows have the row pointers that are kept.
    fn write(&mut self, group: &RowGroup) -> Result<(), AllocError>
        requires group { IsGroupOf self.old.kinds self.old.keys group.now }
        requires some { 0 < length self.old.ptrs.items }
        requires room { HasRoom self.old.kinds self.old.keys group.now
            (length self.old.ptrs.items) }
        ensures tuple { OnOk result (self.new.tuple.items
            ≡ group_image self.old.kinds self.old.keys group.now self.old.ptrs.items) }
        ensures done { OnOk result (IsDone self.new group.now) }
        ensures others { OnOk result (self.new ≡ record self.old { tuple = self.new.tuple }) }
    {
        self.tuple.clear();
        group.put_tuple(
            &mut self.tuple,
            self.kinds.as_slice(),
            self.keys,
            &self.ptrs,
        )
    }
}

// Whether rows of one key share tuples (`_bt_allequalimage` and `BTGetDeduplicateItems`).
fn may_share(spec: &IndexSpec) -> bool
    ensures { result ≡ shares_tuples spec.now }
{
    spec.deduplicate && (!spec.unique && spec.includes.len() == 0)
}

// Gives a record's values, in exchange for others whose memory it can have.
fn exchange(row: &mut Record, values: &mut KeyList) -> Result<(), AllocError>
    ensures { OnOk result (values.new ≡ row.old.keys ++ row.old.extra) }
{
    mem::swap(&mut row.keys, values);
    if row.extra.len() == 0 {
        return Ok(());
    }
    let keys = values.len();
    append(values, &mut row.extra)?;
    split(row, keys);
    Ok(())
}

// Puts values behind others.
fn append(values: &mut KeyList, extra: &mut KeyList) -> Result<(), AllocError>
    ensures { OnOk result (values.new ≡ values.old ++ extra.old) }
{
    let Some(last) = extra.pop() else {
        return Ok(());
    };
    append(values, extra)?;
    match values.push(last) {
        Ok(()) => Ok(()),
        Err(_) => Err(AllocError),
    }
}

// Moves the keys past so many to the other values, for their memory.
fn split(row: &mut Record, keys: usize) {
    for _ in keys..row.keys.len() {
        if let Some(value) = row.keys.pop() {
            let _ = row.extra.push(value);
        }
    }
}
