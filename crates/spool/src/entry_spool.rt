ghost use Rattle.std.specs.Prelude.{◌≡◌, ◌≤◌, ◌∷◌, [], IfOk, MatchOption, OnOk, length};
ghost use Rattle.std.specs.List.Sorted.{IsPermutation};
ghost use Rattle.opclass.specs.declared.value.KeyVal.{KeyVal};
ghost use Rattle.gin_entry.specs.Entries.{entry_of, number_of_category, placeholder};
ghost use Rattle.gin_entry.specs.EntryOrder.{category_column, columns_of, entry_order};
ghost use Rattle.shared_tape.specs.Runs.{records_of};
ghost use Rattle.shared_tape.specs.Stored.{IsStorable};
ghost use Rattle.spool.specs.Spools.{AreBoundedRuns};
ghost use Rattle.spool.specs.Gathers.{AreStorable, AreStorableEntries, element_records, entry_record, entry_records};
ghost use Rattle.spool.specs.Pass.{IsFresh, IsReady, Takes, at_row};

use crate::spool::Spool;
use gin_entry::{Category, distinct_elements};
use opclass::{Elem, KeyList, KeyVal, SortPart, SortSpec};
use pg_bytes::{Bytes, Items, RowPtr};
use shared_tape::{Record, Tape};
use std::alloc::{AllocError, Global};

const BY_CATEGORY: SortPart = SortPart {
    descending: false,
    nulls_first: true,
};

const BY_KEY: SortPart = SortPart {
    descending: false,
    nulls_first: false,
};

/// The spool that records of entries go into, and the record that is filled anew for each of them,
/// so that no entry takes a list of its own.
#[derive(Drop)]
pub(crate) struct EntrySpool {
    alloc: Global,
    spool: Spool,
    row: Record,
}

impl EntrySpool {
    /// No entries. A run has at most so many.
    pub fn new(alloc: Global, run_rows: u32) -> Result<EntrySpool, AllocError>
        requires { 1 ≤ run_rows }
        ensures { IfOk result (IsFresh run_rows) }
    {
        Ok(EntrySpool {
            alloc,
            spool: Spool::new(alloc, run_rows, order_of_entries(alloc)?),
            row: Record {
                keys: KeyList::new(alloc),
                extra: KeyList::new(alloc),
                ptr: RowPtr {
                    block: 0,
                    offset: 0,
                },
            },
        })
    }

    /// Puts a record for each entry of a row.
    pub fn put(&mut self, value: &KeyVal, ptr: RowPtr) -> Result<(), AllocError>
        requires ready { IsReady self.old }
        requires storable { AreStorableEntries value.now ptr }
        ensures { OnOk result
            (Takes (at_row ptr self.old) (entry_records value.now ptr) self.new) }
    {
        self.row.ptr = ptr;
        self.put_value(value)
    }

    // Puts a record for each entry of a value.
    fn put_value(&mut self, value: &KeyVal) -> Result<(), AllocError>
        requires ready { IsReady self.old }
        requires storable { AreStorableEntries value.now self.old.row.ptr }
        ensures { OnOk result
            (Takes self.old (entry_records value.now self.old.row.ptr) self.new) }
    {
        match value {
            KeyVal::Items(elements) if elements.len() == 0 => {
                self.put_placeholder(Category::EmptyItem)
            }
            KeyVal::Items(elements) => self.put_elements(elements.as_slice()),
            KeyVal::Nil => self.put_placeholder(Category::NullItem),
            _ => Ok(()),
        }
    }

    // Puts a record for each element of an array, one however often it is there.
    fn put_elements(&mut self, elements: &[Elem]) -> Result<(), AllocError>
        requires ready { IsReady self.old }
        requires storable { AreStorable (element_records elements.now self.old.row.ptr) }
        ensures { OnOk result
            (Takes self.old (element_records elements.now self.old.row.ptr) self.new) }
    {
        for element in &distinct_elements(self.alloc, elements)? {
            self.put_element(element)?;
        }
        Ok(())
    }

    fn put_element(&mut self, element: &Elem) -> Result<(), AllocError>
        requires ready { IsReady self.old }
        requires storable { IsStorable entry_order
            (entry_record self.old.row.ptr (entry_of element.now)) }
        ensures { OnOk result (Takes self.old
            (entry_record self.old.row.ptr (entry_of element.now) ∷ []) self.new) }
    {
        fill(self.alloc, &mut self.row.keys, element)?;
        self.spool.put_copy(&self.row)
    }

    fn put_placeholder(&mut self, category: Category) -> Result<(), AllocError>
        requires ready { IsReady self.old }
        requires storable { IsStorable entry_order
            (entry_record self.old.row.ptr (placeholder category)) }
        ensures { OnOk result (Takes self.old
            (entry_record self.old.row.ptr (placeholder category) ∷ []) self.new) }
    {
        clear(&mut self.row.keys);
        fill_with(&mut self.row.keys, category, KeyVal::Nil)?;
        self.spool.put_copy(&self.row)
    }

    /// The tape of the records put.
    pub fn finish(self) -> Result<Tape, AllocError>
        requires { IsReady self }
        ensures records { IfOk result (λ tape. IsPermutation self.spool.records (records_of tape)) }
        ensures runs { IfOk result (AreBoundedRuns entry_order self.spool.run_rows) }
    {
        self.spool.finish()
    }
}

/// How entries are sorted: by category, where the null of keys comes first, and then by key.
pub fn order_of_entries(alloc: Global) -> Result<SortSpec, AllocError>
    ensures { IfOk result (λ order. order ≡ entry_order) }
{
    Ok(Items::from_vec(vec![in alloc; BY_CATEGORY, BY_KEY]?))
}

// Fills a record's keys with the entry of an element.
fn fill(alloc: Global, keys: &mut KeyList, element: &Elem) -> Result<(), AllocError>
    requires { length keys.old ≤ 2 }
    ensures { OnOk result (keys.new ≡ columns_of (entry_of element.now)) }
{
    let spare = clear(keys);
    match element {
        Elem::Null => fill_with(keys, Category::NullKey, KeyVal::Nil),
        Elem::Num(number) => fill_with(keys, Category::Key, KeyVal::Num(*number)),
        Elem::Raw(bytes) => {
            let key = copy_into(alloc, spare, bytes)?;
            fill_with(keys, Category::Key, KeyVal::Raw(key))
        }
    }
}

// Takes the keys out, and gives the last one.
fn clear(keys: &mut KeyList) -> Option<KeyVal>
    requires { length keys.old ≤ 2 }
    ensures { keys.new ≡ [] }
{
    let last = keys.pop();
    keys.pop();
    last
}

// Puts the two keys of an entry into an empty list.
fn fill_with(keys: &mut KeyList, category: Category, key: KeyVal) -> Result<(), AllocError>
    requires { keys.old ≡ [] }
    ensures { OnOk result
        (keys.new ≡ columns_of (record { category = number_of_category category; key = key })) }
{
    let category = category_column(category);
    if keys.push(category).is_err() || keys.push(key).is_err() {
        return Err(AllocError);
    }
    Ok(())
}

// The column of a category: a null for that of keys, which takes fewer bytes than a number.
fn category_column(category: Category) -> KeyVal
    ensures { result ≡ category_column (number_of_category category) }
{
    match category {
        Category::Key => KeyVal::Nil,
        other => KeyVal::Num(i64::from(other.number())),
    }
}

// Bytes as they stand, in the memory of a key that is no longer needed.
fn copy_into(alloc: Global, spare: Option<KeyVal>, bytes: &Bytes) -> Result<Bytes, AllocError>
    ensures { IfOk result (λ copy. copy ≡ bytes.now) }
{
    let mut copy = memory_of(alloc, spare);
    copy.clear();
    copy.extend_from_slice(bytes.as_slice())?;
    Ok(Items::from_vec(copy))
}

// The bytes of a key, or none.
fn memory_of(alloc: Global, key: Option<KeyVal>) -> Vec<u8> {
    match key {
        Some(KeyVal::Raw(bytes)) => bytes.into_vec(),
        _ => Vec::new(alloc),
    }
}
