ghost use Rattle.std.specs.Prelude.{◌≡◌, ◌≢◌, ◌<◌, ◌↔◌, ℕ, [], IfOk, IsTrue, OnOk, Some, List};
ghost use Rattle.opclass.specs.declared.types.ColType.{ColType};
ghost use Rattle.gin_entry.specs.declared.entry.Entry.{Entry};
ghost use Rattle.gin_entry.specs.EntryMap.{Posting};
ghost use Rattle.gin_entry.specs.EntryOrder.{category_column, columns_of};
ghost use Rattle.shared_tape.specs.declared.stored.Record.{Record};
ghost use Rattle.gin_pack.specs.Postings.{ArePostingsOf};
ghost use Rattle.gin_pack.specs.Pass.Gathering.{AreColumns, Closes, Gathers, HasColumns, HasGathered, IsGathering, IsWritten, Takes};

use crate::posting_run::PostingRun;
use gin_entry::{Category, Entry};
use opclass::{KeyList, KeyVal, clash};
use pg_bytes::RowPtr;
use shared_tape::Record;
use std::alloc::{AllocError, Global};
use std::mem;

/// Gathers the sorted records of a range of keys to postings (`_gin_process_worker_data` of
/// `gininsert.c`): those that are done, and the one that comes.
#[derive(Debug, Drop)]
pub struct PostingWriter {
    pub(crate) done: PostingRun,
    // The columns of the entry that comes, and its pointers.
    pending: Option<KeyList>,
    ptrs: Vec<RowPtr>,
    // The columns of an entry that is done, for their memory.
    spare: KeyList,
}

impl PostingWriter {
    /// Nothing has come yet, which takes no memory.
    pub fn new(alloc: Global) -> PostingWriter
        ensures { (kind : ColType) → HasGathered kind [] result }
    {
        PostingWriter {
            done: PostingRun::new(alloc),
            pending: None,
            ptrs: Vec::new(alloc),
            spare: KeyList::new(alloc),
        }
    }

    /// Puts the record of an entry behind the others, which come in their order: its pointer comes
    /// to the entry of the record before, or to another one. The record's keys may be others then,
    /// whose memory the next record can have. An error means that no memory was left.
    pub fn put(&mut self, row: &mut Record) -> Result<(), AllocError>
        requires { IsGathering self.old }
        ensures { OnOk result (Gathers self.old self.new row.old) }
    {
        self.take(&mut row.keys, row.ptr)?;
        Ok(())
    }

    /// The postings of all records that were put. An error means that no memory was left.
    pub fn finish(mut self) -> Result<PostingRun, AllocError>
        requires { IsGathering self }
        ensures { IfOk result (λ run. (kind : ColType) → (records : List Record)
            → HasGathered kind records self → ArePostingsOf kind records run) }
    {
        self.close()?;
        Ok(self.done)
    }

    /// Takes the columns of an entry and a pointer, as `put` does.
    pub(crate) fn take(&mut self, keys: &mut KeyList, ptr: RowPtr) -> Result<(), AllocError>
        requires { HasColumns self.old }
        ensures { OnOk result (Takes self.old self.new keys.old ptr) }
    {
        if !self.is_coming(keys) {
            self.begin(keys, ptr)?;
            return Ok(());
        }
        self.ptrs.push(ptr)?;
        Ok(())
    }

    /// Ends the posting that comes, if there is one. An error means that no memory was left.
    pub(crate) fn close(&mut self) -> Result<(), AllocError>
        requires { HasColumns self.old }
        ensures { OnOk result (Closes self.old self.new) }
    {
        let Some(mut keys) = self.pending.take() else {
            return Ok(());
        };
        let entry = entry_of(&mut keys);
        self.done.push(entry, &self.ptrs)?;
        self.ptrs.clear();
        self.spare = keys;
        Ok(())
    }

    // Ends the posting that comes, and begins another with its first pointer: its columns go in
    // exchange for those of an entry that is done.
    fn begin(&mut self, keys: &mut KeyList, ptr: RowPtr) -> Result<(), AllocError>
        requires columns { HasColumns self.old }
        requires other { self.old.pending ≢ Some keys.old }
        ensures { OnOk result (Takes self.old self.new keys.old ptr) }
    {
        self.close()?;
        let spare = mem::replace(&mut self.spare, KeyList::new(*self.ptrs.allocator()));
        self.pending = Some(mem::replace(keys, spare));
        self.ptrs.push(ptr)?;
        Ok(())
    }

    // Whether these are the columns of the entry that comes.
    fn is_coming(&self, keys: &KeyList) -> bool
        ensures { IsTrue result ↔ (self.now.pending ≡ Some keys.now) }
    {
        match &self.pending {
            Some(pending) => clash(false, pending, keys),
            None => false,
        }
    }
}

// The entry that has these columns, which are taken out: its category, and its key.
fn entry_of(keys: &mut KeyList) -> Entry
    requires { AreColumns keys.old }
    ensures { (entry : Entry) → keys.old ≡ columns_of entry → result ≡ entry }
{
    let Some(key) = keys.pop() else {
        unreachable!();
    };
    let Some(column) = keys.pop() else {
        unreachable!();
    };
    Entry {
        category: category_of(&column),
        key,
    }
}

// The category that has this column: a null is that of keys.
fn category_of(column: &KeyVal) -> u8
    requires { (category : ℕ) × (column.now ≡ category_column category) × (category < 4) }
    ensures { (category : ℕ) → column.now ≡ category_column category → result ≡ category }
{
    match column {
        KeyVal::Nil => Category::Key.number(),
        KeyVal::Num(number) => *number as u8,
        _ => unreachable!(),
    }
}
