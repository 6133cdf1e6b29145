ghost use Rattle.std.specs.Prelude.{◌≡◌, ◌<◌, ◌^◌, [], All, IfOk, OnOk, List, length};
ghost use Rattle.opclass.specs.declared.types.ColType.{ColType};
ghost use Rattle.gin_entry.specs.EntryMap.{Posting};
ghost use Rattle.gin_entry.specs.EntryOrder.{entry_order};
ghost use Rattle.shared_tape.specs.declared.stored.Record.{Record};
ghost use Rattle.run_merge.specs.Sorted.{AreApart};
ghost use Rattle.gin_pack.specs.File.{HasPostings, IsGinFile};
ghost use Rattle.gin_pack.specs.Records.{IsEntryRecord};
ghost use Rattle.gin_pack.specs.Pass.Adding.{Adds, CanAdd, HasAdded, IsAdding};
ghost use Rattle.gin_pack.specs.Pass.Taking.{HasTaken, IsTaking, KeepsTaken, Receives};

use crate::posting_run::PostingRun;
use crate::posting_writer::PostingWriter;
use crate::store::EntryStore;
use opclass::ColType;
use pg_bytes::IndexImage;
use run_merge::Merged;
use shared_tape::Record;
use std::alloc::{AllocError, Global};

/// Packs the postings of ranges of keys into the file of a GIN index, range by range (`ginbuild` of
/// `gininsert.c`).
#[derive(Debug, Drop)]
pub struct EntryPacker {
    store: EntryStore,
}

impl EntryPacker {
    /// A packer without postings, for an index over a column of this array type. An error means
    /// that no memory was left.
    pub fn new(alloc: Global, kind: ColType) -> Result<EntryPacker, AllocError>
        ensures { IfOk result (HasAdded kind []) }
    {
        let store = EntryStore::new(alloc, kind)?;
        Ok(EntryPacker { store })
    }

    /// Adds the postings of a range of keys behind those of the ranges before. An error means that
    /// no memory was left, or that the file would have more than 2^30 blocks.
    pub fn add(&mut self, run: PostingRun) -> Result<(), AllocError>
        requires { CanAdd self.old run }
        ensures { OnOk result (Adds self.old self.new run) }
    {
        run.store_in(&mut self.store)?;
        Ok(())
    }

    /// The file of all postings. An error means that no memory was left, or that the file would
    /// have more than 2^30 blocks.
    pub fn finish(self) -> Result<IndexImage, AllocError>
        requires { IsAdding self }
        ensures { IfOk result (λ file. (kind : ColType) → (records : List Record)
            → HasAdded kind records self → IsGinFile kind records file) }
    {
        let EntryPacker { store } = self;
        let file = store.finish()?;
        Ok(file)
    }
}

/// The file of a GIN index over a column of this array type, whose entries a merge gives: records
/// of entries, in their order, which are stored as they come. The file is read as the map from
/// these entries to their pointers. An error means that no memory was left, or that the file would
/// have more than 2^30 blocks.
pub fn pack(alloc: Global, kind: ColType, mut merged: Merged) -> Result<IndexImage, AllocError>
    requires order { merged.order ≡ entry_order }
    requires entries { All (IsEntryRecord kind) merged.left }
    requires apart { AreApart merged.left }
    requires few { length merged.left < 2 ^ 30 }
    ensures { IfOk result (IsGinFile kind merged.left) }
{
    let mut packer = Packer::new(alloc, kind)?;
    let mut row = Record::new(alloc);
    'records: while merged.next_into(&mut row)? {
        packer.take(&mut row)?;
    }
    let file = packer.finish()?;
    Ok(file)
}

/// Sorted records on their way into the file: the entries that are stored, and the one that comes,
/// whose pointers are gathered.
#[derive(Debug, Drop)]
pub(crate) struct Packer {
    store: EntryStore,
    writer: PostingWriter,
}

impl Packer {
    /// Nothing has come yet. An error means that no memory was left.
    fn new(alloc: Global, kind: ColType) -> Result<Packer, AllocError>
        ensures { IfOk result (HasTaken kind []) }
    {
        let store = EntryStore::new(alloc, kind)?;
        Ok(Packer {
            store,
            writer: PostingWriter::new(alloc),
        })
    }

    /// Takes the next record, whose keys may be others then. An error means that no memory was
    /// left.
    fn take(&mut self, row: &mut Record) -> Result<(), AllocError>
        requires { IsTaking self.old }
        ensures { OnOk result (Receives self.old self.new row.old.keys row.old.ptr) }
    {
        self.store_done()?;
        self.writer.take(&mut row.keys, row.ptr)?;
        Ok(())
    }

    /// The file of all that came. An error means that no memory was left.
    fn finish(self) -> Result<IndexImage, AllocError>
        requires { IsTaking self }
        ensures { IfOk result (λ file. (kind : ColType) → (postings : List Posting)
            → HasTaken kind postings self → HasPostings kind file postings) }
    {
        let Packer {
            mut store,
            mut writer,
        } = self;
        writer.close()?;
        writer.done.store_in(&mut store)?;
        let file = store.finish()?;
        Ok(file)
    }

    // Stores the postings that are done.
    fn store_done(&mut self) -> Result<(), AllocError>
        requires { IsTaking self.old }
        ensures { OnOk result (KeepsTaken self.old self.new) }
    {
        self.writer.done.store_in(&mut self.store)?;
        self.writer.done.clear();
        Ok(())
    }
}
