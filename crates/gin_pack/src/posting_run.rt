ghost use Rattle.std.specs.Prelude.{◌≡◌, ◌<◌, ◌^◌, ◌++◌, ◌∷◌, [], OnErr, OnOk, length};
ghost use Rattle.std.specs.List.{AllByRecursion};
ghost use Rattle.gin_pack.specs.Postings.{IsListed};
ghost use Rattle.gin_pack.specs.Pass.Storing.{IsStoring, StoresAll};

use crate::store::EntryStore;
use gin_entry::Entry;
use pg_bytes::RowPtr;
use std::alloc::{AllocError, Global};
use std::marker::Model;

/// An entry, and how many row pointers it has.
#[derive(Debug, Drop)]
pub(crate) struct PostingHead {
    pub entry: Entry,
    pub count: usize,
}

/// Postings in the order of their entries, each an entry and its row pointers: what the sorted
/// records of a range of keys come to. The pointers stand one behind the other in a buffer.
#[derive(Debug, Drop)]
pub struct PostingRun {
    heads: Vec<PostingHead>,
    ptrs: Vec<RowPtr>,
}

impl Model for PostingRun {
    ghost use Rattle.std.specs.Prelude.{List, ◌≡◌, length};
    ghost use Rattle.std.specs.List.{sum_by};
    ghost use Rattle.gin_entry.specs.EntryMap.{Posting};

    ghost Value = { List Posting };

    ghost use Rattle.gin_pack.specs.Pass.Listing.{postings_in};

    ghost view = { λ run. postings_in run.heads.items run.ptrs.items };

    ghost invariant = { λ run.
        sum_by (λ head. head.count) run.heads.items ≡ length run.ptrs.items };
}

impl PostingRun {
    /// No postings, which take no memory.
    pub fn new(alloc: Global) -> PostingRun
        ensures { result ≡ [] }
    {
        PostingRun {
            heads: Vec::new(alloc),
            ptrs: Vec::new(alloc),
        }
    }

    /// Adds an entry and its pointers at the end. An error means that no memory was left, and then
    /// nothing changes.
    pub(crate) fn push(&mut self, entry: Entry, ptrs: &[RowPtr]) -> Result<(), AllocError>
        ensures ok { OnOk result (self.new
            ≡ self.old ++ record { entry = entry; pointers = ptrs.now } ∷ []) }
        ensures err { OnErr result (self.new ≡ self.old) }
    {
        self.heads.reserve(1)?;
        self.ptrs.extend_from_slice(ptrs)?;
        self.heads.push_reserved(PostingHead {
            entry,
            count: ptrs.len(),
        });
        Ok(())
    }

    /// Takes all postings away and keeps the memory.
    pub(crate) fn clear(&mut self)
        ensures { self.new ≡ [] }
    {
        self.heads.clear();
        self.ptrs.clear();
    }

    /// Stores the postings behind the entries that are stored. An error means that no memory was
    /// left.
    pub(crate) fn store_in(&self, store: &mut EntryStore) -> Result<(), AllocError>
        requires storing { IsStoring store.old }
        requires listed { AllByRecursion (IsListed store.old.kind) self.now }
        requires few { AllByRecursion (λ posting. length posting.pointers < 2 ^ 30) self.now }
        ensures { OnOk result (StoresAll store.old store.new self.now) }
    {
        let mut left = self.ptrs.as_slice();
        for head in &self.heads {
            let (ptrs, others) = left.split_at(head.count);
            store.store(&head.entry, ptrs)?;
            left = others;
        }
        Ok(())
    }
}
