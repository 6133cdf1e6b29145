//! A GIN index from parts of its entries' records: threads gather the postings, and the leader
//! stores them.

ghost use Rattle.std.specs.Prelude.{◌≡◌, [], ◌∷◌, ◌≤◌, All, IfErr, IfOk, List};
ghost use Rattle.opclass.specs.declared.types.ColType.{ColType};
ghost use Rattle.shared_tape.specs.declared.stored.Record.{Record};
ghost use Rattle.shared_tape.specs.Stored.{IsStorable};
ghost use Rattle.run_merge.specs.Sorted.{AllHaveOrder, all_records};
ghost use Rattle.build_leader.specs.declared.fault.LeadFault.TheVariants as lead;
ghost use Rattle.build_leader.specs.Gin.{AreEntries, HoldEntries, IsEntryFile, IsFileOfPostings, IsPostingRun};

use crate::fault::LeadFault;
use crate::key_parts::{PartWork, make_parts};
use gin_pack::{EntryPacker, PostingRun, PostingWriter, pack};
use opclass::{ColType, Kinds, SortSpec};
use pg_bytes::IndexImage;
use run_merge::{Cuts, key_cuts, merge, merge_part};
use shared_tape::{Record, Tapes};
use std::alloc::{AllocError, Global};
use std::thread::Threads;

/// The postings that a GIN index over arrays of a type wants of each part.
#[derive(Clone, Copy)]
struct PostingWork {
    kind: ColType,
}

impl PartWork for PostingWork {
    type Made = PostingRun;

    ghost makes = { λ work. IsPostingRun work.kind };

    ghost refuses = { λ work order records fault. fault ≡ lead.Memory };

    ghost takes = { λ work. AreEntries (work.kind ∷ []) };

    fn make(
        &self,
        alloc: Global,
        tapes: &Tapes,
        cuts: &Cuts,
        part: u32,
        order: &SortSpec,
    ) -> Result<PostingRun, LeadFault> {
        let mut merge = merge_part(alloc, tapes, cuts, part, order)?;
        let mut writer = PostingWriter::new(alloc);
        let mut row = Record::new(alloc);
        'records: while merge.next_into(&mut row)? {
            writer.put(&mut row)?;
        }
        Ok(writer.finish()?)
    }
}

/// Packs the entries of a GIN index over one column of arrays (`ginbuild` of `gininsert.c`), with
/// as many threads as there are workers and the leader. Memory is also wanting where the file would
/// have more than 2^30 blocks.
pub(crate) fn pack_entries<Rt: Threads + Sync>(
    rt: &Rt,
    alloc: Global,
    workers: u32,
    kinds: &Kinds,
    tapes: Tapes,
    order: SortSpec,
) -> Result<IndexImage, LeadFault>
    requires workers { workers ≤ 31 }
    requires order { AllHaveOrder order tapes }
    requires storable { All (IsStorable order) (all_records tapes) }
    requires entries { AreEntries kinds.now order (all_records tapes) }
    ensures image { IfOk result (IsEntryFile kinds.now (all_records tapes)) }
    ensures refused { IfErr result (λ fault. fault ≡ LeadFault.Memory) }
{
    if workers == 0 {
        pack_whole(alloc, kinds, tapes, order)
    } else {
        pack_parts(rt, alloc, kinds, &tapes, workers + 1, &order)
    }
}

// Packs the entries on one thread, as the merge gives their records.
fn pack_whole(
    alloc: Global,
    kinds: &Kinds,
    tapes: Tapes,
    order: SortSpec,
) -> Result<IndexImage, LeadFault>
    requires order { AllHaveOrder order tapes }
    requires entries { AreEntries kinds.now order (all_records tapes) }
    ensures image { IfOk result (IsEntryFile kinds.now (all_records tapes)) }
    ensures refused { IfErr result (λ fault. fault ≡ LeadFault.Memory) }
{
    let merged = merge(alloc, tapes, order)?;
    Ok(pack(alloc, *kinds.get(0), merged)?)
}

// Packs the entries with so many threads, each of which gathers the postings of a part.
fn pack_parts<Rt: Threads + Sync>(
    rt: &Rt,
    alloc: Global,
    kinds: &Kinds,
    tapes: &Tapes,
    threads: u32,
    order: &SortSpec,
) -> Result<IndexImage, LeadFault>
    requires threads { (1 ≤ threads) × (threads ≤ 32) }
    requires order { AllHaveOrder order.now tapes.now }
    requires storable { All (IsStorable order.now) (all_records tapes.now) }
    requires entries { AreEntries kinds.now order.now (all_records tapes.now) }
    ensures image { IfOk result (IsEntryFile kinds.now (all_records tapes.now)) }
    ensures refused { IfErr result (λ fault. fault ≡ LeadFault.Memory) }
{
    let kind = *kinds.get(0);
    let cuts = key_cuts(alloc, tapes, threads, order)?;
    let work = PostingWork { kind };
    let runs = make_parts(rt, alloc, &work, tapes, &cuts, cuts.len() + 1, order)?;
    Ok(store(alloc, kind, runs)?)
}

// Stores the runs of postings in a file, one run behind the other.
fn store(alloc: Global, kind: ColType, runs: Vec<PostingRun>) -> Result<IndexImage, AllocError>
    requires { (records : List Record) × HoldEntries kind [] runs.items records }
    ensures { IfOk result (IsFileOfPostings kind runs.items) }
{
    let mut packer = EntryPacker::new(alloc, kind)?;
    for postings in runs {
        packer.add(postings)?;
    }
    let file = packer.finish()?;
    Ok(file)
}
