ghost use Rattle.std.specs.Prelude.{◌≡◌, ◌≤◌, IfOk, OnErr, false, length};
ghost use Rattle.std.specs.List.Sorted.{IsPermutation};
ghost use Rattle.run_merge.specs.Cutting.{part_of};
ghost use Rattle.run_merge.specs.Merging.{GivesInto};
ghost use Rattle.run_merge.specs.Sorted.{AllHaveOrder, all_records};

use crate::cuts::Cuts;
use crate::head::Head;
use crate::heads::{give_first, heads_between};
use opclass::SortSpec;
use pg_bytes::Items;
use shared_tape::{Record, Tapes};
use std::alloc::{AllocError, Global};
use std::marker::Model;

/// The merge of one part that is under way, over tapes that several parts share. It is seen as the
/// whole merge is: as its order, the records that are left to give, and whether they stand in order
/// already.
#[derive(Debug, Drop)]
pub struct PartMerge<'a> {
    order: SortSpec,
    tapes: &'a Tapes,
    heads: Vec<Head>,
}

impl<'a> Model for PartMerge<'a> {
    ghost use Rattle.run_merge.specs.Merging.{Merging};
    ghost use Rattle.run_merge.specs.Sorted.{AllHaveOrder};
    ghost use Rattle.run_merge.specs.Heads.{AreHeads};
    ghost use Rattle.run_merge.specs.Pass.{merging_by};

    ghost Value = { Merging };

    ghost view = { λ merge. merging_by merge.order merge.tapes.now merge.heads.items };

    ghost invariant = { λ merge. record {
      order : AllHaveOrder merge.order merge.tapes.now;
      heads : AreHeads merge.tapes.now merge.heads.items;
    } };
}

/// The merge of the records of one part, counted from 0: those from cut `part` on, unless the part
/// is the first, and below the next cut, unless it is the last. No record is copied before it is
/// given. An error means that no memory was left.
pub fn merge_part<'a>(
    alloc: Global,
    tapes: &'a Tapes,
    cuts: &Cuts,
    part: u32,
    order: &SortSpec,
) -> Result<PartMerge<'a>, AllocError>
    requires part { part ≤ length cuts.now }
    requires order { AllHaveOrder order.now tapes.now }
    ensures order { IfOk result (λ merge. merge.order ≡ order.now) }
    ensures left { IfOk result (λ merge. IsPermutation
        (part_of order.now cuts.now part (all_records tapes.now)) merge.left) }
    ensures in_order { IfOk result (λ merge. merge.in_order ≡ false) }
{
    let order = Items::from_vec(order.as_slice().to_vec(alloc)?);
    let heads = heads_between(alloc, tapes, cuts.around(part))?;
    Ok(PartMerge {
        order,
        tapes,
        heads,
    })
}

impl<'a> PartMerge<'a> {
    /// Fills a record with the next one of the part, as `Merged::next_into` does: one of those that
    /// are left, none of which is below it. False comes exactly where none is left. An error means
    /// that no memory was left, and then the merge is unchanged and may go on. Unless the answer is
    /// true, the record's values may be any.
    pub fn next_into(&mut self, row: &mut Record) -> Result<bool, AllocError>
        ensures given { IfOk result (λ given. GivesInto self.old self.new given row.new) }
        ensures kept { OnErr result (self.new ≡ self.old) }
    {
        give_first(self.tapes, &mut self.heads, row)
    }
}
