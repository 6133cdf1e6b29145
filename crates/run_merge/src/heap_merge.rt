ghost use Rattle.std.specs.Prelude.{◌≡◌, IfOk, OnErr, false};
ghost use Rattle.std.specs.List.Sorted.{IsPermutation};
ghost use Rattle.run_merge.specs.Merging.{GivesInto};
ghost use Rattle.run_merge.specs.Sorted.{AllHaveOrder, all_records};

use crate::between::Between;
use crate::head::Head;
use crate::heads::{give_first, heads_between};
use opclass::SortSpec;
use shared_tape::{Record, Tapes};
use std::alloc::{AllocError, Global};
use std::marker::Model;

/// The merge of all runs of several tapes, by a heap of their heads.
#[derive(Debug, Drop)]
pub(crate) struct HeapMerge {
    order: SortSpec,
    tapes: Tapes,
    heads: Vec<Head>,
}

impl Model for HeapMerge {
    ghost use Rattle.run_merge.specs.Merging.{Merging};
    ghost use Rattle.run_merge.specs.Sorted.{AllHaveOrder};
    ghost use Rattle.run_merge.specs.Heads.{AreHeads};
    ghost use Rattle.run_merge.specs.Pass.{merging_by};

    ghost Value = { Merging };

    ghost view = { λ merge. merging_by merge.order merge.tapes merge.heads.items };

    ghost invariant = { λ merge. record {
      order : AllHaveOrder merge.order merge.tapes;
      heads : AreHeads merge.tapes merge.heads.items;
    } };
}

impl HeapMerge {
    /// The merge of these tapes, whose runs have this order.
    pub fn new(alloc: Global, tapes: Tapes, order: SortSpec) -> Result<HeapMerge, AllocError>
        requires { AllHaveOrder order tapes }
        ensures order { IfOk result (λ merge. merge.order ≡ order) }
        ensures left { IfOk result (λ merge. IsPermutation (all_records tapes) merge.left) }
        ensures in_order { IfOk result (λ merge. merge.in_order ≡ false) }
    {
        let whole = Between {
            low: None,
            high: None,
        };
        let heads = heads_between(alloc, &tapes, whole)?;
        Ok(HeapMerge {
            order,
            tapes,
            heads,
        })
    }

    /// Fills a record with the next one, as `Merged::next_into` does.
    pub fn next_into(&mut self, row: &mut Record) -> Result<bool, AllocError>
        ensures given { IfOk result (λ given. GivesInto self.old self.new given row.new) }
        ensures kept { OnErr result (self.new ≡ self.old) }
    {
        give_first(&self.tapes, &mut self.heads, row)
    }
}
