//! What a worker's rows go into, by the index's method.

ghost use Rattle.std.specs.Prelude.{◌≡◌, ◌≢◌, ◌<◌, ◌≤◌, ◌^◌, ◌∷◌, ◌++◌, [], All, IfErr, IfOk, IsTrue, OnOk, false, length, List, ℕ};
ghost use Rattle.std.specs.List.Sorted.{IsPermutation};
ghost use Rattle.std.specs.List.{AllZip};
ghost use Rattle.pg_bytes.specs.PageLayout.{page_size};
ghost use Rattle.opclass.specs.declared.spec.IndexSpec.{IndexSpec};
ghost use Rattle.opclass.specs.declared.types.Method.TheVariants as method;
ghost use Rattle.opclass.specs.Values.{IsValueOf};
ghost use Rattle.heap_row.specs.Typed.{HasAtMost};
ghost use Rattle.btree_item.specs.Tuple.{size_of};
ghost use Rattle.shared_tape.specs.Runs.{records_of};
ghost use Rattle.shared_tape.specs.declared.stored.Record.{Record};
ghost use Rattle.shared_tape.specs.Stored.{IsStorable};
ghost use Rattle.spool.specs.Spools.{AreBoundedRuns, TakesRecord};
ghost use Rattle.build_leader.specs.Calls.{IsPlan};
ghost use Rattle.build_leader.specs.Holding.{CanTake, IsSinkOf, StaysSuited, Suits, TakesInto, held_by, order_by};
ghost use Rattle.build_leader.specs.IndexRow.{AreTooWide};
ghost use Rattle.build_leader.specs.Reader.{IsWidthFault};
ghost use Rattle.build_leader.specs.declared.scan.width.WidthCause.{WidthCause};

use crate::brin::RangeTally;
use crate::btree::check_tuple;
use crate::columns::order_of;
use crate::gin::check_entries;
use crate::plan::Plan;
use brin_summary::SummedRanges;
use heap_row::RowFault;
use opclass::{KeyList, Kinds, Method};
use pg_bytes::Items;
use shared_tape::{Record, Tape};
use spool::{Gather, Spool};
use std::alloc::{AllocError, Global};

/// What the rows of an index go into that a worker takes: the rows of a B-tree into runs, the
/// entries of a GIN index's rows into runs (`ginBuildCallback` of `gininsert.c`), and those of a
/// BRIN index into the summaries of their ranges (`brinbuildCallback` of `brin.c`).
#[derive(Drop)]
pub(crate) enum Sink {
    Rows(Spool),
    Entries(Gather),
    Ranges(RangeTally),
}

impl Sink {
    /// What the rows of a plan's index go into. Nothing is in it.
    pub fn of(alloc: Global, plan: &Plan) -> Result<Sink, AllocError>
        requires { IsPlan plan.now }
        ensures sink { IfOk result (IsSinkOf plan.now.spec plan.now.run_rows) }
        ensures none { IfOk result (λ sink. held_by sink ≡ record { records = []; ranges = [] }) }
    {
        match plan.spec.method {
            Method::BTree => {
                let order = order_of(alloc, &plan.spec)?;
                Ok(Sink::Rows(Spool::new(alloc, plan.run_rows, order)))
            }
            Method::Gin => Ok(Sink::Entries(Gather::new(alloc, plan.run_rows))),
            Method::Brin => Ok(Sink::Ranges(RangeTally::new(alloc, &plan.spec))),
        }
    }

    /// Whether a row's value is an array, which is moved where others are copied.
    pub fn takes_arrays(&self) -> bool
        ensures arrays { IsTrue result → (spec : IndexSpec) → Suits spec self.now
            → spec.method ≡ method.Gin }
        ensures keys { result ≡ false → (spec : IndexSpec) → Suits spec self.now
            → spec.method ≢ method.Gin }
    {
        matches!(self, Sink::Entries(_))
    }

    /// Refuses the values of a row's columns that are too large for the index.
    pub fn check_width(
        &self,
        alloc: Global,
        kinds: &Kinds,
        values: &KeyList,
    ) -> Result<(), RowFault>
        requires size { size_of kinds.now values.now < 2 ^ 63 }
        requires typed { AllZip IsValueOf kinds.now values.now }
        requires short { All (HasAtMost page_size) values.now }
        ensures refused { IfErr result (λ fault. (spec : IndexSpec) → Suits spec self.now
            → IsWidthFault spec kinds.now values.now fault) }
        ensures narrow { OnOk result ((spec : IndexSpec) → Suits spec self.now
            → (cause : WidthCause) → AreTooWide cause spec kinds.now values.now → ⊥) }
    {
        match self {
            Sink::Rows(_) => check_tuple(kinds, values),
            Sink::Entries(_) => check_entries(alloc, kinds, values),
            Sink::Ranges(_) => Ok(()),
        }
    }

    /// Takes a row in. An error means that no memory was left, and then the scan ends.
    pub fn put(&mut self, row: &Record) -> Result<(), AllocError>
        requires { CanTake self.old row.now }
        ensures took { OnOk result ((spec : IndexSpec) → Suits spec self.old
            → TakesInto spec self.old (row.now ∷ []) self.new) }
        ensures same { StaysSuited self.old self.new }
    {
        match self {
            Sink::Rows(spool) => spool.put_copy(row),
            Sink::Entries(gather) => gather.put(row.keys.get(0), row.ptr),
            Sink::Ranges(tally) => tally.add(row),
        }
    }

    /// The tape of what was taken, and the summaries of ranges: a sink has one of both. An error
    /// means that no memory was left.
    pub fn finish(self, alloc: Global) -> Result<(Tape, SummedRanges), AllocError>
        ensures records { IfOk result (λ taken. IsPermutation (held_by self).records
            (records_of taken.0)) }
        ensures ranges { IfOk result (λ taken. taken.1 ≡ (held_by self).ranges) }
        ensures runs { IfOk result (λ taken. (spec : IndexSpec) (run_rows : ℕ)
            → IsSinkOf spec run_rows self
            → AreBoundedRuns (order_by spec.method spec) run_rows taken.0) }
    {
        let no_ranges = Items::from_vec(Vec::new(alloc));
        match self {
            Sink::Rows(spool) => Ok((spool.finish()?, no_ranges)),
            Sink::Entries(gather) => Ok((gather.finish()?, no_ranges)),
            Sink::Ranges(tally) => Ok((Tape::new(alloc), tally.finish())),
        }
    }
}
