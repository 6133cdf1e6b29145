ghost use Rattle.std.specs.Prelude.{◌≡◌, ◌++◌, ◌∷◌, List, [], IfOk, IsErr, OnErr, OnOk, false};
ghost use Rattle.opclass.specs.declared.spec.IndexSpec.{IndexSpec};
ghost use Rattle.opclass.specs.declared.types.ColType.{ColType};
ghost use Rattle.btree_pack.specs.Groups.{Row};
ghost use Rattle.btree_pack.specs.Pass.Put.{AreColumnsOf};
ghost use Rattle.btree_pack.specs.Pass.Run.{AreLeavesOf, IsLeaf, IsRun};
ghost use Rattle.btree_pack.specs.Pass.Taken.{IsDone, IsOfOneIndex, IsRowOf, row_of};
ghost use Rattle.btree_pack.specs.Pass.Written.{HasWritten, HasWrittenRows, IsWriterSpent, IsWriting, WritesRow, leaf_done};

use crate::grouper::Grouper;
use crate::leaf_run::LeafRun;
use crate::leaves::Leaves;
use crate::row_group::RowGroup;
use opclass::{IndexSpec, Kinds};
use shared_tape::Record;
use std::alloc::{AllocError, Global};
use std::marker::Model;

/// Writes the leaf tuples of sorted rows, row by row, apart from the pages: a part of a B-tree that
/// needs nothing of what stands before it. Once memory has run out, it takes and gives nothing
/// more.
#[derive(Debug, Drop)]
pub struct LeafWriter {
    rows: Grouper,
    leaves: Leaves,
    // The group of the first tuple.
    first: Option<RowGroup>,
    spent: bool,
}

impl Model for LeafWriter {
    ghost use Rattle.std.specs.Prelude.{◌≡◌, false};
    ghost use Rattle.btree_pack.specs.Pass.Written.{IsWriting, Writing};

    ghost Value = { Writing };

    ghost view = { λ writer. record {
      rows = writer.rows;
      leaves = writer.leaves;
      first = writer.first;
      spent = writer.spent;
    } };

    ghost invariant = { λ writer. writer.spent ≡ false
        → IsWriting writer.rows writer.leaves writer.first };
}

impl LeafWriter {
    /// A writer without rows, for an index with these columns, the keys first. An error means that
    /// no memory was left.
    pub fn new(alloc: Global, spec: &IndexSpec, kinds: Kinds) -> Result<LeafWriter, AllocError>
        requires { AreColumnsOf spec.now kinds }
        ensures { IfOk result (HasWritten spec.now kinds []) }
    {
        Ok(LeafWriter {
            rows: Grouper::new(alloc, spec, kinds),
            leaves: Leaves::new(alloc),
            first: None,
            spent: false,
        })
    }

    /// Puts a row behind the others, which come in their order. The writer takes the record's
    /// values and leaves it others, whose memory the next row can have. An error means that no
    /// memory was left, and then every later call answers the same.
    pub fn put(&mut self, row: &mut Record) -> Result<(), AllocError>
        requires { WritesRow self.old (row_of row.old) }
        ensures ok { OnOk result ((spec : IndexSpec) → (kinds : List ColType) → (rows : List Row)
            → HasWritten spec kinds rows self.old
            → HasWritten spec kinds (rows ++ row_of row.old ∷ []) self.new) }
        ensures err { OnErr result (IsWriterSpent self.new) }
        ensures spent { IsWriterSpent self.old → IsErr result }
    {
        if self.spent {
            return Err(AllocError);
        }
        self.spent = true;
        put_row(&mut self.rows, &mut self.leaves, &mut self.first, row)?;
        self.spent = false;
        Ok(())
    }

    /// The leaf tuples of the rows that were put. An error means that no memory was left.
    pub fn finish(self) -> Result<LeafRun, AllocError>
        ensures leaves { IfOk result (λ run.
            (spec : IndexSpec) → (kinds : List ColType) → (rows : List Row)
            → HasWritten spec kinds rows self → AreLeavesOf spec kinds rows run) }
        ensures spent { IsWriterSpent self → IsErr result }
    {
        let LeafWriter {
            rows,
            leaves,
            first,
            spent,
        } = self;
        if spent {
            return Err(AllocError);
        }
        let run = finish_rows(rows, leaves, first)?;
        Ok(run)
    }
}

// One row more. The group that it doesn't join is written.
fn put_row(
    rows: &mut Grouper,
    leaves: &mut Leaves,
    first: &mut Option<RowGroup>,
    row: &mut Record,
) -> Result<(), AllocError>
    requires ready { IsWriting rows.old leaves.old first.old }
    requires row { IsRowOf rows.old.kinds rows.old.keys (row_of row.old) }
    ensures ready { OnOk result (IsWriting rows.new leaves.new first.new) }
    ensures same { OnOk result (IsOfOneIndex rows.old rows.new) }
    ensures written { OnOk result ((put : List Row)
        → HasWrittenRows put rows.old leaves.old first.old
        → HasWrittenRows (put ++ row_of row.old ∷ []) rows.new leaves.new first.new) }
{
    let Some(group) = rows.take(row)? else {
        return Ok(());
    };
    write(rows, leaves, &group)?;
    if let Some(_) = first {
        rows.spare = group.values;
        return Ok(());
    }
    *first = Some(group);
    Ok(())
}

// Writes the tuple of a group that is done, with its separator behind it.
fn write(rows: &mut Grouper, leaves: &mut Leaves, group: &RowGroup) -> Result<(), AllocError>
    requires { IsDone rows.old group.now }
    ensures leaves { OnOk result (leaves.new ≡ leaves.old ++ leaf_done rows.old group.now ∷ []) }
    ensures leaf { IsLeaf (leaf_done rows.old group.now) }
    ensures rows { OnOk result (rows.new ≡ record rows.old { tuple = rows.new.tuple }) }
{
    let tuple = rows.tuple.len();
    let extra = tuple - group.size as usize;
    group.put_separator(&mut rows.tuple, rows.kinds.as_slice(), rows.keys)?;
    leaves.push(&rows.tuple, tuple, extra)
}

// The leaf tuples of the rows that were put.
fn finish_rows(
    mut rows: Grouper,
    mut leaves: Leaves,
    first: Option<RowGroup>,
) -> Result<LeafRun, AllocError>
    requires { IsWriting rows leaves first }
    ensures { IfOk result (λ run. (spec : IndexSpec) → (kinds : List ColType) → (put : List Row)
        → HasWritten spec kinds put (record {
          rows = rows;
          leaves = leaves;
          first = first;
          spent = false;
        }) → AreLeavesOf spec kinds put run) }
{
    let Some(group) = rows.take_last()? else {
        return Ok(run_of(rows, leaves, first, None));
    };
    write(&mut rows, &mut leaves, &group)?;
    match first {
        None => Ok(run_of(rows, leaves, Some(group), None)),
        Some(first) => Ok(run_of(rows, leaves, Some(first), Some(group))),
    }
}

// The run of these leaf tuples, which have these first and last groups.
fn run_of(rows: Grouper, leaves: Leaves, first: Option<RowGroup>, last: Option<RowGroup>) -> LeafRun
    requires { IsRun (record {
      kinds = rows.kinds;
      keys = rows.keys;
      leaves = leaves;
      first = first;
      last = last;
    }) }
    ensures { result ≡ record {
      kinds = rows.kinds;
      keys = rows.keys;
      leaves = leaves;
      first = first;
      last = last;
    } }
{
    let Grouper { kinds, keys, .. } = rows;
    LeafRun {
        kinds,
        keys,
        leaves,
        first,
        last,
    }
}
