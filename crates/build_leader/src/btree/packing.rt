ghost use Rattle.std.specs.Prelude.{[], IfErr, IfOk, IsTrue, List, OnOk};
ghost use Rattle.std.proofs.Common.{rules};
ghost use Rattle.opclass.specs.declared.spec.IndexSpec.{IndexSpec};
ghost use Rattle.opclass.specs.declared.types.ColType.{ColType};
ghost use Rattle.btree_pack.specs.Groups.{Row};
ghost use Rattle.btree_pack.specs.Pass.Put.{AreColumnsOf, HasPut, Takes};
ghost use Rattle.btree_pack.specs.Pass.Taken.{row_of};
ghost use Rattle.btree_pack.specs.Pass.Written.{HasWritten, WritesRow};
ghost use Rattle.build_leader.specs.Pass.{AreRowsOf, IsClash, IsPackFault, IsPackedFile, IsWrittenRun, PutsRow, TakesRowsOf, WerePut};
ghost use Rattle.build_leader.specs.Unique.{Clash};

use crate::fault::LeadFault;
use btree_pack::{LeafRun, LeafWriter, Packer};
use opclass::{IndexSpec, Kinds, clash};
use pg_bytes::IndexImage;
use run_merge::PartMerge;
use shared_tape::Record;
use std::alloc::{AllocError, Global};
use std::mem;

/// What the rows of an index are put into in their order: pages, or leaf tuples apart from pages.
trait RowPacker {
    /// The types of the index's columns.
    ghost kinds: { Self → List ColType };

    /// These rows of an index were put, whose columns have these types.
    ghost has: { IndexSpec → List ColType → List Row → Self → Type 0 };

    /// A row can be put.
    ghost takes: { Self → Row → Type 0 };

    /// Puts a row behind the others.
    fn put(&mut self, row: &mut Record) -> Result<(), AllocError>
        requires { takes self.old (row_of row.old) }
        ensures { OnOk result (PutsRow has self.old row.old self.new) };

    /// Rows of the index can be put.
    ghost takes_rows: { TakesRowsOf has takes };
}

impl RowPacker for Packer {
    ghost kinds = { λ packer. packer.rows.kinds };

    ghost has = { HasPut };

    ghost takes = { Takes };

    fn put(&mut self, row: &mut Record) -> Result<(), AllocError> {
        Packer::put_from(self, row)
    }

    ghost takes_rows = { Prim.search rules };
}

impl RowPacker for LeafWriter {
    ghost kinds = { λ writer. writer.rows.kinds };

    ghost has = { HasWritten };

    ghost takes = { WritesRow };

    fn put(&mut self, row: &mut Record) -> Result<(), AllocError> {
        LeafWriter::put(self, row)
    }

    ghost takes_rows = { Prim.search rules };
}

/// Packs the rows that a merge gives, as they come (`_bt_load`). A unique index is refused where
/// two neighbours break its rule, with the first two that do.
pub(crate) fn pack(
    alloc: Global,
    spec: &IndexSpec,
    kinds: Kinds,
    merge: PartMerge,
) -> Result<IndexImage, LeadFault>
    requires columns { AreColumnsOf spec.now kinds }
    requires rows { AreRowsOf spec.now kinds merge.left }
    ensures packed { IfOk result (IsPackedFile spec.now kinds merge.entry.order merge.entry.left) }
    ensures refused { IfErr result (IsPackFault spec.now merge.entry.order merge.entry.left) }
{
    let mut packer = Packer::new(alloc, spec, kinds)?;
    put_rows(alloc, spec, &mut packer, merge)?;
    Ok(packer.finish()?)
}

/// Writes the leaf tuples of the rows that a merge gives, as they come, and refuses them as `pack`
/// does.
pub(crate) fn write_leaves(
    alloc: Global,
    spec: &IndexSpec,
    kinds: Kinds,
    merge: PartMerge,
) -> Result<LeafRun, LeadFault>
    requires columns { AreColumnsOf spec.now kinds }
    requires rows { AreRowsOf spec.now kinds merge.left }
    ensures written { IfOk result (IsWrittenRun spec.now kinds merge.entry.order merge.entry.left) }
    ensures refused { IfErr result (IsPackFault spec.now merge.entry.order merge.entry.left) }
{
    let mut writer = LeafWriter::new(alloc, spec, kinds)?;
    put_rows(alloc, spec, &mut writer, merge)?;
    Ok(writer.finish()?)
}

// Puts the rows as they come. Each is held back until it is compared with the next.
fn put_rows<P: RowPacker>(
    alloc: Global,
    spec: &IndexSpec,
    packer: &mut P,
    mut merge: PartMerge,
) -> Result<(), LeadFault>
    requires fresh { P.has spec.now (P.kinds packer.old) [] packer.old }
    requires rows { AreRowsOf spec.now (P.kinds packer.old) merge.left }
    ensures put { OnOk result (WerePut P.has spec.now (P.kinds packer.old) merge.entry.order
        merge.entry.left packer.new) }
    ensures refused { IfErr result (IsPackFault spec.now merge.entry.order merge.entry.left) }
{
    let mut held = Record::new(alloc);
    if !merge.next_into(&mut held)? {
        return Ok(());
    }
    let mut next = Record::new(alloc);
    'rows: while merge.next_into(&mut next)? {
        put_before(spec, packer, &mut held, &next)?;
        mem::swap(&mut held, &mut next);
    }
    Ok(packer.put(&mut held)?)
}

// Puts a row, unless the next one breaks the unique rule with it.
fn put_before<P: RowPacker>(
    spec: &IndexSpec,
    packer: &mut P,
    held: &mut Record,
    next: &Record,
) -> Result<(), LeadFault>
    requires { P.takes packer.old (row_of held.old) }
    ensures put { OnOk result (PutsRow P.has packer.old held.old packer.new) }
    ensures apart { OnOk result (IsTrue spec.now.unique → Clash spec.now held.old next.now → ⊥) }
    ensures refused { IfErr result (IsClash spec.now held.old next.now) }
{
    if spec.unique && clash(spec.nulls_distinct, &held.keys, &next.keys) {
        return Err(LeadFault::Duplicate {
            first: held.ptr,
            second: next.ptr,
        });
    }
    packer.put(held)?;
    Ok(())
}
