ghost use Rattle.std.specs.Prelude.{◌≡◌, ◌++◌, ◌∷◌, List, [], IfOk, IsErr, OnErr, OnOk, false, length};
ghost use Rattle.opclass.specs.declared.spec.IndexSpec.{IndexSpec};
ghost use Rattle.opclass.specs.declared.types.ColType.{ColType};
ghost use Rattle.btree_pack.specs.Groups.{Row};
ghost use Rattle.btree_pack.specs.Images.{images_of};
ghost use Rattle.btree_pack.specs.Nodes.{btree_file};
ghost use Rattle.btree_pack.specs.Pass.Put.{AreColumnsOf, HasPut, IsSpent, Takes};
ghost use Rattle.btree_pack.specs.Pass.Taken.{AreReady, HasPacked, HasPackedAll, IsOfOneIndex, IsReady, IsRowOf, row_of};
ghost use Rattle.btree_pack.specs.Pass.Sight.{fillfactor_of};

use crate::grouper::Grouper;
use crate::open_leaves::OpenLeaves;
use crate::open_tower::OpenTower;
use opclass::{IndexSpec, Kinds};
use pg_bytes::IndexImage;
use shared_tape::Record;
use std::alloc::{AllocError, Global};
use std::marker::Model;

/// Packs sorted rows into the file of a B-tree, row by row. Once memory has run out, it takes and
/// gives nothing more.
#[derive(Debug, Drop)]
pub struct Packer {
    rows: Grouper,
    leaves: OpenLeaves,
    spent: bool,
}

impl Model for Packer {
    ghost use Rattle.std.specs.Prelude.{◌≡◌, false};
    ghost use Rattle.btree_pack.specs.Pass.Taken.{AreReady, IsReady};
    ghost use Rattle.btree_pack.specs.Pass.Put.{Kept};

    ghost Value = { Kept };

    ghost view = { λ packer. record {
      rows = packer.rows;
      leaves = packer.leaves;
      spent = packer.spent;
    } };

    ghost invariant = { λ packer. packer.spent ≡ false
        → IsReady packer.rows × AreReady packer.rows.kinds packer.rows.keys packer.leaves };
}

impl Packer {
    /// A packer without rows, for an index with these columns, the keys first. An error means that
    /// no memory was left.
    pub fn new(alloc: Global, spec: &IndexSpec, kinds: Kinds) -> Result<Packer, AllocError>
        requires { AreColumnsOf spec.now kinds }
        ensures { IfOk result (HasPut spec.now kinds []) }
    {
        let tower = OpenTower::new(alloc, spec.fillfactor);
        Ok(Packer {
            rows: Grouper::new(alloc, spec, kinds),
            leaves: OpenLeaves { tower, last: None },
            spent: false,
        })
    }

    /// Puts a row behind the others, which come in their order. An error means that no memory was
    /// left, and then every later call answers the same.
    pub fn put(&mut self, mut row: Record) -> Result<(), AllocError>
        requires { Takes self.old (row_of row) }
        ensures ok { OnOk result ((spec : IndexSpec) → (kinds : List ColType) → (rows : List Row)
            → HasPut spec kinds rows self.old
            → HasPut spec kinds (rows ++ row_of row ∷ []) self.new) }
        ensures err { OnErr result (IsSpent self.new) }
        ensures spent { IsSpent self.old → IsErr result }
    {
        self.put_from(&mut row)
    }

    /// Puts a row behind the others, as `put` does, out of a record of its caller's. On return the
    /// record holds spare buffers for the next row.
    pub fn put_from(&mut self, row: &mut Record) -> Result<(), AllocError>
        requires { Takes self.old (row_of row.old) }
        ensures ok { OnOk result ((spec : IndexSpec) → (kinds : List ColType) → (rows : List Row)
            → HasPut spec kinds rows self.old
            → HasPut spec kinds (rows ++ row_of row.old ∷ []) self.new) }
        ensures err { OnErr result (IsSpent self.new) }
        ensures spent { IsSpent self.old → IsErr result }
    {
        if self.spent {
            return Err(AllocError);
        }
        self.spent = true;
        put_row(&mut self.rows, &mut self.leaves, row)?;
        self.spent = false;
        Ok(())
    }

    /// The file of the rows that were put. An error means that no memory was left.
    pub fn finish(self) -> Result<IndexImage, AllocError>
        ensures file { IfOk result (λ file.
            (spec : IndexSpec) → (kinds : List ColType) → (rows : List Row)
            → HasPut spec kinds rows self
            → file ≡ btree_file (images_of kinds (length spec.keys)) spec rows) }
        ensures spent { IsSpent self → IsErr result }
    {
        let Packer {
            rows,
            leaves,
            spent,
        } = self;
        if spent {
            return Err(AllocError);
        }
        let file = finish_rows(rows, leaves)?;
        Ok(file)
    }
}

// One row more. The group that it doesn't join goes to the leaves.
fn put_row(rows: &mut Grouper, leaves: &mut OpenLeaves, row: &mut Record) -> Result<(), AllocError>
    requires rows { IsReady rows.old }
    requires leaves { AreReady rows.old.kinds rows.old.keys leaves.old }
    requires row { IsRowOf rows.old.kinds rows.old.keys (row_of row.old) }
    ensures rows { OnOk result (IsReady rows.new) }
    ensures leaves { OnOk result (AreReady rows.new.kinds rows.new.keys leaves.new) }
    ensures packed { OnOk result ((put : List Row) → HasPacked put rows.old leaves.old
        → HasPacked (put ++ row_of row.old ∷ []) rows.new leaves.new) }
    ensures same { OnOk result (IsOfOneIndex rows.old rows.new) }
    ensures fillfactor { OnOk result (fillfactor_of leaves.new.tower
        ≡ fillfactor_of leaves.old.tower) }
{
    let Some(group) = rows.take(row)? else {
        return Ok(());
    };
    leaves.bring(group, rows)?;
    Ok(())
}

// The last group goes to the leaves.
fn put_last(rows: &mut Grouper, leaves: &mut OpenLeaves) -> Result<(), AllocError>
    requires rows { IsReady rows.old }
    requires leaves { AreReady rows.old.kinds rows.old.keys leaves.old }
    ensures packed { OnOk result ((put : List Row) → HasPacked put rows.old leaves.old
        → HasPackedAll put rows.old leaves.new) }
    ensures same { OnOk result (IsOfOneIndex rows.old rows.new) }
    ensures fillfactor { OnOk result (fillfactor_of leaves.new.tower
        ≡ fillfactor_of leaves.old.tower) }
{
    let Some(group) = rows.take_last()? else {
        return Ok(());
    };
    leaves.bring(group, rows)?;
    Ok(())
}

// The file of the rows that were taken.
fn finish_rows(mut rows: Grouper, mut leaves: OpenLeaves) -> Result<IndexImage, AllocError>
    requires rows { IsReady rows }
    requires leaves { AreReady rows.kinds rows.keys leaves }
    ensures { IfOk result (λ file. (spec : IndexSpec) → (kinds : List ColType) → (put : List Row)
        → HasPut spec kinds put (record { rows = rows; leaves = leaves; spent = false })
        → file ≡ btree_file (images_of kinds (length spec.keys)) spec put) }
{
    put_last(&mut rows, &mut leaves)?;
    let OpenLeaves { tower, .. } = leaves;
    let file = tower.finish(rows.keys == rows.kinds.len())?;
    Ok(file)
}
