ghost use Rattle.std.specs.Prelude.{◌≡◌, ◌<◌, ◌≤◌, IfOk, OnOk, length};
ghost use Rattle.btree_pack.specs.Pass.Packed.{tuple_came};
ghost use Rattle.btree_pack.specs.Pass.Packing.{IsTuple, high_key_room};
ghost use Rattle.btree_pack.specs.Pass.Sight.{fillfactor_of, packing_of};
ghost use Rattle.btree_pack.specs.Pass.Taken.{AreReady, HasBrought, IsDone, last_image};

use crate::grouper::Grouper;
use crate::open_tower::OpenTower;
use crate::row_group::RowGroup;
use std::alloc::AllocError;

/// The open tower, and the group whose tuple came last to its leaves.
#[derive(Debug, Drop)]
pub struct OpenLeaves {
    pub tower: OpenTower,
    pub last: Option<RowGroup>,
}

impl OpenLeaves {
    /// Adds the tuple of a group that is done to the leaves. The grouper has the memory of the
    /// group before then.
    pub fn bring(&mut self, group: RowGroup, rows: &mut Grouper) -> Result<(), AllocError>
        requires ready { AreReady rows.old.kinds rows.old.keys self.old }
        requires group { IsDone rows.old group }
        ensures brought { OnOk result (HasBrought rows.old self.old self.new group) }
        ensures ready { OnOk result (AreReady rows.new.kinds rows.new.keys self.new) }
        ensures rows { OnOk result (rows.new ≡ record rows.old {
          spare = rows.new.spare;
          tuple = rows.new.tuple;
        }) }
    {
        let extra = rows.tuple.len() - group.size as usize;
        self.lay(rows, extra)?;
        if let Some(before) = self.last.replace(group) {
            rows.spare = before.values;
        }
        Ok(())
    }

    // Adds the tuple that the grouper has written.
    fn lay(&mut self, rows: &mut Grouper, extra: usize) -> Result<(), AllocError>
        requires ready { AreReady rows.old.kinds rows.old.keys self.old }
        requires tuple { IsTuple rows.old.tuple.items }
        requires small { length rows.old.tuple.items ≤ 2704 }
        requires extra { extra ≤ 8192 }
        ensures packing { OnOk result (packing_of self.new.tower ≡ tuple_came
            (fillfactor_of self.old.tower) (last_image rows.old.kinds rows.old.keys self.old.last)
            (packing_of self.old.tower) rows.old.tuple.items extra) }
        ensures fillfactor { OnOk result
            (fillfactor_of self.new.tower ≡ fillfactor_of self.old.tower) }
        ensures last { OnOk result (self.new.last ≡ self.old.last) }
        ensures rows { OnOk result (rows.new ≡ record rows.old { tuple = rows.new.tuple }) }
    {
        if self.tower.is_full(rows.tuple.len()) {
            let high_key = self.high_key(rows)?;
            return self.tower.turn(high_key, &mut rows.tuple, extra);
        }
        self.tower.add(&mut rows.tuple, extra)
    }

    // The high key of the open leaf, whose last tuple is that of the last group.
    #[cold]
    #[inline(never)]
    fn high_key(&self, rows: &Grouper) -> Result<Vec<u8>, AllocError>
        requires ready { AreReady rows.now.kinds rows.now.keys self.now }
        requires leaf { 0 < length (packing_of self.now.tower).pages }
        ensures value { IfOk result (λ key.
            key.items ≡ last_image rows.now.kinds rows.now.keys self.now.last) }
        ensures tuple { IfOk result (λ key. IsTuple key.items) }
        ensures room { IfOk result (λ key.
            length key.items ≤ high_key_room (packing_of self.now.tower)) }
    {
        let Some(last) = &self.last else {
            unreachable!();
        };
        let key = last.high_key(rows.alloc, rows.kinds.as_slice(), rows.keys)?;
        Ok(key)
    }
}
