ghost use Rattle.std.specs.Prelude.{◌≡◌, ◌<◌, ◌≤◌, All, IfOk, IfSome, OnOk, drop, length, slice_get};
ghost use Rattle.btree_pack.specs.Pass.Added.{AreRunsReady, HasAddedRun, KeepsKeys, last_key, leaves_came};
ghost use Rattle.btree_pack.specs.Pass.Buffer.{IsPlaceIn, leaves_between};
ghost use Rattle.btree_pack.specs.Pass.Grouped.{IsGroupOf};
ghost use Rattle.btree_pack.specs.Pass.Packed.{tuple_came};
ghost use Rattle.btree_pack.specs.Pass.Packing.{IsHighKey};
ghost use Rattle.btree_pack.specs.Pass.Run.{IsLeaf, IsOfTheFirst};
ghost use Rattle.btree_pack.specs.Pass.Sight.{fillfactor_of, packing_of};
ghost use Rattle.btree_pack.specs.Pass.Taken.{LeafIsFirst};

use crate::leaves::{FIRST, LeafPlace, Leaves};
use crate::open_tower::OpenTower;
use crate::row_group::RowGroup;
use btree_item::truncate;
use opclass::Kinds;
use std::alloc::{AllocError, Global};

/// The open tower, and what the runs ended with that came to its leaves.
#[derive(Debug, Drop)]
pub struct RunLeaves {
    pub alloc: Global,
    pub kinds: Kinds,
    pub keys: usize,
    pub tower: OpenTower,
    // The group of the last tuple, and its separator.
    pub last: Option<RowGroup>,
    pub high_key: Vec<u8>,
    // The tuple that goes to the leaves, for its memory.
    pub tuple: Vec<u8>,
}

impl RunLeaves {
    /// Adds the tuples of a run to the leaves, of which these are the first group and, where it is
    /// another, the last.
    pub fn add(
        &mut self,
        leaves: &Leaves,
        mut first: RowGroup,
        last: Option<RowGroup>,
    ) -> Result<(), AllocError>
        requires ready { AreRunsReady self.old }
        requires leaves { All IsLeaf leaves.now }
        requires first { IsGroupOf self.old.kinds self.old.keys first }
        requires begin { IsOfTheFirst first leaves.now }
        requires last { IfSome last (IsGroupOf self.old.kinds self.old.keys) }
        ensures ready { OnOk result (AreRunsReady self.new) }
        ensures added { OnOk result (HasAddedRun self.old self.new leaves.now first last) }
    {
        first.kept = self.kept_of(&first);
        first.pointer = None;
        let separator = first.high_key(self.alloc, self.kinds.as_slice(), self.keys)?;
        self.lay_first(leaves)?;
        self.lay_others(leaves, &separator)?;
        self.last = last.or(Some(first));
        Ok(())
    }

    // How many keys a separator keeps between the last group and the first one of a run, which
    // begins at another key. Nothing is before the first run.
    fn kept_of(&self, first: &RowGroup) -> u16
        requires ready { AreRunsReady self.now }
        requires first { IsGroupOf self.now.kinds self.now.keys first.now }
        ensures kept { KeepsKeys self.now.keys self.now.last first.now result }
        ensures few { result ≤ self.now.keys }
    {
        let Some(before) = &self.last else {
            return 0;
        };
        truncate(&before.values, &first.values).min(self.keys as u16)
    }

    // The first tuple of a run comes to the leaves.
    fn lay_first(&mut self, leaves: &Leaves) -> Result<(), AllocError>
        requires ready { AreRunsReady self.old }
        requires leaves { All IsLeaf leaves.now }
        requires some { 0 < length leaves.now }
        ensures laid { OnOk result (IfSome (slice_get leaves.now 0) (λ leaf.
            packing_of self.new.tower ≡ tuple_came (fillfactor_of self.old.tower)
            self.old.high_key.items (packing_of self.old.tower) leaf.tuple leaf.extra)) }
        ensures fillfactor { OnOk result
            (fillfactor_of self.new.tower ≡ fillfactor_of self.old.tower) }
        ensures others { OnOk result (self.new ≡ record self.old {
          tower = self.new.tower;
          tuple = self.new.tuple;
        }) }
    {
        let high_key = &self.high_key;
        self.tower.lay(
            &mut self.tuple,
            leaves.tuple(FIRST),
            leaves.extra(0),
            high_key,
        )
    }

    // The others come. The separator of the first is this one.
    fn lay_others(&mut self, leaves: &Leaves, separator: &[u8]) -> Result<(), AllocError>
        requires some { 0 < length leaves.now }
        requires leaf { LeafIsFirst (packing_of self.old.tower).pages }
        requires leaves { All IsLeaf leaves.now }
        requires separator { IsHighKey separator.now (packing_of self.old.tower) }
        ensures laid { OnOk result (packing_of self.new.tower
            ≡ leaves_came (fillfactor_of self.old.tower) separator.now (packing_of self.old.tower)
            (drop 1 leaves.now)) }
        ensures high_key { OnOk result (self.new.high_key.items
            ≡ last_key separator.now (drop 1 leaves.now)) }
        ensures leaf { OnOk result (LeafIsFirst (packing_of self.new.tower).pages) }
        ensures room { OnOk result (IsHighKey self.new.high_key.items
            (packing_of self.new.tower)) }
        ensures fillfactor { OnOk result
            (fillfactor_of self.new.tower ≡ fillfactor_of self.old.tower) }
        ensures others { OnOk result (self.new ≡ record self.old {
          tower = self.new.tower;
          high_key = self.new.high_key;
          tuple = self.new.tuple;
        }) }
    {
        let end = leaves.len() - 1;
        let mut last = FIRST;
        let mut high_key = separator;
        while last.number < end {
            let next = leaves.behind(last, 1);
            last = self.lay_page(leaves, next, high_key)?;
            high_key = leaves.separator(last);
        }
        self.high_key.clear();
        self.high_key.extend_from_slice(high_key)?;
        Ok(())
    }

    // The tuple at a place comes, and those behind it that join the leaf with it, and the place of
    // the last of them is given.
    fn lay_page(
        &mut self,
        leaves: &Leaves,
        place: LeafPlace,
        high_key: &[u8],
    ) -> Result<LeafPlace, AllocError>
        requires leaf { LeafIsFirst (packing_of self.old.tower).pages }
        requires leaves { All IsLeaf leaves.now }
        requires place { IsPlaceIn leaves.now place }
        requires high_key { IsHighKey high_key.now (packing_of self.old.tower) }
        ensures last { IfOk result (IsPlaceIn leaves.now) }
        ensures order { IfOk result (λ last. place.number ≤ last.number) }
        ensures laid { IfOk result (λ last. packing_of self.new.tower ≡ leaves_came
            (fillfactor_of self.old.tower) high_key.now (packing_of self.old.tower)
            (leaves_between place.number last.number leaves.now)) }
        ensures fillfactor { OnOk result
            (fillfactor_of self.new.tower ≡ fillfactor_of self.old.tower) }
        ensures others { OnOk result (self.new ≡ record self.old {
          tower = self.new.tower;
          tuple = self.new.tuple;
        }) }
    {
        let tuple = leaves.tuple(place);
        let extra = leaves.extra(place.number);
        self.tower.lay(&mut self.tuple, tuple, extra, high_key)?;
        let first = leaves.behind(place, 1);
        let count = self.tower.joining(leaves, first.number);
        if count == 0 {
            return Ok(place);
        }
        let last = leaves.behind(place, count);
        self.tower.lay_all(&mut self.tuple, leaves, first, last)?;
        Ok(last)
    }
}
