use crate::leaves::Leaves;
use crate::row_group::RowGroup;
use opclass::Kinds;
use std::marker::Model;

/// The leaf tuples of sorted rows, written apart from the pages.
#[derive(Debug, Drop)]
pub struct LeafRun {
    pub(crate) kinds: Kinds,
    pub(crate) keys: usize,
    pub(crate) leaves: Leaves,
    // The group of the first tuple, and that of the last where it is another.
    pub(crate) first: Option<RowGroup>,
    pub(crate) last: Option<RowGroup>,
}

impl Model for LeafRun {
    ghost use Rattle.btree_pack.specs.Pass.Run.{IsRun, RunView};

    ghost Value = { RunView };

    ghost view = { λ run. record {
      kinds = run.kinds;
      keys = run.keys;
      leaves = run.leaves;
      first = run.first;
      last = run.last;
    } };

    ghost invariant = { λ run. IsRun (record {
      kinds = run.kinds;
      keys = run.keys;
      leaves = run.leaves;
      first = run.first;
      last = run.last;
    }) };
}
