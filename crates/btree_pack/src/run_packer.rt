ghost use Rattle.std.specs.Prelude.{◌≡◌, ◌++◌, List, [], IfOk, IsErr, OnErr, OnOk, length};
ghost use Rattle.opclass.specs.declared.spec.IndexSpec.{IndexSpec};
ghost use Rattle.opclass.specs.declared.types.ColType.{ColType};
ghost use Rattle.btree_pack.specs.Groups.{KeysPart, Row};
ghost use Rattle.btree_pack.specs.Images.{images_of};
ghost use Rattle.btree_pack.specs.Nodes.{btree_file};
ghost use Rattle.btree_pack.specs.Pass.Added.{AddsRun, AreRunsReady, HasAdded, HasAddedAll, IsAddingSpent, KeepsIndex};
ghost use Rattle.btree_pack.specs.Pass.Put.{AreColumnsOf};
ghost use Rattle.btree_pack.specs.Pass.Run.{AreLeavesOf, IsRun};

use crate::leaf_run::LeafRun;
use crate::open_tower::OpenTower;
use crate::run_leaves::RunLeaves;
use opclass::{IndexSpec, Kinds};
use pg_bytes::IndexImage;
use std::alloc::{AllocError, Global};
use std::marker::Model;

/// Packs runs of leaf tuples into the file of a B-tree, run by run. Once memory has run out, it
/// takes and gives nothing more.
#[derive(Debug, Drop)]
pub struct RunPacker {
    runs: RunLeaves,
    spent: bool,
}

impl Model for RunPacker {
    ghost use Rattle.std.specs.Prelude.{◌≡◌, false};
    ghost use Rattle.btree_pack.specs.Pass.Added.{Adding, AreRunsReady};

    ghost Value = { Adding };

    ghost view = { λ packer. record { runs = packer.runs; spent = packer.spent } };

    ghost invariant = { λ packer. packer.spent ≡ false → AreRunsReady packer.runs };
}

impl RunPacker {
    /// A packer without runs, for an index with these columns, the keys first. An error means that
    /// no memory was left.
    pub fn new(alloc: Global, spec: &IndexSpec, kinds: Kinds) -> Result<RunPacker, AllocError>
        requires { AreColumnsOf spec.now kinds }
        ensures { IfOk result (HasAdded spec.now kinds []) }
    {
        let runs = RunLeaves {
            alloc,
            keys: spec.keys.len(),
            kinds,
            tower: OpenTower::new(alloc, spec.fillfactor),
            last: None,
            high_key: Vec::new(alloc),
            tuple: Vec::new(alloc),
        };
        Ok(RunPacker { runs, spent: false })
    }

    /// Adds a run behind the others, whose rows come in their order: rows of one key stand in one
    /// run. An error means that no memory was left, and then every later call answers the same.
    pub fn add(&mut self, run: LeafRun) -> Result<(), AllocError>
        requires { AddsRun self.old run }
        ensures ok { OnOk result ((spec : IndexSpec) → (kinds : List ColType)
            → (rows more : List Row) → HasAdded spec kinds rows self.old
            → AreLeavesOf spec kinds more run → KeysPart rows more
            → HasAdded spec kinds (rows ++ more) self.new) }
        ensures same { OnOk result (KeepsIndex self.old self.new) }
        ensures err { OnErr result (IsAddingSpent self.new) }
        ensures spent { IsAddingSpent self.old → IsErr result }
    {
        if self.spent {
            return Err(AllocError);
        }
        self.spent = true;
        add_run(&mut self.runs, run)?;
        self.spent = false;
        Ok(())
    }

    /// The file of the rows of all runs. An error means that no memory was left.
    pub fn finish(self) -> Result<IndexImage, AllocError>
        ensures file { IfOk result (λ file.
            (spec : IndexSpec) → (kinds : List ColType) → (rows : List Row)
            → HasAdded spec kinds rows self
            → file ≡ btree_file (images_of kinds (length spec.keys)) spec rows) }
        ensures spent { IsAddingSpent self → IsErr result }
    {
        let RunPacker { runs, spent } = self;
        if spent {
            return Err(AllocError);
        }
        let RunLeaves {
            tower,
            kinds,
            keys,
            ..
        } = runs;
        let file = tower.finish(keys == kinds.len())?;
        Ok(file)
    }
}

// Adds the tuples of a run, if it has some.
fn add_run(runs: &mut RunLeaves, run: LeafRun) -> Result<(), AllocError>
    requires ready { AreRunsReady runs.old }
    requires kinds { run.kinds ≡ runs.old.kinds }
    requires keys { run.keys ≡ runs.old.keys }
    ensures ready { OnOk result (AreRunsReady runs.new) }
    ensures added { OnOk result (HasAddedAll runs.old runs.new run) }
    ensures run { IsRun run }
{
    let LeafRun {
        leaves,
        first,
        last,
        ..
    } = run;
    let Some(first) = first else {
        return Ok(());
    };
    runs.add(&leaves, first, last)
}
