use crate::fault::Fault;
use block_claim::Claims;
use std::alloc::Global;

/// How a command ended.
#[derive(Debug, Drop)]
pub struct Ended {
    /// 0, or the fault's number.
    pub status: u8,
    /// None exactly where the status is 0.
    pub fault: Option<Fault>,
    /// Which worker claimed which blocks of the heap, worker by worker: none unless the status is
    /// 0.
    pub claims: Claims,
    /// How many rows were indexed: 0 unless the status is 0.
    pub rows: u64,
    /// How many blocks the index has: 0 unless the status is 0.
    pub blocks: u32,
}

impl Ended {
    ghost use Rattle.std.specs.Prelude.{Some, None};
    ghost use Rattle.pg_index.specs.End.{IsEnd};
    ghost use Rattle.pg_index.specs.Run.{nothing};

    /// The end of a command that wasn't done.
    pub fn refused(alloc: Global, fault: Fault) -> Ended
        ensures { IsEnd (Some fault) nothing result }
    {
        Ended {
            status: fault.status(),
            fault: Some(fault),
            claims: Claims::new(alloc),
            rows: 0,
            blocks: 0,
        }
    }

    /// The end of a build.
    pub fn built(rows: u64, blocks: u32, claims: Claims) -> Ended
        ensures { IsEnd None (record { rows = rows; blocks = blocks; claims = claims }) result }
    {
        Ended {
            status: 0,
            fault: None,
            claims,
            rows,
            blocks,
        }
    }
}
