use pg_bytes::Items;

/// Blocks of a heap that a worker took: so many numbers from a first one on, of which those below
/// the number of blocks are blocks.
#[derive(Clone, Copy, Debug, PartialEq, Eq)]
pub struct Claim {
    pub worker: u32,
    pub first: u64,
    pub size: u32,
}

/// The claims of a scan, seat by seat.
pub type Claims = Items<Claim>;
