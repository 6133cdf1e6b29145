use block_claim::ScanSeat;
use brin_summary::RangeParts;
use shared_tape::Tapes;

/// A heap that was scanned: the tape of each worker, by its number, of which the leader's is the
/// first, and its ranges; the seat into which all others were joined; and how many rows there are.
/// For a BRIN index the tapes have no run, for the others no worker has a range.
#[derive(Drop)]
pub struct Scanned {
    pub tapes: Tapes,
    pub ranges: RangeParts,
    pub seat: ScanSeat,
    pub rows: u64,
}
