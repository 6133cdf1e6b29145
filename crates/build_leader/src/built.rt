use block_claim::ScanSeat;
use pg_bytes::IndexImage;

/// An index in memory: its file, how many rows and how many pairs of key and row pointer it has,
/// and the seat with the claims of the scan.
#[derive(Drop)]
pub struct Built {
    pub image: IndexImage,
    pub rows: u64,
    pub pairs: u64,
    pub seat: ScanSeat,
}
