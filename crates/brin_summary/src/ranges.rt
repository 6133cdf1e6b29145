//! What workers know of the ranges of an index.

use crate::summary::Summary;
use pg_bytes::Items;

/// The summary of rows in a range of blocks, which is counted from 0.
#[derive(Debug, Drop)]
pub struct SummedRange {
    pub range: u32,
    pub summary: Summary,
}

/// What one worker knows: each range of which it has rows, once and in order.
pub type SummedRanges = Items<SummedRange>;

/// What each of several workers knows.
pub type RangeParts = Items<SummedRanges>;
