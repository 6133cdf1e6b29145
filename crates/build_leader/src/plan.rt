use opclass::{IndexSpec, Table};

/// What is built and how: an index over a table, by so many workers beside the leader, in sorted
/// runs of at most so many rows.
#[derive(Debug, Drop)]
pub struct Plan {
    pub table: Table,
    pub spec: IndexSpec,
    pub workers: u32,
    pub run_rows: u32,
}
