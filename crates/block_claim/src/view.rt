use crate::claim::Claim;
use std::collections::LinkedList;

/// For how many blocks and seats a scan was opened.
#[derive(Clone, Copy)]
pub struct Extent {
    pub blocks: u32,
    pub seats: u32,
}

/// What a seat knows. It exists in proofs alone, and no value of it is made.
pub struct View {
    /// The scan's blocks and seats.
    pub blocks: u32,
    pub seats: u32,
    /// The numbers that it answers for.
    pub workers: LinkedList<u32>,
    /// Its part of the right to know the whole, and how many claims it may have.
    pub share: u64,
    pub claims: LinkedList<Claim>,
    /// The blocks that it reported.
    pub reports: LinkedList<u32>,
    /// A floor that it has seen.
    pub seen: u64,
}
