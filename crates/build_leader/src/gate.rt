use block_claim::Claim;

/// What a worker passes after each claim that has a block, and before it reads the claim's first
/// page. It has no meaning for the build: tests watch workers through it.
pub trait Gate {
    fn passed(&self, worker: u32, claim: Claim);
}

/// The gate that does nothing.
#[derive(Clone, Copy, Debug, PartialEq, Eq)]
pub struct NoGate;

impl Gate for NoGate {
    fn passed(&self, _worker: u32, _claim: Claim) {}
}
