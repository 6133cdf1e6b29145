ghost use Rattle.block_claim.specs.Laws.{EachBlockIsClaimedOnce, LegalClaimsAreARun, LegalClaimsAreFew};
ghost use Rattle.block_claim.specs.Laws.{FirstChunkIsAPowerOfTwo};

/// Every block of a scan with a seat lies in exactly one claim of a legal list. A law of the
/// definitions: the call does nothing.
pub fn each_block_is_claimed_once()
    ensures { EachBlockIsClaimedOnce }
{}

/// Legal claims in the order of their first numbers are a run of the machine: one event after
/// another makes them. A law of the definitions: the call does nothing.
pub fn legal_claims_are_a_run()
    ensures { LegalClaimsAreARun }
{}

/// A legal list has at most as many claims as there are blocks and seats together. A law of the
/// definitions: the call does nothing.
pub fn legal_claims_are_few()
    ensures { LegalClaimsAreFew }
{}

/// The chunk that a scan begins with is the least power of two that isn't below a part in 2,048 of
/// the blocks, at most 8,192. A law of the definitions: the call does nothing.
pub fn first_chunk_is_a_power_of_two()
    ensures { FirstChunkIsAPowerOfTwo }
{}
