//! How many numbers a worker takes at a time (`table_block_parallelscan_startblock_init` and
//! `table_block_parallelscan_nextpage` in `tableam.c`).
ghost use Rattle.std.specs.Prelude.{◌≡◌, ◌*◌, ◌≤◌, ◌<◌, false};
ghost use Rattle.block_claim.specs.Ramp as ramp;

/// The first chunk is about one part in so many of the blocks (`PARALLEL_SEQSCAN_NCHUNKS`).
const CHUNKS: u32 = 2048;

/// The chunk is halved where fewer chunks than this are left (`PARALLEL_SEQSCAN_RAMPDOWN_CHUNKS`).
const LAST_CHUNKS: u64 = 64;

/// No chunk is larger (`PARALLEL_SEQSCAN_MAX_CHUNK_SIZE`).
const LARGEST_CHUNK: u32 = 8192;

/// The chunk that a scan begins with.
pub(crate) fn chunk_at_start(blocks: u32) -> u32
    ensures { result ≡ ramp.chunk_at_start blocks }
{
    let mut chunk = 1;
    while chunk < blocks / CHUNKS && chunk < LARGEST_CHUNK {
        chunk *= 2;
    }
    chunk
}

/// The chunk of a worker's next claim, by its chunk and the last number that it had.
#[tactic(auto, unfolding(crate::specs::Ramp::next_chunk))]
pub(crate) fn next_chunk(blocks: u32, chunk: u32, last: u64) -> u32
    ensures { result
        ≡ ramp.next_chunk blocks (record { chunk = chunk; last = last; done = false }) }
{
    let ramp_down = u64::from(blocks).saturating_sub(LAST_CHUNKS * u64::from(chunk));
    if chunk > 1 && last > ramp_down {
        chunk / 2
    } else {
        chunk
    }
}
