ghost use Rattle.std.specs.Prelude.{◌≡◌, ◌++◌, ◌<◌, ◌≤◌, ◌^◌, IfSome, List, MatchOption, OnErr, OnOk, ℕ};
ghost use Rattle.posting_tree.specs.Pass.{IsInFront, StartsWithDelta, StartsWithGroups};
ghost use Rattle.posting_tree.specs.Segments.{varbyte};

use std::alloc::AllocError;

// The most bytes that a number takes (`MaxBytesPerInteger` of `ginpostinglist.c`).
pub(crate) const MOST_BYTES: usize = 7;

// How many values seven bits have, and what the top bit of a byte counts.
const GROUP: u64 = 128;

// Puts a number in bytes of seven bits behind the bytes of a buffer (`encode_varbyte` of
// `ginpostinglist.c`). On want of memory the buffer's bytes stay in front.
pub(crate) fn put_varbyte(out: &mut Vec<u8>, x: u64) -> Result<(), AllocError>
    requires { x < 2 ^ 49 }
    ensures ok { OnOk result (out.new.items ≡ out.old.items ++ varbyte x) }
    ensures err { OnErr result (IsInFront out.old.items out.new.items) }
{
    let mut rest = x;
    while rest >= GROUP {
        out.push((rest % GROUP + GROUP) as u8)?;
        rest /= GROUP;
    }
    out.push(rest as u8)?;
    Ok(())
}

// The one number whose bytes stand at the front of bytes, and the bytes behind them
// (`decode_varbyte` of `ginpostinglist.c`). None comes exactly where there is none.
pub(crate) fn read_varbyte(bytes: &[u8]) -> Option<(u64, &[u8])>
    ensures { MatchOption result
        ((x : ℕ) (left : List ℕ) → StartsWithDelta bytes.now x left → ⊥)
        (λ read. StartsWithDelta bytes.now read.0 read.1.now) }
{
    read_groups(bytes, MOST_BYTES)
}

// The same, where the number takes at most so many bytes.
fn read_groups(bytes: &[u8], most: usize) -> Option<(u64, &[u8])>
    requires { most ≤ 7 }
    ensures read { MatchOption result
        ((x : ℕ) (left : List ℕ) → StartsWithGroups most bytes.now x left → ⊥)
        (λ read. StartsWithGroups most bytes.now read.0 read.1.now) }
    ensures bound { IfSome result (λ read. read.0 < 2 ^ 49) }
{
    let [byte, behind @ ..] = bytes else {
        return None;
    };
    if most == 0 {
        return None;
    }
    let low = u64::from(*byte);
    if low < GROUP {
        return Some((low, behind));
    }
    let (high, left) = read_groups(behind, most - 1)?;
    if high == 0 {
        return None;
    }
    Some((low - GROUP + high * GROUP, left))
}
