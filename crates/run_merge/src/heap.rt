ghost use Rattle.std.specs.Prelude.{◌≡◌, ◌+◌, ◌*◌, ◌<◌, ◌≤◌, All, drop, length};
ghost use Rattle.std.specs.List.Sorted.{IsPermutation};
ghost use Rattle.std.specs.Slice.Heapsort.{IsNotBelowChildren};
ghost use Rattle.run_merge.specs.Heads.{AreHeads, IsHead, IsHeapFrom, is_behind, left_of};

use crate::head::Head;
use shared_tape::Tapes;

/// Brings heads into a heap: none is behind one of its two children.
pub(crate) fn make_heap(tapes: &Tapes, heads: &mut [Head])
    requires { All (IsHead tapes.now) heads.old }
    ensures moved { IsPermutation heads.old heads.new }
    ensures heap { AreHeads tapes.now heads.new }
{
    let mut root = heads.len() / 2;
    while 0 < root {
        root -= 1;
        sift_down(tapes, heads, root);
    }
}

/// Moves the first head of a heap to its next record, or takes it out after its last, and brings
/// the heads into a heap again.
pub(crate) fn move_on(tapes: &Tapes, heads: &mut Vec<Head>)
    requires some { 0 < length heads.old.items }
    requires heap { AreHeads tapes.now heads.old.items }
    ensures left { IsPermutation (drop 1 (left_of tapes.now heads.old.items))
        (left_of tapes.now heads.new.items) }
    ensures heap { AreHeads tapes.now heads.new.items }
{
    replace_first(tapes, heads);
    sift_down(tapes, heads, 0);
}

// Moves the first head to its next record. After its last record the last head takes its place.
fn replace_first(tapes: &Tapes, heads: &mut Vec<Head>)
    requires some { 0 < length heads.old.items }
    requires heap { AreHeads tapes.now heads.old.items }
    ensures left { IsPermutation (drop 1 (left_of tapes.now heads.old.items))
        (left_of tapes.now heads.new.items) }
    ensures each { All (IsHead tapes.now) heads.new.items }
    ensures heap { IsHeapFrom tapes.now heads.new.items 1 }
{
    let first = heads[0];
    let next = first.at + 1;
    if next < first.end {
        heads[0] = Head::new(tapes, first.tape, first.run, next, first.end);
    } else {
        heads.swap_remove(0);
    }
}

// Moves a head down past the children that it is behind.
fn sift_down(tapes: &Tapes, heads: &mut [Head], root: usize)
    requires each { All (IsHead tapes.now) heads.old }
    requires heap { IsHeapFrom tapes.now heads.old (root + 1) }
    ensures moved { IsPermutation heads.old heads.new }
    ensures each { All (IsHead tapes.now) heads.new }
    ensures heap { IsHeapFrom tapes.now heads.new root }
{
    let mut hole = root;
    while hole < heads.len() / 2 {
        let child = first_child(tapes, heads, hole);
        if !heads[hole].is_behind(&heads[child], tapes) {
            return;
        }
        heads.swap(hole, child);
        hole = child;
    }
}

// The child of a head that isn't behind the other one. Which one it is can't be foreseen, so it is
// counted and not branched upon.
fn first_child(tapes: &Tapes, heads: &[Head], parent: usize) -> usize
    requires each { All (IsHead tapes.now) heads.now }
    requires some { parent * 2 + 1 < length heads.now }
    ensures after { parent * 2 + 1 ≤ result }
    ensures child { result ≤ parent * 2 + 2 }
    ensures within { result < length heads.now }
    ensures first { IsNotBelowChildren (is_behind tapes.now) heads.now parent result
        (length heads.now) }
{
    let left = parent * 2 + 1;
    let right = left + 1;
    if right < heads.len() {
        left + heads[left].is_behind(&heads[right], tapes) as usize
    } else {
        left
    }
}
