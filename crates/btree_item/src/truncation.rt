ghost use Rattle.std.specs.Prelude.{◌≡◌, ◌≢◌, ◌+◌, ◌<◌, ◌≤◌, ◌↔◌, length, take, IsTrue};
ghost use Rattle.btree_item.specs.Truncation.{KeepsUpToDifference};
ghost use Rattle.std.specs.Ordering.{is_eq};
ghost use Rattle.std.specs.Cmp.Lexicographic.{slice_cmp};
ghost use Rattle.opclass.specs.Order.{elem_cmp};

use opclass::{Elem, KeyList, KeyVal, cmp_elem};
use std::cmp::Ordering;

/// How many attributes the pivot between two neighbours keeps (`_bt_keep_natts` of `nbtutils.c`):
/// up to the first key in which the two differ, or one more than there are keys where none does,
/// which stands for the row pointer.
pub fn truncate(left: &KeyList, right: &KeyList) -> u16
    requires columns { length left.now ≡ length right.now }
    requires few { length right.now ≤ 32 }
    ensures { KeepsUpToDifference left.now right.now result }
{
    alike(left.as_slice(), right.as_slice()) as u16 + 1
}

// How many values two lists begin with alike.
fn alike(left: &[KeyVal], right: &[KeyVal]) -> usize
    requires { length left.now ≡ length right.now }
    ensures within { result ≤ length right.now }
    ensures alike { take result left.now ≡ take result right.now }
    ensures apart { result < length right.now
        → take (result + 1) left.now ≢ take (result + 1) right.now }
{
    for at in 0..left.len() {
        if !are_same(&left[at], &right[at]) {
            return at;
        }
    }
    left.len()
}

fn are_same(a: &KeyVal, b: &KeyVal) -> bool
    ensures { IsTrue result ↔ (a.now ≡ b.now) }
{
    match (a, b) {
        (KeyVal::Nil, KeyVal::Nil) => true,
        (KeyVal::Num(a), KeyVal::Num(b)) => a == b,
        (KeyVal::Raw(a), KeyVal::Raw(b)) => a.as_slice() == b.as_slice(),
        (KeyVal::Items(a), KeyVal::Items(b)) => are_same_elements(a.as_slice(), b.as_slice()),
        _ => false,
    }
}

// Whether two arrays have the same elements.
fn are_same_elements(mut a: &[Elem], mut b: &[Elem]) -> bool
    ensures { result ≡ is_eq (slice_cmp elem_cmp a.entry.now b.entry.now) }
{
    while let [first, more @ ..] = a {
        let [second, others @ ..] = b else {
            return false;
        };
        match cmp_elem(first, second) {
            Ordering::Equal => {}
            _ => return false,
        }
        a = more;
        b = others;
    }
    b.is_empty()
}
