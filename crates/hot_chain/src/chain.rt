ghost use Rattle.std.specs.Prelude.{◌≡◌, ◌↔◌, IsTrue, IfNone, IfSome};
ghost use Rattle.heap_page.specs.Line.{IsLine, IsNormal};
ghost use Rattle.hot_chain.specs.Chain.{Follows, IsHead, IsLast, IsNoStart, is_hot_updated};

use heap_page::{Header, View};

// The item with which the start's chain begins. None comes where the line pointer is no start.
pub(crate) fn head_of(view: &View, start: u16) -> Option<u16>
    requires { IsLine view.now.bytes start }
    ensures head { IfSome result (IsHead view.now.bytes start) }
    ensures none { IfNone result (IsNoStart view.now.bytes start) }
{
    if view.is_normal(start) {
        if view.header(start).is_heap_only() {
            None
        } else {
            Some(start)
        }
    } else if view.is_redirect(start) {
        let target = view.line(start).offset;
        if is_normal_item(view, target) {
            Some(target)
        } else {
            None
        }
    } else {
        None
    }
}

// The item that the chain goes on with behind this one. As in `heap_get_root_tuples`, it has to be
// a normal item that this one's updater inserted: else the line pointer was used again. The ctid's
// block isn't looked at, since a HOT update stays on its page.
pub(crate) fn next_of(view: &View, item: u16) -> Option<u16>
    requires { IsNormal view.now.bytes item }
    ensures next { IfSome result (Follows view.now.bytes item) }
    ensures last { IfNone result (IsLast view.now.bytes item) }
{
    let header = view.header(item);
    let next = header.ctid.offset;
    if is_hot_updated(&header)
        && is_normal_item(view, next)
        && view.header(next).xmin == header.xmax
    {
        Some(next)
    } else {
        None
    }
}

// Whether the number is that of a line pointer which leads to a tuple.
fn is_normal_item(view: &View, number: u16) -> bool
    ensures { IsTrue result ↔ IsNormal view.now.bytes number }
{
    number > 0 && number <= view.lines() && view.is_normal(number)
}

// Whether the tuple's newer version is a heap-only tuple of its page (`HeapTupleHeaderIsHotUpdated`
// of `htup_details.h`).
fn is_hot_updated(header: &Header) -> bool
    ensures { result ≡ is_hot_updated header.now }
{
    header.infomask2_bits().is_hot_updated()
        && !header.infomask_bits().xmax_invalid()
        && !header.infomask_bits().xmin_aborted()
}
