ghost use Rattle.std.specs.Prelude.{◌≡◌, ◌+◌, ◌^◌, ◌<◌, ◌≤◌, IfOk, Ok, length, drop};
ghost use Rattle.opclass.specs.Types.{facts_of};
ghost use Rattle.heap_row.specs.Attribute.{attribute_at, start_at};
ghost use Rattle.heap_row.specs.Varlena.{stored_at};

use crate::bytes::{from_place, rounded_up};
use crate::fault::RowCause;
use crate::varlena::{Stored, stored_at};
use opclass::{ColType, Width};

// An attribute of a tuple: where it begins in the tuple's data, and how it is stored.
#[derive(Clone, Copy, Debug, PartialEq, Eq)]
pub struct Attribute {
    pub start: usize,
    pub stored: Stored,
}

impl Attribute {
    // Where the attribute ends.
    pub(crate) fn end(&self) -> usize
        requires { self.now.start + self.now.stored.total < 2 ^ 64 }
        ensures { result ≡ self.now.start + self.now.stored.total }
    {
        self.start + self.stored.total
    }
}

// The attribute of this type that stands at a place or behind it (`att_align_pointer` of
// tupmacs.h).
pub(crate) fn attribute_at(kind: ColType, body: &[u8], place: usize) -> Result<Attribute, RowCause>
    requires { place ≤ length body.now }
    ensures value { result ≡ attribute_at kind body.now place }
    ensures stored { IfOk result (λ attribute.
        stored_at (facts_of kind).width (drop attribute.start body.now) ≡ Ok attribute.stored) }
    ensures inside { IfOk result (λ attribute.
        attribute.start + attribute.stored.total ≤ length body.now) }
{
    let start = start_at(kind, body, place)?;
    let stored = stored_at(kind.facts().width, from_place(body, start))?;
    Ok(Attribute { start, stored })
}

// Where the attribute begins. One with a header may stand unaligned: a byte that isn't zero is its
// header, and a zero is padding, or the header of an aligned one.
fn start_at(kind: ColType, body: &[u8], place: usize) -> Result<usize, RowCause>
    requires { place ≤ length body.now }
    ensures { result
        ≡ start_at (facts_of kind).width (facts_of kind).alignment body.now place }
{
    let facts = kind.facts();
    if facts.width == Width::Variable {
        if place >= body.len() {
            return Err(RowCause::PastEnd);
        }
        if body[place] != 0 {
            return Ok(place);
        }
    }
    Ok(rounded_up(usize::from(facts.alignment), place))
}
