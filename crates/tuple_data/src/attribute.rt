ghost use Rattle.std.specs.Prelude.{◌≡◌, IfOk};
ghost use Rattle.tuple_data.specs.Reading.{value_of};

use opclass::KeyVal;
use pg_bytes::Items;
use std::alloc::{AllocError, Global};

/// The value of an attribute, whose bytes are those of the tuple.
#[derive(Clone, Copy, Debug)]
pub enum Attribute<'a> {
    Null,
    Number(i64),
    Bytes(&'a [u8]),
}

impl Attribute<'_> {
    /// The same value in memory of its own.
    pub fn copy(self, alloc: Global) -> Result<KeyVal, AllocError>
        ensures { IfOk result (λ value. value ≡ value_of self.entry) }
    {
        Ok(match self {
            Attribute::Null => KeyVal::Nil,
            Attribute::Number(number) => KeyVal::Num(number),
            Attribute::Bytes(bytes) => KeyVal::Raw(Items::from_vec(Vec::from_slice(alloc, bytes)?)),
        })
    }
}
