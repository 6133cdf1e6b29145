ghost use Rattle.std.specs.Prelude.{◌≡◌, Ok, length};
ghost use Rattle.opclass.specs.Types.{facts_of};
ghost use Rattle.heap_row.specs.Datum.{datum_of, plain_datum, value_of_elem};
ghost use Rattle.heap_row.specs.Pass.{Gives, IsWidthOf};
ghost use Rattle.heap_row.specs.Varlena.{stored_at};

use crate::array::read_array;
use crate::fault::{ReadFault, RowCause};
use crate::scalar::scalar_of;
use crate::varlena::{Storage, Stored};
use opclass::{ColType, Elem, Form, KeyVal};
use std::alloc::Global;

// The value of a column of this type that begins where the bytes do and is stored so, in the memory
// of one that is no longer needed.
pub(crate) fn datum_of(
    alloc: Global,
    kind: ColType,
    stored: &Stored,
    bytes: &[u8],
    spare: Option<KeyVal>,
) -> Result<KeyVal, ReadFault>
    requires { stored_at (facts_of kind).width bytes.now ≡ Ok stored.now }
    ensures { Gives (λ value. value) result (datum_of kind stored.now bytes.now) }
{
    match stored.storage {
        Storage::Plain => plain_datum(alloc, kind.facts().form, stored.content(bytes), spare),
        Storage::Compressed => Err(ReadFault::Cause(RowCause::Compressed)),
        Storage::External => Err(ReadFault::Cause(RowCause::External)),
    }
}

// The value of this form that a content is.
fn plain_datum(
    alloc: Global,
    form: Form,
    content: &[u8],
    spare: Option<KeyVal>,
) -> Result<KeyVal, ReadFault>
    requires { IsWidthOf form (length content.now) }
    ensures { Gives (λ value. value) result (plain_datum form content.now) }
{
    if let Form::Array(element) = form {
        let elements = read_array(alloc, element, content)?;
        return Ok(KeyVal::Items(elements.ok_or(RowCause::BadArray)?));
    }
    let value = scalar_of(memory_of(alloc, spare), form, content)?;
    Ok(value_of_elem(value.ok_or(RowCause::BadTruth)?))
}

// The memory of a text, or none.
fn memory_of(alloc: Global, value: Option<KeyVal>) -> Vec<u8> {
    match value {
        Some(KeyVal::Raw(bytes)) => bytes.into_vec(),
        _ => Vec::new(alloc),
    }
}

fn value_of_elem(element: Elem) -> KeyVal
    ensures { result ≡ value_of_elem element }
{
    match element {
        Elem::Null => KeyVal::Nil,
        Elem::Num(number) => KeyVal::Num(number),
        Elem::Raw(bytes) => KeyVal::Raw(bytes),
    }
}
