ghost use Rattle.std.specs.Prelude.{◌≡◌, ◌≤◌, IfOk, length};
ghost use Rattle.byteorder.specs.Endian.{little_number, twos_complement};
ghost use Rattle.heap_row.specs.Pass.{IsWidthOf};
ghost use Rattle.heap_row.specs.Scalar.{scalar_of, truth_of};

use byteorder::{ByteOrder, LittleEndian};
use opclass::{Elem, Form};
use pg_bytes::Items;
use std::alloc::AllocError;

// The value of this form that all of the bytes are, where it is no array. None comes exactly where
// they are none. A text goes into this memory, whatever stands there.
pub(crate) fn scalar_of(
    mut memory: Vec<u8>,
    form: Form,
    bytes: &[u8],
) -> Result<Option<Elem>, AllocError>
    requires { IsWidthOf form (length bytes.now) }
    ensures { IfOk result (λ value. value ≡ scalar_of form bytes.now) }
{
    let value = match form {
        Form::Truth => truth_of(bytes[0]),
        Form::Signed => Some(Elem::Num(signed_of(bytes))),
        Form::Unsigned => Some(Elem::Num(i64::from(LittleEndian::read_u32(bytes)))),
        Form::Bytes => {
            memory.clear();
            memory.extend_from_slice(bytes)?;
            Some(Elem::Raw(Items::from_vec(memory)))
        }
        Form::Array(_) => None,
    };
    Ok(value)
}

// The number in two's complement that up to eight bytes are. A width that is known is read at once,
// where `read_int` copies the bytes first.
fn signed_of(bytes: &[u8]) -> i64
    requires { (1 ≤ length bytes.now) × (length bytes.now ≤ 8) }
    ensures { result ≡ twos_complement (length bytes.now)
        (little_number (length bytes.now) bytes.now) }
{
    match bytes.len() {
        2 => i64::from(LittleEndian::read_i16(bytes)),
        4 => i64::from(LittleEndian::read_i32(bytes)),
        8 => LittleEndian::read_i64(bytes),
        width => LittleEndian::read_int(bytes, width),
    }
}

fn truth_of(byte: u8) -> Option<Elem>
    ensures { result ≡ truth_of byte }
{
    match byte {
        0 => Some(Elem::Num(0)),
        1 => Some(Elem::Num(1)),
        _ => None,
    }
}
