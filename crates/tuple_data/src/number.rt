ghost use Rattle.std.specs.Prelude.{◌≡◌, ◌≢◌, ◌≤◌, ℤ, pos, MatchOption, length};
ghost use Rattle.std.specs.Int.{cast_unsigned, w64};
ghost use Rattle.byteorder.specs.Endian.{little_number, twos_complement};
ghost use Rattle.pg_bytes.specs.Numbers.{number_bytes};
ghost use Rattle.opclass.specs.Values.{IsNumberOf};
ghost use Rattle.opclass.specs.declared.types.Width.TheVariants.{Fixed};
ghost use Rattle.tuple_data.specs.Reading.{IsFit};

use byteorder::{ByteOrder, LittleEndian};
use opclass::Form;

// The number of a form that all of the bytes are (`fetch_att` of `tupmacs.h`). Only a truth value
// that is neither 0 nor 1 is none.
pub(crate) fn number_of(form: Form, bytes: &[u8]) -> Option<i64>
    requires { IsFit form (Fixed (length bytes.now)) }
    ensures { MatchOption result
        ((number : ℤ) → IsNumberOf form (Fixed (length bytes.now)) number
        → bytes.now ≢ number_bytes (length bytes.now) (cast_unsigned w64 number))
        (λ number. IsNumberOf form (Fixed (length bytes.now)) number
        × (bytes.now ≡ number_bytes (length bytes.now) (cast_unsigned w64 number))) }
{
    match form {
        Form::Truth => truth_of(bytes[0]),
        Form::Signed => Some(signed_of(bytes)),
        Form::Unsigned => Some(i64::from(LittleEndian::read_u32(bytes))),
        Form::Bytes | Form::Array(_) => None,
    }
}

fn truth_of(byte: u8) -> Option<i64>
    ensures { MatchOption result (2 ≤ byte) (λ number. (byte ≤ 1) × (number ≡ pos byte)) }
{
    if byte <= 1 {
        Some(i64::from(byte))
    } else {
        None
    }
}

// The number in two's complement that two, four or eight bytes are.
fn signed_of(bytes: &[u8]) -> i64
    requires { (1 ≤ length bytes.now) × (length bytes.now ≤ 8) }
    ensures { result ≡ twos_complement (length bytes.now)
        (little_number (length bytes.now) bytes.now) }
{
    match bytes.len() {
        2 => i64::from(LittleEndian::read_i16(bytes)),
        4 => i64::from(LittleEndian::read_i32(bytes)),
        8 => LittleEndian::read_i64(bytes),
        width => LittleEndian::read_int(bytes, width),
    }
}
