ghost use Rattle.std.specs.Prelude.{◌≡◌, ◌^◌, ◌<◌, ℕ, List, All, MatchOption, length};
ghost use Rattle.opclass.specs.Types.{facts_of};
ghost use Rattle.opclass.specs.declared.types.Width.TheVariants.{Fixed};
ghost use Rattle.opclass.specs.declared.value.KeyVal.{KeyVal};
ghost use Rattle.opclass.specs.declared.value.KeyVal.TheVariants.{Raw};
ghost use Rattle.tuple_data.specs.Reading.{BeginsWithValue, IsContent, IsFit, IsStored, value_of};

use crate::attribute::Attribute;
use crate::content::{fixed_at, variable_at};
use crate::number::number_of;
use opclass::{ColType, Form, Width};

// The value of a column that isn't null, from a place on, and what stands behind it. None comes
// exactly where the bytes there are none of the type's (`fetchatt` of `tupmacs.h`).
pub(crate) fn read_piece(place: u64, kind: ColType, bytes: &[u8]) -> Option<(Attribute<'_>, &[u8])>
    requires kind { IsStored (facts_of kind).form }
    requires fits { place < 2 ^ 62 }
    requires size { length bytes.now < 2 ^ 30 }
    ensures { MatchOption result
        ((value : KeyVal) (behind : List ℕ)
        → BeginsWithValue place kind bytes.now value behind → ⊥)
        (λ read. BeginsWithValue place kind bytes.now (value_of read.0) read.1.now) }
{
    let facts = kind.facts();
    match facts.width {
        Width::Variable => match variable_at(place, bytes) {
            None => None,
            Some((own, behind)) => Some((raw(own), behind)),
        },
        Width::Fixed(width) => match fixed_at(place, facts.alignment, width, bytes) {
            None => None,
            Some((own, behind)) => match fixed_value(facts.form, own) {
                None => None,
                Some(value) => Some((value, behind)),
            },
        },
    }
}

// The value of a form and a fixed width that all of the bytes are.
fn fixed_value(form: Form, own: &[u8]) -> Option<Attribute<'_>>
    requires { IsFit form (Fixed (length own.now)) }
    ensures { MatchOption result
        ((value : KeyVal) → IsContent form own.now value → ⊥)
        (λ attribute. IsContent form own.now (value_of attribute)) }
{
    if form == Form::Bytes {
        return Some(raw(own));
    }
    match number_of(form, own) {
        None => None,
        Some(number) => Some(Attribute::Number(number)),
    }
}

fn raw(own: &[u8]) -> Attribute<'_>
    ensures value { value_of result ≡ Raw own.now }
    ensures bytes { All (λ byte. byte < 256) own.now }
{
    Attribute::Bytes(own)
}
