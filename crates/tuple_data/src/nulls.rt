ghost use Rattle.std.specs.Prelude.{◌≡◌, ◌≤◌, if◌then◌else◌, length};
ghost use Rattle.opclass.specs.Types.{facts_of};
ghost use Rattle.tuple_data.specs.Nulls.{has_null, has_variable, is_null, is_variable, null_bits};

use opclass::{ColType, KeyVal, Width};

/// Whether some value is null (`IndexTupleHasNulls` of `itup.h`).
pub fn has_null(values: &[KeyVal]) -> bool
    ensures { result ≡ has_null values.now }
{
    values.iter().any(is_null)
}

/// Whether some column of variable width has a value (`IndexTupleHasVarwidths` of `itup.h`).
pub fn has_variable(mut kinds: &[ColType], mut values: &[KeyVal]) -> bool
    ensures { result ≡ has_variable kinds.entry.now values.entry.now }
{
    while let [kind, more_kinds @ ..] = kinds {
        let [value, more_values @ ..] = values else {
            return false;
        };
        if is_variable(*kind) && !is_null(value) {
            return true;
        }
        kinds = more_kinds;
        values = more_values;
    }
    false
}

/// The null bitmap of at most 32 columns as a number: the first column has the lowest bit, which is
/// set where its value isn't null (`fill_val` of `heaptuple.c`).
pub fn null_bits(values: &[KeyVal]) -> u32
    requires { length values.now ≤ 32 }
    ensures { result ≡ null_bits values.now }
{
    let mut bits = 0;
    for at in (0..values.len()).rev() {
        bits = 2 * bits + bit_of(&values[at]);
    }
    bits
}

// A value's bit.
fn bit_of(value: &KeyVal) -> u32
    ensures { result ≡ (if is_null value.now then 0 else 1) }
{
    if is_null(value) { 0 } else { 1 }
}

fn is_null(value: &KeyVal) -> bool
    ensures { result ≡ is_null value.now }
{
    matches!(value, KeyVal::Nil)
}

fn is_variable(kind: ColType) -> bool
    ensures { result ≡ is_variable (facts_of kind).width }
{
    kind.facts().width == Width::Variable
}
