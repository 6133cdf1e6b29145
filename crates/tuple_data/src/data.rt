ghost use Rattle.std.specs.Prelude.{◌≡◌, ◌+◌, ◌-◌, ◌^◌, ◌<◌, ◌++◌, length, take, OnOk, OnErr};
ghost use Rattle.tuple_data.specs.Data.{data_of};

use crate::datum::{end_of_piece, put_piece};
use opclass::{ColType, KeyVal};
use std::alloc::AllocError;

/// How many bytes the data of these columns take (`heap_compute_data_size` of `heaptuple.c`). It
/// takes no memory.
pub fn data_size(mut kinds: &[ColType], mut values: &[KeyVal]) -> u64
    requires { length (data_of kinds.now values.now) < 2 ^ 63 }
    ensures { result ≡ length (data_of kinds.entry.now values.entry.now) }
{
    let mut end = 0;
    while let [kind, more_kinds @ ..] = kinds {
        let [value, more_values @ ..] = values else {
            return end;
        };
        end = end_of_piece(end, *kind, value);
        kinds = more_kinds;
        values = more_values;
    }
    end
}

/// Puts the data of these columns behind the bytes of a buffer (`heap_fill_tuple` of
/// `heaptuple.c`). Alignments are counted from the place at which they begin, the buffer's end.
/// They are fewer than 2^30 bytes, since a header of four bytes holds a length below that
/// (`varatt.h`). An error means that no memory was left, and then the buffer's bytes are as before.
pub fn put_data(out: &mut Vec<u8>, kinds: &[ColType], values: &[KeyVal]) -> Result<(), AllocError>
    requires { length (data_of kinds.now values.now) < 2 ^ 30 }
    ensures ok { OnOk result (out.new.items ≡ out.old.items ++ data_of kinds.now values.now) }
    ensures err { OnErr result (out.new.items ≡ out.old.items) }
{
    let start = out.len();
    let put = put_pieces(out, kinds, values);
    if put.is_err() {
        out.truncate(start);
    }
    put
}

// Puts the data, of which an error leaves a part.
fn put_pieces(
    out: &mut Vec<u8>,
    mut kinds: &[ColType],
    mut values: &[KeyVal],
) -> Result<(), AllocError>
    requires { length (data_of kinds.now values.now) < 2 ^ 30 }
    ensures ok { OnOk result (out.new.items
        ≡ out.old.items ++ data_of kinds.entry.now values.entry.now) }
    ensures err { OnErr result
        (take (length out.old.items) out.new.items ≡ out.old.items) }
{
    let start = out.len();
    while let [kind, more_kinds @ ..] = kinds {
        let [value, more_values @ ..] = values else {
            return Ok(());
        };
        put_piece(out, start, *kind, value)?;
        kinds = more_kinds;
        values = more_values;
    }
    Ok(())
}
