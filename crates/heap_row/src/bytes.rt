ghost use Rattle.std.specs.Prelude.{◌≡◌, ◌+◌, ◌<◌, ◌≤◌, ◌^◌, drop};
ghost use Rattle.heap_row.specs.NullBitmap.{is_set};
ghost use Rattle.pg_bytes.specs.Numbers.{rounded_up};

// The bytes from a place on, and none where they end before it.
pub(crate) fn from_place(bytes: &[u8], place: usize) -> &[u8]
    ensures { result.now ≡ drop place bytes.now }
{
    if place < bytes.len() {
        &bytes[place..]
    } else {
        &[]
    }
}

// The bit of a value in a null bitmap: whether the value is there.
pub(crate) fn is_set(bitmap: &[u8], value: usize) -> bool
    ensures { result ≡ is_set bitmap.now value }
{
    let place = value / 8;
    place < bitmap.len() && (bitmap[place] >> (value % 8)) % 2 == 1
}

// A place rounded up to a multiple of this unit.
pub(crate) fn rounded_up(unit: usize, place: usize) -> usize
    requires unit { 0 < unit }
    requires fits { place + unit < 2 ^ 64 }
    ensures { result ≡ rounded_up unit place }
{
    (place + (unit - 1)) / unit * unit
}
