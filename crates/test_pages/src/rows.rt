use crate::heap::Tuple;

/// A live row of one int4, 1, that is no part of a chain.
pub const INT4_ROW: Tuple<'static> = Tuple {
    xmin: 700,
    xmax: 0,
    block: 0,
    offset: 0,
    infomask2: 1,
    infomask: 0x0900,
    hoff: 24,
    bitmap: &[],
    values: &[1, 0, 0, 0],
};

/// The first of three versions of a row, of the int4s 1, 2 and 3, that make a HOT chain where they
/// stand behind the line pointers 1, 2 and 3: it is dead.
pub const FIRST_VERSION: Tuple<'static> = Tuple {
    xmin: 100,
    xmax: 101,
    offset: 2,
    infomask2: 0x4001,
    infomask: 0x0500,
    ..INT4_ROW
};

/// The second of the three: heap-only, and dead.
pub const SECOND_VERSION: Tuple<'static> = Tuple {
    xmin: 101,
    xmax: 102,
    offset: 3,
    infomask2: 0xC001,
    infomask: 0x2500,
    values: &[2, 0, 0, 0],
    ..INT4_ROW
};

/// The last of the three: heap-only, and live.
pub const THIRD_VERSION: Tuple<'static> = Tuple {
    xmin: 102,
    offset: 3,
    infomask2: 0x8001,
    infomask: 0x2900,
    values: &[3, 0, 0, 0],
    ..INT4_ROW
};
