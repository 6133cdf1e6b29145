use opclass::{
    ColType, Cond, Elem, Form, IndexSpec, KeyCol, KeyList, KeyVal, Method, Op, SortPart, SortSpec,
    Test, Width, clash, cmp_key, cmp_row, keeps, needed, norm_key, read_norm,
};
use pg_bytes::{Bytes, Items, RowPtr};
use std::alloc::{AllocError, Global};
use std::cmp::Ordering;
use std::process::Abort;
use std::test::Fail;

const ASCENDING: SortPart = SortPart {
    descending: false,
    nulls_first: false,
};

const DESCENDING: SortPart = SortPart {
    descending: true,
    nulls_first: true,
};

const DESCENDING_NULLS_LAST: SortPart = SortPart {
    descending: true,
    nulls_first: false,
};

const NULLS_FIRST: SortPart = SortPart {
    descending: false,
    nulls_first: true,
};

fn bytes(alloc: Global, text: &[u8]) -> Result<Bytes, AllocError> {
    Ok(Items::from_vec(text.to_vec(alloc)?))
}

fn order(alloc: Global, parts: &[SortPart]) -> Result<SortSpec, AllocError> {
    Ok(Items::from_vec(parts.to_vec(alloc)?))
}

fn list<const N: usize>(alloc: Global, values: [KeyVal; N]) -> Result<KeyList, AllocError> {
    Ok(KeyList::from_vec(Vec::from_array(alloc, values)?))
}

fn raw(alloc: Global, text: &[u8]) -> Result<KeyVal, AllocError> {
    Ok(KeyVal::Raw(bytes(alloc, text)?))
}

#[test]
fn types_are_those_of_the_catalog(rt: HostRuntime) {
    // typlen, typalign, oid of pg_type.dat; -1 is variable
    let rows = [
        (ColType::Bool, 1, 1, 16),
        (ColType::Int2, 2, 2, 21),
        (ColType::Int4, 4, 4, 23),
        (ColType::Int8, 8, 8, 20),
        (ColType::Oid, 4, 4, 26),
        (ColType::Date, 4, 4, 1082),
        (ColType::Timestamp, 8, 8, 1114),
        (ColType::Timestamptz, 8, 8, 1184),
        (ColType::Time, 8, 8, 1083),
        (ColType::Uuid, 16, 1, 2950),
        (ColType::Text, -1, 4, 25),
        (ColType::Varchar, -1, 4, 1043),
        (ColType::Bytea, -1, 4, 17),
        (ColType::Float4, 4, 4, 700),
        (ColType::Float8, 8, 8, 701),
        (ColType::Numeric, -1, 4, 1700),
        (ColType::Bpchar, -1, 4, 1042),
        (ColType::Name, 64, 1, 19),
        (ColType::Interval, 16, 8, 1186),
        (ColType::Json, -1, 4, 114),
        (ColType::Jsonb, -1, 4, 3802),
        (ColType::Int4Array, -1, 4, 1007),
        (ColType::Int8Array, -1, 8, 1016),
        (ColType::TextArray, -1, 4, 1009),
    ];
    for (kind, width, alignment, oid) in rows {
        let facts = kind.facts();
        let told = match facts.width {
            Width::Fixed(bytes) => i32::from(bytes),
            Width::Variable => -1,
        };
        assert!(rt; told == width);
        assert!(rt; facts.alignment == alignment);
        assert!(rt; facts.oid == oid);
    }
    assert!(rt; ColType::TextArray.facts().form == Form::Array(ColType::Text));
}

#[test]
fn methods_take_their_types(rt: HostRuntime) {
    let rows = [
        (ColType::Bool, true, false, false),
        (ColType::Date, true, true, false),
        (ColType::Uuid, true, true, false),
        (ColType::Bytea, true, true, false),
        (ColType::Float8, false, false, false),
        (ColType::Name, false, false, false),
        (ColType::Int8Array, false, false, true),
    ];
    for (kind, btree, brin, gin) in rows {
        assert!(rt; Method::BTree.takes(kind) == btree);
        assert!(rt; Method::Brin.takes(kind) == brin);
        assert!(rt; Method::Gin.takes(kind) == gin);
    }
}

#[test]
fn keys_compare_column_by_column(rt: HostRuntime) -> Result<(), Fail> {
    let alloc = rt.alloc();
    let less = [
        (ASCENDING, KeyVal::Num(-2), KeyVal::Num(1)),
        (ASCENDING, KeyVal::Num(1), KeyVal::Nil),
        (NULLS_FIRST, KeyVal::Nil, KeyVal::Num(i64::MIN)),
        (DESCENDING, KeyVal::Num(1), KeyVal::Num(-2)),
        (DESCENDING, KeyVal::Nil, KeyVal::Num(1)),
        (DESCENDING_NULLS_LAST, KeyVal::Num(1), KeyVal::Nil),
        (ASCENDING, raw(alloc, b"b")?, raw(alloc, b"ba")?),
        (ASCENDING, raw(alloc, b"ab")?, raw(alloc, b"b")?),
        (ASCENDING, raw(alloc, &[0x7F])?, raw(alloc, &[0x80])?),
        (DESCENDING, raw(alloc, b"ba")?, raw(alloc, b"b")?),
    ];
    for (part, a, b) in less {
        let spec = order(alloc, &[ASCENDING, part, ASCENDING])?;
        let a = list(alloc, [KeyVal::Num(7), a, KeyVal::Num(9)])?;
        let b = list(alloc, [KeyVal::Num(7), b, KeyVal::Num(8)])?;
        assert!(rt; cmp_key(&spec, &a, &b) == Ordering::Less);
        assert!(rt; cmp_key(&spec, &b, &a) == Ordering::Greater);
        assert!(rt; cmp_key(&spec, &a, &a.copy(alloc)?) == Ordering::Equal);
        let first = norm_key(alloc, &spec, &a)?;
        let second = norm_key(alloc, &spec, &b)?;
        assert!(rt; first.as_slice() < second.as_slice());
    }
    Ok(())
}

#[test]
fn equal_keys_are_told_apart_by_their_rows(rt: HostRuntime) -> Result<(), Fail> {
    let alloc = rt.alloc();
    let spec = order(alloc, &[DESCENDING])?;
    let a = list(alloc, [KeyVal::Num(5)])?;
    let at = |block, offset| RowPtr { block, offset };
    assert!(rt; cmp_row(&spec, &a, at(1, 2), &a, at(1, 10)) == Ordering::Less);
    assert!(rt; cmp_row(&spec, &a, at(2, 1), &a, at(1, 2)) == Ordering::Greater);
    assert!(rt; cmp_row(&spec, &a, at(1, 2), &a, at(1, 2)) == Ordering::Equal);
    Ok(())
}

#[test]
fn nulls_clash_only_where_they_are_not_distinct(rt: HostRuntime) -> Result<(), Fail> {
    let alloc = rt.alloc();
    let five = list(alloc, [KeyVal::Num(5), raw(alloc, b"x")?])?;
    let other = list(alloc, [KeyVal::Num(5), raw(alloc, b"y")?])?;
    let null = list(alloc, [KeyVal::Num(5), KeyVal::Nil])?;
    for distinct in [false, true] {
        assert!(rt; clash(distinct, &five, &five));
        assert!(rt; !clash(distinct, &five, &other));
        assert!(rt; !clash(distinct, &five, &null));
        assert!(rt; clash(distinct, &null, &null) == !distinct);
    }
    Ok(())
}

#[test]
fn a_comparison_with_null_is_not_true(rt: HostRuntime) -> Result<(), Fail> {
    let alloc = rt.alloc();
    let columns = Items::from_vec([3, 7].to_vec(alloc)?);
    // what `10 OP 11`, `11 OP 11`, `12 OP 11` and `null OP 11` give
    let rows = [
        (Op::Eq, [false, true, false]),
        (Op::Ne, [true, false, true]),
        (Op::Lt, [true, false, false]),
        (Op::Le, [true, true, false]),
        (Op::Gt, [false, false, true]),
        (Op::Ge, [false, true, true]),
    ];
    for (op, wanted) in rows {
        let test = Test::Num { op, value: 11 };
        let filter = Items::from_vec(Vec::from_array(alloc, [Cond { column: 7, test }])?);
        for (value, wanted) in [10, 11, 12].iter().zip(wanted.iter()) {
            let values = list(alloc, [KeyVal::Nil, KeyVal::Num(*value)])?;
            assert!(rt; keeps(&filter, &columns, &values) == *wanted);
        }
        let null = list(alloc, [KeyVal::Num(11), KeyVal::Nil])?;
        assert!(rt; !keeps(&filter, &columns, &null));
    }
    Ok(())
}

#[test]
fn every_condition_has_to_hold(rt: HostRuntime) -> Result<(), Fail> {
    let alloc = rt.alloc();
    let columns = Items::from_vec([1, 2].to_vec(alloc)?);
    let text = Test::Raw {
        op: Op::Ge,
        value: bytes(alloc, b"ab")?,
    };
    let conditions = [
        Cond {
            column: 2,
            test: text,
        },
        Cond {
            column: 1,
            test: Test::IsNull,
        },
        Cond {
            column: 2,
            test: Test::NotNull,
        },
    ];
    let filter = Items::from_vec(Vec::from_array(alloc, conditions)?);
    let kept = list(alloc, [KeyVal::Nil, raw(alloc, b"abc")?])?;
    assert!(rt; keeps(&filter, &columns, &kept));
    let low = list(alloc, [KeyVal::Nil, raw(alloc, b"a")?])?;
    assert!(rt; !keeps(&filter, &columns, &low));
    let not_null = list(alloc, [KeyVal::Num(0), raw(alloc, b"abc")?])?;
    assert!(rt; !keeps(&filter, &columns, &not_null));
    Ok(())
}

#[test]
fn each_named_column_is_needed_once(rt: HostRuntime) -> Result<(), Fail> {
    let alloc = rt.alloc();
    let key = |column| KeyCol {
        column,
        descending: false,
        nulls_first: false,
    };
    let condition = Cond {
        column: 2,
        test: Test::IsNull,
    };
    let spec = IndexSpec {
        name: bytes(alloc, b"i")?,
        method: Method::BTree,
        unique: false,
        nulls_distinct: true,
        keys: Items::from_vec([key(9), key(4), key(9)].to_vec(alloc)?),
        includes: Items::from_vec([4, 300].to_vec(alloc)?),
        fillfactor: 90,
        deduplicate: true,
        pages_per_range: 128,
        filter: Items::from_vec(Vec::from_array(alloc, [condition])?),
    };
    assert!(rt; needed(alloc, &spec)?.as_slice() == [2, 4, 9, 300].as_slice());
    Ok(())
}

// That a value has this piece, and that the piece is read back.
fn assert_piece(
    rt: &impl Abort,
    alloc: Global,
    part: SortPart,
    value: KeyVal,
    wanted: &[u8],
) -> Result<(), AllocError> {
    let spec = order(alloc, &[part])?;
    let keys = list(alloc, [value])?;
    assert!(rt; norm_key(alloc, &spec, &keys)?.as_slice() == wanted);
    let back = read_norm(alloc, &spec, wanted)?;
    let same = back.is_some_and(|back| cmp_key(&spec, &back, &keys).is_eq());
    assert!(rt; same);
    Ok(())
}

#[test]
fn values_have_their_pieces(rt: HostRuntime) -> Result<(), Fail> {
    let alloc = rt.alloc();
    let text = || raw(alloc, &[0x61, 0x00, 0x62]);
    assert_piece(
        &rt,
        alloc,
        ASCENDING,
        KeyVal::Num(5),
        &[1, 0x80, 0, 0, 0, 0, 0, 0, 5],
    )?;
    assert_piece(
        &rt,
        alloc,
        DESCENDING,
        KeyVal::Num(-2),
        &[1, 0x80, 0, 0, 0, 0, 0, 0, 1],
    )?;
    assert_piece(
        &rt,
        alloc,
        ASCENDING,
        text()?,
        &[2, 0x61, 0, 0xFF, 0x62, 0, 0],
    )?;
    assert_piece(
        &rt,
        alloc,
        DESCENDING,
        text()?,
        &[2, 0x9E, 0xFF, 0, 0x9D, 0xFF, 0xFF],
    )?;
    assert_piece(&rt, alloc, ASCENDING, raw(alloc, &[])?, &[2, 0, 0])?;
    assert_piece(&rt, alloc, ASCENDING, KeyVal::Nil, &[3])?;
    assert_piece(&rt, alloc, NULLS_FIRST, KeyVal::Nil, &[0])?;
    Ok(())
}

#[test]
fn other_bytes_are_no_normalised_key(rt: HostRuntime) -> Result<(), Fail> {
    let alloc = rt.alloc();
    let spec = order(alloc, &[ASCENDING])?;
    let wrong: [&[u8]; 8] = [
        &[2, 0x61, 0],
        &[],
        &[0],
        &[3, 3],
        &[4],
        &[1, 0x80, 0, 0, 0, 0, 0, 0],
        &[2, 0x61, 0, 1, 0, 0],
        &[2, 0, 0, 0],
    ];
    for bytes in wrong {
        assert!(rt; read_norm(alloc, &spec, bytes)?.is_none());
    }
    Ok(())
}

#[test]
fn a_copy_has_the_same_values(rt: HostRuntime) -> Result<(), Fail> {
    let alloc = rt.alloc();
    let elements = Vec::from_array(
        alloc,
        [Elem::Num(1), Elem::Null, Elem::Raw(bytes(alloc, b"x")?)],
    )?;
    let keys = list(
        alloc,
        [KeyVal::Items(Items::from_vec(elements)), KeyVal::Nil],
    )?;
    let spec = order(alloc, &[ASCENDING, ASCENDING])?;
    assert!(rt; cmp_key(&spec, &keys, &keys.copy(alloc)?) == Ordering::Equal);
    Ok(())
}
