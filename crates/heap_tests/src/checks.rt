use heap_page::{Header, RowState, View, check_page, state};
use pg_bytes::{PAGE, Page, RowPtr};
use std::alloc::{AllocError, Global};
use std::process::Abort;
use std::test::Fail;
use test_pages::{Line, Tuple, heap_page, put};

// A page of rows of one int4 each, with these infomasks: row k stands 32 * k bytes below the page's
// end, under line pointer k.
fn page_of_rows(alloc: Global, infomasks: &[u16]) -> Result<Vec<u8>, AllocError> {
    let mut lines = Vec::new(alloc);
    for (offset, infomask) in (1..1000u16).zip(infomasks) {
        lines.push(Line::Normal(Tuple {
            offset,
            infomask: *infomask,
            ..Tuple::row(&[0; 4])
        }))?;
    }
    heap_page(alloc, &lines)
}

// What the check says of a page of one column: how many lines it has, or the fault's item and
// cause.
fn verdict(bytes: &[u8]) -> Option<Result<u16, (u16, u8)>> {
    let page = Page::of(bytes)?;
    Some(match check_page(&page, 1) {
        Ok(view) => Ok(view.lines()),
        Err(fault) => Err((fault.item, fault.cause)),
    })
}

// Bytes that are put at a place of a page of three rows, and how many lines it has then, or the item
// and the cause of its fault.
static CHANGES: [(usize, &[u8], Result<u16, (u16, u8)>); 25] = [
    // as it is
    (12, &[0x24, 0x00], Ok(3)),
    // pd_lower in the header
    (12, &[23, 0], Err((0, 1))),
    // pd_lower within a line pointer
    (12, &[39, 0], Ok(3)),
    // a new page
    (14, &[0, 0], Ok(0)),
    // a flag that is none
    (10, &[8, 0], Err((0, 1))),
    // a special space
    (16, &[0xF8, 0x1F], Err((0, 1))),
    // a dead line pointer
    (28, &[0x00, 0x80, 0x01, 0x00], Ok(3)),
    // a redirect to 0
    (28, &[0x00, 0x00, 0x01, 0x00], Err((2, 2))),
    // a redirect past the last
    (28, &[0x04, 0x00, 0x01, 0x00], Err((2, 2))),
    // a redirect to itself
    (28, &[0x02, 0x00, 0x01, 0x00], Ok(3)),
    // a redirect to the last
    (28, &[0x03, 0x00, 0x01, 0x00], Ok(3)),
    // offset 8097
    (32, &[0xA1, 0x9F, 0x38, 0x00], Err((3, 2))),
    // length 40 past the end
    (24, &[0xE0, 0x9F, 0x50, 0x00], Err((1, 2))),
    // length 36 into the next
    (32, &[0xA0, 0x9F, 0x48, 0x00], Err((3, 2))),
    // length 23
    (24, &[0xE0, 0x9F, 0x2E, 0x00], Err((1, 2))),
    // the same place twice
    (28, &[0xE0, 0x9F, 0x38, 0x00], Err((2, 2))),
    // above the tuples' lower end
    (14, &[0xA8, 0x1F], Err((3, 2))),
    // hoff 28
    (8128 + 22, &[28], Err((2, 3))),
    // hoff 32 of length 28
    (8160 + 22, &[32], Err((1, 3))),
    // two attributes
    (8128 + 18, &[2, 0], Err((2, 3))),
    // nulls and a bitmap
    (8160 + 20, &[0x01, 0x09, 24, 0], Ok(3)),
    // not settled
    (8096 + 20, &[0x00, 0x08], Err((3, 4))),
    // hoff before settled
    (8096 + 20, &[0x00, 0x08, 16], Err((3, 3))),
    // the lesser item
    (28, &[0x04, 0x00, 0x01, 0x00, 0xA1, 0x9F], Err((2, 2))),
    // the lesser cause
    (32, &[0xA1, 0x9F, 0x38, 0x00], Err((3, 2))),
];

#[test]
fn tells_the_least_fault(rt: HostRuntime) -> Result<(), Fail> {
    for (place, bytes, wanted) in &CHANGES {
        let mut page = page_of_rows(rt.alloc(), &[0x0900; 3])?;
        put(&mut page, *place, bytes);
        assert!(rt; verdict(&page) == Some(*wanted));
    }
    Ok(())
}

#[test]
fn checks_pages_without_rows(rt: HostRuntime) -> Result<(), Fail> {
    let ones = vec![in rt.alloc(); 0xFFu8; PAGE]?;
    assert!(rt; verdict(&ones) == Some(Err((0, 1))));

    let mut unused = vec![in rt.alloc(); 0u8; PAGE]?;
    assert!(rt; verdict(&unused) == Some(Ok(0)));
    put(
        &mut unused,
        12,
        &[0x00, 0x20, 0x00, 0x20, 0x00, 0x20, 0x04, 0x20],
    );
    assert!(rt; verdict(&unused) == Some(Ok(2042)));
    Ok(())
}

// The header of a tuple with these hint bits.
fn header_with(infomask: u16) -> Header {
    Header {
        xmin: 700,
        xmax: 900,
        ctid: RowPtr {
            block: 0,
            offset: 1,
        },
        infomask2: 1,
        infomask,
        hoff: 24,
    }
}

// Hint bits, and what they say of a row.
static HINTS: [(u16, Option<RowState>); 13] = [
    (0x01C0, Some(RowState::Live)),
    (0x0140, Some(RowState::Live)),
    (0x1180, Some(RowState::Live)),
    (0x0B00, Some(RowState::Live)),
    (0x0A00, Some(RowState::Dead)),
    (0x0800, None),
    (0x0500, Some(RowState::Dead)),
    (0x2500, Some(RowState::Dead)),
    (0x0900, Some(RowState::Live)),
    (0x1100, None),
    (0x4900, None),
    (0x01D0, Some(RowState::Live)),
    (0x0150, None),
];

#[test]
fn settles_tuples_by_their_hint_bits(rt: HostRuntime) {
    for (infomask, wanted) in &HINTS {
        let header = header_with(*infomask);
        let known = if header.is_settled() {
            Some(state(&header))
        } else {
            None
        };
        assert!(rt; known == *wanted);
    }
}

#[test]
fn reads_a_page_of_settled_rows(rt: HostRuntime) -> Result<(), Fail> {
    let unsettled = page_of_rows(
        rt.alloc(),
        &[0x01C0, 0x0140, 0x1180, 0x0B00, 0x0A00, 0x0800],
    )?;
    assert!(rt; verdict(&unsettled) == Some(Err((6, 4))));

    let settled = page_of_rows(rt.alloc(), &[0x01C0, 0x0140, 0x1180, 0x0B00, 0x0A00])?;
    let page = Page::of(&settled).ok_or("not a page")?;
    match check_page(&page, 1) {
        Ok(view) => reads_the_last_row(&rt, &view),
        Err(_) => assert!(rt; false),
    }
    Ok(())
}

// The last of five rows, as the page shows it.
fn reads_the_last_row(rt: &impl Abort, view: &View) {
    assert!(rt; view.lines() == 5);
    assert!(rt; !view.is_redirect(5));
    assert!(rt; view.is_normal(5));
    let line = view.line(5);
    assert!(rt; (line.offset, line.state, line.length) == (8032, 1, 28));
    let header = view.header(5);
    assert!(rt;
        header
            == Header {
                xmax: 0,
                ctid: RowPtr {
                    block: 0,
                    offset: 5
                },
                ..header_with(0x0A00)
            }
    );
    assert!(rt; header.is_settled());
    assert!(rt; state(&header) == RowState::Dead);
    assert!(rt; header.infomask2_bits().attributes() == 1);
    assert!(rt; !header.infomask2_bits().is_hot_updated());
    assert!(rt; !header.is_heap_only());
    assert!(rt; header.infomask_bits().xmin_invalid());
    assert!(rt; view.item(5).len() == 28);
}
