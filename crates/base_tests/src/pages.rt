use pg_bytes::{
    Blocks, Bytes, IndexImage, LinePtr, LineState, Page, PageBuf, RowPtr, RowPtrs, al2, al8,
    i64_at, u16_at, u32_at,
};
use std::process::Abort;
use std::test::Fail;
use test_pages::differs_at;

#[test]
fn rounds_sizes_up(rt: HostRuntime) {
    for (size, wanted) in [(0, 0), (1, 8), (7, 8), (8, 8), (9, 16)] {
        assert!(rt; al8(size) == wanted);
    }
    for (size, wanted) in [(0, 0), (1, 2), (2, 2), (3, 4)] {
        assert!(rt; al2(size) == wanted);
    }
}

#[test]
fn reads_the_low_byte_first(rt: HostRuntime) {
    let bytes = [
        0xFF, 0x01, 0x02, 0x03, 0x04, 0x05, 0x06, 0x07, 0xFE, 0xFF, 0xFF, 0xFF, 0xFF, 0xFF, 0xFF,
        0xFF,
    ];
    assert!(rt; u16_at(&bytes, 1) == 0x0201);
    assert!(rt; u32_at(&bytes, 1) == 0x0403_0201);
    assert!(rt; i64_at(&bytes, 0) == 0x0706_0504_0302_01FF);
    assert!(rt; i64_at(&bytes, 8) == -2);
}

#[test]
fn row_pointers_have_the_high_half_first(rt: HostRuntime) {
    let row = RowPtr {
        block: 0x12345,
        offset: 0x0607,
    };
    let mut bytes = [0xFF; 8];
    row.put(&mut bytes, 1);
    assert!(rt; bytes == [0xFF, 0x01, 0x00, 0x45, 0x23, 0x07, 0x06, 0xFF]);
    assert!(rt; RowPtr::at(&bytes, 1) == row);
}

#[test]
fn row_pointers_are_ordered_by_block(rt: HostRuntime) {
    let row = |block, offset| RowPtr { block, offset };
    let ascending = [row(0, 1), row(0, 9), row(1, 2), row(70_000, 1)];
    for pair in ascending.windows(2) {
        assert!(rt; pair.len() == 2);
        assert!(rt; pair[0].is_before(&pair[1]) && pair[0] < pair[1]);
        assert!(rt; !pair[1].is_before(&pair[0]) && !pair[0].is_before(&pair[0]));
    }
}

#[test]
fn line_pointers_stand_in_a_word(rt: HostRuntime) {
    let cases = [
        (0x0038_9FE0, (8160, 28), LineState::Normal),
        (0x0001_0003, (3, 0), LineState::Redirect),
        (0x0001_8000, (0, 0), LineState::Dead),
        (0x0000_0000, (0, 0), LineState::Unused),
    ];
    for (word, wanted, kind) in cases {
        let line = LinePtr::of_word(word);
        assert!(rt; (line.offset, line.length) == wanted);
        assert!(rt; line.kind() == kind);
        assert!(rt; line.word() == word);
    }
}

#[test]
fn pages_without_items_have_a_header(rt: HostRuntime) -> Result<(), Fail> {
    let cases: [(u16, &[u8]); 2] = [
        (16, &[0x18, 0x00, 0xF0, 0x1F, 0xF0, 0x1F, 0x04, 0x20]),
        (8, &[0x18, 0x00, 0xF8, 0x1F, 0xF8, 0x1F, 0x04, 0x20]),
    ];
    for (special, header) in cases {
        assert!(rt; special == 8 || special == 16);
        let page = PageBuf::new(rt.alloc(), special)?;
        assert!(rt; differs_at(page.bytes(), &[(12, header)]) == None);
    }
    Ok(())
}

#[test]
fn items_grow_downwards(rt: HostRuntime) -> Result<(), Fail> {
    let mut page = PageBuf::new(rt.alloc(), 16)?;
    page.put_slice(8100, &[0xFF; 92]);
    add_item(&rt, &mut page, 1, &[1; 16]);
    add_item(&rt, &mut page, 2, &[2; 28]);
    let wanted: [(usize, &[u8]); 6] = [
        (12, &[0x20, 0x00, 0xC0, 0x1F, 0xF0, 0x1F, 0x04, 0x20]),
        (24, &[0xE0, 0x9F, 0x20, 0x00, 0xC0, 0x9F, 0x38, 0x00]),
        (8100, &[0xFF; 28]),
        (8128, &[2; 28]),
        (8160, &[1; 16]),
        (8176, &[0xFF; 16]),
    ];
    assert!(rt; differs_at(page.bytes(), &wanted) == None);
    Ok(())
}

// Adds an item to a page that has room for it.
fn add_item(rt: &impl Abort, page: &mut PageBuf, line: u16, item: &[u8]) {
    let upper = u16_at(page.bytes(), 14);
    let lower = u16_at(page.bytes(), 12);
    assert!(rt; 1 <= line && line <= 2 && 0 < item.len() && item.len() <= 28);
    assert!(rt; upper <= 8192 && lower <= 32 && 100 <= upper);
    page.put_item(line, item);
}

#[test]
fn blocks_between_are_zero(rt: HostRuntime) -> Result<(), Fail> {
    let page = PageBuf::new(rt.alloc(), 16)?;
    let header = [0x18, 0x00, 0xF0, 0x1F, 0xF0, 0x1F, 0x04, 0x20];
    let mut image = IndexImage::new(rt.alloc());
    assert!(rt; image.blocks() == 0);
    image.place(2, &page)?;
    assert!(rt; image.blocks() == 3);
    assert!(rt; differs_at(image.bytes(), &[(16396, &header)]) == None);
    image.place(0, &page)?;
    assert!(rt; image.blocks() == 3);
    assert!(rt; differs_at(image.bytes(), &[(12, &header), (16396, &header)]) == None);
    Ok(())
}

#[test]
fn pages_are_whole(rt: HostRuntime) -> Result<(), Fail> {
    let written = PageBuf::new(rt.alloc(), 16)?;
    let bytes = written.bytes();
    assert!(rt; Page::of(&bytes[1..]).is_none());
    match Page::of(bytes) {
        Some(page) => assert!(rt; page.bytes() == bytes),
        None => assert!(rt; false),
    }
    Ok(())
}

#[test]
fn lists_hold_items_in_order(rt: HostRuntime) -> Result<(), Fail> {
    let mut bytes = Bytes::from_vec([1, 2].to_vec(rt.alloc())?);
    assert!(rt; bytes.push(3).is_ok());
    assert!(rt; bytes.as_slice() == [1, 2, 3].as_slice());
    assert!(rt; bytes.pop() == Some(3));
    assert!(rt; bytes.into_vec().as_slice() == [1, 2].as_slice());

    let row = RowPtr {
        block: 0,
        offset: 1,
    };
    let mut rows = RowPtrs::new(rt.alloc());
    assert!(rt; rows.pop() == None);
    assert!(rt; rows.push(row).is_ok());
    assert!(rt; rows.len() == 1);
    assert!(rt; *rows.get(0) == row);
    Ok(())
}

#[test]
fn blocks_and_items_are_read(rt: HostRuntime) -> Result<(), Fail> {
    let mut page = PageBuf::new(rt.alloc(), 16)?;
    page.put_slice(8176, &[7; 16]);
    add_item(&rt, &mut page, 1, &[1; 9]);
    add_item(&rt, &mut page, 2, &[2; 28]);
    let mut image = IndexImage::new(rt.alloc());
    assert!(rt; image.blocks() == 0);
    image.append(&PageBuf::new(rt.alloc(), 8)?)?;
    assert!(rt; image.blocks() == 1);
    image.append(&page)?;
    assert!(rt; Blocks::of(&image.bytes()[1..]).is_none());
    let blocks = Blocks::of_whole(image.bytes());
    assert!(rt; blocks.len() == 2);

    let cases: [(usize, u16, Option<&[u8]>); 6] = [
        (0, 1, None),
        (1, 0, None),
        (1, 1, Some(&[1; 9])),
        (1, 2, Some(&[2; 28])),
        (1, 3, None),
        (1, 0xFFFF, None),
    ];
    for (block, number, wanted) in cases {
        assert!(rt; block < 2);
        assert!(rt; blocks.page(block).item(number) == wanted);
    }
    let read = blocks.page(1);
    assert!(rt; (read.line_count(), read.flags(), read.special()) == (2, 0, 8176));
    assert!(rt; (read.lower(), read.upper()) == (32, 8128));
    assert!(rt; read.special_space() == [7; 16].as_slice());
    Ok(())
}
