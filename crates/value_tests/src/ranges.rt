use brin_summary::{Meta, PageType, revmap_entry};
use pg_bytes::{PAGE, Page, RowPtr};
use std::alloc::{AllocError, Global};
use std::test::Fail;
use test_pages::put;

// What brin_page.h puts on the meta page of an index with ranges of three blocks and one page of
// the revmap: pd_lower, magic, version, blocks of a range, last page of the revmap, page type.
const META_PAGE: [(usize, &[u8]); 6] = [
    (12, &[40, 0]),
    (24, &[0xFA, 0x9C, 0x10, 0xA8]),
    (28, &[1, 0, 0, 0]),
    (32, &[3, 0, 0, 0]),
    (36, &[1, 0, 0, 0]),
    (8190, &[0x91, 0xF0]),
];

// A page of zeros with these pieces at their places.
fn page_of(alloc: Global, pieces: &[(usize, &[u8])]) -> Result<Vec<u8>, AllocError> {
    let mut bytes = vec![in alloc; 0; PAGE]?;
    for (at, piece) in pieces {
        put(&mut bytes, *at, piece);
    }
    Ok(bytes)
}

#[test]
fn meta_pages_are_read(rt: HostRuntime) -> Result<(), Fail> {
    let as_written = Some(Meta {
        pages_per_range: 3,
        last_revmap: 1,
    });
    let other = Some(Meta {
        pages_per_range: 3 + (1 << 24),
        last_revmap: 1,
    });
    // what is changed on that page: the place and the byte there
    let rows = [
        ("nothing", 24, 0xFA, as_written),
        ("magic", 24, 0xFB, None),
        ("version", 28, 2, None),
        ("pd_lower", 12, 24, None),
        ("flags", 8188, 1, None),
        ("page type", 8190, 0x93, None),
        ("blocks of a range", 35, 1, other),
        ("pd_upper", 14, 1, as_written),
        ("behind the fields", 40, 1, as_written),
        ("in front of the flags", 8184, 1, as_written),
    ];
    for (what, at, byte, wanted) in rows {
        let mut bytes = page_of(rt.alloc(), &META_PAGE)?;
        put(&mut bytes, at, &[byte]);
        let page = Page::of(&bytes).ok_or("a page")?;
        assert_eq!(rt; Meta::read(&page), wanted, "{what}");
    }
    Ok(())
}

#[test]
fn page_types_are_read(rt: HostRuntime) -> Result<(), Fail> {
    let rows = [
        (0x90, None),
        (0x91, Some(PageType::Meta)),
        (0x92, Some(PageType::Revmap)),
        (0x93, Some(PageType::Regular)),
        (0x94, None),
    ];
    for (byte, wanted) in rows {
        let bytes = page_of(rt.alloc(), &[(8190, &[byte, 0xF0])])?;
        let page = Page::of(&bytes).ok_or("a page")?;
        assert_eq!(rt; PageType::of(&page), wanted, "{byte}");
    }
    Ok(())
}

#[test]
fn revmap_entries_are_read(rt: HostRuntime) -> Result<(), Fail> {
    let pieces: [(usize, &[u8]); 3] = [
        (24, &[0, 0, 2, 0, 1, 0, 0, 0, 2, 0, 2, 0]),
        (36, &[0, 0, 2, 0, 3, 0]),
        (8178, &[1, 0, 2, 0, 3, 0]),
    ];
    let bytes = page_of(rt.alloc(), &pieces)?;
    let page = Page::of(&bytes).ok_or("a page")?;
    let rows = [
        (0, 2, 1),
        (1, 2, 2),
        (2, 2, 3),
        (3, 0, 0),
        (1358, 0, 0),
        (1359, 65538, 3),
    ];
    for (entry, block, offset) in rows {
        assert_eq!(rt;
            revmap_entry(&page, entry),
            RowPtr { block, offset },
            "{entry}"
        );
    }
    Ok(())
}
