use btree_page::{MetaPage, PageFlag, SpecialSpace, data_count, data_item, has_high_key, high_key};
use pg_bytes::{PAGE, Page};
use std::alloc::{AllocError, Global};
use std::test::Fail;
use test_pages::put;

// Bytes and where they stand on a page, whose other bytes are zero.
type Pieces = &'static [(usize, &'static [u8])];

// The meta page of an index of three rows.
static META_PAGE: Pieces = &[
    (12, &[72, 0, 0xF0, 0x1F, 0xF0, 0x1F, 4, 0x20]),
    (24, &[0x62, 0x31, 5, 0, 4, 0, 0, 0, 1, 0, 0, 0, 0, 0, 0, 0]),
    (40, &[1, 0, 0, 0]),
    (56, &[0, 0, 0, 0, 0, 0, 0xF0, 0xBF, 1]),
    (8188, &[8]),
];

const SAID: MetaPage = MetaPage {
    root: 1,
    level: 0,
    fast_root: 1,
    fast_level: 0,
    deleted_pages: 0,
    equal_images: true,
};

// What is changed on that page: the place, the byte there, and what it then says.
static CHANGES: &[(usize, u8, Option<MetaPage>)] = &[
    (24, 0x62, Some(SAID)),
    (12, 24, None),
    (24, 0x63, None),
    (28, 3, None),
    (33, 1, Some(MetaPage { root: 257, ..SAID })),
    (36, 2, Some(MetaPage { level: 2, ..SAID })),
    (
        40,
        0,
        Some(MetaPage {
            fast_root: 0,
            ..SAID
        }),
    ),
    (
        44,
        1,
        Some(MetaPage {
            fast_level: 1,
            ..SAID
        }),
    ),
    (
        48,
        9,
        Some(MetaPage {
            deleted_pages: 9,
            ..SAID
        }),
    ),
    (55, 1, None),
    (56, 1, None),
    (63, 0x3F, None),
    (
        64,
        0,
        Some(MetaPage {
            equal_images: false,
            ..SAID
        }),
    ),
    (64, 2, None),
    (65, 1, Some(SAID)),
    (8176, 1, Some(SAID)),
    (8188, 0, None),
    (8188, 9, None),
    (8188, 10, None),
    (8188, 12, Some(SAID)),
];

// A page of a level, and what it says.
struct Node {
    pieces: Pieces,
    space: SpecialSpace,
    high_key: Option<&'static [u8]>,
    items: &'static [&'static [u8]],
}

const FIRST: &[u8] = &[0, 0, 0, 0, 2, 0, 16, 0, 10, 0, 0, 0, 0, 0, 0, 0];

const SECOND: &[u8] = &[0, 0, 0, 0, 3, 0, 16, 0, 20, 0, 0, 0, 0, 0, 0, 0];

const BOUND: &[u8] = &[0, 0, 0, 0, 1, 0, 16, 0x20, 30, 0, 0, 0, 0, 0, 0, 0];

// Two tuples of an int4 key on a leaf that is the root; on one with a right neighbour and a high
// key; on one with a right neighbour and no line pointer.
static NODES: &[Node] = &[
    Node {
        pieces: &[
            (12, &[32, 0, 0xD0, 0x1F, 0xF0, 0x1F, 4, 0x20]),
            (24, &[0xE0, 0x9F, 0x20, 0, 0xD0, 0x9F, 0x20, 0]),
            (8144, SECOND),
            (8160, FIRST),
            (8188, &[3]),
        ],
        space: SpecialSpace {
            prev: 0,
            next: 0,
            level: 0,
            flags: 3,
            cycle: 0,
        },
        high_key: None,
        items: &[FIRST, SECOND],
    },
    Node {
        pieces: &[
            (12, &[36, 0, 0xC0, 0x1F, 0xF0, 0x1F, 4, 0x20]),
            (
                24,
                &[
                    0xC0, 0x9F, 0x20, 0, 0xE0, 0x9F, 0x20, 0, 0xD0, 0x9F, 0x20, 0,
                ],
            ),
            (8128, BOUND),
            (8144, SECOND),
            (8160, FIRST),
            (8176, &[4, 0, 0, 0, 2, 1, 0, 0, 0, 0, 0, 0, 1, 0, 7, 0]),
        ],
        space: SpecialSpace {
            prev: 4,
            next: 258,
            level: 0,
            flags: 1,
            cycle: 7,
        },
        high_key: Some(BOUND),
        items: &[FIRST, SECOND],
    },
    Node {
        pieces: &[
            (12, &[24, 0, 0xF0, 0x1F, 0xF0, 0x1F, 4, 0x20]),
            (8180, &[2, 0, 0, 0, 3]),
        ],
        space: SpecialSpace {
            prev: 0,
            next: 2,
            level: 3,
            flags: 0,
            cycle: 0,
        },
        high_key: None,
        items: &[],
    },
];

static FLAGS: &[(PageFlag, u16)] = &[
    (PageFlag::Leaf, 1),
    (PageFlag::Root, 2),
    (PageFlag::Deleted, 4),
    (PageFlag::Meta, 8),
    (PageFlag::HalfDead, 0x10),
    (PageFlag::SplitEnd, 0x20),
    (PageFlag::HasGarbage, 0x40),
    (PageFlag::IncompleteSplit, 0x80),
    (PageFlag::HasFullXid, 0x100),
];

fn page_of(alloc: Global, pieces: &[(usize, &[u8])]) -> Result<Vec<u8>, AllocError> {
    let mut bytes = vec![in alloc; 0; PAGE]?;
    for (at, piece) in pieces {
        put(&mut bytes, *at, piece);
    }
    Ok(bytes)
}

#[test]
fn meta_pages_are_read(rt: HostRuntime) -> Result<(), Fail> {
    for (at, byte, wanted) in CHANGES {
        let mut bytes = page_of(rt.alloc(), META_PAGE)?;
        put(&mut bytes, *at, &[*byte]);
        let page = Page::of(&bytes).ok_or("a page")?;
        assert_eq!(rt; MetaPage::read(&page), *wanted);
    }
    Ok(())
}

#[test]
fn meta_pages_are_written(rt: HostRuntime) -> Result<(), Fail> {
    let wanted = page_of(rt.alloc(), META_PAGE)?;
    let page = MetaPage::built(1, 0, true).page(rt.alloc())?;
    assert!(rt; page.bytes() == wanted.as_slice());
    Ok(())
}

#[test]
fn pages_are_read(rt: HostRuntime) -> Result<(), Fail> {
    for node in NODES {
        let bytes = page_of(rt.alloc(), node.pieces)?;
        let page = Page::of(&bytes).ok_or("a page")?;
        assert_eq!(rt; SpecialSpace::read(&page), node.space);
        assert_eq!(rt; has_high_key(&page), node.high_key.is_some());
        assert!(rt; high_key(&page) == node.high_key);
        assert_eq!(rt; usize::from(data_count(&page)), node.items.len());
        for number in 0..3u16 {
            let wanted = node.items.get(usize::from(number)).copied();
            assert!(rt; data_item(&page, number) == wanted);
        }
    }
    Ok(())
}

#[test]
fn flags_are_read(rt: HostRuntime) -> Result<(), Fail> {
    for (flag, bit) in FLAGS {
        for (_, flags) in FLAGS {
            let space = SpecialSpace {
                flags: *flags,
                ..NODES[0].space
            };
            assert_eq!(rt; space.has(*flag), flags == bit);
        }
    }
    Ok(())
}
