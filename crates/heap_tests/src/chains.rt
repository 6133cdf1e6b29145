use heap_page::check_page;
use hot_chain::{RootFault, find_roots};
use pg_bytes::Page;
use std::alloc::Global;
use std::test::Fail;
use test_pages::{Line, Tuple, heap_page};

// A chain of three versions: a dead tuple, a dead heap-only one, and a live heap-only one.
const FIRST: Tuple = Tuple {
    xmin: 100,
    xmax: 101,
    block: 0,
    offset: 2,
    infomask2: 0x4001,
    infomask: 0x0500,
    hoff: 24,
    bitmap: &[],
    values: &[1, 0, 0, 0],
};

const SECOND: Tuple = Tuple {
    xmin: 101,
    xmax: 102,
    block: 0,
    offset: 3,
    infomask2: 0xC001,
    infomask: 0x2500,
    hoff: 24,
    bitmap: &[],
    values: &[2, 0, 0, 0],
};

const THIRD: Tuple = Tuple {
    xmin: 102,
    xmax: 0,
    block: 0,
    offset: 3,
    infomask2: 0x8001,
    infomask: 0x2900,
    hoff: 24,
    bitmap: &[],
    values: &[3, 0, 0, 0],
};

// A live row that is no part of a chain.
const ALONE: Tuple = Tuple {
    xmin: 700,
    xmax: 0,
    block: 0,
    offset: 0,
    infomask2: 1,
    infomask: 0x0900,
    hoff: 24,
    bitmap: &[],
    values: &[4, 0, 0, 0],
};

const FIRST_LINE: Line = Line::Normal(FIRST);

const SECOND_LINE: Line = Line::Normal(SECOND);

const THIRD_LINE: Line = Line::Normal(THIRD);

// The line pointers of a page, and the items of its rows with their roots, or the item and the cause
// of its fault.
struct Case {
    lines: &'static [Line<'static>],
    wanted: Result<&'static [(u16, u16)], (u16, u8)>,
}

static CASES: [Case; 12] = [
    Case {
        // a chain of three versions
        lines: &[FIRST_LINE, SECOND_LINE, THIRD_LINE],
        wanted: Ok(&[(3, 1)]),
    },
    Case {
        // a chain that was pruned
        lines: &[Line::Redirect(3), Line::Unused, THIRD_LINE],
        wanted: Ok(&[(3, 1)]),
    },
    Case {
        // a chain of which a version is frozen
        lines: &[
            Line::Normal(Tuple {
                infomask: 0x0700,
                ..FIRST
            }),
            SECOND_LINE,
            THIRD_LINE,
        ],
        wanted: Ok(&[(3, 1)]),
    },
    Case {
        // rows that are no part of a chain
        lines: &[Line::Normal(ALONE), Line::Dead, Line::Normal(ALONE)],
        wanted: Ok(&[(1, 1), (3, 3)]),
    },
    Case {
        // a ctid that names another block
        lines: &[
            FIRST_LINE,
            Line::Normal(Tuple { block: 7, ..SECOND }),
            THIRD_LINE,
        ],
        wanted: Ok(&[(3, 1)]),
    },
    Case {
        // two redirects to one tuple
        lines: &[Line::Redirect(3), Line::Redirect(3), THIRD_LINE],
        wanted: Ok(&[(3, 2)]),
    },
    Case {
        // a cycle that nothing starts
        lines: &[
            Line::Normal(Tuple {
                infomask2: 0xC001,
                ..FIRST
            }),
            Line::Normal(Tuple {
                xmin: 101,
                xmax: 100,
                offset: 1,
                infomask2: 0xC001,
                ..FIRST
            }),
            Line::Unused,
        ],
        wanted: Ok(&[]),
    },
    Case {
        // a heap-only tuple alone
        lines: &[THIRD_LINE, Line::Unused, Line::Unused],
        wanted: Err((1, 5)),
    },
    Case {
        // a chain that an aborted update ends
        lines: &[
            FIRST_LINE,
            Line::Normal(Tuple {
                infomask: 0x2900,
                ..SECOND
            }),
            THIRD_LINE,
        ],
        wanted: Err((3, 5)),
    },
    Case {
        // a line pointer that was used again
        lines: &[
            FIRST_LINE,
            SECOND_LINE,
            Line::Normal(Tuple { xmin: 103, ..THIRD }),
        ],
        wanted: Err((3, 5)),
    },
    Case {
        // two live versions on a chain
        lines: &[
            FIRST_LINE,
            Line::Normal(Tuple {
                infomask: 0x2180,
                ..SECOND
            }),
            THIRD_LINE,
        ],
        wanted: Err((3, 6)),
    },
    Case {
        // two heap-only tuples that no chain has
        lines: &[Line::Unused, THIRD_LINE, THIRD_LINE],
        wanted: Err((2, 5)),
    },
];

#[test]
fn finds_the_roots_of_a_page_or_its_least_fault(rt: HostRuntime) -> Result<(), Fail> {
    for case in &CASES {
        let is_wanted = match (found(rt.alloc(), case.lines)?, case.wanted) {
            (Ok(rows), Ok(wanted)) => rows.as_slice() == wanted,
            (Err(RootFault::Item { item, cause }), Err(wanted)) => (item, cause) == wanted,
            _ => false,
        };
        assert!(rt; is_wanted);
    }
    Ok(())
}

// The items and roots that are found on the page with these line pointers.
fn found(alloc: Global, lines: &[Line]) -> Result<Result<Vec<(u16, u16)>, RootFault>, Fail> {
    let bytes = heap_page(alloc, lines)?;
    let page = Page::of(&bytes).ok_or("not a page")?;
    let view = check_page(&page, 1)?;
    match find_roots(alloc, &view) {
        Ok(roots) => {
            let mut rows = Vec::new(alloc);
            for i in 0..roots.rows() {
                rows.push((roots.item(i), roots.root(i)))?;
            }
            Ok(Ok(rows))
        }
        Err(fault) => Ok(Err(fault)),
    }
}
