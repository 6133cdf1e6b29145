use super::runs::{end_of, files_of};
use pg_bytes::PAGE;
use std::test::Fail;
use test_pages::{Entry, int4_page, leaf_file};

// The calls of a build of three rows are two reads, a create, two appends and a say. The status
// where one fails, and how much of the index is there.
static FAILING: [(u64, u8, Option<usize>); 7] = [
    (1, 4, None),
    (2, 4, None),
    (3, 8, None),
    (4, 8, Some(0)),
    (5, 8, Some(PAGE)),
    (6, 8, Some(2 * PAGE)),
    (7, 0, Some(2 * PAGE)),
];

// The three rows by their keys.
static ROWS: [Entry; 3] = [
    Entry {
        key: 10,
        block: 0,
        offset: 2,
    },
    Entry {
        key: 20,
        block: 0,
        offset: 3,
    },
    Entry {
        key: 30,
        block: 0,
        offset: 1,
    },
];

#[test]
fn a_failing_call_is_told_and_leaves_a_front_of_the_index(rt: HostRuntime) -> Result<(), Fail> {
    let alloc = rt.alloc();
    let heap = int4_page(alloc, &[30, 10, 20])?;
    let index = leaf_file(alloc, &ROWS)?;
    for (call, status, length) in &FAILING {
        let mut files = files_of(alloc, &heap)?;
        files.fail_at(*call)?;
        let ended = end_of(&rt, alloc, &mut files)?;
        assert!(rt; ended.status == *status);
        assert!(rt; files.file("i") == length.and_then(|length| index.get(..length)));
        assert!(rt; files.said().is_empty() == (*status != 0));
        assert!(rt; files.file("h") == Some(heap.as_slice()));
    }
    Ok(())
}
