use crate::Fault;
use index_stmt::StmtFault;
use pg_bytes::RowPtr;
use std::test::Fail;

// Each fault, its status and its text.
static FAULTS: [(Fault, u8, &str); 8] = [
    (Fault::Usage { word: 3 }, 2, "usage: word 3"),
    (
        Fault::Statement(StmtFault {
            statement: 2,
            place: 41,
            cause: 6,
        }),
        3,
        "statement 2 at 41: cause 6",
    ),
    (Fault::ReadFault, 4, "read fault"),
    (
        Fault::Heap {
            block: 131_072,
            item: 0,
            cause: 15,
        },
        5,
        "heap block 131072 item 0: cause 15",
    ),
    (
        Fault::Duplicate {
            first: RowPtr {
                block: 0,
                offset: 1,
            },
            second: RowPtr {
                block: 131_071,
                offset: 226,
            },
        },
        6,
        "duplicate key: (0,1) and (131071,226)",
    ),
    (
        Fault::RangeWide {
            range: 131_071,
            size: 8160,
        },
        7,
        "range 131071 too wide: 8160 bytes",
    ),
    (Fault::WriteFault, 8, "write fault"),
    (Fault::OutOfMemory, 10, "out of memory"),
];

#[test]
fn each_fault_has_its_text_and_status(rt: HostRuntime) -> Result<(), Fail> {
    for (fault, status, wanted) in &FAULTS {
        let text = format!(in rt.alloc(); "{fault}")?;
        assert!(rt; text.as_str() == *wanted);
        assert!(rt; fault.status() == *status);
    }
    Ok(())
}
