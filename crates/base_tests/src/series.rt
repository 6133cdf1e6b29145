use pg_bytes::{Bytes, PAGE};
use pg_files::MemFiles;
use segments::{
    Limits, SegmentNames, SeriesCause, SeriesError, SeriesFault, read_series, segment_count,
    write_series,
};
use std::alloc::{AllocError, Global};
use std::test::Fail;

const LIMITS: Limits = Limits {
    segment: 2,
    segments: 3,
};

const FULL: Option<usize> = Some(2 * PAGE);

static NAMES: &[&str] = &["h", "h.1", "h.2", "h.3"];

// A relation's files by their lengths in bytes, none where there is no such file, and what reading
// comes to: how many bytes, or why there are none.
struct Relation {
    files: &'static [Option<usize>],
    segments: u32,
    read: Result<usize, SeriesError>,
}

static RELATIONS: &[Relation] = &[
    Relation {
        files: &[FULL, None],
        segments: 3,
        read: Ok(16_384),
    },
    Relation {
        files: &[FULL, Some(5_000)],
        segments: 3,
        read: Ok(21_384),
    },
    Relation {
        files: &[FULL, Some(16_385)],
        segments: 3,
        read: Err(SeriesError::Fault(SeriesFault {
            block: 4,
            cause: SeriesCause::Overlong,
        })),
    },
    Relation {
        files: &[Some(8_192), Some(5_000)],
        segments: 3,
        read: Ok(8_192),
    },
    Relation {
        files: &[FULL, Some(1)],
        segments: 1,
        read: Err(SeriesError::Fault(SeriesFault {
            block: 2,
            cause: SeriesCause::Surplus,
        })),
    },
    Relation {
        files: &[FULL, Some(0)],
        segments: 1,
        read: Ok(16_384),
    },
    Relation {
        files: &[FULL, FULL, FULL],
        segments: 3,
        read: Ok(49_152),
    },
    Relation {
        files: &[FULL, FULL, FULL, Some(0)],
        segments: 3,
        read: Ok(49_152),
    },
    Relation {
        files: &[FULL, FULL, FULL, Some(1)],
        segments: 3,
        read: Err(SeriesError::Fault(SeriesFault {
            block: 6,
            cause: SeriesCause::Surplus,
        })),
    },
    Relation {
        files: &[FULL, None, FULL],
        segments: 3,
        read: Ok(16_384),
    },
    Relation {
        files: &[Some(0), FULL],
        segments: 3,
        read: Ok(0),
    },
    Relation {
        files: &[Some(100_000)],
        segments: 3,
        read: Err(SeriesError::Fault(SeriesFault {
            block: 2,
            cause: SeriesCause::Overlong,
        })),
    },
    Relation {
        files: &[None, FULL],
        segments: 3,
        read: Err(SeriesError::Failed),
    },
];

// Files of these lengths.
fn files_of(alloc: Global, lengths: &[Option<usize>]) -> Result<MemFiles, AllocError> {
    let mut files = MemFiles::new(alloc);
    for (name, length) in NAMES.iter().zip(lengths) {
        if let Some(length) = *length {
            let mut bytes = Vec::new(alloc);
            bytes.resize(length, 7)?;
            files.put(name, Bytes::from_vec(bytes))?;
        }
    }
    Ok(files)
}

#[test]
fn relations_end_where_their_segments_do(rt: HostRuntime) -> Result<(), Fail> {
    let alloc = rt.alloc();
    for relation in RELATIONS {
        let mut files = files_of(alloc, relation.files)?;
        let limits = Limits {
            segment: 2,
            segments: relation.segments,
        };
        let read = read_series(alloc, &mut files, "h", limits);
        assert!(rt; read.map(|bytes| bytes.len()) == relation.read);
    }
    Ok(())
}

// Of two full segments: two reads of the first, whether the second is there, two reads of it,
// whether there is a third, which there is, and two reads of that.
#[test]
fn each_failing_call_fails_the_reading(rt: HostRuntime) -> Result<(), Fail> {
    let alloc = rt.alloc();
    for call in 1..10 {
        let mut files = files_of(alloc, &[FULL, FULL, Some(1)])?;
        files.fail_at(call)?;
        let read = read_series(alloc, &mut files, "h", LIMITS);
        assert!(rt; read.is_err() == (call < 9));
    }
    Ok(())
}

// What stands in the three segments of four blocks after a failing call: none where there is no
// such file, else its length. Calls are the creating of a segment and two appends, twice, and the
// creating of the last one, which is empty.
struct Left {
    call: u64,
    lengths: &'static [Option<usize>],
}

static LEFT: &[Left] = &[
    Left {
        call: 1,
        lengths: &[None, None, None],
    },
    Left {
        call: 2,
        lengths: &[Some(0), None, None],
    },
    Left {
        call: 3,
        lengths: &[Some(8_192), None, None],
    },
    Left {
        call: 4,
        lengths: &[FULL, None, None],
    },
    Left {
        call: 5,
        lengths: &[FULL, Some(0), None],
    },
    Left {
        call: 6,
        lengths: &[FULL, Some(8_192), None],
    },
    Left {
        call: 7,
        lengths: &[FULL, FULL, None],
    },
    Left {
        call: 8,
        lengths: &[FULL, FULL, Some(0)],
    },
];

#[test]
fn segments_are_written_one_after_the_other(rt: HostRuntime) -> Result<(), Fail> {
    let alloc = rt.alloc();
    let image = [7u8; 4 * PAGE];
    for left in LEFT {
        let mut files = MemFiles::new(alloc);
        files.fail_at(left.call)?;
        let names = SegmentNames::of(alloc, "h", segment_count(image.len(), LIMITS))?;
        let written = write_series(&mut files, &names, &image, LIMITS);
        assert!(rt; written.is_ok() == (left.call == 8));
        for (name, length) in NAMES.iter().zip(left.lengths) {
            assert!(rt; files.file(name).map(|file| file.len()) == *length);
        }
    }
    Ok(())
}
