use pg_bytes::Bytes;
use pg_files::{Files, MemFiles, RealFiles};
use std::alloc::{AllocError, Global};
use std::fs;
use std::test::Fail;

fn bytes(alloc: Global, text: &[u8]) -> Result<Bytes, AllocError> {
    Ok(Bytes::from_vec(text.to_vec(alloc)?))
}

#[test]
fn reads(rt: HostRuntime) -> Result<(), Fail> {
    let alloc = rt.alloc();
    let mut files = MemFiles::new(alloc);
    files.put("heap", bytes(alloc, b"old")?)?;
    files.put("heap", bytes(alloc, b"heap bytes")?)?;
    let cases = [
        (0, b"heap byt".as_slice()),
        (5, b"bytes".as_slice()),
        (10, b"".as_slice()),
        (11, b"".as_slice()),
    ];
    for (at, want) in cases {
        let mut buffer = [0; 8];
        let count = files.read("heap", at, &mut buffer)?;
        assert!(rt; &buffer[..count] == want);
    }
    let mut buffer = [7; 2];
    assert!(rt; files.read("absent", 0, &mut buffer).is_err());
    assert!(rt; buffer == [7; 2]);
    assert!(rt; files.file("absent").is_none());
    Ok(())
}

// Six calls, of which each may fail, and which of them did.
fn six_calls<F: Files>(files: &mut F) -> [bool; 6] {
    let mut buffer = [0; 8];
    [
        files.create("index").is_err(),
        files.append("index", b"one").is_err(),
        files.append("index", b"two").is_err(),
        files.read("index", 0, &mut buffer).is_err(),
        files.say(b"done").is_err(),
        files.there("index").is_err(),
    ]
}

#[test]
fn fails_where_set(rt: HostRuntime) -> Result<(), Fail> {
    let alloc = rt.alloc();
    let cases = [
        (0, b"onetwo".as_slice(), b"done".as_slice()),
        (1, b"oldonetwo".as_slice(), b"done".as_slice()),
        (2, b"two".as_slice(), b"done".as_slice()),
        (3, b"one".as_slice(), b"done".as_slice()),
        (4, b"onetwo".as_slice(), b"done".as_slice()),
        (5, b"onetwo".as_slice(), b"".as_slice()),
        (6, b"onetwo".as_slice(), b"done".as_slice()),
    ];
    for (call, index, said) in cases {
        let mut files = MemFiles::new(alloc);
        files.put("index", bytes(alloc, b"old")?)?;
        files.fail_at(call)?;
        let failed = six_calls(&mut files);
        for (number, failed) in failed.iter().enumerate() {
            assert!(rt; *failed == (number as u64 + 1 == call));
        }
        assert!(rt; files.file("index") == Some(index));
        assert!(rt; files.said() == said);
        assert!(rt; files.refused() == 0);
    }
    Ok(())
}

// A call moves so many bytes at most, and what it left takes another one.
#[test]
fn moves_pieces(rt: HostRuntime) -> Result<(), Fail> {
    let alloc = rt.alloc();
    let cases = [
        (1, b"p".as_slice(), b"h".as_slice()),
        (3, b"pie".as_slice(), b"hea".as_slice()),
        (5, b"piece".as_slice(), b"heap".as_slice()),
        (65_536, b"piece".as_slice(), b"heap".as_slice()),
    ];
    for (most, index, heap) in cases {
        let mut files = MemFiles::new(alloc);
        files.put("heap", bytes(alloc, b"heap")?)?;
        files.piece(most);
        assert!(rt; files.append("index", b"piece")? == index.len());
        assert!(rt; files.file("index") == Some(index));
        let mut buffer = [0; 8];
        let count = files.read("heap", 0, &mut buffer)?;
        assert!(rt; &buffer[..count] == heap);
    }
    Ok(())
}

#[test]
fn tells_which_files_are_there(rt: HostRuntime) -> Result<(), Fail> {
    let alloc = rt.alloc();
    let mut files = MemFiles::new(alloc);
    files.put("heap", bytes(alloc, b"")?)?;
    assert!(rt; files.there("heap")?);
    assert!(rt; !files.there("heap.1")?);
    let name = "pg_files_there.tmp";
    let mut files = RealFiles::new(&rt);
    files.create(name)?;
    assert!(rt; files.there(name)?);
    fs::remove_file(&rt, name)?;
    assert!(rt; !files.there(name)?);
    // A folder is there, and of what lies behind a file nothing can be said.
    assert!(rt; files.there(".")?);
    assert!(rt; files.there("/dev/null/file").is_err());
    Ok(())
}

#[test]
fn writes_and_reads(rt: HostRuntime) -> Result<(), Fail> {
    let name = "pg_files_writes_and_reads.tmp";
    let mut files = RealFiles::new(&rt);
    files.create(name)?;
    files.append(name, b"to be emptied")?;
    files.create(name)?;
    assert!(rt; files.append(name, b"page one, ")? == 10);
    assert!(rt; files.append(name, b"")? == 0);
    assert!(rt; files.append(name, b"page two")? == 8);
    let cases = [
        (0, b"page one".as_slice()),
        (12, b"ge two".as_slice()),
        (18, b"".as_slice()),
        (20, b"".as_slice()),
    ];
    for (at, want) in cases {
        let mut buffer = [0; 8];
        let count = files.read(name, at, &mut buffer)?;
        assert!(rt; &buffer[..count] == want);
    }
    fs::remove_file(&rt, name)?;
    files.say(b"said raw")?;
    Ok(())
}

// Calls for two files in turn, and for one that was made anew, reach the file that they name.
#[test]
fn keeps_files_apart(rt: HostRuntime) -> Result<(), Fail> {
    let names = ["pg_files_one.tmp", "pg_files_other.tmp"];
    let mut files = RealFiles::new(&rt);
    for name in names {
        files.create(name)?;
    }
    for piece in [b"first, ".as_slice(), b"second"] {
        for name in names {
            files.append(name, piece)?;
            files.append(name, &name.as_bytes()[9..12])?;
        }
    }
    let mut buffer = [0; 32];
    for (name, want) in [
        (names[1], b"first, othsecondoth".as_slice()),
        (names[0], b"first, onesecondone".as_slice()),
    ] {
        let count = files.read(name, 0, &mut buffer)?;
        assert!(rt; &buffer[..count] == want);
        fs::remove_file(&rt, name)?;
        files.create(name)?;
        files.append(name, b"anew")?;
        let mut anew = RealFiles::new(&rt);
        let count = anew.read(name, 0, &mut buffer)?;
        assert!(rt; &buffer[..count] == b"anew".as_slice());
        fs::remove_file(&rt, name)?;
    }
    Ok(())
}

#[test]
fn tells_failures(rt: HostRuntime) -> Result<(), Fail> {
    let mut files = RealFiles::new(&rt);
    let mut buffer = [0; 8];
    // No file is there, or none can be.
    assert!(rt; files.read("pg_files_absent.tmp", 0, &mut buffer).is_err());
    assert!(rt; files.create("pg_files_absent/file").is_err());
    assert!(rt; files.append("pg_files_absent/file", b"page").is_err());
    // It was opened before it failed: a folder, and a device that is full.
    assert!(rt; files.read(".", 0, &mut buffer).is_err());
    assert!(rt; files.append("/dev/full", b"page").is_err());
    Ok(())
}
