use super::*;
use jv_types::text::units;
use jv_types::{Bytes, List, NoMemory, Text};
use std::alloc::Global;
use std::fs;
use std::test::Fail;

/// One file `a` with the bytes `abc`.
fn one_file(alloc: Global) -> Result<List<(Text, Bytes)>, NoMemory> {
    let mut files = List::new(alloc);
    files.push((units(alloc, "a")?, List::from_slice(alloc, b"abc")?))?;
    Ok(files)
}

#[test]
fn files_in_memory_fail_where_listed(rt: HostRuntime) -> Result<(), Fail> {
    let alloc = rt.alloc();
    let mut files = MemFiles::new(one_file(alloc)?, List::from_slice(alloc, &[1u64])?);
    for (name, limit, bytes) in [
        ("a", 9, Some(b"abc".as_slice())),
        ("a", 9, None),
        ("b", 9, None),
        ("a", 3, Some(b"abc".as_slice())),
        ("a", 2, Some(b"abc".as_slice())),
        ("a", 1, Some(b"ab".as_slice())),
        ("a", 0, Some(b"a".as_slice())),
    ] {
        match files.read(alloc, name, limit) {
            Err(ReadError::Failed) => assert!(rt; bytes.is_none(), "{name}, limit {limit}"),
            read => assert_eq!(rt; Some(read?.as_slice()), bytes, "{name}, limit {limit}"),
        }
    }
    Ok(())
}

#[test]
fn a_sink_in_memory_takes_pieces(rt: HostRuntime) -> Result<(), Fail> {
    let alloc = rt.alloc();
    let mut sink = MemSink::new(alloc, 3, List::from_slice(alloc, &[3u64])?)?;
    for (piece, taken) in [
        (b"ab".as_slice(), Some(2)),
        (b"".as_slice(), Some(0)),
        (b"cdef".as_slice(), Some(3)),
        (b"f".as_slice(), Some(1)),
        (b"g".as_slice(), None),
        (b"g".as_slice(), Some(1)),
    ] {
        match sink.write(piece) {
            Err(WriteError::Failed) => assert!(rt; taken.is_none(), "{piece:?}"),
            write => assert_eq!(rt; Some(write?), taken, "{piece:?}"),
        }
    }
    write_all(&mut sink, b"hijklmn")?;
    assert_eq!(rt; sink.bytes(), b"abcdefghijklmn".as_slice());
    let mut stuck = MemSink::new(alloc, 0, List::new(alloc))?;
    write_all(&mut stuck, b"")?;
    assert!(rt; matches!(write_all(&mut stuck, b"a"), Err(WriteError::Failed)));
    Ok(())
}

#[test]
fn a_file_is_made_at_its_first_byte(rt: HostRuntime) -> Result<(), Fail> {
    let alloc = rt.alloc();
    let mut files = DiskFiles::new(&rt);
    let mut sink = FileSink::new(&rt, "made");
    write_all(&mut sink, b"")?;
    assert_eq!(rt; sink.write(b"")?, 0);
    assert!(rt; matches!(files.read(alloc, "made", 9), Err(ReadError::Failed)));
    write_all(&mut sink, b"abc")?;
    write_all(&mut sink, b"de")?;
    assert_eq!(rt;
        files.read(alloc, "made", 9)?.as_slice(),
        b"abcde".as_slice()
    );
    assert_eq!(rt; files.read(alloc, "made", 1)?.as_slice(), b"ab".as_slice());
    let mut later = FileSink::new(&rt, "made");
    assert_eq!(rt; later.write(b"")?, 0);
    assert_eq!(rt;
        files.read(alloc, "made", 9)?.as_slice(),
        b"abcde".as_slice()
    );
    write_all(&mut later, b"f")?;
    assert_eq!(rt; files.read(alloc, "made", 9)?.as_slice(), b"f".as_slice());
    fs::remove_file(&rt, "made")?;
    let mut nowhere = FileSink::new(&rt, "missing/made");
    assert_eq!(rt; nowhere.write(b"")?, 0);
    assert!(rt; matches!(nowhere.write(b"a"), Err(WriteError::Failed)));
    Ok(())
}

#[test]
fn standard_output_takes_bytes(rt: HostRuntime) -> Result<(), Fail> {
    let mut sink = StdSink::new(&rt);
    assert_eq!(rt; sink.write(b"")?, 0);
    write_all(&mut sink, b"written\n")?;
    Ok(())
}
