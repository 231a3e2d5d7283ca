use lv_bits::{Bytes, Text};
use lv_io::{Failed, FsShelf, MemShelf, MemSink, Shelf, ShelfError, Sink, StdSink, put_all};
use std::process::Abort;
use std::test::Fail;

fn reads<R: Abort + AllocGlobal, S: Shelf>(
    rt: &R,
    shelf: &mut S,
    name: &Text,
    limit: u64,
    want: Result<&[u8], ShelfError>,
) {
    match (shelf.read(rt.alloc(), name, limit), want) {
        (Ok(bytes), Ok(file)) => assert!(rt; bytes.bytes() == file),
        (Err(refusal), Err(cause)) => assert!(rt; refusal == cause),
        _ => panic!(rt; "one is refused and the other not"),
    }
}

fn writes<R: Abort + AllocGlobal, S: Shelf>(
    rt: &R,
    shelf: &mut S,
    name: &Text,
    bytes: &[u8],
    want: Result<(), ShelfError>,
) {
    let result = shelf.write(rt.alloc(), name, bytes);
    assert!(rt; result == want);
}

#[test]
fn shelf_in_memory_fails_where_listed(rt: HostRuntime) -> Result<(), Fail> {
    let alloc = rt.alloc();
    let a = Text::new(alloc, b"a")?;
    let b = Text::new(alloc, b"b")?;
    let mut shelf = MemShelf::new(alloc, vec![in alloc; 3, 5]?);
    shelf.put(a.copy(alloc)?, Bytes::new(alloc, b"old")?)?;
    shelf.put(a.copy(alloc)?, Bytes::new(alloc, b"hello")?)?;
    reads(&rt, &mut shelf, &a, 5, Ok(b"hello"));
    reads(&rt, &mut shelf, &a, 4, Err(ShelfError::TooLong));
    reads(&rt, &mut shelf, &b, 4, Err(ShelfError::Missing));
    reads(&rt, &mut shelf, &a, 5, Err(ShelfError::Failed));
    writes(&rt, &mut shelf, &b, b"xy", Ok(()));
    writes(&rt, &mut shelf, &a, b"xy", Err(ShelfError::Failed));
    reads(&rt, &mut shelf, &a, 5, Ok(b"hello"));
    reads(&rt, &mut shelf, &b, 2, Ok(b"xy"));
    Ok(())
}

#[test]
fn sink_in_memory_takes_what_fits(rt: HostRuntime) -> Result<(), Fail> {
    let alloc = rt.alloc();
    let rows: [(u64, u64, u64, &[u8], bool, &[u8]); 6] = [
        (16, 8, 9, b"accepted\n", true, b"accepted\n"),
        (16, 8, 1, b"accepted\n", false, b"accepted"),
        (4, 8, 9, b"accepted\n", false, b"acce"),
        (5, 2, 9, b"hello", true, b"hello"),
        (5, 2, 0, b"hello", false, b""),
        (0, 1, 0, b"", true, b""),
    ];
    for (room, most, fails, piece, whole, given) in rows {
        assert!(rt; most >= 1);
        let mut sink = MemSink::new(alloc, room, most, vec![in alloc; fails]?)?;
        let result = put_all(&mut sink, piece);
        assert!(rt; result.is_ok() == whole);
        assert!(rt; sink.bytes() == given);
    }
    Ok(())
}

#[test]
fn files_of_the_system(rt: HostRuntime) -> Result<(), Fail> {
    let alloc = rt.alloc();
    let name = Text::new(alloc, b"file.txt")?;
    let absent = Text::new(alloc, b"absent.txt")?;
    let folder = Text::new(alloc, b".")?;
    let mut shelf = FsShelf::new(rt.clone()?);
    writes(&rt, &mut shelf, &name, b"first and longer", Ok(()));
    writes(&rt, &mut shelf, &name, b"second\n", Ok(()));
    reads(&rt, &mut shelf, &name, 7, Ok(b"second\n"));
    reads(&rt, &mut shelf, &name, 6, Err(ShelfError::TooLong));
    reads(&rt, &mut shelf, &absent, 6, Err(ShelfError::Missing));
    reads(&rt, &mut shelf, &folder, 6, Err(ShelfError::Failed));
    writes(&rt, &mut shelf, &folder, b"", Err(ShelfError::Failed));
    Ok(())
}

#[test]
fn standard_output_takes_all(rt: HostRuntime) -> Result<(), Fail> {
    let mut sink = StdSink::new(rt.clone()?);
    assert!(rt; put_all(&mut sink, b"written to standard output\n").is_ok());
    Ok(())
}
