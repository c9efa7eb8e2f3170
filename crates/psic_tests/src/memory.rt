// Shelves and sinks in memory, which fail as they are told.
use psi_edges::{
    Failed, Fetch, MemoryShelf, MemorySink, Shelf, Sink, WriteFault, read_whole, write_whole,
};
use std::test::Fail;

#[test]
fn a_memory_shelf_gives_what_is_there_and_fails_where_named(rt: HostRuntime) -> Result<(), Fail> {
    let mut shelf = MemoryShelf::new(rt.alloc());
    let mut into = [0u8; 4];
    assert_eq!(rt; shelf.add("a", b"first"), Ok(()));
    assert_eq!(rt; shelf.add("a", b"hello!"), Ok(()));
    assert_eq!(rt; shelf.fail_at(3), Ok(()));
    assert_eq!(rt; shelf.take("a", 0, &mut into), Ok(4));
    assert_eq!(rt; into, *b"hell");
    assert_eq!(rt; shelf.take("a", 4, &mut into), Ok(2));
    assert_eq!(rt; into, *b"o!ll");
    assert_eq!(rt; shelf.take("a", 0, &mut into), Err(Failed));
    assert_eq!(rt; shelf.take("a", 6, &mut into), Ok(0));
    assert_eq!(rt; shelf.take("c", 0, &mut into), Err(Failed));
    Ok(())
}

#[test]
fn a_whole_file_is_read_up_to_the_limit(rt: HostRuntime) -> Result<(), Fail> {
    let mut shelf = MemoryShelf::new(rt.alloc());
    let long = vec![in rt.alloc(); 7u8; 10000]?;
    shelf.add("long", &long)?;
    let whole = read_whole(rt.alloc(), &mut shelf, "long", 10000)?;
    assert_eq!(rt; whole.as_slice(), long.as_slice());
    let longer = read_whole(rt.alloc(), &mut shelf, "long", 9999);
    assert!(rt; matches!(longer, Err(Fetch::TooLong)));
    Ok(())
}

#[test]
fn a_memory_sink_takes_pieces_until_it_is_full_and_fails_where_named(
    rt: HostRuntime,
) -> Result<(), Fail> {
    let mut sink = MemorySink::new(rt.alloc(), 5, 3)?;
    assert_eq!(rt; sink.fail_at(2), Ok(()));
    assert_eq!(rt; sink.put(b"abcdef"), Ok(3));
    assert_eq!(rt; sink.put(b"def"), Err(Failed));
    assert_eq!(rt; sink.put(b"def"), Ok(2));
    assert_eq!(rt; sink.put(b"f"), Err(Failed));
    assert_eq!(rt; sink.held(), b"abcde".as_slice());
    Ok(())
}

#[test]
fn each_put_is_handed_all_that_is_left(rt: HostRuntime) -> Result<(), Fail> {
    let mut sink = MemorySink::new(rt.alloc(), 64, 2)?;
    sink.fail_at(4)?;
    assert_eq!(rt; write_whole(&mut sink, b"hello"), Ok(()));
    assert_eq!(rt; write_whole(&mut sink, b""), Ok(()));
    assert_eq!(rt; write_whole(&mut sink, b"!"), Err(WriteFault));
    assert_eq!(rt; sink.held(), b"hello".as_slice());
    Ok(())
}
