//! One call each of the shelves and sinks, and of their failures.
use super::*;
use std::alloc::{AllocError, Global};
use std::test::Fail;

type Answer<'a> = Result<&'a [u8], ShelfFault>;

fn file(alloc: Global, name: &str, bytes: &[u8]) -> Result<(String, Vec<u8>), AllocError> {
    Ok((
        String::from_str(alloc, name)?,
        Vec::from_slice(alloc, bytes)?,
    ))
}

fn is_answer(got: &Result<Vec<u8>, ShelfFault>, want: &Answer) -> bool {
    match (got, want) {
        (Ok(bytes), Ok(held)) => bytes.as_slice() == *held,
        (Err(fault), Err(expected)) => *fault == *expected,
        _ => false,
    }
}

#[test]
fn the_first_file_of_a_name_is_fetched_unless_the_call_is_listed(
    rt: HostRuntime,
) -> Result<(), Fail> {
    let alloc = rt.alloc();
    let files = vec![in alloc;
        file(alloc, "a", b"one")?,
        file(alloc, "a", b"two!")?,
        file(alloc, "b", b"")?,
    ]?;
    let mut shelf = MemShelf::new(alloc, files, vec![in alloc; 2u32, 8]?);
    let table: [(&str, usize, Answer); 8] = [
        ("a", 3, Ok(b"one")),
        ("a", 3, Err(ShelfFault::Failed)),
        ("a", 2, Err(ShelfFault::TooLong { length: 3 })),
        ("b", 0, Ok(b"")),
        ("c", 9, Err(ShelfFault::Failed)),
        ("", 9, Err(ShelfFault::Failed)),
        ("a", usize::MAX, Ok(b"one")),
        ("c", 9, Err(ShelfFault::Failed)),
    ];
    for (name, most, want) in table {
        let got = shelf.fetch(alloc, name, most);
        assert!(rt; is_answer(&got, &want), "{name} at most {most}: {got:?}");
    }
    Ok(())
}

#[test]
fn a_listed_put_keeps_a_part_of_its_piece(rt: HostRuntime) -> Result<(), Fail> {
    let alloc = rt.alloc();
    let fails = vec![in alloc; (2u32, 0usize), (3, 1), (4, 3), (5, 9), (3, 2)]?;
    let mut sink = MemSink::new(alloc, fails);
    let table: [(&[u8], Result<(), SinkFault>, &[u8]); 6] = [
        (b"abc", Ok(()), b"abc"),
        (b"def", Err(SinkFault::Failed), b"abc"),
        (b"def", Err(SinkFault::Failed), b"abcd"),
        (b"ghi", Err(SinkFault::Failed), b"abcdghi"),
        (b"jk", Err(SinkFault::Failed), b"abcdghijk"),
        (b"!", Ok(()), b"abcdghijk!"),
    ];
    for (piece, want, written) in table {
        assert_eq!(rt; sink.put(piece), want);
        assert_eq!(rt; sink.bytes(), written);
    }
    Ok(())
}
