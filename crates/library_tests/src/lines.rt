//! Lines of a source in any pieces, and both sides of a link.

use crate::memory::{sink, source};
use line_link::{Line, LineReader, Link, MemoryLink, ReadEnd, Source, WriteFault, write_all};
use std::alloc::Global;
use std::test::Fail;

/// What a reader tells of a source that it is asked for ten times: each line, and what it answers instead.
fn told(alloc: Global, from: &mut impl Source, limit: u64) -> Result<String, Fail> {
    let mut reader = LineReader::new(alloc, limit)?;
    let mut told = String::new(alloc);
    for _ in 0..10 {
        match reader.next(from) {
            Ok(Line::Whole) => {
                let line = String::from_utf8_lossy(alloc, reader.text())?;
                told.push_str(line.as_str())?;
            }
            Ok(Line::TooLong) => told.push_str("long")?,
            Err(ReadEnd::End) => told.push_str("end")?,
            Err(ReadEnd::ReadFault) => told.push_str("fault")?,
            Err(ReadEnd::InputLimit) => told.push_str("limit")?,
        }
        told.push(' ')?;
    }
    Ok(told)
}

#[test]
fn lines_do_not_depend_on_the_pieces(rt: HostRuntime) -> Result<(), Fail> {
    for (bytes, limit, expected) in [
        (
            b"ab\n\ncd".as_slice(),
            100,
            "ab  cd end end end end end end end ",
        ),
        (
            b"a\nb\nc\nd",
            6,
            "a b c limit limit limit limit limit limit limit ",
        ),
        (
            b"a\nb\nc\n",
            6,
            "a b c limit limit limit limit limit limit limit ",
        ),
        (b"a\nb\nc\n", 7, "a b c end end end end end end end "),
        (
            b"a\nbcde",
            6,
            "a limit limit limit limit limit limit limit limit limit ",
        ),
    ] {
        for piece in [1, 2, 7, 4096] {
            let mut from = source(rt.alloc(), bytes, piece, &[])?;
            let told = told(rt.alloc(), &mut from, limit)?;
            assert_eq!(rt; told.as_str(), expected, "in pieces of {piece}");
        }
    }
    Ok(())
}

/// Writes the next line of a link to its other side.
fn copy_line<L: Link>(link: &mut L, reader: &mut LineReader) -> Result<(), ReadEnd> {
    reader.next(link)?;
    match write_all(link, reader.text()) {
        Ok(()) => Ok(()),
        Err(WriteFault) => Err(ReadEnd::End),
    }
}

#[test]
fn a_link_has_both_sides(rt: HostRuntime) -> Result<(), Fail> {
    let from = source(rt.alloc(), b"ab\ncd\n", 2, &[])?;
    let to = sink(rt.alloc(), 1, &[])?;
    let mut link = MemoryLink::new(from, to);
    let mut reader = LineReader::new(rt.alloc(), 100)?;
    for _ in 0..2 {
        assert!(rt; copy_line(&mut link, &mut reader).is_ok());
    }
    assert!(rt; copy_line(&mut link, &mut reader).is_err());
    assert!(rt; link.sink().as_slice() == b"abcd".as_slice());
    Ok(())
}
