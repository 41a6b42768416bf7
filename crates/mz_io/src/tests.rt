//! Bytes that go through both ends, and calls that fail on the way.
use super::*;
use std::alloc::{AllocError, Global};
use std::io;
use std::io::{ErrorKind, Read, Write};
use std::test::Fail;

const TEXT: &[u8] = b"INSERT INTO kv VALUES (1, 2), (3, 4)";

/// Reads to the end, and tries again after a fault.
fn all_of<S: Source>(alloc: Global, source: &mut S) -> Result<Vec<u8>, AllocError> {
    let mut bytes = Vec::new(alloc);
    let mut buffer = [0; 16];
    for _ in 0..100 {
        match source.read(&mut buffer) {
            Ok(0) => break,
            Ok(count) => bytes.extend_from_slice(&buffer[..count])?,
            Err(Failed) => {}
        }
    }
    Ok(bytes)
}

/// Fails at every call.
#[derive(Drop)]
struct Broken;

impl Read for Broken {
    fn read(&mut self, _into: &mut [u8]) -> io::Result<usize> {
        Err(ErrorKind::BrokenPipe.into())
    }
}

impl Write for Broken {
    fn write(&mut self, _piece: &[u8]) -> io::Result<usize> {
        Err(ErrorKind::BrokenPipe.into())
    }

    fn flush(&mut self) -> io::Result<()> {
        Err(ErrorKind::BrokenPipe.into())
    }
}

#[test]
fn pieces_of_any_size_give_the_same_bytes(rt: HostRuntime) -> Result<(), Fail> {
    for largest in [1, 7, 4096] {
        let bytes = TEXT.to_vec(rt.alloc())?;
        let mut source = MemorySource::new(bytes, largest, Vec::new(rt.alloc()));
        let read = all_of(rt.alloc(), &mut source)?;
        assert_eq!(rt; read.as_slice(), TEXT, "in pieces of {largest}");
        assert_eq!(rt; source.read(&mut [0]), Ok(0), "it ends again");
    }
    Ok(())
}

#[test]
fn a_failing_read_loses_nothing(rt: HostRuntime) -> Result<(), Fail> {
    let bytes = TEXT.to_vec(rt.alloc())?;
    let failing = [1, 3].to_vec(rt.alloc())?;
    let mut source = MemorySource::new(bytes, 7, failing);
    let mut buffer = [0; 16];
    assert_eq!(rt; source.read(&mut buffer), Err(Failed));
    assert_eq!(rt; source.read(&mut buffer), Ok(7));
    assert_eq!(rt; &buffer[..7], b"INSERT ".as_slice());
    assert_eq!(rt; source.read(&mut buffer), Err(Failed));
    let rest = all_of(rt.alloc(), &mut source)?;
    assert_eq!(rt;
        rest.as_slice(),
        b"INTO kv VALUES (1, 2), (3, 4)".as_slice()
    );
    Ok(())
}

#[test]
fn a_piece_is_written_whole_in_pieces_of_five(rt: HostRuntime) -> Result<(), Fail> {
    let mut sink = MemorySink::new(rt.alloc(), 5, Vec::new(rt.alloc()));
    assert_eq!(rt; sink.write(TEXT), Ok(5));
    assert_eq!(rt; write_all(&mut sink, &TEXT[5..]), Ok(()));
    assert_eq!(rt; sink.flush(), Ok(()));
    assert_eq!(rt; sink.written(), TEXT);
    Ok(())
}

#[test]
fn a_failing_write_keeps_the_front(rt: HostRuntime) -> Result<(), Fail> {
    let failing = [3, 5].to_vec(rt.alloc())?;
    let mut sink = MemorySink::new(rt.alloc(), 5, failing);
    assert_eq!(rt; write_all(&mut sink, TEXT), Err(Failed));
    assert_eq!(rt; sink.written(), b"INSERT INT".as_slice());
    assert_eq!(rt; sink.flush(), Ok(()), "the fourth call");
    assert_eq!(rt; sink.flush(), Err(Failed), "the fifth call");
    assert_eq!(rt; write_all(&mut sink, b"O kv"), Ok(()));
    assert_eq!(rt; sink.written(), b"INSERT INTO kv".as_slice());
    Ok(())
}

#[test]
fn a_reader_of_std_is_a_source(rt: HostRuntime) -> Result<(), Fail> {
    let mut source = ReadSource::new(TEXT);
    assert_eq!(rt; source.read(&mut [0; 15]), Ok(15));
    assert_eq!(rt; source.into_inner(), b"VALUES (1, 2), (3, 4)".as_slice());
    Ok(())
}

#[test]
fn a_writer_of_std_is_a_sink(rt: HostRuntime) -> Result<(), Fail> {
    let mut sink = WriteSink::new(Vec::new(rt.alloc()));
    assert_eq!(rt; write_all(&mut sink, TEXT), Ok(()));
    assert_eq!(rt; sink.flush(), Ok(()));
    assert_eq!(rt; sink.into_inner().as_slice(), TEXT);
    Ok(())
}

#[test]
fn errors_of_std_are_faults(rt: HostRuntime) {
    let mut source = ReadSource::new(Broken);
    assert_eq!(rt; source.read(&mut [0; 16]), Err(Failed));
    let mut sink = WriteSink::new(Broken);
    assert_eq!(rt; sink.write(TEXT), Err(Failed));
    assert_eq!(rt; write_all(&mut sink, TEXT), Err(Failed));
    assert_eq!(rt; sink.flush(), Err(Failed));
}
