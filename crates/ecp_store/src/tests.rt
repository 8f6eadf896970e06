use super::*;
use std::io;
use std::io::{ErrorKind, Read, Write};
use std::test::Fail;

// Pulls once, into a buffer of five bytes, and appends what came.
fn pull_into<S: Source>(source: &mut S, got: &mut Vec<u8>) -> Result<usize, Failed> {
    let mut buf = [0u8; 5];
    let count = source.pull(&mut buf)?;
    let _ = got.extend_from_slice(&buf[..count]);
    Ok(count)
}

// Pushes these bytes once.
fn push_once<S: Sink>(sink: &mut S, byte: u8, more: u8) -> Result<usize, Failed> {
    sink.push(&[byte, more])
}

// A reader that fails in its second call, between two bytes.
#[derive(Drop)]
struct Interrupted(u8);

impl Read for Interrupted {
    fn read(&mut self, buf: &mut [u8]) -> io::Result<usize> {
        let call = self.0;
        self.0 = call.saturating_add(1);
        if call == 1 {
            return Err(ErrorKind::Interrupted.into());
        }
        if call > 2 || buf.is_empty() {
            return Ok(0);
        }
        buf[0] = call;
        Ok(1)
    }
}

// A writer that takes nothing and can't be flushed.
#[derive(Drop)]
struct Full;

impl Write for Full {
    fn write(&mut self, _buf: &[u8]) -> io::Result<usize> {
        Ok(0)
    }

    fn flush(&mut self) -> io::Result<()> {
        Err(ErrorKind::Other.into())
    }
}

// A writer that counts how often it was flushed.
#[derive(Drop)]
struct Flushed(u8);

impl Write for Flushed {
    fn write(&mut self, buf: &[u8]) -> io::Result<usize> {
        Ok(buf.len())
    }

    fn flush(&mut self) -> io::Result<()> {
        self.0 = self.0.saturating_add(1);
        Ok(())
    }
}

#[test]
fn a_block_gives_its_bytes_back(rt: HostRuntime) -> Result<(), Fail> {
    let block = Block::new([7, 8].to_vec(rt.alloc())?);
    assert_eq!(rt; block.bytes(), [7, 8].as_slice());
    assert_eq!(rt; block.len(), 2);
    assert!(rt; !block.is_empty());
    assert_eq!(rt; block.into_bytes().as_slice(), [7, 8].as_slice());
    Ok(())
}

#[test]
fn a_memory_source_moves_pieces_and_fails_where_listed(rt: HostRuntime) -> Result<(), Fail> {
    let alloc = rt.alloc();
    let bytes = [1, 2, 3, 4, 5, 6, 7].to_vec(alloc)?;
    let mut source = MemSource::new(bytes, 3, [1].to_vec(alloc)?);
    let mut got = Vec::new(alloc);
    for want in [Ok(3), Err(Failed), Ok(3), Ok(1), Ok(0), Ok(0)] {
        assert_eq!(rt; pull_into(&mut source, &mut got), want);
    }
    assert_eq!(rt; got.as_slice(), [1, 2, 3, 4, 5, 6, 7].as_slice());
    Ok(())
}

#[test]
fn a_memory_sink_counts_its_calls_and_its_room(rt: HostRuntime) -> Result<(), Fail> {
    let alloc = rt.alloc();
    let mut sink = MemSink::new(alloc, 3, 1, [1, 3].to_vec(alloc)?)?;
    assert_eq!(rt; push_once(&mut sink, 1, 9), Ok(1));
    assert_eq!(rt; push_once(&mut sink, 2, 9), Err(Failed));
    assert_eq!(rt; sink.flush(), Ok(()));
    assert_eq!(rt; sink.flush(), Err(Failed));
    assert_eq!(rt; push_once(&mut sink, 2, 9), Ok(1));
    assert_eq!(rt; push_once(&mut sink, 3, 9), Ok(1));
    assert_eq!(rt; push_once(&mut sink, 4, 9), Err(Failed));
    assert_eq!(rt; sink.bytes(), [1, 2, 3].as_slice());

    let mut narrow = MemSink::new(alloc, 1, 8, Vec::new(alloc))?;
    assert_eq!(rt; push_once(&mut narrow, 5, 6), Ok(1));
    assert_eq!(rt; narrow.bytes(), [5].as_slice());
    Ok(())
}

#[test]
fn a_reader_gives_its_bytes_and_its_errors(rt: HostRuntime) -> Result<(), Fail> {
    let alloc = rt.alloc();
    let mut got = Vec::new(alloc);
    let mut source = StdSource::new([1, 2, 3, 4, 5, 6, 7].as_slice());
    for want in [Ok(5), Ok(2), Ok(0), Ok(0)] {
        assert_eq!(rt; pull_into(&mut source, &mut got), want);
    }
    assert_eq!(rt; got.as_slice(), [1, 2, 3, 4, 5, 6, 7].as_slice());

    let mut got = Vec::new(alloc);
    let mut source = StdSource::new(Interrupted(0));
    for want in [Ok(1), Err(Failed), Ok(1), Ok(0)] {
        assert_eq!(rt; pull_into(&mut source, &mut got), want);
    }
    assert_eq!(rt; got.as_slice(), [0, 2].as_slice());
    Ok(())
}

#[test]
fn a_writer_gets_the_bytes_and_fails_where_it_takes_none(rt: HostRuntime) -> Result<(), Fail> {
    let alloc = rt.alloc();
    let mut written = Vec::new(alloc);
    let mut sink = StdSink::new(&mut written);
    assert_eq!(rt; push_once(&mut sink, 1, 2), Ok(2));
    assert_eq!(rt; sink.flush(), Ok(()));
    assert_eq!(rt; written.as_slice(), [1, 2].as_slice());

    let mut flushed = Flushed(0);
    let mut sink = StdSink::new(&mut flushed);
    assert_eq!(rt; push_once(&mut sink, 1, 2), Ok(2));
    assert_eq!(rt; sink.flush(), Ok(()));
    assert_eq!(rt; sink.flush(), Ok(()));
    assert_eq!(rt; flushed.0, 2);

    let mut full = StdSink::new(Full);
    assert_eq!(rt; push_once(&mut full, 1, 2), Err(Failed));
    assert_eq!(rt; full.flush(), Err(Failed));
    Ok(())
}

#[test]
fn the_standard_streams_fit(rt: HostRuntime) {
    let _input = StdSource::new(rt.stdin());
    let mut out = StdSink::new(rt.stdout());
    let mut diag = StdSink::new(rt.stderr());
    assert_eq!(rt; out.flush(), Ok(()));
    assert_eq!(rt; diag.flush(), Ok(()));
}

#[test]
fn a_memory_store_gives_what_it_keeps_and_fails_where_listed(rt: HostRuntime) -> Result<(), Fail> {
    let alloc = rt.alloc();
    let key = Key {
        stripe: 3,
        row: 1,
        serial: 0,
    };
    let mut buf = [0u8; 2];
    let mut store = MemStore::new(alloc, [1, 3, 4].to_vec(alloc)?)?;
    assert_eq!(rt; store.keep(key, &[7, 8, 9]), Ok(()));
    assert_eq!(rt; store.keep(key, &[1]), Err(KeepFault::Failed));
    assert_eq!(rt; store.read(key, 1, &mut buf), Ok(()));
    assert_eq!(rt; buf, [8, 9]);
    assert_eq!(rt; store.remove(key), Err(Failed));
    assert_eq!(rt; store.read(key, 0, &mut buf), Err(Failed));
    assert_eq!(rt; store.served(), 2);
    assert_eq!(rt; store.keep(key, &[5, 6]), Ok(()));
    assert_eq!(rt; store.read(key, 0, &mut buf), Ok(()));
    assert_eq!(rt; buf, [5, 6]);
    assert_eq!(rt; store.served(), 4);
    assert_eq!(rt; store.remove(key), Ok(()));
    assert_eq!(rt; store.remove(key), Ok(()));
    Ok(())
}
