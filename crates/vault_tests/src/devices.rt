//! Readers and writers that fail: the standard library promises nothing about a flush, so no contract could refuse a body that
//! leaves it out.
use base_device::{Counted, Device, Failed, MemorySource, Sink, SinkFault, Source, write_all};
use std::alloc::Global;
use std::io;
use std::io::{BufWriter, Error, ErrorKind, Read, Write};
use std::test::Fail;

/// A source of these bytes, handed out in pieces of these lengths.
pub(crate) fn source(alloc: Global, bytes: &[u8], pieces: &[usize]) -> Result<MemorySource, Fail> {
    Ok(MemorySource::new(
        Vec::from_slice(alloc, bytes)?,
        Vec::from_slice(alloc, pieces)?,
        None,
    ))
}

/// A reader and a writer that always fails.
#[derive(Debug, Drop)]
struct Broken;

impl Read for Broken {
    fn read(&mut self, _buf: &mut [u8]) -> io::Result<usize> {
        Err(Error::from(ErrorKind::BrokenPipe))
    }
}

impl Write for Broken {
    fn write(&mut self, _buf: &[u8]) -> io::Result<usize> {
        Err(Error::from(ErrorKind::BrokenPipe))
    }

    fn flush(&mut self) -> io::Result<()> {
        Err(Error::from(ErrorKind::BrokenPipe))
    }
}

#[test]
fn counts_each_failure(rt: HostRuntime) {
    let mut room = [0u8; 4];
    let mut broken = Counted::new(Broken);
    assert!(rt; broken.read_some(&mut room) == Err(Failed));
    assert!(rt; write_all(&mut broken, b"x") == Err(SinkFault::Failed));
    assert!(rt; broken.flush() == Err(SinkFault::Failed));
    assert!(rt; broken.failures() == 3);
    let Broken = broken.into_inner();
}

/// Whether a flush hands on what a buffer keeps back.
fn is_handed_on(alloc: Global) -> Result<bool, Fail> {
    let held = BufWriter::new(alloc, Vec::new(alloc))?;
    let mut out = Counted::new(held);
    let is_well = write_all(&mut out, b"text") == Ok(()) && out.flush() == Ok(());
    let held = out.into_inner();
    Ok(is_well && held.get_ref().as_slice() == b"text".as_slice())
}

#[test]
fn flushes_what_is_kept_back(rt: HostRuntime) -> Result<(), Fail> {
    assert!(rt; is_handed_on(rt.alloc())?);
    Ok(())
}
