use crate::io_script::{are_writes, gives, takes};
use db_base::blob::Blob;
use db_io::fault::IoFault;
use db_io::memory_sink::MemorySink;
use db_io::memory_source::MemorySource;
use db_io::std_sink::StdSink;
use db_io::std_source::StdSource;
use std::alloc::Global;
use std::io;
use std::io::{Read, Write};

/// A reader that gives two bytes at each of its first two calls, and a writer that takes two, and then none; its third
/// read fails.
#[derive(Drop)]
struct Halting {
    calls: u8,
}

impl Read for Halting {
    fn read(&mut self, buf: &mut [u8]) -> io::Result<usize> {
        if self.calls >= 2 {
            return Err(io::Error::from(io::ErrorKind::BrokenPipe));
        }
        self.calls += 1;
        let count = buf.len().min(2);
        for byte in buf[..count].iter_mut() {
            *byte = b'0' + self.calls;
        }
        Ok(count)
    }
}

impl Write for Halting {
    fn write(&mut self, buf: &[u8]) -> io::Result<usize> {
        if self.calls >= 2 {
            return Ok(0);
        }
        self.calls += 1;
        Ok(buf.len().min(2))
    }

    fn flush(&mut self) -> io::Result<()> {
        Ok(())
    }
}

/// A writer that records the bytes that it takes, two a call, and how many it had taken at its last flush.
#[derive(Drop)]
struct Recording {
    taken: Vec<u8>,
    flushed: usize,
}

impl Write for Recording {
    fn write(&mut self, buf: &[u8]) -> io::Result<usize> {
        let count = buf.len().min(2);
        self.taken.extend_from_slice(&buf[..count])?;
        Ok(count)
    }

    fn flush(&mut self) -> io::Result<()> {
        self.flushed = self.taken.len();
        Ok(())
    }
}

/// The reads of at most three bytes, of which the second one fails.
const MEMORY_READS: &[(usize, Result<usize, IoFault>)] = &[
    (3, Ok(3)),
    (3, Err(IoFault::Failed)),
    (3, Ok(2)),
    (3, Ok(0)),
];

fn memory_source_gives(alloc: Global) -> bool {
    let mut into = Blob::new(alloc);
    match MemorySource::new(alloc, b"abcde", &[2]) {
        Ok(mut source) => gives(&mut source, &mut into, MEMORY_READS, b"abcde"),
        Err(_) => false,
    }
}

/// The writes, of which the second one fails.
const MEMORY_WRITES: &[(&str, Result<(), IoFault>)] = &[
    ("ab", Ok(())),
    ("cd", Err(IoFault::Failed)),
    ("ef", Ok(())),
];

fn memory_sink_takes(alloc: Global) -> bool {
    match MemorySink::new(alloc, &[2]) {
        Ok(mut sink) => {
            takes(&mut sink, MEMORY_WRITES)
                && are_writes(sink.writes(), &["ab", "ef"])
                && sink.written() == b"abef".as_slice()
        }
        Err(_) => false,
    }
}

#[test]
fn memory_ends_give_and_take(rt: HostRuntime) {
    assert!(rt; memory_source_gives(rt.alloc()) && memory_sink_takes(rt.alloc()));
}

/// The reads of six bytes.
const STD_READS: &[(usize, Result<usize, IoFault>)] = &[
    (2, Ok(2)),
    (0, Ok(0)),
    (9, Ok(4)),
    (9, Ok(0)),
];

fn std_source_gives(alloc: Global) -> bool {
    let mut source = StdSource::new(b"abcdef".as_slice());
    match Blob::copy_of(alloc, b">") {
        Ok(mut into) => gives(&mut source, &mut into, STD_READS, b">abcdef"),
        Err(_) => false,
    }
}

#[test]
fn a_std_source_gives_the_bytes_of_its_reader(rt: HostRuntime) {
    assert!(rt; std_source_gives(rt.alloc()));
}

/// Pieces, and how many bytes are flushed behind each.
const PIECES: &[(&str, usize)] = &[("abc", 3), ("", 3), ("defgh", 8)];

/// Whether a sink of its own gives a writer a piece.
fn writes_on<W: Write>(writer: &mut W, piece: &str) -> bool {
    let mut sink = StdSink::new(writer);
    takes(&mut sink, &[(piece, Ok(()))])
}

fn flushes_all(writer: &mut Recording, pieces: &[(&str, usize)]) -> bool {
    for (piece, wanted) in pieces {
        if !writes_on(writer, piece) || writer.flushed != *wanted {
            return false;
        }
    }
    true
}

fn std_sink_takes(alloc: Global) -> bool {
    let mut writer = Recording {
        taken: Vec::new(alloc),
        flushed: 0,
    };
    flushes_all(&mut writer, PIECES) && writer.taken.as_slice() == b"abcdefgh".as_slice()
}

#[test]
fn a_std_sink_gives_its_writer_the_bytes_and_flushes_it(rt: HostRuntime) {
    assert!(rt; std_sink_takes(rt.alloc()));
}

/// The reads of a reader that halts.
const HALTING_READS: &[(usize, Result<usize, IoFault>)] = &[
    (9, Ok(2)),
    (9, Ok(2)),
    (9, Err(IoFault::Failed)),
    (9, Err(IoFault::Failed)),
];

fn halting_source_gives(alloc: Global) -> bool {
    let mut source = StdSource::new(Halting { calls: 0 });
    let mut into = Blob::new(alloc);
    gives(&mut source, &mut into, HALTING_READS, b"1122")
}

/// The writes to a writer that halts.
const HALTING_WRITES: &[(&str, Result<(), IoFault>)] = &[
    ("abc", Ok(())),
    ("d", Err(IoFault::Failed)),
    ("", Ok(())),
];

fn halting_sink_takes() -> bool {
    let mut sink = StdSink::new(Halting { calls: 0 });
    takes(&mut sink, HALTING_WRITES)
}

#[test]
fn std_ends_fail_in_mid_stream(rt: HostRuntime) {
    assert!(rt; halting_source_gives(rt.alloc()) && halting_sink_takes());
}
