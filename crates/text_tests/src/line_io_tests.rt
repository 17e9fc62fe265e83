use crate::io_script::are_writes;
use db_io::input::{InputFault, MAX_DUMP, MAX_LINES, read_whole};
use db_io::lines::next_line;
use db_io::memory_sink::MemorySink;
use db_io::memory_source::MemorySource;
use db_io::output::{OutputFault, write_text};
use db_io::sink::Sink;
use db_io::source::Source;
use std::alloc::Global;

/// How many bytes there are, how many there may be, which read fails, and the length or the fault of the whole input.
type Row = (usize, u32, u64, Result<usize, InputFault>);

const INPUTS: &[Row] = &[
    (0, 262_144, 9, Ok(0)),
    (262_144, 262_144, 9, Ok(262_144)),
    (262_145, 262_144, 9, Err(InputFault::TooLong)),
    (262_145, 16_777_216, 9, Ok(262_145)),
    (0, 0, 9, Ok(0)),
    (1, 0, 9, Err(InputFault::TooLong)),
    (3, 3, 1, Err(InputFault::ReadFault)),
    (3, 3, 2, Err(InputFault::ReadFault)),
];

/// Whether a source's input of at most so many bytes is this long, or has this fault.
fn is_whole<I: Source>(
    alloc: Global,
    source: &mut I,
    limit: u32,
    wanted: &Result<usize, InputFault>,
) -> bool {
    match read_whole(alloc, source, limit as usize) {
        Ok(input) => *wanted == Ok(input.len()),
        Err(fault) => *wanted == Err(fault),
    }
}

fn is_read(alloc: Global, bytes: &[u8], row: &Row) -> bool {
    let (_, limit, failing, wanted) = row;
    match MemorySource::new(alloc, bytes, &[*failing]) {
        Ok(mut source) => is_whole(alloc, &mut source, *limit, wanted),
        Err(_) => false,
    }
}

fn is_row(alloc: Global, bytes: &[u8], row: &Row) -> bool {
    let (len, _, _, _) = row;
    match bytes.get(..*len) {
        Some(front) => is_read(alloc, front, row),
        None => false,
    }
}

/// Whether inputs from the front of these bytes are read as each row says.
fn are_read(alloc: Global, bytes: &[u8], rows: &[Row]) -> bool {
    for row in rows {
        if !is_row(alloc, bytes, row) {
            return false;
        }
    }
    true
}

/// Adds one byte more than lines may have.
fn fill(bytes: &mut Vec<u8>) -> bool {
    for _ in 0..=MAX_LINES {
        if bytes.push(7).is_err() {
            return false;
        }
    }
    true
}

fn reads_inputs(alloc: Global) -> bool {
    let mut bytes = Vec::new(alloc);
    fill(&mut bytes) && are_read(alloc, bytes.as_slice(), INPUTS)
}

#[test]
fn reads_up_to_the_most(rt: HostRuntime) {
    assert!(rt; reads_inputs(rt.alloc()));
    assert!(rt; MAX_LINES == 262_144 && MAX_DUMP == 16_777_216);
}

/// Whether the first line of a text is this one, which is written, and the text behind it.
fn write_line<'a, O: Sink>(sink: &mut O, text: &'a [u8], wanted: &str) -> Option<&'a [u8]> {
    if text.is_empty() {
        return None;
    }
    let (line, rest) = next_line(text);
    if line == wanted.as_bytes() && write_text(sink, line) == Ok(()) {
        Some(rest)
    } else {
        None
    }
}

/// Whether a text has these lines, which are written one by one, and no more.
fn writes_lines<O: Sink>(sink: &mut O, text: &[u8], lines: &[&str]) -> bool {
    let mut rest = text;
    for line in lines {
        match write_line(sink, rest, line) {
            Some(behind) => rest = behind,
            None => return false,
        }
    }
    rest.is_empty()
}

fn fails_to_write<O: Sink>(sink: &mut O, text: &[u8]) -> bool {
    write_text(sink, text) == Err(OutputFault::WriteFault)
}

const TEXT: &[u8] = b"one\n\nlast";

const LINES: &[&str] = &["one\n", "\n", "last"];

/// Whether the lines of a text are written by three calls, and a fourth one fails.
fn splits_and_writes(alloc: Global) -> bool {
    match MemorySink::new(alloc, &[4]) {
        Ok(mut sink) => {
            writes_lines(&mut sink, TEXT, LINES)
                && fails_to_write(&mut sink, b"more")
                && are_writes(sink.writes(), LINES)
                && sink.written() == TEXT
        }
        Err(_) => false,
    }
}

#[test]
fn splits_lines_and_writes_them(rt: HostRuntime) {
    assert!(rt; splits_and_writes(rt.alloc()));
}
