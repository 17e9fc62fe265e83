//! What is done with a source or a sink, call by call, and what each call is to answer.

use db_base::blob::Blob;
use db_io::fault::IoFault;
use db_io::sink::Sink;
use db_io::source::Source;

/// Whether reads of at most so many bytes answer as each row says.
fn reads_all<I: Source>(
    source: &mut I,
    into: &mut Blob,
    rows: &[(usize, Result<usize, IoFault>)],
) -> bool {
    for (most, wanted) in rows {
        if source.read(into, *most) != *wanted {
            return false;
        }
    }
    true
}

/// Whether reads answer as each row says, and add bytes so that these are there.
pub(crate) fn gives<I: Source>(
    source: &mut I,
    into: &mut Blob,
    rows: &[(usize, Result<usize, IoFault>)],
    bytes: &[u8],
) -> bool {
    reads_all(source, into, rows) && into.as_slice() == bytes
}

/// Whether writes of pieces answer as each row says.
pub(crate) fn takes<O: Sink>(sink: &mut O, rows: &[(&str, Result<(), IoFault>)]) -> bool {
    for (piece, wanted) in rows {
        if sink.write(piece.as_bytes()) != *wanted {
            return false;
        }
    }
    true
}

/// Whether these are the writes, in their order.
pub(crate) fn are_writes(writes: &[Blob], wanted: &[&str]) -> bool {
    let mut rest = writes;
    for piece in wanted {
        let Some((write, behind)) = rest.split_first() else {
            return false;
        };
        if write.as_slice() != piece.as_bytes() {
            return false;
        }
        rest = behind;
    }
    rest.is_empty()
}
