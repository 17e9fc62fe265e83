//! The files of the folder in which the program runs.

use std::{fs, io};

/// The bytes of the file of this name and kind.
pub(crate) fn read(rt: &HostRuntime, name: &str, kind: &str) -> io::Result<Vec<u8>> {
    let path = format!(in rt.alloc(); "{name}.{kind}")?;
    fs::read(rt, path.as_str())
}
