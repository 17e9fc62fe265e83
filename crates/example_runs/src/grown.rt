//! A tree that grows to three levels: 65 transactions of 64 keys each in ascending order, each behind a checkpoint.

use crate::output::output;
use std::alloc::Global;
use std::io;

/// How many transactions there are.
const TRANSACTIONS: u16 = 65;

/// How many keys each of them inserts.
const KEYS: u16 = 64;

/// What is written last: nothing waits, and page 66 is one of the two inner nodes below the tree object.
const END: &str = "left 0 0\n4424 begun\n4425 not-leaf 66\n";

/// Replays it, and prints and answers whether each checkpoint applies its keys, and whether the report has them all.
pub(crate) fn run(rt: &HostRuntime) -> io::Result<bool> {
    let schedule = schedule(rt.alloc())?;
    let agrees = match output(rt.alloc(), schedule.as_bytes()) {
        Some(sink) => is_grown(sink.written()),
        None => false,
    };
    let what = if agrees {
        "as written"
    } else {
        "NOT as written"
    };
    println!(rt; "4160 ascending keys: {what}")?;
    Ok(agrees)
}

/// The lines, with a report and a checkpoint of page 66 behind them.
fn schedule(alloc: Global) -> io::Result<String> {
    let mut text = String::new(alloc);
    text.push_str("open 1 1\nrun 1\n")?;
    let mut key = 1u16;
    for _ in 0..TRANSACTIONS {
        for _ in 0..KEYS {
            let line = format!(in alloc; "insert 1 1 {key:04x} 76\n")?;
            text.push_str(line.as_str())?;
            key = key.saturating_add(1);
        }
        text.push_str("commit 1\nrun 1\ntree 1 1\nrun 1\n")?;
    }
    text.push_str("report 1\npage 1 1 66\nrun 1\n")?;
    Ok(text)
}

/// Whether these replies are those of such a tree.
fn is_grown(replies: &[u8]) -> bool {
    let Ok(text) = str::from_utf8(replies) else {
        return false;
    };
    text.contains("\ncontents 4160\n") && text.ends_with(END) && checkpoints(text) == 65
}

/// How many checkpoints applied 64 records.
fn checkpoints(replies: &str) -> usize {
    let mut count = 0usize;
    for line in replies.lines() {
        if line.ends_with(" done 64 64 0") {
            count = count.saturating_add(1);
        }
    }
    count
}
