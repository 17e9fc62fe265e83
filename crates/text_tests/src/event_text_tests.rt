use event_text::event::Event;
use std::alloc::{AllocError, Global};
use std::process::Abort;
use words::fault::TextFault;

/// Every line of a schedule.
const LINES: [&str; 38] = [
    "open 1 64\n",
    "close 16\n",
    "renew 2\n",
    "insert 1 1 6b 76\n",
    "insert 0 18446744073709551615 - -\n",
    "insert 1 1 6b 76 61\n",
    "insert 1 1 6b 76 -\n",
    "insert 1 1 6b - 616161616161616161616161616161616161616161616161616161616161616161\n",
    "put 1 1 6b 76 61\n",
    "put 0 18446744073709551615 - - -\n",
    "add 1 1 6b 0\n",
    "add 1 1 6b 18446744073709551615\n",
    "update 1 16 00ff 0123456789abcdef\n",
    "delete 3 1 6b\n",
    "commit 1\n",
    "abort 1\n",
    "read 1 2 6b\n",
    "scan 1 1 - -\n",
    "scan 1 1 6b 6c\n",
    "lookup 1 1 61\n",
    "lookup 0 18446744073709551615 -\n",
    "page 1 2 3\n",
    "tree 1 1\n",
    "step 1 plain\n",
    "step 1 fail\n",
    "step 1 lost\n",
    "step 1 hide\n",
    "step 1 old 0\n",
    "step 1 give 1\n",
    "step 1 give 3 3 0\n",
    "run 1\n",
    "crash 1\n",
    "crash 1 done\n",
    "wait 1000000\n",
    "report 1\n",
    "sweep 1\n",
    "sweep 18446744073709551615\n",
    "settle\n",
];

/// Lines that are nearly in the grammar.
const NEAR_MISSES: [&str; 43] = [
    "",
    "\n",
    "open 1 64",
    "open 01 64\n",
    "open 1 18446744073709551616\n",
    "open +1 64\n",
    "open 1  64\n",
    "open 1 64 \n",
    " open 1 64\n",
    "open\t1 64\n",
    "open 1 64\r\n",
    "open 1 64\n\n",
    "open 1\n",
    "open 1 64 1\n",
    "Open 1 64\n",
    "insert 1 1 6 76\n",
    "insert 1 1 6B 76\n",
    "insert 1 1 6b \n",
    "insert 1 1 6b 76 \n",
    "insert 1 1 6b 76 6\n",
    "insert 1 1 6b 76 6A\n",
    "insert 1 1 6b 76 61 61\n",
    "insert 1 1 6b 76 61 \n",
    "insert 1 1 6b 76  61\n",
    "put 1 1 6b 76\n",
    "put 1 1 6b 76 \n",
    "put 1 1 6b 76 61 61\n",
    "lookup 1 1\n",
    "lookup 1 1 \n",
    "lookup 1 1 61 61\n",
    "update 1 1 6b 76 61\n",
    "delete 1 1 6b 61\n",
    "add 1 1 6b 1 61\n",
    "add 1 1 6b 18446744073709551616\n",
    "read 1 1 6b 61\n",
    "step 1 give\n",
    "step 1 old\n",
    "crash 1 Done\n",
    "sweep\n",
    "sweep 01\n",
    "sweep 18446744073709551616\n",
    "sweep 1 1\n",
    "settle 0\n",
];

/// A shell's lines, and the lines of session 1 that they stand for.
const SHELL_LINES: [(&str, &str); 13] = [
    ("insert 1 6b 76\n", "insert 1 1 6b 76\n"),
    ("insert 1 6b 76 61\n", "insert 1 1 6b 76 61\n"),
    ("insert 1 6b 76 -\n", "insert 1 1 6b 76 -\n"),
    ("add 1 6b 7\n", "add 1 1 6b 7\n"),
    ("update 1 6b -\n", "update 1 1 6b -\n"),
    ("delete 2 6b\n", "delete 1 2 6b\n"),
    ("commit\n", "commit 1\n"),
    ("abort\n", "abort 1\n"),
    ("read 1 6b\n", "read 1 1 6b\n"),
    ("scan 1 6b -\n", "scan 1 1 6b -\n"),
    ("page 1 2\n", "page 1 1 2\n"),
    ("tree 1\n", "tree 1 1\n"),
    ("renew\n", "renew 1\n"),
];

/// Lines of a schedule that are no shell's lines.
const NO_SHELL_LINES: [&str; 11] = [
    "open 1\n",
    "close\n",
    "run\n",
    "wait 1\n",
    "sweep 1\n",
    "settle\n",
    "commit 1\n",
    "insert 1 6b 76 61 61\n",
    "put 1 6b 76 61\n",
    "lookup 1 61\n",
    "update 1 6b 76 61\n",
];

/// Whether an event is written as this line.
fn is_written(alloc: Global, event: &Event, line: &str) -> bool {
    match event.write(alloc) {
        Ok(text) => text.as_slice() == line.as_bytes(),
        Err(_) => false,
    }
}

/// Whether a line is read, and what is read is written as it.
fn is_written_back(alloc: Global, line: &str) -> bool {
    match Event::read(alloc, line.as_bytes()) {
        Ok(event) => is_written(alloc, &event, line),
        Err(_) => false,
    }
}

/// Whether a shell's line is read, and what is read is written as this line.
fn is_short_for(alloc: Global, line: &str, long: &str) -> bool {
    match Event::read_shell(alloc, line.as_bytes()) {
        Ok(event) => is_written(alloc, &event, long),
        Err(_) => false,
    }
}

/// Whether a line is in no schedule.
fn is_refused(alloc: Global, line: &str) -> bool {
    matches!(
        Event::read(alloc, line.as_bytes()),
        Err(TextFault::NotInGrammar)
    )
}

/// Whether a line is no shell's line.
fn is_refused_by_shells(alloc: Global, line: &str) -> bool {
    matches!(
        Event::read_shell(alloc, line.as_bytes()),
        Err(TextFault::NotInGrammar)
    )
}

/// Whether each line is read, and what is read is written as it.
fn are_written_back(alloc: Global, lines: &[&str]) -> bool {
    for line in lines {
        if !is_written_back(alloc, line) {
            return false;
        }
    }
    true
}

/// Whether each shell's line is read, and what is read is written as the line beside it.
fn are_short_for(alloc: Global, lines: &[(&str, &str)]) -> bool {
    for (line, long) in lines {
        if !is_short_for(alloc, line, long) {
            return false;
        }
    }
    true
}

/// Whether the lines are in no schedule.
fn are_refused(alloc: Global, lines: &[&str]) -> bool {
    for line in lines {
        if !is_refused(alloc, line) {
            return false;
        }
    }
    true
}

/// Whether the lines are no shell's lines.
fn are_refused_by_shells(alloc: Global, lines: &[&str]) -> bool {
    for line in lines {
        if !is_refused_by_shells(alloc, line) {
            return false;
        }
    }
    true
}

#[test]
fn each_line_is_read_and_written_back(rt: HostRuntime) {
    assert!(rt; are_written_back(rt.alloc(), &LINES));
}

/// Whether a line is read as an insert with this attribute, or without one.
fn is_insert_with(alloc: Global, line: &str, wanted: Option<&[u8]>) -> bool {
    match Event::read(alloc, line.as_bytes()) {
        Ok(Event::Insert { ref attr, .. }) => match (attr, wanted) {
            (Some(attr), Some(wanted)) => attr.as_slice() == wanted,
            (None, None) => true,
            _ => false,
        },
        _ => false,
    }
}

#[test]
fn the_last_word_of_an_insert_is_its_attribute(rt: HostRuntime) {
    assert!(rt; is_insert_with(rt.alloc(), "insert 1 1 6b 76\n", None));
    assert!(rt; is_insert_with(rt.alloc(), "insert 1 1 6b 76 -\n", Some(b"")));
    assert!(rt; is_insert_with(rt.alloc(), "insert 1 1 6b 76 6162\n", Some(b"ab")));
}

#[test]
fn shell_lines_are_read_as_lines_of_session_1(rt: HostRuntime) {
    assert!(rt; are_short_for(rt.alloc(), &SHELL_LINES));
}

#[test]
fn near_misses_are_refused(rt: HostRuntime) {
    assert!(rt; are_refused(rt.alloc(), &NEAR_MISSES));
}

#[test]
fn shells_refuse_other_lines(rt: HostRuntime) {
    assert!(rt; are_refused_by_shells(rt.alloc(), &NO_SHELL_LINES));
}

/// Adds so many positions to a line.
fn add_positions(line: &mut String, count: u64) -> Result<(), AllocError> {
    for _ in 0..count {
        line.push_str(" 7")?;
    }
    line.push_str("\n")
}

/// The line of a `give` of so many positions.
fn give_of(alloc: Global, count: u64) -> Option<String> {
    let mut line = String::from_str(alloc, "step 1 give").ok()?;
    match add_positions(&mut line, count) {
        Ok(()) => Some(line),
        Err(_) => None,
    }
}

#[test]
fn a_give_has_256_positions(rt: HostRuntime) {
    match give_of(rt.alloc(), 256) {
        Some(full) => assert!(rt; is_written_back(rt.alloc(), full.as_str())),
        None => rt.panic("no line"),
    }
}

#[test]
fn a_give_has_no_257_positions(rt: HostRuntime) {
    match give_of(rt.alloc(), 257) {
        Some(longer) => assert!(rt; is_refused(rt.alloc(), longer.as_str())),
        None => rt.panic("no line"),
    }
}
