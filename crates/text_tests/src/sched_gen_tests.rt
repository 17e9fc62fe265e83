use event_text::event::Event;
use sched_gen::make::make;
use std::alloc::Global;
use std::process::Abort;

/// The first lines of the schedule of number 7.
const FIRST_LINES: [&str; 34] = [
    "open 1 1\n",
    "run 1\n",
    "open 2 2\n",
    "run 2\n",
    "open 3 3\n",
    "run 3\n",
    "open 4 4\n",
    "run 4\n",
    "insert 3 1 0d3f 0000000000000001\n",
    "commit 3\n",
    "run 3\n",
    "insert 2 1 08e9 0000000000000002\n",
    "commit 2\n",
    "run 2\n",
    "insert 1 1 0814 0000000000000003\n",
    "commit 1\n",
    "run 1\n",
    "insert 3 1 0603 0000000000000004\n",
    "commit 3\n",
    "run 3\n",
    "update 1 1 0470 0000000000000005\n",
    "commit 1\n",
    "run 1\n",
    "insert 3 1 03fd 0000000000000006\n",
    "commit 3\n",
    "run 3\n",
    "insert 1 1 089f 0000000000000007\n",
    "commit 1\n",
    "run 1\n",
    "insert 2 1 0636 0000000000000008\n",
    "commit 2\n",
    "run 2\n",
    "page 2 1 30\n",
    "run 2\n",
];

/// Whether an event is written as this line.
fn is_written(alloc: Global, event: &Event, line: &str) -> bool {
    match event.write(alloc) {
        Ok(text) => text.as_slice() == line.as_bytes(),
        Err(_) => false,
    }
}

/// Whether the first events are written as these lines.
fn begin_with(alloc: Global, events: &[Event], lines: &[&str]) -> bool {
    for (event, line) in events.iter().zip(lines) {
        if !is_written(alloc, event, line) {
            return false;
        }
    }
    lines.len() <= events.len()
}

#[test]
fn the_first_lines_of_a_schedule(rt: HostRuntime) {
    match make(rt.alloc(), 7, 1000) {
        Ok(events) => {
            assert!(rt; events.len() == 3267);
            assert!(rt; begin_with(rt.alloc(), events.as_slice(), &FIRST_LINES));
        }
        Err(_) => rt.panic("no schedule"),
    }
}
