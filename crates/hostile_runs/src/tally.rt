//! How many machines ended, and why the others stopped.

use db_base::trouble::Trouble;
use std::io;

/// Counts of machines.
#[derive(Drop)]
pub(crate) struct Tally {
    ended: u64,
    failed: u64,
    late: u64,
    busy: u64,
    waiting: u64,
    stale: u64,
    absent: u64,
    not_a_leaf: u64,
    damaged: u64,
    bad_fence: u64,
    looped: u64,
    exhausted: u64,
    memory: u64,
}

impl Tally {
    /// No machine.
    pub(crate) fn new() -> Tally {
        Tally {
            ended: 0,
            failed: 0,
            late: 0,
            busy: 0,
            waiting: 0,
            stale: 0,
            absent: 0,
            not_a_leaf: 0,
            damaged: 0,
            bad_fence: 0,
            looped: 0,
            exhausted: 0,
            memory: 0,
        }
    }

    /// A machine ended.
    pub(crate) fn end(&mut self) {
        self.ended = self.ended.wrapping_add(1);
    }

    /// A machine stopped.
    pub(crate) fn stop(&mut self, trouble: &Trouble) {
        let count = match trouble {
            Trouble::Failed => &mut self.failed,
            Trouble::Late { end: _, now: _ } => &mut self.late,
            Trouble::Busy { lock: _, until: _ } => &mut self.busy,
            Trouble::Waiting { have: _, need: _ } => &mut self.waiting,
            Trouble::Stale {
                page: _,
                least: _,
                got: _,
            } => &mut self.stale,
            Trouble::Absent { page: _ } => &mut self.absent,
            Trouble::NotALeaf { page: _ } => &mut self.not_a_leaf,
            Trouble::Damaged {
                place: _,
                offset: _,
            } => &mut self.damaged,
            Trouble::BadFence {
                page: _,
                expected: _,
                found: _,
            } => &mut self.bad_fence,
            Trouble::Loop { page: _ } => &mut self.looped,
            Trouble::Exhausted { what: _ } => &mut self.exhausted,
            Trouble::Memory => &mut self.memory,
        };
        *count = count.wrapping_add(1);
    }

    /// Prints the counts, one a line.
    pub(crate) fn print(&self, rt: &HostRuntime) -> io::Result<()> {
        let rows = [
            ("ended", self.ended),
            ("failed", self.failed),
            ("late", self.late),
            ("busy", self.busy),
            ("waiting", self.waiting),
            ("stale", self.stale),
            ("absent", self.absent),
            ("not-a-leaf", self.not_a_leaf),
            ("damaged", self.damaged),
            ("bad-fence", self.bad_fence),
            ("loop", self.looped),
            ("exhausted", self.exhausted),
            ("memory", self.memory),
        ];
        for (what, count) in rows.iter() {
            println!(rt; "{what} {count}")?;
        }
        Ok(())
    }
}
