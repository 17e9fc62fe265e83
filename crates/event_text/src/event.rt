use ckpt_policy::Role;
use db_base::blob::Blob;
use db_base::wish::Wish;

/// What a line of a schedule says, before any check of range. Sessions, clients, trees and pages are as they were written.
pub enum Event {
    /// Begins opening a session for a client.
    Open {
        session: u64,
        client: u64,
    },
    /// Begins closing a session.
    Close {
        session: u64,
    },
    /// Begins renewing the lease of a session's client.
    Renew {
        session: u64,
    },
    /// Notes an insert, with an attribute or without.
    Insert {
        session: u64,
        tree: u64,
        key: Blob,
        payload: Blob,
        attr: Option<Blob>,
    },
    /// Notes an insert with an attribute, and its record in the index of the tree.
    Put {
        session: u64,
        tree: u64,
        key: Blob,
        payload: Blob,
        attr: Blob,
    },
    /// Notes an update.
    Update {
        session: u64,
        tree: u64,
        key: Blob,
        payload: Blob,
    },
    /// Notes a deletion.
    Delete {
        session: u64,
        tree: u64,
        key: Blob,
    },
    /// Notes an addition.
    Add {
        session: u64,
        tree: u64,
        key: Blob,
        amount: u64,
    },
    /// Begins a commit.
    Commit {
        session: u64,
    },
    /// Drops the buffer of a session.
    Abort {
        session: u64,
    },
    /// Begins a read.
    Read {
        session: u64,
        tree: u64,
        key: Blob,
    },
    /// Begins a scan from one key on and below another; no byte is no bound.
    Scan {
        session: u64,
        tree: u64,
        from: Blob,
        to: Blob,
    },
    /// Begins a look-up of the records with an attribute.
    Lookup {
        session: u64,
        tree: u64,
        attr: Blob,
    },
    /// Begins a checkpoint of a page.
    Page {
        session: u64,
        tree: u64,
        page: u64,
    },
    /// Begins a checkpoint of a tree.
    Tree {
        session: u64,
        tree: u64,
    },
    /// Gives a session a ledger, which says by a role and a number which of its queues are due.
    Policy {
        session: u64,
        role: Role,
        k: u64,
    },
    /// Makes one checkpoint of each queue that is due to a session.
    Work {
        session: u64,
    },
    /// Makes one service call of a session under a wish.
    Step {
        session: u64,
        wish: Wish,
    },
    /// Makes plain steps until the answer.
    Run {
        session: u64,
    },
    /// Ends a session without an answer; done where the call in hand is made first.
    Crash {
        session: u64,
        done: bool,
    },
    /// Moves the clock on, in ticks.
    Wait {
        ticks: u64,
    },
    /// Asks for the report of a tree.
    Report {
        tree: u64,
    },
    /// Removes the page objects of a tree that nothing reaches.
    Sweep {
        tree: u64,
    },
    /// Makes a whole settling.
    Settle,
}

impl Drop for Event {
    fn drop(self) {
        match self {
            Event::Open {
                session: _,
                client: _,
            } => {}
            Event::Close { session: _ } => {}
            Event::Renew { session: _ } => {}
            Event::Insert {
                session: _,
                tree: _,
                key: _,
                payload: _,
                attr: _,
            } => {}
            Event::Put {
                session: _,
                tree: _,
                key: _,
                payload: _,
                attr: _,
            } => {}
            Event::Update {
                session: _,
                tree: _,
                key: _,
                payload: _,
            } => {}
            Event::Delete {
                session: _,
                tree: _,
                key: _,
            } => {}
            Event::Add {
                session: _,
                tree: _,
                key: _,
                amount: _,
            } => {}
            Event::Commit { session: _ } => {}
            Event::Abort { session: _ } => {}
            Event::Read {
                session: _,
                tree: _,
                key: _,
            } => {}
            Event::Scan {
                session: _,
                tree: _,
                from: _,
                to: _,
            } => {}
            Event::Lookup {
                session: _,
                tree: _,
                attr: _,
            } => {}
            Event::Page {
                session: _,
                tree: _,
                page: _,
            } => {}
            Event::Tree {
                session: _,
                tree: _,
            } => {}
            Event::Policy {
                session: _,
                role: _,
                k: _,
            } => {}
            Event::Work { session: _ } => {}
            Event::Step {
                session: _,
                wish: _,
            } => {}
            Event::Run { session: _ } => {}
            Event::Crash {
                session: _,
                done: _,
            } => {}
            Event::Wait { ticks: _ } => {}
            Event::Report { tree: _ } => {}
            Event::Sweep { tree: _ } => {}
            Event::Settle => {}
        }
    }
}
