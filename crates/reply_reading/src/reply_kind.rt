ghost use Rattle.std.specs.Prelude.{◌≡◌};

/// The first word of a reply of one line that is no trouble.
#[derive(Clone, Copy)]
pub enum ReplyKind {
    /// `begun`
    Begun,
    /// `called`
    Called,
    /// `noted`
    Noted,
    /// `aborted`
    Aborted,
    /// `crashed`
    Crashed,
    /// `waited`
    Waited,
    /// `refused`
    Refused,
    /// `opened`
    Opened,
    /// `closed`
    Closed,
    /// `renewed`
    Renewed,
    /// `committed`
    Committed,
    /// `in-doubt`
    InDoubt,
    /// `not-committed`
    NotCommitted,
    /// `committed-open`
    CommittedOpen,
    /// `done`
    Done,
    /// `value`
    Value,
    /// `none`
    NoValue,
    /// `scan`
    Scan,
    /// `settled`
    Settled,
    /// `swept`
    Swept,
    /// `worked`
    Worked,
    /// `not-settled`
    NotSettled,
}

/// All of them.
const REPLY_KINDS: [ReplyKind; 22] = [
    ReplyKind::Begun,
    ReplyKind::Called,
    ReplyKind::Noted,
    ReplyKind::Aborted,
    ReplyKind::Crashed,
    ReplyKind::Waited,
    ReplyKind::Refused,
    ReplyKind::Opened,
    ReplyKind::Closed,
    ReplyKind::Renewed,
    ReplyKind::Committed,
    ReplyKind::InDoubt,
    ReplyKind::NotCommitted,
    ReplyKind::CommittedOpen,
    ReplyKind::Done,
    ReplyKind::Value,
    ReplyKind::NoValue,
    ReplyKind::Scan,
    ReplyKind::Settled,
    ReplyKind::Swept,
    ReplyKind::Worked,
    ReplyKind::NotSettled,
];

impl ReplyKind {
    ghost use Rattle.reply_reading.specs.Kind.{reply_kind_of, reply_kind_text};

    /// The word.
    pub fn text(self) -> &'static str
        ensures { result.now ≡ reply_kind_text self }
    {
        match self {
            ReplyKind::Begun => "begun",
            ReplyKind::Called => "called",
            ReplyKind::Noted => "noted",
            ReplyKind::Aborted => "aborted",
            ReplyKind::Crashed => "crashed",
            ReplyKind::Waited => "waited",
            ReplyKind::Refused => "refused",
            ReplyKind::Opened => "opened",
            ReplyKind::Closed => "closed",
            ReplyKind::Renewed => "renewed",
            ReplyKind::Committed => "committed",
            ReplyKind::InDoubt => "in-doubt",
            ReplyKind::NotCommitted => "not-committed",
            ReplyKind::CommittedOpen => "committed-open",
            ReplyKind::Done => "done",
            ReplyKind::Value => "value",
            ReplyKind::NoValue => "none",
            ReplyKind::Scan => "scan",
            ReplyKind::Settled => "settled",
            ReplyKind::Swept => "swept",
            ReplyKind::Worked => "worked",
            ReplyKind::NotSettled => "not-settled",
        }
    }

    /// The kind of reply that a word begins, where it begins one. Takes no memory.
    pub fn of(word: &[u8]) -> Option<ReplyKind>
        ensures { result ≡ reply_kind_of word.now }
    {
        REPLY_KINDS
            .iter()
            .find(|k| k.text().as_bytes() == word)
            .copied()
    }
}
