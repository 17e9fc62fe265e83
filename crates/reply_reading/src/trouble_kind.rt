ghost use Rattle.std.specs.Prelude.{◌≡◌};

/// The first word of a trouble.
#[derive(Clone, Copy)]
pub enum TroubleKind {
    /// `failed`
    Failed,
    /// `late`
    Late,
    /// `busy`
    Busy,
    /// `waiting`
    Waiting,
    /// `stale`
    Stale,
    /// `absent`
    Absent,
    /// `not-leaf`
    NotALeaf,
    /// `damaged`
    Damaged,
    /// `bad-fence`
    BadFence,
    /// `loop`
    Loop,
    /// `exhausted`
    Exhausted,
}

/// All of them.
const TROUBLE_KINDS: [TroubleKind; 11] = [
    TroubleKind::Failed,
    TroubleKind::Late,
    TroubleKind::Busy,
    TroubleKind::Waiting,
    TroubleKind::Stale,
    TroubleKind::Absent,
    TroubleKind::NotALeaf,
    TroubleKind::Damaged,
    TroubleKind::BadFence,
    TroubleKind::Loop,
    TroubleKind::Exhausted,
];

impl TroubleKind {
    ghost use Rattle.reply_reading.specs.Kind.{trouble_kind_of, trouble_kind_text};

    /// The word.
    pub fn text(self) -> &'static str
        ensures { result.now ≡ trouble_kind_text self }
    {
        match self {
            TroubleKind::Failed => "failed",
            TroubleKind::Late => "late",
            TroubleKind::Busy => "busy",
            TroubleKind::Waiting => "waiting",
            TroubleKind::Stale => "stale",
            TroubleKind::Absent => "absent",
            TroubleKind::NotALeaf => "not-leaf",
            TroubleKind::Damaged => "damaged",
            TroubleKind::BadFence => "bad-fence",
            TroubleKind::Loop => "loop",
            TroubleKind::Exhausted => "exhausted",
        }
    }

    /// The kind of trouble that a word begins, where it begins one. Takes no memory.
    pub fn of(word: &[u8]) -> Option<TroubleKind>
        ensures { result ≡ trouble_kind_of word.now }
    {
        TROUBLE_KINDS
            .iter()
            .find(|k| k.text().as_bytes() == word)
            .copied()
    }
}
