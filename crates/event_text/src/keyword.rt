ghost use Rattle.std.specs.Prelude.{◌≡◌};

/// The first word of a line.
#[derive(Clone, Copy)]
pub enum Keyword {
    /// `open`
    Open,
    /// `close`
    Close,
    /// `renew`
    Renew,
    /// `insert`
    Insert,
    /// `put`
    Put,
    /// `update`
    Update,
    /// `delete`
    Delete,
    /// `add`
    Add,
    /// `commit`
    Commit,
    /// `abort`
    Abort,
    /// `read`
    Read,
    /// `scan`
    Scan,
    /// `lookup`
    Lookup,
    /// `page`
    Page,
    /// `tree`
    Tree,
    /// `policy`
    Policy,
    /// `work`
    Work,
    /// `step`
    Step,
    /// `run`
    Run,
    /// `crash`
    Crash,
    /// `wait`
    Wait,
    /// `report`
    Report,
    /// `sweep`
    Sweep,
    /// `settle`
    Settle,
}

/// All keywords.
const KEYWORDS: [Keyword; 24] = [
    Keyword::Open,
    Keyword::Close,
    Keyword::Renew,
    Keyword::Insert,
    Keyword::Put,
    Keyword::Update,
    Keyword::Delete,
    Keyword::Add,
    Keyword::Commit,
    Keyword::Abort,
    Keyword::Read,
    Keyword::Scan,
    Keyword::Lookup,
    Keyword::Page,
    Keyword::Tree,
    Keyword::Policy,
    Keyword::Work,
    Keyword::Step,
    Keyword::Run,
    Keyword::Crash,
    Keyword::Wait,
    Keyword::Report,
    Keyword::Sweep,
    Keyword::Settle,
];

impl Keyword {
    ghost use Rattle.event_text.specs.Keyword.{keyword_of, keyword_text, is_shell};

    /// The word.
    pub fn text(self) -> &'static str
        ensures { result.now ≡ keyword_text self }
    {
        match self {
            Keyword::Open => "open",
            Keyword::Close => "close",
            Keyword::Renew => "renew",
            Keyword::Insert => "insert",
            Keyword::Put => "put",
            Keyword::Update => "update",
            Keyword::Delete => "delete",
            Keyword::Add => "add",
            Keyword::Commit => "commit",
            Keyword::Abort => "abort",
            Keyword::Read => "read",
            Keyword::Scan => "scan",
            Keyword::Lookup => "lookup",
            Keyword::Page => "page",
            Keyword::Tree => "tree",
            Keyword::Policy => "policy",
            Keyword::Work => "work",
            Keyword::Step => "step",
            Keyword::Run => "run",
            Keyword::Crash => "crash",
            Keyword::Wait => "wait",
            Keyword::Report => "report",
            Keyword::Sweep => "sweep",
            Keyword::Settle => "settle",
        }
    }

    /// The keyword that a word spells, where it is one. Takes no memory.
    pub fn of(word: &[u8]) -> Option<Keyword>
        ensures { result ≡ keyword_of word.now }
    {
        KEYWORDS
            .iter()
            .find(|k| k.text().as_bytes() == word)
            .copied()
    }

    /// Whether a shell's line may begin with it. Takes no memory.
    pub fn is_shell(self) -> bool
        ensures { result ≡ is_shell self }
    {
        match self {
            Keyword::Insert | Keyword::Update | Keyword::Delete | Keyword::Commit => true,
            Keyword::Abort | Keyword::Read | Keyword::Scan | Keyword::Page => true,
            Keyword::Tree | Keyword::Renew | Keyword::Add => true,
            Keyword::Open | Keyword::Close | Keyword::Step | Keyword::Run => false,
            Keyword::Crash | Keyword::Wait | Keyword::Report => false,
            Keyword::Sweep | Keyword::Settle => false,
            Keyword::Put | Keyword::Lookup | Keyword::Policy | Keyword::Work => false,
        }
    }
}
