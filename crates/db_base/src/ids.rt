ghost use Rattle.std.specs.Prelude.{◌≡◌, ℕ, ◌≤◌, ◌<◌, ◌^◌, ◌↔◌, IfOk, IfErr, IfSome, IsOk, IsSome};
ghost use Rattle.db_base.specs.Ids.{IsClient, IsTree, IsPage, IsSession, index_of};

use crate::refusal::Refusal;
use std::marker::Model;

/// A client, numbered 1 to 64.
#[derive(Clone, Copy, Debug, PartialEq, Eq, PartialOrd, Ord, Hash)]
pub struct ClientId {
    number: u64,
}

impl Model for ClientId {
    ghost use Rattle.std.specs.Prelude.{ℕ};
    ghost use Rattle.db_base.specs.Ids.{IsClient};

    ghost Value = { ℕ };

    ghost view = { λ c. c.number };

    ghost invariant = { λ c. IsClient c.number };

    ghost inverse = { λ n. record { number = n } };
}

impl ClientId {
    /// The client of this number; BadNumber exactly where it is not in 1 to 64.
    pub fn new(n: u64) -> Result<ClientId, Refusal>
        ensures ok { IfOk result (λ c. c ≡ n) }
        ensures valid { IsOk result ↔ IsClient n }
        ensures err { IfErr result (λ e. e ≡ Refusal.BadNumber) }
    {
        if n >= 1 && n <= 64 {
            Ok(ClientId { number: n })
        } else {
            Err(Refusal::BadNumber)
        }
    }

    /// The number, 1 to 64.
    pub fn get(self) -> u64
        ensures number { result ≡ self }
        ensures range { IsClient self }
    {
        self.number
    }
}

/// A tree, numbered 1 to 16.
#[derive(Clone, Copy, Debug, PartialEq, Eq, PartialOrd, Ord, Hash)]
pub struct TreeId {
    number: u64,
}

impl Model for TreeId {
    ghost use Rattle.std.specs.Prelude.{ℕ};
    ghost use Rattle.db_base.specs.Ids.{IsTree};

    ghost Value = { ℕ };

    ghost view = { λ t. t.number };

    ghost invariant = { λ t. IsTree t.number };

    ghost inverse = { λ n. record { number = n } };
}

impl TreeId {
    /// The tree of this number; BadNumber exactly where it is not in 1 to 16.
    pub fn new(n: u64) -> Result<TreeId, Refusal>
        ensures ok { IfOk result (λ t. t ≡ n) }
        ensures valid { IsOk result ↔ IsTree n }
        ensures err { IfErr result (λ e. e ≡ Refusal.BadNumber) }
    {
        if n >= 1 && n <= 16 {
            Ok(TreeId { number: n })
        } else {
            Err(Refusal::BadNumber)
        }
    }

    /// The number, 1 to 16.
    pub fn get(self) -> u64
        ensures number { result ≡ self }
        ensures range { IsTree self }
    {
        self.number
    }

    /// The tree of the index by attribute of this tree; none for one above 8.
    pub fn index(self) -> Option<TreeId>
        ensures is { IfSome result (λ index. index ≡ index_of self) }
        ensures has { IsSome result ↔ (self ≤ 8) }
        ensures trees { IsTree self }
    {
        if self.number <= 8 {
            Some(TreeId {
                number: self.number + 8,
            })
        } else {
            None
        }
    }
}

/// A page of a tree, numbered from 1 on. Page 1 is the leftmost leaf.
#[derive(Clone, Copy, Debug, PartialEq, Eq, PartialOrd, Ord, Hash)]
pub struct PageId {
    number: u64,
}

impl Model for PageId {
    ghost use Rattle.std.specs.Prelude.{ℕ};
    ghost use Rattle.db_base.specs.Ids.{IsPage};

    ghost Value = { ℕ };

    ghost view = { λ p. p.number };

    ghost invariant = { λ p. IsPage p.number };

    ghost inverse = { λ n. record { number = n } };
}

impl PageId {
    /// The page of this number; BadNumber exactly for 0.
    pub fn new(n: u64) -> Result<PageId, Refusal>
        ensures ok { IfOk result (λ p. p ≡ n) }
        ensures valid { IsOk result ↔ IsPage n }
        ensures err { IfErr result (λ e. e ≡ Refusal.BadNumber) }
    {
        if n >= 1 {
            Ok(PageId { number: n })
        } else {
            Err(Refusal::BadNumber)
        }
    }

    /// The leftmost leaf of a tree.
    pub fn first() -> PageId
        ensures { result ≡ 1 }
    {
        PageId { number: 1 }
    }

    /// The number, at least 1.
    pub fn get(self) -> u64
        ensures number { result ≡ self }
        ensures range { IsPage self }
    {
        self.number
    }
}

/// A session of the replay, numbered 1 to 16; number 0 is the settler.
#[derive(Clone, Copy, Debug, PartialEq, Eq, PartialOrd, Ord, Hash)]
pub struct SessionNo {
    number: u64,
}

impl Model for SessionNo {
    ghost use Rattle.std.specs.Prelude.{ℕ, ◌≤◌};

    ghost Value = { ℕ };

    ghost view = { λ s. s.number };

    ghost invariant = { λ s. s.number ≤ 16 };

    ghost inverse = { λ n. record { number = n } };
}

impl SessionNo {
    /// The session of this number; BadNumber exactly where it is not in 1 to 16.
    pub fn new(n: u64) -> Result<SessionNo, Refusal>
        ensures ok { IfOk result (λ s. s ≡ n) }
        ensures valid { IsOk result ↔ IsSession n }
        ensures err { IfErr result (λ e. e ≡ Refusal.BadNumber) }
    {
        if n >= 1 && n <= 16 {
            Ok(SessionNo { number: n })
        } else {
            Err(Refusal::BadNumber)
        }
    }

    /// The settler, session 0, which acts in a settling alone.
    pub fn settler() -> SessionNo
        ensures { result ≡ 0 }
    {
        SessionNo { number: 0 }
    }

    /// The number, 0 to 16.
    pub fn get(self) -> u64
        ensures number { result ≡ self }
        ensures range { self ≤ 16 }
    {
        self.number
    }
}

/// A message of a queue: its position among all that were ever sent to it, from 1.
#[derive(Clone, Copy, Debug, PartialEq, Eq, PartialOrd, Ord, Hash)]
pub struct MsgId {
    number: u64,
}

impl Model for MsgId {
    ghost use Rattle.std.specs.Prelude.{ℕ};

    ghost Value = { ℕ };

    ghost view = { λ m. m.number };

    ghost inverse = { λ n. record { number = n } };
}

impl MsgId {
    /// The message at this position.
    pub fn new(n: u64) -> MsgId
        ensures { result ≡ n }
    {
        MsgId { number: n }
    }

    /// The position.
    pub fn get(self) -> u64
        ensures number { result ≡ self }
        ensures range { self < 2 ^ 64 }
    {
        self.number
    }
}
