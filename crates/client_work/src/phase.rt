ghost use Rattle.std.specs.Prelude.{◌≡◌};
ghost use Rattle.client_work.specs.Phase.{index_bar as index_bar_of};

use crate::op::Op;
use db_base::ids::TreeId;
use db_base::refusal::Refusal;
use page_cache::PageCache;
use txn_buffer::buffer::TxnBuffer;

/// How a session stands, whatever is at work.
#[derive(Clone, Copy, Drop)]
pub enum Phase {
    /// No client is open.
    Closed,
    /// An open client, with nothing at work.
    Idle,
    /// An operation is at work that is no close.
    Working,
    /// A close is at work.
    Closing,
    /// The newest operation left the client in doubt.
    Broken,
}

/// The rule that bars a look-up: of a tree that has an index the phase decides, and another tree bars it.
fn index_bar(tree: TreeId, by: Option<Refusal>) -> Option<Refusal>
    ensures { result ≡ index_bar_of tree by }
{
    match tree.index() {
        Some(_) => by,
        None => Some(Refusal::BadNumber),
    }
}

impl Phase {
    ghost use Rattle.client_work.specs.Phase.{rule_in, opening_rule_in, works_in, bar_in, noted_in, kept_in};

    /// The rule that keeps an open client's operation from beginning.
    pub fn rule(self) -> Option<Refusal>
        ensures { result ≡ rule_in self }
    {
        match self {
            Phase::Closed => Some(Refusal::NotOpen),
            Phase::Idle => None,
            Phase::Working => Some(Refusal::AtWork),
            Phase::Closing => Some(Refusal::AtWork),
            Phase::Broken => Some(Refusal::Broken),
        }
    }

    /// The rule that keeps an opening from beginning.
    pub(crate) fn opening_rule(self) -> Option<Refusal>
        ensures { result ≡ opening_rule_in self }
    {
        match self {
            Phase::Closed => None,
            Phase::Idle => Some(Refusal::AlreadyOpen),
            Phase::Working => Some(Refusal::AtWork),
            Phase::Closing => Some(Refusal::AtWork),
            Phase::Broken => None,
        }
    }

    /// The rule that bars an operation from beginning.
    pub fn bar(self, op: &Op) -> Option<Refusal>
        ensures { result ≡ bar_in op.now self }
    {
        match op {
            Op::Open(_) => self.opening_rule(),
            Op::Close => self.rule(),
            Op::Renew => self.rule(),
            Op::Commit => self.rule(),
            Op::Read(_, _) => self.rule(),
            Op::Scan(_, _, _) => self.rule(),
            Op::Lookup(tree, _) => index_bar(*tree, self.rule()),
            Op::Page(_, _) => self.rule(),
            Op::Tree(_) => self.rule(),
        }
    }

    /// Whether an operation is at work.
    pub fn is_working(self) -> bool
        ensures { result ≡ works_in self }
    {
        match self {
            Phase::Working => true,
            Phase::Closing => true,
            Phase::Closed => false,
            Phase::Idle => false,
            Phase::Broken => false,
        }
    }

    /// A close drops what was noted.
    pub fn drop_noted(self, buffer: &mut TxnBuffer)
        ensures { buffer.new ≡ noted_in self buffer.old }
    {
        match self {
            Phase::Closing => buffer.clear(),
            _ => {}
        }
    }

    /// A closed session keeps nothing of the cloud.
    pub fn drop_kept(self, cache: &mut PageCache)
        ensures { cache.new ≡ kept_in self cache.old }
    {
        match self {
            Phase::Closed => cache.clear(),
            _ => {}
        }
    }
}
