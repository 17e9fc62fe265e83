ghost use Rattle.std.specs.Prelude.{◌≡◌, ◌++◌, map, take, length, [], Some, IfOk, IfErr, OnOk, OnErr};
ghost use Rattle.cloud_trait.specs.State.{CloudState};
ghost use Rattle.history.specs.Fold.{of_tree};
ghost use Rattle.history.specs.Audited.{committed_entry, applied_entry};
ghost use Rattle.world_audit.specs.Look.{Looked, FailsDark};
ghost use Rattle.world_audit.specs.Counts.{AreWaiting};
ghost use Rattle.world_audit.specs.Stop.{MayStop};
ghost use Rattle.world_audit.specs.Finding.{Finds};

use crate::backlogs::messages;
use crate::entries::{add_applied, add_committed, of_tree};
use crate::heads::open_heads;
use crate::leaves::contents;
use crate::mark::Mark;
use cloud_trait::cloud::Bench;
use db_base::ids::{ClientId, TreeId};
use db_base::refusal::Refused;
use db_base::trouble::Trouble;
use head_codec::head::Head;
use log_codec::record::PuItem;
use report_types::entry::Entry;
use report_types::entry_log::EntryLog;
use report_types::report::Report;
use std::alloc::Global;
use std::marker::Model;
use txn_buffer::buffer::TxnBuffer;

/// What was seen to commit, in the order of commit, and to be applied, in the order of application.
pub struct Audit {
    committed: EntryLog,
    order: EntryLog,
}

impl Drop for Audit {
    fn drop(self) {
        let Audit {
            committed: _,
            order: _,
        } = self;
    }
}

impl Model for Audit {
    ghost use Rattle.history.specs.Audited.{Audited};

    ghost Value = { Audited };

    ghost view = { λ a. record { committed = a.committed; order = a.order } };
}

/// The entries of the tree, copied. Memory alone.
fn entries_of(alloc: Global, log: &EntryLog, tree: TreeId) -> Result<EntryLog, Trouble>
    ensures ok { IfOk result (λ l. l ≡ of_tree tree log.now) }
    ensures memory { IfErr result (λ e. e ≡ Trouble.Memory) }
{
    match of_tree(alloc, log.as_slice(), tree) {
        Ok(entries) => Ok(entries),
        Err(_) => Err(Trouble::Memory),
    }
}

impl Audit {
    /// Nothing is committed and nothing applied. Takes no memory.
    pub fn new(alloc: Global) -> Audit
        ensures committed { result.committed ≡ [] }
        ensures order { result.order ≡ [] }
    {
        Audit {
            committed: EntryLog::new(alloc),
            order: EntryLog::new(alloc),
        }
    }

    /// Notes the changes of the transaction that a head of the client commits, in their order. Refused for
    /// memory alone, and then nothing changes.
    pub fn head_landed(
        &mut self,
        alloc: Global,
        client: ClientId,
        head: &Head,
        changes: &TxnBuffer,
    ) -> Result<(), Refused>
        ensures ok { OnOk result (self.new ≡ record self.old { committed = self.old.committed ++ map (committed_entry client head.now.epoch head.now.txn) changes.now }) }
        ensures err { OnErr result (self.new ≡ self.old) }
        ensures memory { IfErr result (λ e. e ≡ Refused.Memory) }
    {
        let before = self.committed.len();
        match add_committed(
            alloc,
            &mut self.committed,
            client,
            head.epoch,
            head.txn,
            changes,
        ) {
            Ok(()) => Ok(()),
            Err(_) => {
                self.committed.truncate(before);
                Err(Refused::Memory)
            }
        }
    }

    /// Notes the records that a put of a page of the tree applies, in their order. Refused for memory alone, and
    /// then nothing changes.
    pub fn page_landed(
        &mut self,
        alloc: Global,
        tree: TreeId,
        applying: &[PuItem],
    ) -> Result<(), Refused>
        ensures ok { OnOk result (self.new ≡ record self.old { order = self.old.order ++ map (applied_entry tree) applying.now }) }
        ensures err { OnErr result (self.new ≡ self.old) }
        ensures memory { IfErr result (λ e. e ≡ Refused.Memory) }
    {
        let before = self.order.len();
        match add_applied(alloc, &mut self.order, tree, applying) {
            Ok(()) => Ok(()),
            Err(_) => {
                self.order.truncate(before);
                Err(Refused::Memory)
            }
        }
    }

    /// How far it has come.
    pub fn mark(&self) -> Mark
        ensures committed { result.committed ≡ length self.now.committed }
        ensures order { result.order ≡ length self.now.order }
    {
        Mark {
            committed: self.committed.len(),
            order: self.order.len(),
        }
    }

    /// Takes back what was noted since the mark. Takes no memory.
    pub fn withdraw(&mut self, mark: Mark)
        ensures { self.new ≡ record { committed = take mark.committed self.old.committed; order = take mark.order self.old.order } }
    {
        self.committed.truncate(mark.committed);
        self.order.truncate(mark.order);
    }

    /// The report of a tree, by looks at the newest versions: its committed and applied entries, the records of its
    /// leaves from page 1 along right pages, its open heads, and its messages that are not deleted. The first trouble
    /// in the order of the looks: Absent, Damaged, BadFence and Loop where the leaves are no chain, then Damaged for
    /// the first head that is none, then for the root; Failed where a look failed, and Memory.
    pub fn report<C: Bench>(
        &self,
        alloc: Global,
        cloud: &mut C,
        tree: TreeId,
    ) -> Result<Report, Trouble>
        ensures tree { IfOk result (λ r. r.tree ≡ tree) }
        ensures committed { IfOk result (λ r. r.committed ≡ of_tree tree self.now.committed) }
        ensures order { IfOk result (λ r. r.order ≡ of_tree tree self.now.order) }
        ensures messages { (s : CloudState) → (C.seen cloud.old).state ≡ Some s
            → IfOk result (λ r. AreWaiting s tree r.messages) }
        ensures found { Finds tree (C.seen cloud.old) result }
        ensures looked { Looked (C.seen cloud.old) (C.seen cloud.new) }
        ensures failed { FailsDark result (C.seen cloud.old) (C.seen cloud.new) }
        ensures kinds { IfErr result (MayStop tree) }
    {
        let committed = entries_of(alloc, &self.committed, tree)?;
        let order = entries_of(alloc, &self.order, tree)?;
        let contents = contents(alloc, cloud, tree)?;
        let heads = open_heads(alloc, cloud, tree, committed.as_slice())?;
        let messages = messages(cloud, tree)?;
        Ok(Report {
            tree,
            committed,
            order,
            contents,
            heads,
            messages,
        })
    }
}
