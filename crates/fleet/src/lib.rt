//! Any number of programs on one store: what holds of it at every moment, whoever acts.
#![tactic(auto)]

ghost use Rattle.std.specs.Prelude.{◌≡◌, ◌≤◌, ℕ, List, ◌∷◌, ◌++◌, length};
ghost use Rattle.cloud_trait.specs.Growth.{BeginsWith};
ghost use Rattle.cloud_trait.specs.declared.turn.Turn.TheVariants.{Ended};
ghost use Rattle.client_work.specs.declared.answer.Answer.TheVariants as answer;
ghost use Rattle.client_work.specs.declared.work.Work.TheVariants.{Committing};
ghost use Rattle.cloud_facts.specs.Numbers.Numbers.{IsOnce};
ghost use Rattle.commit_run.specs.Run.{Run, home_of};
ghost use Rattle.db_base.specs.declared.trouble.CommitAnswer.{CommitAnswer};
ghost use Rattle.db_base.specs.declared.trouble.CommitAnswer.TheVariants.{NotCommitted};
ghost use Rattle.db_base.specs.declared.trouble.Trouble.{Trouble};
ghost use Rattle.session_facts.specs.Lines.LeftNone.{HasNone};
ghost use Rattle.fleet.specs.Acts.{Deal, calls, IsDeal, IsAlone, Does};
ghost use Rattle.fleet.specs.Course.{Done, done, now, Course, history};
ghost use Rattle.fleet.specs.Fleet.{Fleet, IsNew};
ghost use Rattle.fleet.specs.Kept.{IsKept};
ghost use Rattle.fleet.specs.Programs.{deal_of, Tells};
ghost use Rattle.fleet.specs.Right.{IsRightAt};
ghost use Rattle.cloud_facts.specs.Book.Tally.{at};
ghost use Rattle.cloud_trait.specs.Ask.{Ask};
ghost use Rattle.client_work.specs.Session.{Acting, HasNoted, HasDropped};
ghost use Rattle.db_base.specs.Change.{IsChange};
ghost use Rattle.db_base.specs.Ids.{IsTree};
ghost use Rattle.db_base.specs.declared.change.Change.{Change};
ghost use Rattle.session_facts.specs.Machines.Commits.Knows.{MayCommit};
ghost use Rattle.session_facts.specs.Sessions.Calls.{SessionStep, IsMade, reply_of};

/// Whatever programs do on a store that was empty, whichever die and begin anew: as long as each call of each is one row of the table over the
/// store, in one order of all calls, this holds.
pub fn fleet_is_right()
    // At every moment each tree is right for what was committed and applied.
    ensures stands { (start : Fleet) (h : List Done) → IsNew start → Course start h → IsRightAt (now start h).state (history start h) }
    // What was committed and applied at one moment is so at each later one, in the same order.
    ensures grows { (start : Fleet) (later earlier : List Done) →
        BeginsWith (history start earlier).committed (history start (later ++ earlier)).committed
        × BeginsWith (history start earlier).order (history start (later ++ earlier)).order }
    // A commit that any program answers as committed was committed by a call of its own, with all its changes, between its begin and its answer.
    ensures keeps { (start to : Fleet) (d : Deal) (earlier : List Done) (r : Run) (a : CommitAnswer) → IsNew start →
        Course start (done (calls d) to ∷ earlier) → d.old.work ≡ Committing r → d.turn ≡ Ended (answer.Commit a) → IsKept start earlier d.program r a }
    // A commit that is answered as not committed left nothing of its transaction.
    ensures refuses { (start to : Fleet) (d : Deal) (earlier : List Done) (r : Run) (t : Trouble) → IsNew start →
        Course start (done (calls d) to ∷ earlier) → d.old.work ≡ Committing r → d.turn ≡ Ended (answer.Commit (NotCommitted t)) →
        HasNone (history start (done (calls d) to ∷ earlier)).committed (home_of r).client (home_of r).head.epoch (home_of r).attempt }
    // No change is committed twice.
    ensures once { (start : Fleet) (h : List Done) → IsNew start → Course start h → IsOnce (history start h).committed }
{}

/// What the contract of a session says is the part of a program in a fleet.
pub fn sessions_are_of_fleets()
    // A step, over whatever cloud, is a deal of any program whose session it is.
    ensures deals { (x : SessionStep) (made : IsMade x) (program : ℕ) → (ask : Ask) × IsDeal (deal_of program x ask (reply_of x made)) }
    // Where that cloud tells its state, the call is a row of it. So sessions on one such cloud, by their numbers, are a fleet.
    ensures rows { (x : SessionStep) (made : IsMade x) (from to : Fleet) → Tells x.before from → Tells x.after to →
        from.sessions x.who.session ≡ x.old → to.sessions ≡ at x.who.session x.new from.sessions →
        (ask : Ask) × Does (calls (deal_of x.who.session x ask (reply_of x made))) from to }
    // What notes or drops changes is done without a call; and so is each begin, by what that is.
    ensures noted { (tree : ℕ) (change : Change) (old new : Acting) → IsTree tree → IsChange change → length new.buffer ≤ 200 → MayCommit old.buffer →
        HasNoted tree change old new → IsAlone old new }
    ensures dropped { (old new : Acting) → HasDropped old new → IsAlone old new }
{}
