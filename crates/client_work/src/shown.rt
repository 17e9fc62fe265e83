ghost use Rattle.std.specs.Prelude.{◌≡◌};
ghost use Rattle.client_work.specs.declared.shown.Shown.TheVariants.{Nothing};

use record_read::RecordRead;
use report_types::pair_list::PairList;

/// What the newest operation of a session shows beside its answer.
pub enum Shown {
    /// Nothing.
    Nothing,
    /// A read that ended at its leaf.
    Read(RecordRead),
    /// The records that a scan or a look-up listed.
    Listed(PairList),
}

// Written out, so that what holds this need not look into a read to let it go.
impl Drop for Shown {
    fn drop(self) {
        match self {
            Shown::Nothing => {}
            Shown::Read(_) => {}
            Shown::Listed(_) => {}
        }
    }
}

impl Shown {
    ghost use Rattle.client_work.specs.declared.shown.Shown.TheVariants.{Nothing};

    /// Shows nothing from now on. Most steps show nothing, and follow one that did not: what stands is then left as it is.
    pub(crate) fn clear(&mut self)
        ensures { self.new ≡ Nothing }
    {
        match self {
            Shown::Nothing => {}
            Shown::Read(_) => forget(self),
            Shown::Listed(_) => forget(self),
        }
    }
}

/// Shows nothing from now on. Apart, so that a step that showed nothing need not clear the room that this takes.
#[inline(never)]
fn forget(place: &mut Shown)
    ensures { place.new ≡ Nothing }
{
    *place = Shown::Nothing;
}

/// Shows this from now on.
pub(crate) fn put(place: &mut Shown, shown: Shown)
    ensures { place.new ≡ shown }
{
    *place = shown;
}
