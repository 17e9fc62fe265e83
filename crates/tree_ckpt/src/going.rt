//! On to the next key: down to its leaf, and up once all are handled.

ghost use Rattle.std.specs.Prelude.{◌≡◌, [], ◌∷◌, Some, IfOk};
ghost use Rattle.std.specs.Option.{option_copied};
ghost use Rattle.cloud_trait.specs.declared.answer.Answer.{Answer};
ghost use Rattle.cloud_trait.specs.Machine.{Next};
ghost use Rattle.log_codec.specs.Order.{IsOrdered};
ghost use Rattle.tree_phases.specs.Going.{Went};
ghost use Rattle.tree_phases.specs.declared.descent.Descent.{Descent};
ghost use Rattle.tree_phases.specs.declared.rising.Rising.{Rising};
ghost use Rattle.tree_ckpt.specs.Moves.{MovesOn, descending_on, rising_on, root_entry, going_down, key_from, next_key, going, going_by, leaf_of};

use crate::ending::delete_next;
use crate::moved::Moved;
use crate::release::{drop_chart, drop_descent, drop_rising, tree_lease};
use crate::work::{Coming, Held, Work};
use db_base::blob::Blob;
use db_base::ids::PageId;
use leaf_edit::parted_at;
use log_codec::record::PuItem;
use std::alloc::{AllocError, Global};
use tree_phases::chart::Chart;
use tree_phases::descent::Descent;
use tree_phases::pace::Pace;
use tree_phases::read::tree_view;
use tree_phases::rising::Rising;

/// The leaf to which the way down leads.
fn leaf_of(descent: Descent) -> Coming
    ensures { result ≡ leaf_of descent }
{
    let Descent {
        chart,
        level: _,
        page,
        low,
        visited,
    } = descent;
    Coming {
        chart,
        page,
        low,
        visited,
    }
}

/// The next inner node is got next, or the leaf is taken.
pub(crate) fn descend(held: Held, descent: Descent, pace: Pace<()>) -> Moved
    ensures { (next : Next Descent Unit) → Went next descent pace → MovesOn (descending_on held next) (held.lease ∷ []) result }
{
    match pace {
        Pace::More => Moved::goes(Work::Descending(held, descent)),
        Pace::Ended(()) => Moved::goes(Work::TakingPage(held, leaf_of(descent))),
        Pace::Stopped(trouble) => {
            drop_descent(descent);
            Moved::stops(tree_lease(held), trouble)
        }
        Pace::Memory => {
            drop_descent(descent);
            Moved::no_memory(tree_lease(held))
        }
    }
}

/// The next put of the way up comes next, or the deletions.
pub(crate) fn ascend(held: Held, rising: Rising, pace: Pace<()>) -> Moved
    ensures { (next : Next Rising Unit) → Went next rising pace → MovesOn (rising_on held next) (held.lease ∷ []) result }
{
    match pace {
        Pace::More => Moved::goes(Work::Rising(held, rising)),
        Pace::Ended(()) => {
            let applied = rising.chart.applied;
            drop_rising(rising);
            delete_next(held, applied)
        }
        Pace::Stopped(trouble) => {
            drop_rising(rising);
            Moved::stops(tree_lease(held), trouble)
        }
        Pace::Memory => {
            drop_rising(rising);
            Moved::no_memory(tree_lease(held))
        }
    }
}

/// The tree object's entry for the chart's key, its low key copied. Refused for memory alone.
fn root_entry(alloc: Global, chart: &Chart) -> Result<(Blob, PageId), AllocError>
    ensures { IfOk result (λ e. e ≡ root_entry chart.now) }
{
    let (low, page) = tree_view(&chart.root).child(chart.key.as_slice());
    Ok((Blob::copy_of(alloc, low)?, page))
}

/// Goes down to the leaf of the chart's key.
fn go_down(alloc: Global, held: Held, chart: Chart) -> Moved
    ensures { MovesOn (going_down held chart) (held.lease ∷ []) result }
{
    match root_entry(alloc, &chart) {
        Ok((low, page)) => {
            let mut descent = Descent::begin(alloc, chart, low, page);
            let pace = descent.arrive(alloc);
            descend(held, descent, pace)
        }
        Err(_) => {
            drop_chart(chart);
            Moved::no_memory(tree_lease(held))
        }
    }
}

/// Goes up.
fn go_up(alloc: Global, held: Held, chart: Chart) -> Moved
    ensures { MovesOn (going_by held chart None) (held.lease ∷ []) result }
{
    let mut rising = Rising::begin(alloc, chart);
    let pace = rising.rise(alloc);
    ascend(held, rising, pace)
}

/// The least key from this one on, of items in the order of keys.
fn key_from<'a>(from: &[u8], items: &'a [PuItem]) -> Option<&'a [u8]>
    requires { IsOrdered items.now }
    ensures { option_copied result ≡ key_from from.now items.now }
{
    let (_, rest) = parted_at(items, from);
    match rest.split_first() {
        Some((item, _)) => Some(item.rec.change.key().as_slice()),
        None => None,
    }
}

/// The least key of the run that is not handled.
fn next_key(chart: &Chart) -> Option<&[u8]>
    ensures { option_copied result ≡ next_key chart.now }
{
    match &chart.from {
        Some(from) => key_from(from.as_slice(), chart.run.items()),
        None => None,
    }
}

/// A copy of the least key that is not handled. Refused for memory alone.
fn copied_key(alloc: Global, chart: &Chart) -> Result<Option<Blob>, AllocError>
    ensures { IfOk result (λ key. key ≡ next_key chart.now) }
{
    match next_key(chart) {
        Some(key) => {
            let copy = Blob::copy_of(alloc, key)?;
            Ok(Some(copy))
        }
        None => Ok(None),
    }
}

/// Goes down to the leaf of the next key, and up where all are handled.
pub(crate) fn go(alloc: Global, held: Held, chart: Chart) -> Moved
    ensures { MovesOn (going held chart) (held.lease ∷ []) result }
{
    match copied_key(alloc, &chart) {
        Ok(Some(key)) => {
            let mut chart = chart;
            chart.key = key;
            go_down(alloc, held, chart)
        }
        Ok(None) => go_up(alloc, held, chart),
        Err(_) => {
            drop_chart(chart);
            Moved::no_memory(tree_lease(held))
        }
    }
}
