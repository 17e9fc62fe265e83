//! Lists are no longer than memory allows.

ghost use Rattle.tree_ckpt.specs.End.{IsShortChart, IsShort};

use crate::work::{Onward, Work};
use tree_phases::chart::Chart;

fn chart_is_short(chart: &Chart)
    ensures { IsShortChart chart.now }
{
    let _nodes = chart.nodes.len();
    let _links = chart.links.as_slice().len();
    let _run = chart.run.items().len();
}

/// The lists that a checkpoint keeps are no longer than the greatest usize.
pub(crate) fn work_is_short(work: &Work)
    ensures { IsShort work.now }
{
    match work {
        Work::Descending(_, descent) => chart_is_short(&descent.chart),
        Work::TakingPage(_, coming) => chart_is_short(&coming.chart),
        Work::Folding(_, folding) => {
            chart_is_short(&folding.chart);
            let _puts = folding.placing.puts.len();
        }
        Work::ReleasingPage(_, _, Onward::Right(coming)) => chart_is_short(&coming.chart),
        Work::ReleasingPage(_, _, Onward::Handled(chart)) => chart_is_short(chart),
        Work::Rising(_, rising) => {
            let _nodes = rising.chart.nodes.len();
            let _puts = rising.placing.puts.len();
        }
        _ => (),
    }
}
