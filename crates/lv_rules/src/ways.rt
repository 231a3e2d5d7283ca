// Ways and sorts, as tests.
ghost use Rattle.std.specs.Prelude.{◌≡◌};
ghost use Rattle.lv_source.specs.Names.{is_clock_sort};
ghost use Rattle.lv_source.specs.Views.{is_combinational, is_continuous, is_edge};
ghost use Rattle.lv_flat.specs.Signals.{declared_all, signal_at, sort_of};
ghost use Rattle.lv_extents.specs.Extents.{way_of};
ghost use Rattle.lv_rules.specs.Rules.{is_other_edge, is_misaimed, is_misdriven, sort_or};

use lv_extents::Way;
use lv_flat::{Signal, Sort};

pub(crate) fn is_combinational(way: Way) -> bool
    ensures { result ≡ is_combinational (way_of way) }
{
    match way {
        Way::Continuous => false,
        Way::Combinational => true,
        Way::Edge(_, _) => false,
    }
}

pub(crate) fn is_continuous(way: Way) -> bool
    ensures { result ≡ is_continuous (way_of way) }
{
    match way {
        Way::Continuous => true,
        Way::Combinational => false,
        Way::Edge(_, _) => false,
    }
}

pub(crate) fn is_edge(way: Way) -> bool
    ensures { result ≡ is_edge (way_of way) }
{
    match way {
        Way::Continuous => false,
        Way::Combinational => false,
        Way::Edge(_, _) => true,
    }
}

pub(crate) fn is_clock(sort: Sort) -> bool
    ensures { result ≡ is_clock_sort (sort_of sort) }
{
    match sort {
        Sort::Input => false,
        Sort::Net => false,
        Sort::Variable => false,
        Sort::Clock => true,
    }
}

/// An edge of a name that is no clock.
pub(crate) fn is_other_edge(way: Way) -> bool
    ensures { result ≡ is_other_edge (way_of way) }
{
    match way {
        Way::Continuous => false,
        Way::Combinational => false,
        Way::Edge(sort, _) => !is_clock(sort),
    }
}

/// A target of this sort can't be written in this way.
pub(crate) fn is_misaimed(way: Way, sort: Sort) -> bool
    ensures { result ≡ is_misaimed (way_of way) (sort_of sort) }
{
    match (way, sort) {
        (Way::Continuous, Sort::Variable) => true,
        (Way::Continuous, _) => false,
        (_, Sort::Input) => true,
        (_, Sort::Net) => true,
        (_, _) => false,
    }
}

/// A signal of this sort can't be driven in this way.
pub(crate) fn is_misdriven(way: Way, sort: Option<Sort>) -> bool
    ensures { result ≡ is_misdriven (way_of way) (sort_or sort) }
{
    match (way, sort) {
        (_, Some(Sort::Input)) => false,
        (Way::Continuous, Some(Sort::Variable)) => true,
        (Way::Continuous, _) => false,
        (_, Some(Sort::Variable)) => false,
        (_, _) => true,
    }
}

/// The sort of a signal by its number.
pub(crate) fn sort_at(signals: &[Signal], k: u64) -> Option<Sort>
    ensures { sort_or result ≡ (signal_at (declared_all signals.now) k).sort }
{
    match signals.get(k as usize) {
        Some(signal) => Some(signal.sort),
        None => None,
    }
}
