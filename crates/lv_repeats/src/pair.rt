ghost use Rattle.std.specs.Prelude.{◌≡◌, slice_get, bytes_eq};
ghost use Rattle.std.specs.List.{list_any};
ghost use Rattle.std.specs.Option.{option_map};
ghost use Rattle.lv_declared.specs.Listing.{declared, all_declared};
ghost use Rattle.lv_repeats.specs.Pairs.{one_range, completes_bare, completes_by, completes_at};

use lv_ast::PortWord;
use lv_declared::{Declaration, Thing};
use lv_symbols::Symbol;

/// Whether two declarations with these symbols have equal ranges, or none.
fn have_one_range(first: Option<Symbol>, second: Option<Symbol>) -> bool
    ensures { result ≡ one_range first second }
{
    match first {
        Some(Symbol::Signal(ranged, _, bounds, _)) => match second {
            Some(Symbol::Signal(also, _, others, _)) => {
                ranged == also && bounds.0 == others.0 && bounds.1 == others.1
            }
            _ => false,
        },
        _ => false,
    }
}

/// The same of the symbols with these numbers.
fn share_range(symbols: &[Symbol], first: usize, second: usize) -> bool
    ensures { result ≡ one_range (slice_get symbols.now first) (slice_get symbols.now second) }
{
    have_one_range(symbols.get(first).copied(), symbols.get(second).copied())
}

/// Whether a net, or for an output a variable, is of this sign; their ranges are equal or not.
fn suits(output: bool, signed: bool, same: bool, other: &Declaration) -> bool
    ensures { result ≡ completes_bare output signed same (declared other.now).thing }
{
    match other.thing {
        Thing::Wire(also, _) => signed == also && same,
        Thing::Reg(also, _, array) => array.is_none() && output && signed == also && same,
        _ => false,
    }
}

/// Whether the first is a bare direction that the second completes.
fn completes(first: &Declaration, second: &Declaration, same: bool) -> bool
    ensures { result ≡ completes_by same (declared first.now).thing (declared second.now).thing }
{
    match first.thing {
        Thing::Direction(output, PortWord::Absent, signed, _) => {
            suits(output, signed, same, second)
        }
        _ => false,
    }
}

/// The declaration with this number.
pub(crate) fn at<'a>(declarations: &[Declaration<'a>], index: usize) -> Option<Declaration<'a>>
    ensures { option_map declared result ≡ slice_get (all_declared declarations.now) index }
{
    declarations.get(index).copied()
}

/// The same of the declarations with these numbers.
pub(crate) fn completes_other(
    declarations: &[Declaration],
    symbols: &[Symbol],
    first: usize,
    second: usize,
) -> bool
    ensures { result ≡ completes_at (all_declared declarations.now) symbols.now first second }
{
    let same = share_range(symbols, first, second);
    match at(declarations, first) {
        None => false,
        Some(one) => match at(declarations, second) {
            None => false,
            Some(other) => completes(&one, &other, same),
        },
    }
}
