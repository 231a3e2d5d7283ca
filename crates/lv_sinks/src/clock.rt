ghost use Rattle.std.specs.Prelude.{◌≡◌, IfOk};
ghost use Rattle.lv_source.specs.Names.{known, is_clock_sort};
ghost use Rattle.lv_source.specs.Scopes.{is_clock as spec_is_clock};
ghost use Rattle.lv_flat.specs.Signals.{declared_all, sort_of};
ghost use Rattle.lv_resolve.specs.Forms.{Anywhere};
ghost use Rattle.lv_links.specs.Linking.{all_links};
ghost use Rattle.lv_sinks.specs.Clocks.{AreClockPorts};

use lv_ast::{Expr, Ident, Path};
use lv_bits::NoMemory;
use lv_flat::Sort;
use lv_links::Linked;
use lv_resolve::{Bindings, Place, signal_at};
use std::alloc::Global;

/// Whether it is that of a clock.
pub fn is_clock_signal(sort: Sort) -> bool
    ensures { result ≡ is_clock_sort (sort_of sort) }
{
    match sort {
        Sort::Clock => true,
        _ => false,
    }
}

/// Whether a name is that of a clock.
fn names_clock<B: Bindings>(place: &Place<B>, path: &Path) -> bool
    ensures { Anywhere (declared_all place.now.signals.now) (B.numbers place.now.bindings.now) place.now.all.now place.now.early.now (λ here.
        result ≡ is_clock_sort (known (here.names path.now)).sort) }
{
    match place.bindings.signal(path) {
        None => false,
        Some(number) => match signal_at(place.signals, number) {
            None => false,
            Some(signal) => is_clock_signal(signal.sort),
        },
    }
}

/// Whether an expression is the name of a clock and nothing more.
pub fn is_clock<B: Bindings>(place: &Place<B>, expr: &Expr) -> bool
    ensures { Anywhere (declared_all place.now.signals.now) (B.numbers place.now.bindings.now) place.now.all.now place.now.early.now (λ here.
        result ≡ spec_is_clock here.names expr.now) }
{
    match expr {
        Expr::Name(path, selects) => selects.is_empty() && names_clock(place, path),
        _ => false,
    }
}

/// The ports that are connected to clocks, in the order of the connections.
pub fn clock_ports<'a, B: Bindings>(
    alloc: Global,
    place: &Place<B>,
    links: &[Linked<'a>],
) -> Result<Vec<&'a Ident>, NoMemory>
    ensures { Anywhere (declared_all place.now.signals.now) (B.numbers place.now.bindings.now) place.now.all.now place.now.early.now (λ here.
        IfOk result (λ ports. AreClockPorts here.names (all_links links.now) ports.items)) }
{
    let mut ports = Vec::new(alloc);
    for link in links {
        if let Some(value) = &link.conn.value {
            if is_clock(place, value.get()) {
                ports.push(link.port)?;
            }
        }
    }
    Ok(ports)
}
