ghost use Rattle.std.specs.Prelude.{◌≡◌, ◌+◌, ◌≤◌, length, IfOk, IfErr};
ghost use Rattle.lv_declared.specs.Listing.{all_declared};
ghost use Rattle.lv_bindings.specs.Grouping.{AreGrouped};
ghost use Rattle.lv_bindings.specs.Made.{AreNarrow};
ghost use Rattle.lv_bindings.specs.Order.{outside};
ghost use Rattle.lv_opening.specs.Ready.{InReady, IsOpened, IsNotOpened, HasFrame, IsKept, IsNamedScope, ReadAnswer, spec_of_symbol};

use crate::error::OpeningError;
use crate::opened::Opened;
use lv_ast::Ports;
use lv_bindings::{Around, Groups, Standing, Table, name_scope, once};
use lv_bits::NoMemory;
use lv_const::{Consts, Entry};
use lv_declared::Declaration;
use lv_entries::{add_parameters, constants_of, copy_entries};
use lv_faults::Fault;
use lv_repeats::{outputs, whole_fault};
use lv_scopes::NameTable;
use lv_symbols::{Givens, Symbol, SymbolError, declare};
use std::alloc::Global;

/// What is kept of a scope whose declarations have been read.
fn keep(
    alloc: Global,
    table: Table,
    signals: Vec<Standing>,
    base: &[Entry],
    consts: &Consts,
    outputs: NameTable,
    declarations: &[Declaration],
) -> Result<Opened, NoMemory>
    ensures { IfOk result (IsKept table signals.items base.now consts.now outputs (all_declared declarations.now)) }
{
    let mut entries = Vec::new(alloc);
    copy_entries(alloc, base, base.len(), &mut entries)?;
    add_parameters(alloc, declarations, consts, &mut entries)?;
    Ok(Opened {
        table,
        signals,
        entries,
        outputs,
    })
}

/// The names of a scope whose declarations have been read.
fn name(
    alloc: Global,
    around: &Around,
    base: &[Entry],
    consts: &Consts,
    groups: Groups,
    declarations: &[Declaration],
    symbols: &[Symbol],
    first: u64,
) -> Result<Opened, NoMemory>
    requires grouped { AreGrouped (all_declared declarations.now) groups }
    requires narrow { AreNarrow symbols.now }
    requires numbers { first + length declarations.now ≤ u64.MAX }
    ensures { IfOk result (IsNamedScope (outside around.now) base.now consts.now (all_declared declarations.now) symbols.now first) }
{
    let outputs = outputs(alloc, declarations)?;
    let named = name_scope(alloc, around, groups, declarations, symbols, first)?;
    let (table, signals) = named.into_parts();
    keep(alloc, table, signals, base, consts, outputs, declarations)
}

/// A scope whose symbols these are, if its declarations are sound as a whole.
fn read(
    alloc: Global,
    around: &Around,
    base: &[Entry],
    consts: &Consts,
    groups: Groups,
    declarations: &[Declaration],
    symbols: &[Symbol],
    ports: &Ports,
    first: u64,
) -> Result<Opened, OpeningError>
    requires grouped { AreGrouped (all_declared declarations.now) groups }
    requires narrow { AreNarrow symbols.now }
    ensures { ReadAnswer (outside around.now) base.now consts.now (all_declared declarations.now) symbols.now ports.now first result }
{
    match whole_fault(alloc, &groups, declarations, symbols, ports) {
        Err(_) => return Err(OpeningError::NoMemory),
        Ok(Some(fault)) => return Err(OpeningError::Fault(fault)),
        Ok(None) => {}
    }
    if u64::MAX - first < declarations.len() as u64 {
        return Err(OpeningError::NoMemory);
    }
    match name(
        alloc,
        around,
        base,
        consts,
        groups,
        declarations,
        symbols,
        first,
    ) {
        Err(_) => Err(OpeningError::NoMemory),
        Ok(opened) => Ok(opened),
    }
}

fn of_symbol(error: SymbolError) -> OpeningError
    ensures { result ≡ spec_of_symbol error }
{
    match error {
        SymbolError::Own(error) => OpeningError::Own(error),
        SymbolError::Given(error) => OpeningError::Given(error),
        SymbolError::NoMemory => OpeningError::NoMemory,
    }
}

/// What a scope declares (IEEE 1364-2005, section 12), in each scope that has these declarations and ports: `base` are the constants before
/// its first declaration, `there` those where the values that an instance gives are read, `first` is the number of its first signal. An
/// error is a fault of the scope: `Fault` by its kind, `Own` of a declaration where it stands, `Given` of a value that an instance gives.
pub fn open_scope(
    alloc: Global,
    around: &Around,
    base: &[Entry],
    there: &Consts,
    givens: &Givens,
    declarations: &[Declaration],
    ports: &Ports,
    first: u64,
) -> Result<Opened, OpeningError>
    requires { HasFrame (outside around.now) base.now there.now givens.now (all_declared declarations.now) ports.now }
    ensures right { IfOk result (λ r. InReady (outside around.now) base.now there.now givens.now (all_declared declarations.now) ports.now (λ f.
        IsOpened base.now first f r)) }
    ensures wrong { IfErr result (λ y. InReady (outside around.now) base.now there.now givens.now (all_declared declarations.now) ports.now (λ f.
        IsNotOpened f y)) }
{
    let Ok(groups) = Groups::new(alloc, declarations) else {
        return Err(OpeningError::NoMemory);
    };
    if let Some(place) = once(&groups, declarations) {
        return Err(OpeningError::Fault(Fault::Duplicate(place)));
    }
    let Ok(mut consts) = constants_of(alloc, base, base.len()) else {
        return Err(OpeningError::NoMemory);
    };
    match declare(alloc, &mut consts, there, givens, declarations) {
        Err(error) => Err(of_symbol(error)),
        Ok(symbols) => read(
            alloc,
            around,
            base,
            &consts,
            groups,
            declarations,
            symbols.as_slice(),
            ports,
            first,
        ),
    }
}
