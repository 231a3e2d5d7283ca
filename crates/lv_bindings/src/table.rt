ghost use Rattle.std.specs.Prelude.{◌≡◌, ◌+◌, ◌≤◌, map, length, slice_get, IfOk};
ghost use Rattle.lv_bindings.specs.Tables.{bound_in, bound_at, plain_bindings, assigned, plain_binding};
ghost use Rattle.lv_bindings.specs.Order.{seen};

use crate::group::Group;
use crate::order::Standing;
use lv_bits::NoMemory;
use lv_flat::Signal;
use lv_scopes::NameTable;
use lv_symbols::Symbol;
use std::alloc::Global;

/// What a name of a scope stands for.
#[derive(Clone, Copy, Debug)]
pub enum Binding {
    /// A signal or a clock of the design, by its number.
    Signal(u64),
    /// A parameter.
    Constant,
    /// The index of a loop: whether it is a genvar.
    Index(bool),
    /// An instance or a label.
    Other,
}

/// What the names that a scope declares stand for.
pub struct Table {
    pub names: NameTable,
    pub bindings: Vec<Binding>,
}

impl Drop for Table {
    fn drop(self) {
        let Table { names, bindings } = self;
        drop(names);
        drop(bindings);
    }
}

impl Table {
    /// What a name stands for; None where the scope doesn't declare it.
    pub fn find(&self, name: &[u8]) -> Option<Binding>
        ensures { result ≡ bound_in self.now name.now }
    {
        match self.names.find(name) {
            None => None,
            Some(number) => self.bindings.get(number).copied(),
        }
    }
}

/// What a name with this symbol stands for, a signal aside.
fn plain(symbol: Option<Symbol>) -> Binding
    ensures { result ≡ plain_binding symbol }
{
    match symbol {
        Some(Symbol::Constant) => Binding::Constant,
        Some(Symbol::Index(genvar)) => Binding::Index(genvar),
        Some(Symbol::Signal(_, _, _, _)) => Binding::Other,
        Some(Symbol::Other) => Binding::Other,
        None => Binding::Other,
    }
}

/// What the name of a group stands for, a signal aside.
fn plain_by(symbols: &[Symbol], group: &Group) -> Binding
    ensures { result ≡ plain_binding (slice_get symbols.now group.now.first) }
{
    plain(symbols.get(group.first).copied())
}

/// What each name stands for by the symbol of its first declaration, signals aside.
fn plain_of(alloc: Global, groups: &[Group], symbols: &[Symbol]) -> Result<Vec<Binding>, NoMemory>
    ensures { IfOk result (λ v. v.items ≡ plain_bindings symbols.now groups.now) }
{
    let mut bindings = Vec::new(alloc);
    for group in groups {
        bindings.push(plain_by(symbols, group))?;
    }
    Ok(bindings)
}

/// A signal by its number.
fn bind(bindings: &mut Vec<Binding>, number: usize, signal: u64)
    ensures { bindings.new.items ≡ bound_at bindings.old.items number signal }
{
    if number < bindings.len() {
        bindings[number] = Binding::Signal(signal);
    }
}

/// What each name stands for, where these are the signals from this number on.
pub(crate) fn bindings_of(
    alloc: Global,
    groups: &[Group],
    symbols: &[Symbol],
    order: &[Standing],
    first: u64,
) -> Result<Vec<Binding>, NoMemory>
    requires { first + length order.now ≤ u64.MAX }
    ensures { IfOk result (λ v. v.items ≡ assigned first (map seen order.now) (plain_bindings symbols.now groups.now)) }
{
    let mut bindings = plain_of(alloc, groups, symbols)?;
    for index in 0..order.len() {
        bind(&mut bindings, order[index].number, first + index as u64);
    }
    Ok(bindings)
}
