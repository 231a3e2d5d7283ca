//! From a module and its observers to the formulas that are decided.

ghost use Rattle.std.specs.Prelude.{◌≡◌, ◌↔◌, ◌++◌, [], ℕ, List, ◌≤◌, ◌*◌, ◌+◌, not, All, filter, bytes_eq, length, map, IfOk, IsTrue, MatchOption, OnOk};
ghost use Rattle.std.specs.List.{list_all, IsDistinct};
ghost use Rattle.lv_first.specs.FirstForm.{IsBitExpr, IsRegisterName, AreObservers, IsFirstForm, free_bits, scope_of, port_names, register_items, is_bit_port, is_kind_of_port};
ghost use Rattle.lv_first.specs.Signals.{AreBitsOf, AreVariablesOf, IsRegister, HasSignals, IsWatched, IsBitForm, IsBuilt, IsPrepared};

use crate::build::formula_of;
use crate::formula::Formula;
use crate::next::items_next;
use crate::observed::ObserverTrees;
use crate::problem::Problem;
use crate::signals::{Signals, find, names_of_ports};
use lv_ast::{Aport, Expr, Item, Module, PortWord, Ports, RegName};
use lv_bits::{NoMemory, Text};
use sqlite_items::Items;
use std::alloc::Global;

/// What is decided of a module, and the names of its signals.
#[derive(Drop)]
pub(crate) struct Prepared {
    pub(crate) problem: Problem,
    pub(crate) signals: Signals,
}

/// The formulas of the observers.
#[derive(Drop)]
pub(crate) struct Watched {
    pub(crate) retire: Formula,
    pub(crate) contract: Items<Formula>,
    pub(crate) attacker: Items<Formula>,
    /// The registers that an initial pair shares.
    pub(crate) equal: Items<usize>,
}

/// The formulas of expressions, in order.
fn formulas_of(
    alloc: Global,
    signals: &Signals,
    exprs: &[Expr],
) -> Result<Option<Items<Formula>>, NoMemory>
    ensures { IfOk result (λ o. MatchOption o (All (IsBitExpr (signals.now.registers ++ signals.now.inputs)) exprs.now → ⊥) (λ fs.
        All (IsBitExpr (signals.now.registers ++ signals.now.inputs)) exprs.now ×
        AreBitsOf (scope_of signals.now.registers signals.now.inputs) (signals.now.registers ++ signals.now.inputs) exprs.now fs)) }
{
    let mut formulas = Items::new(alloc);
    for expr in exprs {
        match formula_of(alloc, signals, expr)? {
            Some(formula) => formulas.push(formula)?,
            None => return Ok(None),
        }
    }
    Ok(Some(formulas))
}

/// The number of the register that an expression is.
fn register_of(signals: &Signals, expr: &Expr) -> Option<usize>
    ensures { MatchOption result (IsRegisterName signals.now.registers expr.now → ⊥)
        (λ k. IsRegister signals.now.registers signals.now.inputs expr.now k) }
{
    match expr {
        Expr::Name(path, selects) => {
            if !selects.is_empty() {
                return None;
            }
            if !path.steps.is_empty() {
                return None;
            }
            find(signals.registers.as_slice(), &path.name)
        }
        _ => None,
    }
}

/// The numbers of the registers that expressions are, in order.
fn registers_of(
    alloc: Global,
    signals: &Signals,
    exprs: &[Expr],
) -> Result<Option<Items<usize>>, NoMemory>
    ensures { IfOk result (λ o. MatchOption o (All (IsRegisterName signals.now.registers) exprs.now → ⊥) (λ ks.
        All (IsRegisterName signals.now.registers) exprs.now ×
        AreVariablesOf (scope_of signals.now.registers signals.now.inputs) (signals.now.registers ++ signals.now.inputs) exprs.now ks)) }
{
    let mut numbers = Items::new(alloc);
    for expr in exprs {
        match register_of(signals, expr) {
            Some(k) => numbers.push(k)?,
            None => return Ok(None),
        }
    }
    Ok(Some(numbers))
}

fn push_registers(alloc: Global, texts: &mut Items<Text>, names: &[RegName]) -> Result<(), NoMemory>
    ensures { OnOk result (texts.new ≡ texts.old ++ map (λ r. r.name.name) names.now) }
{
    for name in names {
        texts.push(name.name.name.copy(alloc)?)?;
    }
    Ok(())
}

/// The registers that items declare are added behind those of the ports.
fn push_items(alloc: Global, texts: &mut Items<Text>, items: &[Item]) -> Result<(), NoMemory>
    ensures { OnOk result (texts.new ≡ texts.old ++ register_items items.now) }
{
    for item in items {
        if let Item::Reg(_, _, names) = item {
            push_registers(alloc, texts, names.as_slice())?;
        }
    }
    Ok(())
}

/// The names but this one.
fn without(alloc: Global, names: &[Text], name: &Text) -> Result<Items<Text>, NoMemory>
    ensures { IfOk result (λ texts. texts ≡ filter (λ x. not (bytes_eq x name.now)) names.now) }
{
    let mut texts = Items::new(alloc);
    for other in names {
        if other != name {
            texts.push(other.copy(alloc)?)?;
        }
    }
    Ok(texts)
}

/// Whether no name stands twice among a few.
fn are_distinct(names: &[Text]) -> bool
    requires { length names.now ≤ 64 }
    ensures { IsTrue result ↔ IsDistinct bytes_eq names.now }
{
    match names {
        [] => true,
        [first, rest @ ..] => match find(rest, first) {
            Some(_) => false,
            None => are_distinct(rest),
        },
    }
}

fn is_word_of(output: bool, word: PortWord) -> bool
    ensures { result ≡ is_kind_of_port output word }
{
    match word {
        PortWord::Reg => output,
        PortWord::Absent => !output,
        PortWord::Wire => false,
    }
}

fn is_one_bit(port: &Aport) -> bool
    ensures { result ≡ is_bit_port port.now }
{
    !port.signed && port.range.is_none() && is_word_of(port.output, port.word)
}

fn are_one_bit(ports: &[Aport]) -> bool
    ensures { result ≡ list_all is_bit_port ports.now }
{
    ports.iter().all(|port| is_one_bit(port))
}

fn push_texts(alloc: Global, texts: &mut Items<Text>, more: &[Text]) -> Result<(), NoMemory>
    ensures { OnOk result (texts.new ≡ texts.old ++ more.now) }
{
    for text in more {
        texts.push(text.copy(alloc)?)?;
    }
    Ok(())
}

/// Whether no name stands twice in both lists together, where these are short.
fn are_apart(alloc: Global, names: &[Text], more: &[Text]) -> Result<bool, NoMemory>
    ensures { IfOk result (λ yes. IsTrue yes ↔ (length names.now ≤ 32) × (length more.now ≤ 32) × IsDistinct bytes_eq (names.now ++ more.now)) }
{
    if names.len() > 32 {
        return Ok(false);
    }
    if more.len() > 32 {
        return Ok(false);
    }
    let mut all = Items::new(alloc);
    push_texts(alloc, &mut all, names)?;
    push_texts(alloc, &mut all, more)?;
    Ok(are_distinct(all.as_slice()))
}

/// The signals of ports and items, where their names are distinct and the clock is an input.
fn collect(
    alloc: Global,
    ports: &[Aport],
    items: &[Item],
    clock: &Text,
) -> Result<Option<Signals>, NoMemory>
    ensures { IfOk result (λ o. MatchOption o
        ((registers inputs : List (List ℕ)) → HasSignals ports.now items.now clock.now registers inputs → free_bits registers inputs ≤ 16 → ⊥)
        (λ s. HasSignals ports.now items.now clock.now s.registers s.inputs)) }
{
    let mut registers = names_of_ports(alloc, ports, true)?;
    push_items(alloc, &mut registers, items)?;
    let all = names_of_ports(alloc, ports, false)?;
    let Some(_) = find(all.as_slice(), clock) else {
        return Ok(None);
    };
    if !are_apart(alloc, registers.as_slice(), all.as_slice())? {
        return Ok(None);
    }
    let inputs = without(alloc, all.as_slice(), clock)?;
    Ok(Some(Signals { registers, inputs }))
}

/// The formulas of the observers.
fn observe(
    alloc: Global,
    signals: &Signals,
    trees: &ObserverTrees,
) -> Result<Option<Watched>, NoMemory>
    ensures { IfOk result (λ o. MatchOption o (AreObservers signals.now.registers signals.now.inputs trees.now → ⊥)
        (IsWatched signals.now.registers signals.now.inputs trees.now)) }
{
    let Some(retire) = formula_of(alloc, signals, &trees.retire)? else {
        return Ok(None);
    };
    let Some(contract) = formulas_of(alloc, signals, trees.contract.as_slice())? else {
        return Ok(None);
    };
    let Some(attacker) = formulas_of(alloc, signals, trees.attacker.as_slice())? else {
        return Ok(None);
    };
    let Some(equal) = registers_of(alloc, signals, trees.equal.as_slice())? else {
        return Ok(None);
    };
    Ok(Some(Watched {
        retire,
        contract,
        attacker,
        equal,
    }))
}

/// Whether there are at most 16 free bits.
fn are_few(registers: usize, inputs: usize) -> bool
    ensures { IsTrue result ↔ 2 * registers + 2 * inputs + 1 ≤ 16 }
{
    registers <= 8 && inputs <= 8 && 2 * registers + 2 * inputs + 1 <= 16
}

/// The problem, where the items and the observers are of this form and there are at most 16 free bits.
fn build(
    alloc: Global,
    signals: &Signals,
    clock: &Text,
    items: &[Item],
    trees: &ObserverTrees,
) -> Result<Option<Problem>, NoMemory>
    ensures { IfOk result (λ o. IsDistinct bytes_eq (signals.now.registers ++ signals.now.inputs) → MatchOption o
        (IsBitForm clock.now signals.now.registers signals.now.inputs items.now trees.now → ⊥)
        (IsBuilt clock.now signals.now.registers signals.now.inputs items.now trees.now)) }
{
    let registers = signals.registers.len();
    let inputs = signals.inputs.len();
    if !are_few(registers, inputs) {
        return Ok(None);
    }
    let Some(progress) = items_next(alloc, signals, clock, items)? else {
        return Ok(None);
    };
    if progress.next.len() != registers {
        return Ok(None);
    }
    let Some(watched) = observe(alloc, signals, trees)? else {
        return Ok(None);
    };
    let Watched {
        retire,
        contract,
        attacker,
        equal,
    } = watched;
    Ok(Some(Problem {
        registers,
        inputs,
        next: progress.next,
        retire,
        contract,
        attacker,
        equal,
    }))
}

fn with_ports(
    alloc: Global,
    design: &Module,
    ports: &[Aport],
    clock: &Text,
    trees: &ObserverTrees,
) -> Result<Option<Prepared>, NoMemory>
    ensures { IfOk result (λ o. (top : List ℕ) → design.now.name.name ≡ top → design.now.params ≡ [] → design.now.ports ≡ Ports.Declared ports.now →
        MatchOption o (IsFirstForm design.now top clock.now trees.now → ⊥)
        (λ p. IsPrepared design.now top clock.now trees.now p.signals.registers p.problem)) }
{
    if !are_one_bit(ports) {
        return Ok(None);
    }
    let Some(signals) = collect(alloc, ports, design.items.as_slice(), clock)? else {
        return Ok(None);
    };
    let Some(problem) = build(alloc, &signals, clock, design.items.as_slice(), trees)? else {
        return Ok(None);
    };
    Ok(Some(Prepared { problem, signals }))
}

/// What is decided of a module with its observers, where both are of this form.
pub(crate) fn prepare(
    alloc: Global,
    design: &Module,
    top: &Text,
    clock: &Text,
    trees: &ObserverTrees,
) -> Result<Option<Prepared>, NoMemory>
    ensures { IfOk result (λ o. MatchOption o (IsFirstForm design.now top.now clock.now trees.now → ⊥)
        (λ p. IsPrepared design.now top.now clock.now trees.now p.signals.registers p.problem)) }
{
    if design.name.name != *top || !design.params.is_empty() {
        return Ok(None);
    }
    match &design.ports {
        Ports::Declared(ports) => with_ports(alloc, design, ports.as_slice(), clock, trees),
        _ => Ok(None),
    }
}
