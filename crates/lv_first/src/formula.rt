//! Formulas over numbered one-bit variables, simplified as they are built.

ghost use Rattle.std.specs.Prelude.{◌≡◌, ◌+◌, ◌<◌, ◌^◌, IfOk, false};
ghost use Rattle.lv_first.specs.Formulas.{constant, negated, both, either, differ, alike, implied, truth, fixing, in_copy, variable, at_zero};

use lv_bits::NoMemory;
use sqlite_items::Boxed;
use std::alloc::Global;

/// A formula over variables by number.
#[derive(Drop)]
pub(crate) enum Formula {
    Constant(bool),
    Variable(usize),
    Not(Boxed<Formula>),
    And(Boxed<Formula>, Boxed<Formula>),
    Or(Boxed<Formula>, Boxed<Formula>),
    Xor(Boxed<Formula>, Boxed<Formula>),
}

/// The negation of `a`.
#[tactic(auto, using(crate::proofs::Truths::truths))]
pub(crate) fn negation(alloc: Global, a: Formula) -> Result<Formula, NoMemory>
    ensures { IfOk result (λ f. truth f ≡ negated (truth a)) }
{
    match a {
        Formula::Constant(value) => Ok(Formula::Constant(!value)),
        a => {
            let a = Boxed::new(alloc, a)?;
            Ok(Formula::Not(a))
        }
    }
}

/// Both `a` and `b`.
#[tactic(auto, using(crate::proofs::Truths::truths))]
pub(crate) fn conjunction(alloc: Global, a: Formula, b: Formula) -> Result<Formula, NoMemory>
    ensures { IfOk result (λ f. truth f ≡ both (truth a) (truth b)) }
{
    match a {
        Formula::Constant(true) => Ok(b),
        Formula::Constant(false) => Ok(Formula::Constant(false)),
        a => with_and(alloc, a, b),
    }
}

#[tactic(auto, using(crate::proofs::Truths::truths))]
fn with_and(alloc: Global, a: Formula, b: Formula) -> Result<Formula, NoMemory>
    ensures { IfOk result (λ f. truth f ≡ both (truth a) (truth b)) }
{
    match b {
        Formula::Constant(true) => Ok(a),
        Formula::Constant(false) => Ok(Formula::Constant(false)),
        b => {
            let a = Boxed::new(alloc, a)?;
            let b = Boxed::new(alloc, b)?;
            Ok(Formula::And(a, b))
        }
    }
}

/// `a` or `b`.
#[tactic(auto, using(crate::proofs::Truths::truths))]
pub(crate) fn disjunction(alloc: Global, a: Formula, b: Formula) -> Result<Formula, NoMemory>
    ensures { IfOk result (λ f. truth f ≡ either (truth a) (truth b)) }
{
    match a {
        Formula::Constant(true) => Ok(Formula::Constant(true)),
        Formula::Constant(false) => Ok(b),
        a => with_or(alloc, a, b),
    }
}

#[tactic(auto, using(crate::proofs::Truths::truths))]
fn with_or(alloc: Global, a: Formula, b: Formula) -> Result<Formula, NoMemory>
    ensures { IfOk result (λ f. truth f ≡ either (truth a) (truth b)) }
{
    match b {
        Formula::Constant(true) => Ok(Formula::Constant(true)),
        Formula::Constant(false) => Ok(a),
        b => {
            let a = Boxed::new(alloc, a)?;
            let b = Boxed::new(alloc, b)?;
            Ok(Formula::Or(a, b))
        }
    }
}

/// One of `a` and `b`, and not both.
#[tactic(auto, using(crate::proofs::Truths::truths))]
pub(crate) fn difference(alloc: Global, a: Formula, b: Formula) -> Result<Formula, NoMemory>
    ensures { IfOk result (λ f. truth f ≡ differ (truth a) (truth b)) }
{
    match a {
        Formula::Constant(true) => negation(alloc, b),
        Formula::Constant(false) => Ok(b),
        a => with_xor(alloc, a, b),
    }
}

#[tactic(auto, using(crate::proofs::Truths::truths))]
fn with_xor(alloc: Global, a: Formula, b: Formula) -> Result<Formula, NoMemory>
    ensures { IfOk result (λ f. truth f ≡ differ (truth a) (truth b)) }
{
    match b {
        Formula::Constant(true) => negation(alloc, a),
        Formula::Constant(false) => Ok(a),
        b => {
            let a = Boxed::new(alloc, a)?;
            let b = Boxed::new(alloc, b)?;
            Ok(Formula::Xor(a, b))
        }
    }
}

/// Whether `a` and `b` have one value.
#[tactic(auto, using(crate::proofs::Truths::truths))]
pub(crate) fn equality(alloc: Global, a: Formula, b: Formula) -> Result<Formula, NoMemory>
    ensures { IfOk result (λ f. truth f ≡ alike (truth a) (truth b)) }
{
    let differ = difference(alloc, a, b)?;
    let f = negation(alloc, differ)?;
    Ok(f)
}

/// `b` wherever `a`.
#[tactic(auto, using(crate::proofs::Truths::truths))]
pub(crate) fn implication(alloc: Global, a: Formula, b: Formula) -> Result<Formula, NoMemory>
    ensures { IfOk result (λ f. truth f ≡ implied (truth a) (truth b)) }
{
    let not_a = negation(alloc, a)?;
    let f = disjunction(alloc, not_a, b)?;
    Ok(f)
}

/// A variable, or its value where it is the one that is fixed.
#[tactic(auto, using(crate::proofs::Truths::truths))]
fn fixed_variable(other: usize, number: usize, value: bool) -> Formula
    ensures { truth result ≡ fixing number value (variable other) }
{
    if other == number {
        Formula::Constant(value)
    } else {
        Formula::Variable(other)
    }
}

/// The formula with one variable fixed.
#[tactic(auto, using(crate::proofs::Truths::truths))]
pub(crate) fn fixed(
    alloc: Global,
    formula: &Formula,
    number: usize,
    value: bool,
) -> Result<Formula, NoMemory>
    ensures { IfOk result (λ f. truth f ≡ fixing number value (truth formula.now)) }
{
    match formula {
        Formula::Constant(bit) => Ok(Formula::Constant(*bit)),
        Formula::Variable(other) => Ok(fixed_variable(*other, number, value)),
        Formula::Not(a) => {
            let a = fixed(alloc, a.get(), number, value)?;
            let f = negation(alloc, a)?;
            Ok(f)
        }
        Formula::And(a, b) => {
            let a = fixed(alloc, a.get(), number, value)?;
            let b = fixed(alloc, b.get(), number, value)?;
            let f = conjunction(alloc, a, b)?;
            Ok(f)
        }
        Formula::Or(a, b) => {
            let a = fixed(alloc, a.get(), number, value)?;
            let b = fixed(alloc, b.get(), number, value)?;
            let f = disjunction(alloc, a, b)?;
            Ok(f)
        }
        Formula::Xor(a, b) => {
            let a = fixed(alloc, a.get(), number, value)?;
            let b = fixed(alloc, b.get(), number, value)?;
            let f = difference(alloc, a, b)?;
            Ok(f)
        }
    }
}

/// A variable of one copy: registers lie `by` higher, inputs are shared.
#[tactic(auto, using(crate::proofs::Truths::truths))]
fn copied_variable(number: usize, registers: usize, inputs: usize, by: usize) -> Formula
    requires { registers + inputs + by < 2 ^ 32 }
    ensures { truth result ≡ in_copy registers inputs by (variable number) }
{
    if number < registers {
        Formula::Variable(number + by)
    } else if number < registers + inputs {
        Formula::Variable(number)
    } else {
        Formula::Constant(false)
    }
}

/// The formula of one copy of a design with so many registers and inputs.
#[tactic(auto, using(crate::proofs::Truths::truths))]
pub(crate) fn copied(
    alloc: Global,
    formula: &Formula,
    registers: usize,
    inputs: usize,
    by: usize,
) -> Result<Formula, NoMemory>
    requires { registers + inputs + by < 2 ^ 32 }
    ensures { IfOk result (λ f. truth f ≡ in_copy registers inputs by (truth formula.now)) }
{
    match formula {
        Formula::Constant(bit) => Ok(Formula::Constant(*bit)),
        Formula::Variable(number) => Ok(copied_variable(*number, registers, inputs, by)),
        Formula::Not(a) => {
            let a = copied(alloc, a.get(), registers, inputs, by)?;
            let f = negation(alloc, a)?;
            Ok(f)
        }
        Formula::And(a, b) => {
            let a = copied(alloc, a.get(), registers, inputs, by)?;
            let b = copied(alloc, b.get(), registers, inputs, by)?;
            let f = conjunction(alloc, a, b)?;
            Ok(f)
        }
        Formula::Or(a, b) => {
            let a = copied(alloc, a.get(), registers, inputs, by)?;
            let b = copied(alloc, b.get(), registers, inputs, by)?;
            let f = disjunction(alloc, a, b)?;
            Ok(f)
        }
        Formula::Xor(a, b) => {
            let a = copied(alloc, a.get(), registers, inputs, by)?;
            let b = copied(alloc, b.get(), registers, inputs, by)?;
            let f = difference(alloc, a, b)?;
            Ok(f)
        }
    }
}

/// The value where every variable is false.
#[tactic(auto, using(crate::proofs::Zeros::zeros))]
pub(crate) fn value_at_zero(formula: &Formula) -> bool
    ensures { result ≡ at_zero (truth formula.now) }
{
    match formula {
        Formula::Constant(bit) => *bit,
        Formula::Variable(_) => false,
        Formula::Not(a) => !value_at_zero(a.get()),
        Formula::And(a, b) => value_at_zero(a.get()) & value_at_zero(b.get()),
        Formula::Or(a, b) => value_at_zero(a.get()) | value_at_zero(b.get()),
        Formula::Xor(a, b) => value_at_zero(a.get()) != value_at_zero(b.get()),
    }
}
