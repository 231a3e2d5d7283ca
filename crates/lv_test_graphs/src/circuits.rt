//! Circuits against the operators, by unit steps from the bits of the inputs.
use crate::graphs::{encoded, inputs, with_nodes};
use lv_bits::{OPS, Op, Word, binary, unary};
use lv_clauses::ClauseSet;
use lv_netlist::Node;
use std::alloc::Global;
use std::test::Fail;

fn value(op: Op, signed: bool, a: Word, b: Word) -> Result<Word, Fail> {
    if op.is_unary() {
        return Ok(unary(op, a));
    }
    if !op.is_apart() && a.width() != b.width() {
        return Err(Fail::from("other widths"));
    }
    Ok(binary(op, a, b, signed))
}

/// What is known of the variables: 0, 1, or 2 where nothing is.
#[derive(Drop)]
struct Known {
    values: Vec<u8>,
}

impl Known {
    fn get(&self, var: u64, neg: bool) -> u8 {
        match self.values.get(var as usize) {
            Some(0) => u8::from(neg),
            Some(1) => u8::from(!neg),
            _ => 2,
        }
    }

    fn set(&mut self, var: u64, value: u8) {
        if let Some(slot) = self.values.get_mut(var as usize) {
            *slot = value;
        }
    }
}

#[derive(Clone, Copy, PartialEq, Eq)]
enum Step {
    Nothing,
    Unit(u64, bool),
    Falsified,
}

fn step_of(set: &ClauseSet, known: &Known, id: u64) -> Step {
    if id == 0 || id > set.len() {
        return Step::Nothing;
    }
    let mut free = Step::Falsified;
    for lit in set.clause(id).lits() {
        match known.get(lit.var(), lit.neg()) {
            0 => {}
            1 => return Step::Nothing,
            _ if free == Step::Falsified => free = Step::Unit(lit.var(), lit.neg()),
            _ => return Step::Nothing,
        }
    }
    free
}

/// One pass of unit steps: whether a clause is falsified.
fn is_falsified(set: &ClauseSet, known: &mut Known) -> bool {
    for k in 0..set.len() {
        match step_of(set, known, k + 1) {
            Step::Nothing => {}
            Step::Falsified => return true,
            Step::Unit(var, neg) => known.set(var, u8::from(!neg)),
        }
    }
    false
}

/// Whether unit steps from the bits of the inputs end with a value for each variable, or else with a falsified clause.
fn is_met(alloc: Global, set: &ClauseSet, inputs: &[Word]) -> Result<bool, Fail> {
    let mut values = Vec::new(alloc);
    values.push(2u8)?;
    for word in inputs {
        let mut rest = word.value();
        for _ in 0..word.width() {
            values.push(if rest % 2 == 1 { 1 } else { 0 })?;
            rest /= 2;
        }
    }
    for _ in values.len() as u64..set.vars().saturating_add(1) {
        values.push(2)?;
    }
    let mut known = Known { values };
    if is_falsified(set, &mut known) {
        return Ok(false);
    }
    for var in 0..set.vars() {
        if known.get(var.saturating_add(1), false) == 2 {
            return Err(Fail::from("undecided"));
        }
    }
    Ok(true)
}

fn word(width: u32, value: u128) -> Word {
    match width {
        1 => Word::new(1, value % 2),
        2 => Word::new(2, value % 4),
        _ => Word::new(128, value),
    }
}

/// An operator, whether its operands are signed, and their widths.
#[derive(Clone, Copy)]
struct Case {
    op: Op,
    signed: bool,
    left: u32,
    right: u32,
}

/// The clauses of `c == a op b`: unit steps from a, b and c meet them at the operator's value. Elsewhere they falsify
/// one, as is tried where `other` says so.
fn row(alloc: Global, case: Case, operands: &[u128], other: bool) -> Result<(), Fail> {
    let Case {
        op,
        signed,
        left,
        right,
    } = case;
    let third = value(op, signed, word(left, 0), word(right, 0))?.width();
    let node = if op.is_unary() {
        Node::Un(op, 0)
    } else {
        Node::Bin(op, 0, 1, signed)
    };
    let graph = inputs(alloc, &[left, right, third])?;
    let graph = with_nodes(graph, &[node, Node::Bin(Op::Eq, 3, 2, false)])?;
    let encoded = encoded(alloc, &graph)?;
    for x in operands {
        for y in operands {
            let a = word(left, *x);
            let b = word(right, *y);
            let c = value(op, signed, a, b)?;
            if !is_met(alloc, encoded.set(), &[a, b, c])? {
                return Err(Fail::from("not the value"));
            }
            if other && is_met(alloc, encoded.set(), &[a, b, unary(Op::Not, c)])? {
                return Err(Fail::from("another value"));
            }
        }
    }
    Ok(())
}

const WIDE: [u128; 4] = [0, 1, 1 << 127, u128::MAX];

/// All operators but products, signed and unsigned, at widths of one and two bits and of 128.
#[test]
fn operators_by_unit_steps(rt: HostRuntime) -> Result<(), Fail> {
    let alloc = rt.alloc();
    for op in &OPS {
        for signed in [false, true] {
            let op = op.op;
            for left in [1, 2, 128] {
                let case = Case {
                    op,
                    signed,
                    left,
                    right: left,
                };
                if left != 128 {
                    row(alloc, case, &[0, 1, 2, 3], true)?;
                } else if op != Op::Mul {
                    row(alloc, case, &WIDE, false)?;
                }
            }
        }
    }
    Ok(())
}

/// Products at 128 bits.
#[test]
fn products_of_128_bits(rt: HostRuntime) -> Result<(), Fail> {
    let case = Case {
        op: Op::Mul,
        signed: false,
        left: 128,
        right: 128,
    };
    row(rt.alloc(), case, &WIDE, false)
}

/// Shifts and logical operators with operands of two widths.
#[test]
fn operands_of_two_widths(rt: HostRuntime) -> Result<(), Fail> {
    let alloc = rt.alloc();
    for op in [Op::Shl, Op::Shr, Op::Sar, Op::LogAnd, Op::LogOr] {
        for (left, right) in [(1, 2), (2, 1), (2, 128), (128, 2), (128, 1)] {
            for signed in [false, true] {
                let case = Case {
                    op,
                    signed,
                    left,
                    right,
                };
                row(alloc, case, &[0, 1, 2, 3, 1 << 127, u128::MAX], false)?;
            }
        }
    }
    Ok(())
}

#[test]
fn an_equal_node_adds_no_gate(rt: HostRuntime) -> Result<(), Fail> {
    let alloc = rt.alloc();
    let sum = Node::Bin(Op::Add, 0, 1, false);
    let once = with_nodes(inputs(alloc, &[8, 8])?, &[sum, Node::Un(Op::RedOr, 2)])?;
    let twice = with_nodes(inputs(alloc, &[8, 8])?, &[sum, sum, Node::Un(Op::RedOr, 3)])?;
    assert_eq!(rt;
        encoded(alloc, &once)?.gates(),
        encoded(alloc, &twice)?.gates()
    );
    Ok(())
}
