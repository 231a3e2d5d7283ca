use crate::sets::{add_numbers, set_of};
use lv_bits::NoMemory;
use lv_clauses::{ClauseSet, Derivation};
use lv_solver::{Answer, solve};
use std::alloc::Global;
use std::test::Fail;

#[derive(Clone, Copy, Debug, PartialEq, Eq)]
enum Kind {
    Model,
    Refuted,
    Budget,
}

/// The literals of the first line, or so many where there is none.
fn width(log: &Derivation, none: usize) -> usize {
    if log.len() == 0 {
        return none;
    }
    log.line(0).clause().lits().len()
}

/// The kind of an answer, its lines, and the literals of the first line, or the values that are true.
fn answer(alloc: Global, set: &ClauseSet, budget: u64) -> Result<(Kind, u64, usize), NoMemory> {
    match solve(alloc, set, budget)? {
        Answer::Model(found) => Ok((
            Kind::Model,
            0,
            found.values().iter().filter(|value| **value).count(),
        )),
        Answer::Refuted(log) => Ok((Kind::Refuted, log.len(), width(&log, 9))),
        Answer::Budget(log) => Ok((Kind::Budget, log.len(), width(&log, 0))),
    }
}

/// The answer on the clauses of DIMACS.
fn answer_on(
    alloc: Global,
    vars: u64,
    dimacs: &[i64],
    budget: u64,
) -> Result<(Kind, u64, usize), NoMemory> {
    let set = set_of(alloc, vars, dimacs)?;
    answer(alloc, &set, budget)
}

#[test]
fn answers_small_sets(rt: HostRuntime) -> Result<(), Fail> {
    let alloc = rt.alloc();
    let one: &[i64] = &[1, 0, -1, 0];
    let four: &[i64] = &[1, 2, 0, 1, -2, 0, -1, 2, 0, -1, -2, 0];
    let chain: &[i64] = &[-3, 4, 0, -2, 3, 0, -1, 2, 0, 1, 0];
    let falls: &[i64] = &[1, 0, -1, 2, 0, -2, 3, 0, -3, 4, 0, -4, 0];
    let cases: [(u64, &[i64], u64, Kind, u64, usize); 13] = [
        (1, one, 1, Kind::Refuted, 1, 0),
        (1, one, 0, Kind::Budget, 0, 0),
        (2, four, 0, Kind::Budget, 0, 0),
        (2, four, 1, Kind::Budget, 1, 1),
        (2, four, 2, Kind::Refuted, 2, 1),
        (2, four, 18, Kind::Refuted, 2, 1),
        (0, &[], 0, Kind::Model, 0, 0),
        (0, &[0], 0, Kind::Budget, 0, 0),
        (0, &[0], 1, Kind::Refuted, 1, 0),
        (3, &[1, -1, 0, 1, 0, 3, 0, -2, -3, 0], 0, Kind::Model, 0, 2),
        (4, chain, 0, Kind::Model, 0, 4),
        (4, falls, 1, Kind::Refuted, 1, 0),
        (2, &[1, 2, 0, -1, 2, 0, 1, -2, 0], 9, Kind::Model, 0, 2),
    ];
    for (k, (vars, dimacs, budget, kind, lines, count)) in cases.iter().enumerate() {
        let Ok(got) = answer_on(alloc, *vars, dimacs, *budget) else {
            return Err(Fail::from("no memory"));
        };
        assert!(rt; got == (*kind, *lines, *count), "case {k}: {got:?}");
    }
    Ok(())
}

/// The number of the variable of this kind at this bit, where each kind has so many bits.
fn var(bits: i64, kind: i64, bit: i64) -> i64 {
    kind.wrapping_mul(bits).wrapping_add(bit).wrapping_add(1)
}

/// An even number of these is true.
fn even(alloc: Global, set: &mut ClauseSet, vars: &[i64]) -> Result<(), NoMemory> {
    for signs in 0..16u32 {
        if signs.count_ones() % 2 == 1 && signs >> vars.len().min(31) == 0 {
            let mut clause: Vec<i64> = Vec::new(alloc);
            for (k, v) in vars.iter().enumerate() {
                clause.reserve(1)?;
                clause.push_reserved(if signs >> k.min(31) & 1 == 1 {
                    v.wrapping_neg()
                } else {
                    *v
                });
            }
            add_numbers(alloc, set, &clause)?;
        }
    }
    Ok(())
}

/// The first is the majority of the others, of which the last is 0 where it is constant.
fn majority(
    alloc: Global,
    set: &mut ClauseSet,
    out: i64,
    x: i64,
    y: i64,
    z: i64,
) -> Result<(), NoMemory> {
    add_numbers(alloc, set, &[x.wrapping_neg(), y.wrapping_neg(), out])?;
    if z == 0 {
        add_numbers(alloc, set, &[x, out.wrapping_neg()])?;
        return add_numbers(alloc, set, &[y, out.wrapping_neg()]);
    }
    add_numbers(alloc, set, &[x, y, out.wrapping_neg()])?;
    for w in [x, y] {
        add_numbers(alloc, set, &[w.wrapping_neg(), z.wrapping_neg(), out])?;
        add_numbers(alloc, set, &[w, z, out.wrapping_neg()])?;
    }
    Ok(())
}

/// One bit of `a - b` and of `(a - b) + b`, and whether it isn't that of a.
fn add_bit(alloc: Global, set: &mut ClauseSet, bits: i64, k: i64) -> Result<(), NoMemory> {
    let a = var(bits, 0, k);
    let b = var(bits, 1, k);
    let minus = var(bits, 2, k);
    let borrow = if k == 0 { 0 } else { var(bits, 3, k) };
    let sum = var(bits, 4, k);
    let carry = if k == 0 { 0 } else { var(bits, 5, k) };
    if k == 0 {
        even(alloc, set, &[minus, a, b])?;
        even(alloc, set, &[sum, minus, b])?;
    } else {
        even(alloc, set, &[minus, a, b, borrow])?;
        even(alloc, set, &[sum, minus, b, carry])?;
    }
    let next = k.wrapping_add(1);
    if next < bits {
        majority(alloc, set, var(bits, 3, next), a.wrapping_neg(), b, borrow)?;
        majority(alloc, set, var(bits, 5, next), minus, b, carry)?;
    }
    even(alloc, set, &[var(bits, 6, k), sum, a])
}

/// The clauses of `((a - b) + b) != a`.
fn unequal(alloc: Global, bits: u16) -> Result<ClauseSet, NoMemory> {
    let n = i64::from(bits);
    let mut set = ClauseSet::new(alloc, u64::from(bits) * 7);
    let mut any: Vec<i64> = Vec::new(alloc);
    for k in 0..bits {
        add_bit(alloc, &mut set, n, i64::from(k))?;
        any.reserve(1)?;
        any.push_reserved(var(n, 6, i64::from(k)));
    }
    add_numbers(alloc, &mut set, &any)?;
    Ok(set)
}

#[test]
fn refutes_a_sum_within_its_budget(rt: HostRuntime) -> Result<(), Fail> {
    let alloc = rt.alloc();
    for (bits, most) in [(2u16, 40u64), (4, 400), (8, 4000), (16, 200_000)] {
        let Ok(set) = unequal(alloc, bits) else {
            return Err(Fail::from("no memory"));
        };
        let Ok((kind, lines, _)) = answer(alloc, &set, most) else {
            return Err(Fail::from("no memory"));
        };
        println!(rt; "{bits} bits: {lines} lines")?;
        assert!(rt;
            kind == Kind::Refuted,
            "{bits} bits: {kind:?}, {lines} lines"
        );
    }
    Ok(())
}

#[test]
fn leaves_out_what_follows(rt: HostRuntime) -> Result<(), Fail> {
    // From -1 follows 2, and with -7 then 5, 4 and -4: -5, 1 and -2 can't all be false, and -2 follows from 1 by the first clause.
    let dimacs: &[i64] = &[
        1, 2, 0, 1, 5, 7, 0, -5, -2, 4, 0, -5, 1, -4, 0, 3, 6, 0, 3, -6, 0, -3, 6, 0, -3, -6, 0,
    ];
    let Ok((kind, _, width)) = answer_on(rt.alloc(), 7, dimacs, 9) else {
        return Err(Fail::from("no memory"));
    };
    assert!(rt;
        (kind, width) == (Kind::Refuted, 2),
        "{kind:?}, {width} literals"
    );
    Ok(())
}
