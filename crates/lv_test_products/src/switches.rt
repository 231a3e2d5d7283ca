ghost use Rattle.lv_switched.specs.Switches.{HasSwitches};

use crate::building::{fits_inputs, word};
use crate::rows::{asked, late, words};
use crate::tasks::goal_of;
use lv_bits::Word;
use lv_product::{Query, Task};
use lv_switched::{SwitchedProduct, switched};
use std::alloc::Global;
use std::test::Fail;

// Whether bit k of the mask is 1.
fn is_on(mask: u64, k: u64) -> bool {
    (mask >> k.min(63)) & 1 == 1
}

// The numbers below `count` whose bit is 1.
fn numbers_of(alloc: Global, count: u64, mask: u64) -> Result<Vec<u64>, Fail> {
    let mut numbers = Vec::new(alloc);
    for k in 0..count {
        if is_on(mask, k) {
            numbers.push(k)?;
        }
    }
    Ok(numbers)
}

// The words of both states and of the truth value, and a switch for each bit.
fn with_switches(
    alloc: Global,
    values: [u128; 5],
    count: u64,
    mask: u64,
) -> Result<Vec<Word>, Fail> {
    let mut words = words(alloc, values)?;
    for k in 0..count {
        let Some(switch) = word(1, u128::from(is_on(mask, k))) else {
            return Err(Fail::from("no such word"));
        };
        words.push(switch)?;
    }
    Ok(words)
}

// How often the goal is 0 and 1, over all settings of the switches, if it is always that of `window` for those that are on.
fn goals(
    alloc: Global,
    task: &Task,
    query: Query,
    values: [u128; 5],
) -> Result<Option<(u64, u64)>, Fail>
    requires { HasSwitches query }
{
    let count = (task.candidates.len() as u64).min(8);
    let product = switched(alloc, task, query)?;
    let mut zeros: u64 = 0;
    let mut ones: u64 = 0;
    for mask in 0..1u64 << count {
        let numbers = numbers_of(alloc, count, mask)?;
        let want = asked(alloc, task, query, numbers.as_slice(), values)?;
        let words = with_switches(alloc, values, count, mask)?;
        let got = goal_of(alloc, product.graph(), product.goal(), words.as_slice())?;
        if got != want {
            return Ok(None);
        }
        if got == 0 {
            zeros = zeros.saturating_add(1);
        } else {
            ones = ones.saturating_add(1);
        }
    }
    Ok(Some((zeros, ones)))
}

/// Base is met where s is on, which differs. Step is met where `aligned` is on and c, which differs, is off: one copy retires before
/// the other, and they show the same.
#[test]
fn switches_choose_candidates(rt: HostRuntime) -> Result<(), Fail> {
    let alloc = rt.alloc();
    let task = late(alloc, 1)?;
    let base = goals(alloc, &task, Query::Base, [0, 0, 1, 0, 1])?;
    assert!(rt; base == Some((4, 4)), "{base:?}");
    let step = goals(alloc, &task, Query::Step, [0, 1, 0, 2, 1])?;
    assert!(rt; step == Some((6, 2)), "{step:?}");
    Ok(())
}

// The words of the pair that these words are, without the switches.
fn parts(
    alloc: Global,
    product: &SwitchedProduct,
    words: &[Word],
) -> Result<(usize, usize, usize, bool), Fail> {
    if !fits_inputs(product.graph(), words) {
        return Err(Fail::from("no such words"));
    }
    let pair = product.pair(alloc, words)?;
    Ok((
        pair.left.len(),
        pair.right.len(),
        pair.inputs.len(),
        pair.aligned,
    ))
}

#[test]
fn a_pair_has_no_switches(rt: HostRuntime) -> Result<(), Fail> {
    let alloc = rt.alloc();
    let task = late(alloc, 1)?;
    let product = switched(alloc, &task, Query::Step)?;
    let words = with_switches(alloc, [1, 2, 0, 3, 1], 3, 0)?;
    assert!(rt; parts(alloc, &product, words.as_slice())? == (2, 2, 3, true));
    Ok(())
}
