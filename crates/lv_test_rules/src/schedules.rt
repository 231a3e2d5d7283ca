use lv_bits::Text;
use lv_extents::{Extent, Way};
use lv_flat::{Signal, Sort};
use lv_schedule::{Plan, schedule};
use lv_spans::Span;
use sqlite_items::Items;
use std::alloc::Global;
use std::test::Fail;

/// A signal, one of its elements or all of it, and a mask.
pub(crate) type Bits = (u64, Option<u64>, u128);

pub(crate) const CONTINUOUS: Way = Way::Continuous;

pub(crate) const BLOCK: Way = Way::Combinational;

pub(crate) const CLOCKED: Way = Way::Edge(Sort::Clock, 0);

pub(crate) fn spans(alloc: Global, bits: &[Bits]) -> Result<Items<Span>, Fail> {
    let mut list = Items::new(alloc);
    for b in bits {
        list.push(Span {
            signal: b.0,
            element: b.1,
            mask: b.2,
        })?;
    }
    Ok(list)
}

pub(crate) fn extent(
    alloc: Global,
    way: Way,
    drives: &[Bits],
    reads: &[Bits],
) -> Result<Extent, Fail> {
    let path = Text::new(alloc, &[])?;
    let drives = spans(alloc, drives)?;
    let reads = spans(alloc, reads)?;
    Ok(Extent {
        way,
        path,
        place: 0,
        clocks: Items::new(alloc),
        drives,
        reads,
        aims: Items::new(alloc),
        steps: Items::new(alloc),
        latch: false,
        exposed: false,
        twice: false,
    })
}

fn signals(alloc: Global, count: usize) -> Result<Vec<Signal>, Fail> {
    let mut list = Vec::new(alloc);
    for _ in 0..count {
        let path = Text::new(alloc, &[])?;
        list.push(Signal {
            path,
            width: 8,
            left: 7,
            right: 0,
            ranged: true,
            signed: false,
            array: None,
            sort: Sort::Net,
        })?;
    }
    Ok(list)
}

/// What is driven and read by each part, whether there is an order, and the parts of it or of the cycle.
type Row = (
    &'static [(Way, &'static [Bits], &'static [Bits])],
    bool,
    &'static [u64],
);

/// Signals 0 to 3; those that are read of no part are as inputs.
const ROWS: [Row; 17] = [
    (&[], true, &[]),
    // two assignments that read each other, and the accepted form
    (
        &[
            (CONTINUOUS, &[(0, None, 1)], &[(1, None, 1)]),
            (CONTINUOUS, &[(1, None, 1)], &[(0, None, 1)]),
        ],
        false,
        &[0, 1],
    ),
    (
        &[
            (CONTINUOUS, &[(0, None, 1)], &[(1, None, 1)]),
            (CONTINUOUS, &[(1, None, 1)], &[(2, None, 1)]),
        ],
        true,
        &[1, 0],
    ),
    // the halves of one vector
    (
        &[
            (CONTINUOUS, &[(0, None, 0xf)], &[(0, None, 0xf0)]),
            (CONTINUOUS, &[(0, None, 0xf0)], &[(0, None, 0xf)]),
        ],
        false,
        &[0, 1],
    ),
    (
        &[
            (CONTINUOUS, &[(0, None, 0xf)], &[(0, None, 0xf0)]),
            (CONTINUOUS, &[(0, None, 0xf0)], &[(1, None, 0xf)]),
        ],
        true,
        &[1, 0],
    ),
    (
        &[
            (CONTINUOUS, &[(1, None, 0xff)], &[(0, None, 0xff)]),
            (CONTINUOUS, &[(0, None, 0xf)], &[(2, None, 0xf)]),
            (CONTINUOUS, &[(0, None, 0xf0)], &[(3, None, 0xf)]),
        ],
        true,
        &[1, 2, 0],
    ),
    // an assignment and a block that read what they drive
    (
        &[(CONTINUOUS, &[(0, None, 1)], &[(0, None, 1)])],
        false,
        &[0],
    ),
    (
        &[(CONTINUOUS, &[(0, None, 2)], &[(0, None, 1)])],
        true,
        &[0],
    ),
    (&[(BLOCK, &[(0, None, 1)], &[(0, None, 1)])], true, &[0]),
    // elements of an array, and all of it by an index that varies
    (
        &[
            (CONTINUOUS, &[(1, None, 1)], &[(0, None, 0xff)]),
            (CONTINUOUS, &[(0, Some(4), 0xff)], &[(2, None, 1)]),
            (CONTINUOUS, &[(0, Some(5), 0xff)], &[(3, None, 1)]),
        ],
        true,
        &[1, 2, 0],
    ),
    (
        &[
            (BLOCK, &[(0, Some(4), 0xff)], &[(0, None, 0xff)]),
            (CONTINUOUS, &[(0, Some(5), 0xff)], &[(3, None, 1)]),
        ],
        true,
        &[1, 0],
    ),
    (
        &[
            (BLOCK, &[(0, Some(4), 0xff)], &[(0, None, 0xff)]),
            (BLOCK, &[(0, Some(5), 0xff)], &[(0, None, 0xff)]),
        ],
        false,
        &[0, 1],
    ),
    (
        &[
            (CONTINUOUS, &[(1, None, 1)], &[(0, Some(4), 0xff)]),
            (CONTINUOUS, &[(0, Some(5), 0xff)], &[(1, None, 1)]),
        ],
        true,
        &[0, 1],
    ),
    (
        &[
            (CONTINUOUS, &[(1, None, 1)], &[(0, Some(4), 0xff)]),
            (BLOCK, &[(0, None, 0xff)], &[(1, None, 1)]),
        ],
        false,
        &[0, 1],
    ),
    // a register between two parts
    (
        &[
            (CLOCKED, &[(0, None, 1)], &[(1, None, 1)]),
            (CONTINUOUS, &[(1, None, 1)], &[(0, None, 1)]),
        ],
        true,
        &[1],
    ),
    // a cycle that the first part isn't of
    (
        &[
            (CONTINUOUS, &[(3, None, 1)], &[(0, None, 1)]),
            (CONTINUOUS, &[(0, None, 1)], &[(2, None, 1)]),
            (CONTINUOUS, &[(1, None, 1)], &[(0, None, 1)]),
            (CONTINUOUS, &[(2, None, 1)], &[(1, None, 1)]),
        ],
        false,
        &[1, 3, 2],
    ),
    (
        &[
            (CONTINUOUS, &[(3, None, 1)], &[(0, None, 1)]),
            (CONTINUOUS, &[(0, None, 1)], &[(2, None, 1)]),
            (CONTINUOUS, &[(1, None, 1)], &[(0, None, 1)]),
            (CONTINUOUS, &[(2, None, 2)], &[(1, None, 1)]),
        ],
        true,
        &[1, 0, 2, 3],
    ),
];

fn answer(alloc: Global, signals: &[Signal], extents: &[Extent]) -> Result<(bool, Vec<u64>), Fail> {
    match schedule(alloc, signals, extents)? {
        Plan::Order(list) => Ok((true, list)),
        Plan::Cycle(list) => Ok((false, list)),
    }
}

/// With a hub for each signal.
#[test]
fn schedules(rt: HostRuntime) -> Result<(), Fail> {
    let alloc = rt.alloc();
    let names = signals(alloc, 4)?;
    for (parts, ordered, list) in ROWS {
        let mut extents = Vec::new(alloc);
        for part in parts {
            extents.push(extent(alloc, part.0, part.1, part.2)?)?;
        }
        let told = answer(alloc, names.as_slice(), extents.as_slice())?;
        if told.0 != ordered || told.1.as_slice() != list {
            return Err(Fail::from("another plan"));
        }
    }
    Ok(())
}

const MANY: u64 = 60_000;

/// Each part reads what the one before drives.
#[test]
fn chain(rt: HostRuntime) -> Result<(), Fail> {
    let alloc = rt.alloc();
    let names = signals(alloc, MANY as usize + 1)?;
    let mut extents = Vec::new(alloc);
    for k in 0..MANY {
        extents.push(extent(
            alloc,
            CONTINUOUS,
            &[(k + 1, None, 0xff)],
            &[(k, None, 0xff)],
        )?)?;
    }
    let told = answer(alloc, names.as_slice(), extents.as_slice())?;
    if !told.0 || told.1.len() != MANY as usize {
        return Err(Fail::from("the chain is not in order"));
    }
    Ok(())
}

/// Half of the parts drive an element of an array each, and half of them read it by an index that varies.
#[test]
fn star(rt: HostRuntime) -> Result<(), Fail> {
    let alloc = rt.alloc();
    let names = signals(alloc, MANY as usize + 1)?;
    let mut extents = Vec::new(alloc);
    for k in 0..MANY / 2 {
        extents.push(extent(
            alloc,
            CONTINUOUS,
            &[(k + 1, None, 0xff)],
            &[(0, None, 0xff)],
        )?)?;
        extents.push(extent(alloc, CONTINUOUS, &[(0, Some(k), 0xff)], &[])?)?;
    }
    let told = answer(alloc, names.as_slice(), extents.as_slice())?;
    if !told.0 || told.1.len() != MANY as usize {
        return Err(Fail::from("the star is not in order"));
    }
    Ok(())
}
