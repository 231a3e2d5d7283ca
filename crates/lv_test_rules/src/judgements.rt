ghost use Rattle.std.specs.Prelude.{◌≡◌, None, IfOk};
ghost use Rattle.lv_flat.specs.Cells.{AreDistinct, all_cells};
ghost use Rattle.lv_flat.specs.Signals.{declared_all};

use crate::schedules::{BLOCK, Bits, CLOCKED, CONTINUOUS, extent, spans};
use lv_bits::Text;
use lv_extents::{Aim, Extent, Step, Way};
use lv_flat::{Signal, Sort};
use lv_legal::{Refused, Rule, check_rules};
use sqlite_items::Items;
use std::alloc::Global;
use std::test::Fail;

fn signal(alloc: Global, name: &[u8], sort: Sort) -> Result<Signal, Fail>
    ensures array { IfOk result (λ r. r.array ≡ None) }
    ensures sort { IfOk result (λ r. r.sort ≡ sort) }
{
    let path = Text::new(alloc, name)?;
    Ok(Signal {
        path,
        width: 8,
        left: 7,
        right: 0,
        ranged: true,
        signed: false,
        array: None,
        sort,
    })
}

/// A signal `a` of this sort and a clock `k`.
fn names(alloc: Global, sort: Sort) -> Result<Vec<Signal>, Fail>
    ensures { IfOk result (λ r. AreDistinct (all_cells (declared_all r.items))) }
{
    let mut list = Vec::new(alloc);
    let net = signal(alloc, b"a", sort)?;
    let clock = signal(alloc, b"k", Sort::Clock)?;
    list.push(net)?;
    list.push(clock)?;
    Ok(list)
}

/// What is driven and read by the parts, and the answer as a word.
type Row = (
    &'static [(Way, &'static [Bits], &'static [Bits])],
    &'static str,
);

const OTHER: Way = Way::Edge(Sort::Net, 0);

const ROWS: [Row; 8] = [
    (&[], "order"),
    (&[(CONTINUOUS, &[(0, None, 1)], &[])], "order"),
    (&[(BLOCK, &[(0, None, 1)], &[])], "kind"),
    (&[(CLOCKED, &[(0, None, 1)], &[])], "kind"),
    (&[(OTHER, &[], &[])], "clock"),
    (
        &[
            (CONTINUOUS, &[(0, None, 3)], &[]),
            (CONTINUOUS, &[(0, None, 2)], &[]),
        ],
        "two",
    ),
    (
        &[(CONTINUOUS, &[(0, None, 1)], &[(0, None, 2)])],
        "undriven",
    ),
    (&[(CONTINUOUS, &[(0, None, 1)], &[(0, None, 1)])], "cycle"),
];

fn word(rule: Rule) -> &'static str {
    match rule {
        Rule::NotConstant => "constant",
        Rule::WrongKind => "kind",
        Rule::ClockUse => "clock",
        Rule::Blocking => "blocking",
        Rule::Nonblocking => "nonblocking",
        Rule::TwoDrivers => "two",
        Rule::Undriven => "undriven",
        Rule::Latch => "latch",
        Rule::ReadFirst => "first",
    }
}

#[test]
fn judgements(rt: HostRuntime) -> Result<(), Fail> {
    let alloc = rt.alloc();
    let clock = Text::new(alloc, b"k")?;
    for (parts, answer) in ROWS {
        let signals = names(alloc, Sort::Net)?;
        let mut extents = Vec::new(alloc);
        for part in parts {
            extents.push(extent(alloc, part.0, part.1, part.2)?)?;
        }
        let told = told(check_rules(alloc, signals.as_slice(), extents.as_slice(), &clock)?);
        if told.0 != answer {
            return Err(Fail::from("another answer"));
        }
    }
    Ok(())
}

/// A part that drives the first bit of `a`: how, whether its target is written for sure, whether a step of it writes at once or after
/// the block, whether some path leaves the bit, and whether some path reads it first.
type Part = (Way, bool, Option<bool>, bool, bool);

/// The sort of `a`, the part, whether another part reads the bit, and the answer with its place.
type Flaw = (Sort, Part, bool, (&'static str, u64));

const FLAWS: [Flaw; 11] = [
    // an index that isn't constant in a continuous target
    (
        Sort::Net,
        (CONTINUOUS, false, None, false, false),
        false,
        ("constant", 7),
    ),
    (
        Sort::Net,
        (CONTINUOUS, true, None, false, false),
        false,
        ("order", 0),
    ),
    // `=` in a clocked block: of a variable that is used elsewhere, and of one of its own
    (
        Sort::Variable,
        (CLOCKED, true, Some(true), false, false),
        true,
        ("blocking", 9),
    ),
    (
        Sort::Variable,
        (CLOCKED, true, Some(true), false, false),
        false,
        ("order", 0),
    ),
    (
        Sort::Variable,
        (CLOCKED, true, Some(false), false, false),
        true,
        ("order", 0),
    ),
    // `<=` in a combinational block
    (
        Sort::Variable,
        (BLOCK, true, Some(false), false, false),
        false,
        ("nonblocking", 9),
    ),
    (
        Sort::Variable,
        (BLOCK, true, Some(true), false, false),
        true,
        ("order", 0),
    ),
    // a bit that some path leaves, or reads first
    (
        Sort::Variable,
        (BLOCK, true, Some(true), true, false),
        false,
        ("latch", 7),
    ),
    (
        Sort::Variable,
        (BLOCK, true, Some(true), false, true),
        false,
        ("first", 7),
    ),
    (
        Sort::Variable,
        (CLOCKED, true, Some(false), true, true),
        false,
        ("order", 0),
    ),
    // a target that is no variable
    (
        Sort::Net,
        (BLOCK, true, Some(true), true, true),
        false,
        ("kind", 7),
    ),
];

fn aims(alloc: Global, sort: Sort, sure: bool) -> Result<Items<Aim>, Fail> {
    let bits = spans(alloc, &[(0, None, 1)])?;
    let mut list = Items::new(alloc);
    list.push(Aim {
        sort,
        bits,
        sure,
        place: 7,
    })?;
    Ok(list)
}

fn steps(alloc: Global, sort: Sort, part: Part) -> Result<Items<Step>, Fail> {
    let mut list = Items::new(alloc);
    if let Some(at_once) = part.2 {
        let aims = aims(alloc, sort, part.1)?;
        list.push(Step {
            reads: Items::new(alloc),
            aims,
            at_once,
            place: 9,
        })?;
    }
    Ok(list)
}

fn flawed(alloc: Global, sort: Sort, part: Part) -> Result<Extent, Fail> {
    let path = Text::new(alloc, &[])?;
    let drives = spans(alloc, &[(0, None, 1)])?;
    let steps = steps(alloc, sort, part)?;
    let aims = if part.2.is_none() {
        aims(alloc, sort, part.1)?
    } else {
        Items::new(alloc)
    };
    Ok(Extent {
        way: part.0,
        path,
        place: 7,
        clocks: Items::new(alloc),
        drives,
        reads: Items::new(alloc),
        aims,
        steps,
        latch: part.3,
        exposed: part.4,
        twice: false,
    })
}

fn told(answer: Result<Vec<u64>, Refused>) -> (&'static str, u64) {
    match answer {
        Ok(_) => ("order", 0),
        Err(Refused::Broken(rule, _, place)) => (word(rule), place),
        Err(Refused::Cycle(_)) => ("cycle", 0),
    }
}

#[test]
fn flaws(rt: HostRuntime) -> Result<(), Fail> {
    let alloc = rt.alloc();
    let clock = Text::new(alloc, b"k")?;
    for (sort, part, is_read, answer) in FLAWS {
        let signals = names(alloc, sort)?;
        let mut extents = Vec::new(alloc);
        extents.push(flawed(alloc, sort, part)?)?;
        if is_read {
            extents.push(extent(alloc, CONTINUOUS, &[], &[(0, None, 1)])?)?;
        }
        let told = told(check_rules(alloc, signals.as_slice(), extents.as_slice(), &clock)?);
        if told != answer {
            return Err(Fail::from("another answer"));
        }
    }
    Ok(())
}
