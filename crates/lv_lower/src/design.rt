ghost use Rattle.std.specs.Prelude.{◌≡◌, IfOk};
ghost use Rattle.lv_netlist.specs.Net.{no_nodes};
ghost use Rattle.lv_lower_exprs.specs.Tables.{AreFirsts};
ghost use Rattle.lv_settles.specs.Orders.{IsOrder};
ghost use Rattle.lv_settles.specs.Rules.{AreRight, signals_in};
ghost use Rattle.lv_lower.specs.Slots.{names_of, views_of, flags_of, all_slots};
ghost use Rattle.lv_lower.specs.Lowered.{IsCarried};
ghost use Rattle.lv_lower.specs.Lowering.{IsGraphOf, IsLowering};

use crate::begin::start;
use crate::clocked::clocked_table;
use crate::lowered::Lowered;
use crate::nexts::set_nexts;
use crate::parts::carry;
use crate::slot::{Slot, slots};
use crate::state::{registers, state_bits};
use lv_bits::NoMemory;
use lv_flat::Flat;
use lv_netlist::Builder;
use std::alloc::Global;

/// Why a design has no graph.
#[derive(Clone, Copy, Debug, PartialEq, Eq)]
pub enum LowerError {
    /// The registers have this many bits together, and no more than 65,536 are allowed.
    Limit(u128),
    NoMemory,
}

/// The settled table: the parts without a clock carried out in order on the first one. After `NoMemory` the graph may have more
/// nodes.
fn settled_table(
    alloc: Global,
    b: &mut Builder,
    flat: &Flat,
    slots: &[Slot],
    first: &[u64],
    order: &[u64],
) -> Result<Vec<u64>, NoMemory>
    requires empty { b.old ≡ no_nodes }
    requires slots { slots.now ≡ all_slots (views_of flat.now) (names_of flat.now) }
    requires first { AreFirsts (names_of flat.now) first.now }
    requires right { AreRight (signals_in (names_of flat.now)) (views_of flat.now) }
    requires order { IsOrder (views_of flat.now) order.now }
    ensures { IfOk result (λ r. IsCarried (names_of flat.now) (views_of flat.now) order.now b.new r.items) }
{
    let mut table = start(alloc, b, slots)?;
    carry(alloc, b, flat, first, table.as_mut_slice(), order)?;
    Ok(table)
}

/// The graph of a design, where it is said of each signal and clock whether it is a register.
fn graph_of(
    alloc: Global,
    flat: &Flat,
    registers: &[bool],
    order: &[u64],
) -> Result<Lowered, NoMemory>
    requires registers { registers.now ≡ flags_of flat.now }
    requires right { AreRight (signals_in (names_of flat.now)) (views_of flat.now) }
    requires order { IsOrder (views_of flat.now) order.now }
    ensures { IfOk result (λ l. IsGraphOf flat.now l) }
{
    let (slots, first) = slots(alloc, flat, registers)?;
    let mut b = Builder::new(alloc);
    let table = settled_table(
        alloc,
        &mut b,
        flat,
        slots.as_slice(),
        first.as_slice(),
        order,
    )?;
    let done = clocked_table(alloc, &mut b, flat, first.as_slice(), table.as_slice())?;
    set_nexts(&mut b, slots.as_slice(), done.as_slice());
    let graph = b.finish();
    Ok(Lowered {
        graph,
        table,
        first,
    })
}

/// The graph of a design that breaks no rule, given an order of its parts without a clock (IEEE 1364-2005, sections 6.1, 9.2 and
/// 9.9). In each cycle its nodes are the one settled valuation of the design for the registers and inputs of the cycle, and its next
/// nodes are the next values of the registers. Inputs and registers stand in the order of the signals, under their paths.
///
/// `Limit` with the number of bits of all registers, exactly where they are more than 65,536; it is told before anything is made.
pub fn lower(alloc: Global, flat: &Flat, order: &[u64]) -> Result<Lowered, LowerError>
    requires right { AreRight (signals_in (names_of flat.now)) (views_of flat.now) }
    requires order { IsOrder (views_of flat.now) order.now }
    ensures { IsLowering flat.now result }
{
    let flags = match registers(alloc, flat) {
        Ok(flags) => flags,
        Err(_) => return Err(LowerError::NoMemory),
    };
    let bits = state_bits(flat.signals.as_slice(), flags.as_slice());
    if 65536 < bits {
        return Err(LowerError::Limit(bits));
    }
    match graph_of(alloc, flat, flags.as_slice(), order) {
        Ok(lowered) => Ok(lowered),
        Err(_) => Err(LowerError::NoMemory),
    }
}
