ghost use Rattle.std.specs.Prelude.{◌≡◌, ◌≤◌, true, List, [], ◌∷◌, length, IfOk, OnOk};
ghost use Rattle.lv_flat.specs.Signals.{declared, declared_all};
ghost use Rattle.lv_flat.specs.Cells.{all_cells, AreDistinct};
ghost use Rattle.lv_flat.specs.Good.{good_body};
ghost use Rattle.lv_extents.specs.Extents.{AreExtents};
ghost use Rattle.lv_settles.specs.Rules.{AreRight, signals_in};
ghost use Rattle.lv_lower.specs.Slots.{names_of, views_of, flags_of};
ghost use Rattle.lv_lower.specs.Blocks.{combinational_views, IsSound, Extends};
ghost use Rattle.lv_lower.specs.Bits.{signal_bits, bits_if, bits_of};

use lv_bits::NoMemory;
use lv_extents::{Extent, Way, block};
use lv_flat::{Flat, FlatBody, FlatPart, Signal};
use std::alloc::Global;

/// Adds the extent of a combinational block.
fn add_block(
    alloc: Global,
    signals: &[Signal],
    part: &FlatPart,
    extents: &mut Vec<Extent>,
) -> Result<(), NoMemory>
    requires good { good_body (declared_all signals.now) part.now.body ≡ true }
    requires distinct { AreDistinct (all_cells (declared_all signals.now)) }
    requires sound { IsSound (declared_all signals.now) part.now.body }
    ensures { OnOk result (Extends (declared_all signals.now) (combinational_views (declared_all signals.now) (part.now ∷ [])) extents.old.items extents.new.items) }
{
    match &part.body {
        FlatBody::Combinational(s) => {
            let extent = block(
                alloc,
                signals,
                part,
                Way::Combinational,
                s.get(),
                false,
                false,
            )?;
            extents.push(extent)?;
            Ok(())
        }
        FlatBody::Assign(_, _) => Ok(()),
        FlatBody::Clocked(_, _) => Ok(()),
    }
}

/// The extents of the combinational blocks.
fn blocks(alloc: Global, flat: &Flat) -> Result<Vec<Extent>, NoMemory>
    requires { AreRight (signals_in (names_of flat.now)) (views_of flat.now) }
    ensures { IfOk result (λ r. AreExtents (names_of flat.now) (combinational_views (names_of flat.now) flat.now.parts) r.items) }
{
    let mut extents = Vec::new(alloc);
    for part in flat.parts.as_slice() {
        add_block(alloc, flat.signals.as_slice(), part, &mut extents)?;
    }
    Ok(extents)
}

/// Of each signal and clock whether it is a register.
pub fn registers(alloc: Global, flat: &Flat) -> Result<Vec<bool>, NoMemory>
    requires { AreRight (signals_in (names_of flat.now)) (views_of flat.now) }
    ensures { IfOk result (λ r. r.items ≡ flags_of flat.now) }
{
    let extents = blocks(alloc, flat)?;
    let flags = lv_rules::registers(alloc, flat.signals.as_slice(), extents.as_slice())?;
    Ok(flags)
}

/// The bits of a signal, in all its cells.
fn signal_bits(signal: &Signal) -> u128
    ensures is { result ≡ signal_bits (declared signal.now) }
    ensures most { result ≤ 549755813888 }
{
    let width = u128::from(signal.width);
    match signal.array {
        None => width,
        Some(bounds) => {
            let low = u128::from(bounds.0.min(bounds.1));
            let high = u128::from(bounds.0.max(bounds.1));
            (high - low + 1) * width
        }
    }
}

fn bits_if(register: bool, signal: &Signal) -> u128
    ensures is { result ≡ bits_if register (declared signal.now) }
    ensures most { result ≤ 549755813888 }
{
    if register { signal_bits(signal) } else { 0 }
}

/// The bits of all registers together, where it is said of each signal whether it is one.
pub fn state_bits(signals: &[Signal], registers: &[bool]) -> u128
    requires { length registers.now ≡ length signals.now }
    ensures { result ≡ bits_of registers.now (declared_all signals.now) }
{
    let mut sum = 0u128;
    for (k, signal) in signals.iter().enumerate() {
        sum += bits_if(registers[k], signal);
    }
    sum
}
