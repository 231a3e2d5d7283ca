ghost use Rattle.std.specs.Prelude.{◌≡◌, ◌++◌, map, length, decimal, Some, None, IfOk, OnOk};
ghost use Rattle.lv_ast.specs.Names.{at_index};
ghost use Rattle.lv_source.specs.Names.{is_input_sort, is_signal_sort};
ghost use Rattle.lv_flat.specs.Signals.{declared};
ghost use Rattle.lv_flat.specs.Cells.{cells_of};
ghost use Rattle.lv_lower.specs.Slots.{kind_by, slot_by, element_slots, names_of, views_of, flags_of, all_slots, AreCounts};

use lv_bits::{NoMemory, Text};
use lv_flat::{Flat, Signal, Sort};
use std::alloc::Global;

/// What the node of a cell is before the parts are carried out.
#[derive(Clone, Copy, PartialEq, Eq)]
pub enum Kind {
    Input,
    Register,
    /// The known 0.
    Zero,
}

/// A cell by its name, with its width.
pub struct Slot {
    pub name: Text,
    pub width: u32,
    pub kind: Kind,
}

impl Drop for Slot {
    fn drop(self) {
        let Slot {
            name,
            width: _,
            kind: _,
        } = self;
        drop(name);
    }
}

/// The name of an element.
fn element(alloc: Global, path: &Text, index: u64) -> Result<Text, NoMemory>
    ensures { IfOk result (λ t. t ≡ at_index path.now (decimal index)) }
{
    let number = format!(in alloc; "{index}")?;
    let mut name = Vec::new(alloc);
    name.extend_from_slice(path.bytes())?;
    name.extend_from_slice(b"[")?;
    name.extend_from_slice(number.as_bytes())?;
    name.extend_from_slice(b"]")?;
    Text::new(alloc, &name)
}

fn kind_of(signal: &Signal, register: bool) -> Kind
    ensures { result ≡ kind_by (is_input_sort (declared signal.now).sort) register }
{
    if matches!(signal.sort, Sort::Input) {
        Kind::Input
    } else if register {
        Kind::Register
    } else {
        Kind::Zero
    }
}

/// Adds the elements of an array.
fn elements(
    alloc: Global,
    path: &Text,
    bounds: (u32, u32),
    width: u32,
    kind: Kind,
    slots: &mut Vec<Slot>,
) -> Result<(), NoMemory>
    ensures { OnOk result (slots.new.items ≡ slots.old.items ++ element_slots path.now width kind (record { left = bounds.0; right = bounds.1 })) }
{
    let low = u64::from(bounds.0.min(bounds.1));
    let end = u64::from(bounds.0.max(bounds.1)) + 1;
    for index in low..end {
        let name = element(alloc, path, index)?;
        slots.push(Slot { name, width, kind })?;
    }
    Ok(())
}

fn has_cells(signal: &Signal) -> bool
    ensures { result ≡ is_signal_sort (declared signal.now).sort }
{
    !matches!(signal.sort, Sort::Clock)
}

/// Adds the cells of a signal.
fn cells(alloc: Global, signal: &Signal, kind: Kind, slots: &mut Vec<Slot>) -> Result<(), NoMemory>
    ensures { OnOk result (slots.new.items ≡ slots.old.items ++ map (slot_by kind) (cells_of (declared signal.now))) }
{
    if !has_cells(signal) {
        return Ok(());
    }
    match signal.array {
        None => {
            let name = signal.path.copy(alloc)?;
            let width = signal.width;
            slots.push(Slot { name, width, kind })?;
            Ok(())
        }
        Some(bounds) => {
            elements(alloc, &signal.path, bounds, signal.width, kind, slots)?;
            Ok(())
        }
    }
}

/// All cells in order, and the number of the first cell of each signal. `registers` says of each signal whether it is a register.
pub fn slots(
    alloc: Global,
    flat: &Flat,
    registers: &[bool],
) -> Result<(Vec<Slot>, Vec<u64>), NoMemory>
    requires { registers.now ≡ flags_of flat.now }
    ensures slots { IfOk result (λ r. r.0.items ≡ all_slots (views_of flat.now) (names_of flat.now)) }
    ensures first { IfOk result (λ r. AreCounts (names_of flat.now) r.1.items) }
{
    let mut all = Vec::new(alloc);
    let mut first = Vec::new(alloc);
    for (k, signal) in flat.signals.as_slice().iter().enumerate() {
        first.push(all.len() as u64)?;
        let kind = kind_of(signal, registers[k]);
        cells(alloc, signal, kind, &mut all)?;
    }
    Ok((all, first))
}
