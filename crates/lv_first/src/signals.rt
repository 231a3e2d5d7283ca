//! The signals of a design and their numbers.

ghost use Rattle.std.specs.Prelude.{◌≡◌, [], false, true, IfOk, MatchOption, OnOk, slice_get, ◌++◌};
ghost use Rattle.lv_first.specs.FirstForm.{is_in, ident_names, port_names, register_items};
ghost use Rattle.lv_first.specs.Signals.{IsSignal};

use lv_ast::{Aport, Ident, Item, Path, RegName};
use lv_bits::{NoMemory, Text};
use sqlite_items::Items;
use std::alloc::Global;

/// The registers and the inputs of a design, in order.
#[derive(Drop)]
pub(crate) struct Signals {
    pub(crate) registers: Items<Text>,
    pub(crate) inputs: Items<Text>,
}

/// The number of a name in a list.
pub(crate) fn find(names: &[Text], name: &Text) -> Option<usize>
    ensures { MatchOption result (is_in names.now name.now ≡ false) (λ k. slice_get names.now k ≡ Some name.now) }
{
    for (k, other) in names.iter().enumerate() {
        if name == other {
            return Some(k);
        }
    }
    None
}

impl Signals {
    /// The number of the signal that a path names.
    pub(crate) fn number(&self, path: &Path) -> Option<usize>
        ensures { MatchOption result (path.now.steps ≡ [] → is_in (self.now.registers ++ self.now.inputs) path.now.name ≡ true → ⊥)
            (λ k. IsSignal self.now.registers self.now.inputs path.now k) }
    {
        if !path.steps.is_empty() {
            return None;
        }
        match find(self.registers.as_slice(), &path.name) {
            Some(k) => Some(k),
            None => {
                let k = find(self.inputs.as_slice(), &path.name)?;
                Some(self.registers.len() + k)
            }
        }
    }
}

/// Appends the names.
fn push_names(alloc: Global, texts: &mut Items<Text>, names: &[Ident]) -> Result<(), NoMemory>
    ensures { OnOk result (texts.new ≡ texts.old ++ ident_names names.now) }
{
    for name in names {
        texts.push(name.name.copy(alloc)?)?;
    }
    Ok(())
}

/// The names of the ports of one direction.
pub(crate) fn names_of_ports(
    alloc: Global,
    ports: &[Aport],
    output: bool,
) -> Result<Items<Text>, NoMemory>
    ensures { IfOk result (λ texts. texts ≡ port_names output ports.now) }
{
    let mut texts = Items::new(alloc);
    for port in ports {
        if port.output == output {
            push_names(alloc, &mut texts, port.names.as_slice())?;
        }
    }
    Ok(texts)
}
