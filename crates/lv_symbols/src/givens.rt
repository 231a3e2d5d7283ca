ghost use Rattle.std.specs.Prelude.{◌≡◌, IfOk};
ghost use Rattle.std.specs.Option.{option_map};
ghost use Rattle.lv_symbols.specs.Giving.{value_for, AreGiven};

use lv_ast::{Expr, Ident};
use lv_bits::NoMemory;
use lv_scopes::NameTable;
use std::alloc::Global;

/// A value that an instance gives a parameter.
#[derive(Clone, Copy)]
pub struct Given<'a> {
    pub name: &'a Ident,
    pub value: &'a Expr,
}

/// Values by name; of two with one name the first counts.
pub struct Givens<'a> {
    pub names: NameTable,
    pub values: Vec<&'a Expr>,
}

impl<'a> Drop for Givens<'a> {
    fn drop(self) {
        let Givens { names, values } = self;
        drop(names);
        drop(values);
    }
}

impl<'a> Givens<'a> {
    /// The values of this list by name.
    pub fn new(alloc: Global, list: &[Given<'a>]) -> Result<Givens<'a>, NoMemory>
        ensures { IfOk result (AreGiven list.now) }
    {
        let mut names = NameTable::new(alloc);
        let mut values = Vec::new(alloc);
        for given in list {
            match names.add(alloc, given.name.name.bytes()) {
                Err(_) => return Err(NoMemory),
                Ok((_, added)) => {
                    if added {
                        values.push(given.value)?;
                    }
                }
            }
        }
        Ok(Givens { names, values })
    }

    /// The value for a name.
    pub fn get(&self, name: &Ident) -> Option<&'a Expr>
        ensures { option_map (λ x. x.now) result ≡ value_for self.now name.now.name }
    {
        match self.names.find(name.name.bytes()) {
            None => None,
            Some(index) => self.values.get(index).copied(),
        }
    }
}
