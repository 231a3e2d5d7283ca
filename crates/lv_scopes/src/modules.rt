ghost use Rattle.std.specs.Prelude.{◌≡◌, [], OnOk, IfErr, IfOk};
ghost use Rattle.std.specs.Option.{option_copied};
ghost use Rattle.lv_source.specs.Legal.{modules_again};
ghost use Rattle.lv_scopes.specs.Modules.{AreModules, IsModulesError, module_in};

use indexmap::IndexSet;
use lv_ast::Module;
use std::alloc::Global;

/// The names of the modules of a source, in their order.
#[derive(Drop)]
pub struct Modules {
    pub names: IndexSet<Vec<u8>>,
}

/// Why there is no table of modules.
#[derive(Clone, Copy, Debug, PartialEq, Eq)]
pub enum ModulesError {
    /// The place of a module's name that an earlier one has.
    Duplicate(u64),
    NoMemory,
}

impl Modules {
    /// The table of these modules. `Duplicate` at a later module of a name, where there is one.
    pub fn new(alloc: Global, modules: &[Module]) -> Result<Modules, ModulesError>
        ensures right { IfOk result (λ m. AreModules m modules.now) }
        ensures distinct { OnOk result (modules_again modules.now ≡ []) }
        ensures wrong { IfErr result (IsModulesError modules.now) }
    {
        let mut names = IndexSet::new(alloc);
        for module in modules {
            let Ok(name) = Vec::from_slice(alloc, module.name.name.bytes()) else {
                return Err(ModulesError::NoMemory);
            };
            match names.insert_full(name) {
                Err(_) => return Err(ModulesError::NoMemory),
                Ok((_, added)) => {
                    if !added {
                        return Err(ModulesError::Duplicate(module.name.place));
                    }
                }
            }
        }
        Ok(Modules { names })
    }

    /// The first of these modules that has the name.
    pub fn find<'a>(&self, modules: &'a [Module], name: &[u8]) -> Option<&'a Module>
        requires { AreModules self.now modules.now }
        ensures { option_copied result ≡ module_in modules.now name.now }
    {
        let index = self.names.get_index_of(name)?;
        modules.get(index)
    }
}
