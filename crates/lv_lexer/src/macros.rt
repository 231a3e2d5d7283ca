ghost use Rattle.std.specs.Prelude.{◌≡◌, ℕ, List, OnOk, IfErr, if◌then◌else◌};
ghost use Rattle.std.specs.Option.{option_copied};
ghost use Rattle.std.specs.Str.{bytes_eq};
ghost use Rattle.lv_lexer.specs.Tables.{body_in};

use crate::error::DirectiveError;
use indexmap::IndexMap;
use lv_ast::Token;
use sqlite_items::Items;
use std::alloc::Global;

/// The macros by their names. One that is forgotten stays with no body.
#[derive(Drop)]
pub struct Macros {
    pub bodies: IndexMap<Vec<u8>, Option<Items<Token>>>,
}

impl Macros {
    pub fn new(alloc: Global) -> Macros
        ensures { (name : List ℕ) → body_in result name ≡ None }
    {
        Macros {
            bodies: IndexMap::new(alloc),
        }
    }

    pub fn get(&self, name: &[u8]) -> Option<&Items<Token>>
        ensures { option_copied result ≡ body_in self.now name.now }
    {
        match self.bodies.get(name) {
            Some(Some(body)) => Some(body),
            _ => None,
        }
    }

    /// Sets the body of a macro, or forgets it.
    pub fn set(
        &mut self,
        alloc: Global,
        name: &[u8],
        body: Option<Items<Token>>,
    ) -> Result<(), DirectiveError>
        ensures ok { OnOk result ((other : List ℕ) → body_in self.new other ≡ (if bytes_eq name.now other then body else body_in self.old other)) }
        ensures err { IfErr result (λ e. e ≡ DirectiveError.NoMemory) }
    {
        let Ok(key) = Vec::from_slice(alloc, name) else {
            return Err(DirectiveError::NoMemory);
        };
        match self.bodies.insert(key, body) {
            Ok(_) => Ok(()),
            Err(_) => Err(DirectiveError::NoMemory),
        }
    }
}
