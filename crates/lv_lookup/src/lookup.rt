ghost use Rattle.std.specs.Prelude.{◌≡◌};
ghost use Rattle.lv_lookup.specs.Levels.{numbers_at, indices_at, number_of, index_of, binding_at, scope_around};

use crate::level::Level;
use lv_ast::Path;
use lv_bindings::Binding;
use lv_bits::Text;
use lv_resolve::{Bindings, Indices};

/// The names at the scope with this number.
#[derive(Drop)]
pub struct Lookup<'l, 'a> {
    pub levels: &'l [Level<'a>],
    pub at: usize,
}

/// The scope around, unless the index of a loop there has the name.
fn scope_around(level: &Level, name: &Text) -> Option<usize>
    ensures { result ≡ scope_around level.now name.now }
{
    match level.around {
        None => None,
        Some(around) => {
            if around.index.bytes() == name.bytes() {
                return None;
            }
            Some(around.scope)
        }
    }
}

/// What a name is bound to, from this scope outward.
fn binding_from(levels: &[Level], at: usize, name: &Text) -> Option<Binding>
    ensures { result ≡ binding_at levels.now at name.now }
{
    let mut scope = at;
    for _step in 0..levels.len() {
        let Some(level) = levels.get(scope) else {
            return None;
        };
        if let Some(binding) = level.table.find(name.bytes()) {
            return Some(binding);
        }
        match scope_around(level, name) {
            None => return None,
            Some(around) => scope = around,
        }
    }
    None
}

/// The number of the signal or the clock, if it is one.
fn number(binding: Option<Binding>) -> Option<u64>
    ensures { result ≡ number_of binding }
{
    match binding {
        Some(Binding::Signal(number)) => Some(number),
        Some(Binding::Constant) => None,
        Some(Binding::Index(_)) => None,
        Some(Binding::Other) => None,
        None => None,
    }
}

/// Whether the index is a genvar, if it is one.
fn index(binding: Option<Binding>) -> Option<bool>
    ensures { result ≡ index_of binding }
{
    match binding {
        Some(Binding::Signal(_)) => None,
        Some(Binding::Constant) => None,
        Some(Binding::Index(genvar)) => Some(genvar),
        Some(Binding::Other) => None,
        None => None,
    }
}

impl<'l, 'a> Bindings for Lookup<'l, 'a> {
    ghost numbers = { λ l p. numbers_at l.levels.now l.at p };

    fn signal(&self, path: &Path) -> Option<u64> {
        if !path.steps.is_empty() {
            return None;
        }
        number(binding_from(self.levels, self.at, &path.name))
    }
}

impl<'l, 'a> Indices for Lookup<'l, 'a> {
    ghost indices = { λ l name. indices_at l.levels.now l.at name };

    fn index(&self, name: &Text) -> Option<bool> {
        index(binding_from(self.levels, self.at, name))
    }
}
