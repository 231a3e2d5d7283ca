ghost use Rattle.std.specs.Prelude.{◌≡◌, ◌&&◌, bytes_eq};
ghost use Rattle.lv_ast.specs.Names.{path_text};
ghost use Rattle.lv_source.specs.Parts.{is_signal};
ghost use Rattle.lv_flat.specs.Signals.{declared, declared_all};
ghost use Rattle.lv_top_names.specs.TopNames.{number_of};

use crate::walk::is_path;
use lv_ast::Path;
use lv_flat::{Signal, Sort};
use lv_resolve::Bindings;

/// The names of a contract over the signals of a flat design: each stands for the first signal with that path from the top. A
/// clock has no name there.
#[derive(Drop)]
pub struct TopNames<'a> {
    pub signals: &'a [Signal],
}

fn is_named(signal: &Signal, path: &Path) -> bool
    ensures { result ≡ (is_signal (declared signal.now) && bytes_eq (declared signal.now).path (path_text path.now)) }
{
    if matches!(signal.sort, Sort::Clock) {
        return false;
    }
    is_path(path, signal.path.bytes())
}

/// The number of the first signal with the path.
fn number_of(signals: &[Signal], path: &Path) -> Option<u64>
    ensures { result ≡ number_of (declared_all signals.now) path.now }
{
    for (k, signal) in signals.iter().enumerate() {
        if is_named(signal, path) {
            return Some(k as u64);
        }
    }
    None
}

impl<'a> Bindings for TopNames<'a> {
    ghost numbers = { λ t p. number_of (declared_all t.signals.now) p };

    fn signal(&self, path: &Path) -> Option<u64> {
        number_of(self.signals, path)
    }
}
