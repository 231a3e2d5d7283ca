ghost use Rattle.std.specs.Prelude.{◌≡◌, bytes_eq, codes, decimal};
ghost use Rattle.std.specs.Option.{option_map};
ghost use Rattle.lv_ast.specs.Names.{spelled, step_text, steps_text, path_text};
ghost use Rattle.lv_top_names.specs.Walking.{behind, behind_some, is_end};

use crate::spelling::is_simple;
use itoa::Buffer;
use lv_ast::{Path, PathStep};

/// What stands behind a piece that the text begins with.
fn behind<'a>(piece: &[u8], text: &'a [u8]) -> Option<&'a [u8]>
    ensures { option_map (λ x. x.now) result ≡ behind piece.now text.entry.now }
{
    text.strip_prefix(piece)
}

/// Behind one more piece.
fn then<'a>(piece: &[u8], text: Option<&'a [u8]>) -> Option<&'a [u8]>
    ensures { option_map (λ x. x.now) result ≡ behind_some piece.now (option_map (λ x. x.now) text.entry) }
{
    match text {
        None => None,
        Some(rest) => behind(piece, rest),
    }
}

/// Behind a name as it stands in a path.
fn then_name<'a>(name: &[u8], text: Option<&'a [u8]>) -> Option<&'a [u8]>
    ensures { option_map (λ x. x.now) result ≡ behind_some (spelled name.now) (option_map (λ x. x.now) text.entry) }
{
    if is_simple(name) {
        then(name, text)
    } else {
        then(b" ", then(name, then(b"\\", text)))
    }
}

/// Behind the number of a turn or of an element.
fn then_index<'a>(index: u128, text: Option<&'a [u8]>) -> Option<&'a [u8]>
    ensures { option_map (λ x. x.now) result ≡ behind_some (codes "]") (behind_some (decimal index) (behind_some (codes "[") (option_map (λ x. x.now) text.entry))) }
{
    let mut buffer = Buffer::new();
    let number = buffer.format(index).as_bytes();
    then(b"]", then(number, then(b"[", text)))
}

fn then_step<'a>(step: &PathStep, text: Option<&'a [u8]>) -> Option<&'a [u8]>
    ensures { option_map (λ x. x.now) result ≡ behind_some (step_text step.now) (option_map (λ x. x.now) text.entry) }
{
    let rest = then_name(step.name.bytes(), text);
    match step.index {
        None => rest,
        Some(index) => then_index(index, rest),
    }
}

fn behind_steps<'a>(steps: &[PathStep], text: &'a [u8]) -> Option<&'a [u8]>
    ensures { option_map (λ x. x.now) result ≡ behind (steps_text steps.now) text.entry.now }
{
    let mut rest = Some(text);
    for step in steps {
        rest = then(b".", then_step(step, rest));
    }
    rest
}

fn is_end(rest: Option<&[u8]>) -> bool
    ensures { result ≡ is_end (option_map (λ x. x.now) rest.entry) }
{
    match rest {
        None => false,
        Some(rest) => rest.is_empty(),
    }
}

/// Whether the text is that of the path.
pub(crate) fn is_path(path: &Path, text: &[u8]) -> bool
    ensures { result ≡ bytes_eq text.now (path_text path.now) }
{
    let rest = then_name(path.name.bytes(), behind_steps(path.steps.as_slice(), text));
    is_end(rest)
}
