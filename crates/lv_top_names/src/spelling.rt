ghost use Rattle.std.specs.Prelude.{◌≡◌};
ghost use Rattle.std.specs.List.{list_all};
ghost use Rattle.lv_ast.specs.Names as names;

use lv_ast::{is_inner, is_keyword, is_letter};

fn are_inner(bytes: &[u8]) -> bool
    ensures { result ≡ list_all names.is_inner bytes.now }
{
    bytes.iter().all(|c| is_inner(*c))
}

/// Whether a name is written as it stands (IEEE 1364-2005, section 3.7).
pub(crate) fn is_simple(bytes: &[u8]) -> bool
    ensures { result ≡ names.is_simple bytes.now }
{
    match bytes {
        [] => false,
        [first, others @ ..] => is_letter(*first) && are_inner(others) && !is_keyword(bytes),
    }
}
