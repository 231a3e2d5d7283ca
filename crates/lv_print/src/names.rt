ghost use Rattle.std.specs.Prelude.{◌≡◌, OnOk};
ghost use Rattle.std.specs.List.{list_all};
ghost use Rattle.lv_ast.specs.Names as names;
ghost use Rattle.lv_print.specs.Paper.{put};
ghost use Rattle.lv_print.specs.Written.{name};

use crate::paper::Paper;
use lv_ast::{Kind, is_inner, is_keyword, is_letter};
use lv_bits::{NoMemory, Text};

fn are_inner(bytes: &[u8]) -> bool
    ensures { result ≡ list_all names.is_inner bytes.now }
{
    bytes.iter().all(|c| is_inner(*c))
}

/// Whether a name is simple and no keyword.
fn is_simple(bytes: &[u8]) -> bool
    ensures { result ≡ names.is_simple bytes.now }
{
    match bytes {
        [] => false,
        [first, others @ ..] => is_letter(*first) && are_inner(others) && !is_keyword(bytes),
    }
}

impl Paper {
    /// Writes a name, behind a backslash where it is not simple.
    pub fn name(&mut self, text: &Text) -> Result<(), NoMemory>
        ensures { OnOk result (self.new ≡ put self.old (name text.now)) }
    {
        if is_simple(text.bytes()) {
            self.put(Kind::Name, text.bytes())
        } else {
            self.escaped(text.bytes())
        }
    }
}
