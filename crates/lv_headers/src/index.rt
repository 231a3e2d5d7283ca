ghost use Rattle.std.specs.Prelude.{◌≡◌, ◌&&◌};
ghost use Rattle.lv_ast.specs.Names.{alone};
ghost use Rattle.lv_source.specs.Names.{Here};
ghost use Rattle.lv_source.specs.ScopeRules.{is_none};
ghost use Rattle.lv_const.specs.Constants.{names_of};
ghost use Rattle.lv_resolve.specs.Indices.{AreIndices, is_genvar};
ghost use Rattle.lv_headers.specs.Headers.{NamedAnswer};

use lv_ast::Ident;
use lv_bits::Text;
use lv_const::Consts;
use lv_resolve::Indices;

/// Whether a name is an index outside of its own loop.
fn is_index<B: Indices>(bindings: &B, all: &Consts, genvar: bool, name: &Text) -> bool
    ensures { result ≡ (is_genvar genvar (B.indices bindings.now name.now) && is_none (names_of all.now (alone name.now))) }
{
    match bindings.index(name) {
        None => false,
        Some(true) => genvar && all.get(name).is_none(),
        Some(false) => !genvar && all.get(name).is_none(),
    }
}

/// Whether the index of a header is one, and the same at its next value; if not, where it stands.
pub fn named<B: Indices>(
    bindings: &B,
    all: &Consts,
    genvar: bool,
    index: &Ident,
    again: &Ident,
) -> Result<(), u64>
    ensures { (here : Here) → AreIndices (B.indices bindings.now) all.now here → NamedAnswer genvar here.names index.now again.now result }
{
    if !is_index(bindings, all, genvar, &index.name) {
        return Err(index.place);
    }
    if index.name.bytes() != again.name.bytes() {
        return Err(again.place);
    }
    Ok(())
}
