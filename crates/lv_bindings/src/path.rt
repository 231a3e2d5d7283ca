ghost use Rattle.std.specs.Prelude.{◌≡◌, ◌++◌, codes, IfOk, OnOk};
ghost use Rattle.std.specs.List.{list_all};
ghost use Rattle.lv_ast.specs.Names as names;

use lv_ast::{is_inner, is_keyword, is_letter};
use lv_bits::{NoMemory, Text};
use std::alloc::Global;

fn are_inner(bytes: &[u8]) -> bool
    ensures { result ≡ list_all names.is_inner bytes.now }
{
    bytes.iter().all(|byte| is_inner(*byte))
}

/// Whether a name is written as it is.
fn is_simple(bytes: &[u8]) -> bool
    ensures { result ≡ names.is_simple bytes.now }
{
    match bytes {
        [] => false,
        [first, others @ ..] => is_letter(*first) && are_inner(others) && !is_keyword(bytes),
    }
}

/// A name as it stands in a path.
pub fn put_spelled(path: &mut Vec<u8>, name: &[u8]) -> Result<(), NoMemory>
    ensures { OnOk result (path.new.items ≡ path.old.items ++ names.spelled name.now) }
{
    if is_simple(name) {
        path.extend_from_slice(name)?;
    } else {
        path.extend_from_slice(b"\\")?;
        path.extend_from_slice(name)?;
        path.extend_from_slice(b" ")?;
    }
    Ok(())
}

/// What stands between the path of a scope and a name in it.
pub fn put_dot(path: &mut Vec<u8>) -> Result<(), NoMemory>
    ensures { OnOk result ((name : names.Name) → names.below path.old.items name ≡ path.new.items ++ name) }
{
    if path.is_empty() {
        return Ok(());
    }
    path.extend_from_slice(b".")?;
    Ok(())
}

/// The path of a name below that of its scope.
pub fn path_of(alloc: Global, scope: &Text, name: &Text) -> Result<Text, NoMemory>
    ensures { IfOk result (λ t. t ≡ names.below scope.now (names.spelled name.now)) }
{
    let mut path = Vec::from_slice(alloc, scope.bytes())?;
    put_dot(&mut path)?;
    put_spelled(&mut path, name.bytes())?;
    Ok(Text::from(path))
}
