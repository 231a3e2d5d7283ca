ghost use Rattle.std.specs.Prelude.{◌≡◌, ◌<◌, ℕ, List, [], ◌∷◌, Contains, IfOk, IfErr, MatchOption, drop};
ghost use Rattle.lv_ast.specs.declared.stmt.Ident.{Ident};
ghost use Rattle.lv_source.specs.Names.{Names};
ghost use Rattle.lv_source.specs.Scopes.{links};
ghost use Rattle.lv_source.specs.ScopeRules.{unlisted_names};
ghost use Rattle.lv_links.specs.Linking.{idents, all_links, HasNames, ordered_places, AreLinked, IsLinkError};

use crate::linked::{LinkError, Linked};
use crate::once::again;
use lv_ast::{Conn, Ident};
use lv_bits::NoMemory;
use lv_scopes::NameTable;
use std::alloc::Global;

/// A table of these names.
fn table(alloc: Global, listed: &[&Ident]) -> Result<NameTable, NoMemory>
    ensures { IfOk result (λ t. HasNames t (idents listed.now)) }
{
    let mut table = NameTable::new(alloc);
    for name in listed {
        table.add(alloc, name.name.bytes())?;
    }
    Ok(table)
}

/// The place of the first name that the table has not.
fn unlisted(table: &NameTable, conns: &[Conn]) -> Option<u64>
    ensures { (names : List Ident) → HasNames table.now names → MatchOption result (unlisted_names names conns.now ≡ [])
        (Contains (unlisted_names names conns.now)) }
{
    for conn in conns {
        if let Some(name) = &conn.name {
            if table.find(name.name.bytes()).is_none() {
                return Some(name.place);
            }
        }
    }
    None
}

/// The place of the first ordered connection.
fn first_ordered(conns: &[Conn]) -> Option<u64>
    ensures { MatchOption result (ordered_places conns.now ≡ []) (Contains (ordered_places conns.now)) }
{
    for conn in conns {
        if conn.name.is_none() {
            return Some(conn.place);
        }
    }
    None
}

/// The place of the first ordered connection behind this many.
fn extra(count: usize, conns: &[Conn]) -> Option<u64>
    ensures { MatchOption result (ordered_places (drop count conns.now) ≡ []) (Contains (ordered_places (drop count conns.now))) }
{
    if conns.len() <= count {
        return None;
    }
    first_ordered(&conns[count..])
}

/// Each connection with its port, up to the first ordered one behind the last name.
fn pairs<'a>(
    alloc: Global,
    listed: &[&'a Ident],
    conns: &'a [Conn],
) -> Result<Vec<Linked<'a>>, NoMemory>
    ensures { IfOk result (λ ls. all_links ls.items ≡ links (idents listed.now) conns.now) }
{
    let mut found = Vec::new(alloc);
    let mut next = 0;
    for conn in conns {
        match &conn.name {
            Some(port) => found.push(Linked { port, conn })?,
            None => match listed.get(next) {
                None => return Ok(found),
                Some(port) => {
                    next += 1;
                    found.push(Linked { port: *port, conn })?;
                }
            },
        }
    }
    Ok(found)
}

/// Each connection with its port (IEEE 1364-2005, section 12.3), or each setting with its parameter (section 12.2), of the names that are
/// listed: an ordered one with the next name, one by name with that name. Ok exactly where each name is listed, no ordered connection stands
/// behind the last name, and none has a port that another one has; else such a fault at its place. `NoMemory` may come at any time.
pub fn link<'a>(
    alloc: Global,
    listed: &[&'a Ident],
    conns: &'a [Conn],
) -> Result<Vec<Linked<'a>>, LinkError>
    ensures right { IfOk result (λ ls. AreLinked (idents listed.now) conns.now ls.items) }
    ensures wrong { IfErr result (IsLinkError (idents listed.now) conns.now) }
{
    let Ok(table) = table(alloc, listed) else {
        return Err(LinkError::NoMemory);
    };
    if let Some(place) = unlisted(&table, conns) {
        return Err(LinkError::Unlisted(place));
    }
    if let Some(place) = extra(listed.len(), conns) {
        return Err(LinkError::Extra(place));
    }
    let Ok(found) = pairs(alloc, listed, conns) else {
        return Err(LinkError::NoMemory);
    };
    match again(alloc, &found) {
        Err(_) => Err(LinkError::NoMemory),
        Ok(Some(place)) => Err(LinkError::Twice(place)),
        Ok(None) => Ok(found),
    }
}
