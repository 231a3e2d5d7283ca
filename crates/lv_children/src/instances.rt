ghost use Rattle.std.specs.Prelude.{◌≡◌, ◌++◌, map, bytes_eq, OnOk, IfErr, IfOk};
ghost use Rattle.std.specs.List.{list_any};
ghost use Rattle.lv_ast.specs.declared.item.Source.{Source};
ghost use Rattle.lv_source.specs.Scopes.{Scope, settable_in};
ghost use Rattle.lv_scopes.specs.Modules.{AreModules};
ghost use Rattle.lv_links.specs.Linking.{AreLinked, IsLinkError};
ghost use Rattle.lv_children.specs.Children.{names_in, all_seen, instance_of, IsWithin, AreInstances, AreNoInstances, spec_told};

use crate::child::{Child, ChildError};
use lv_ast::{Conn, Ident, Inst, Module};
use lv_bits::{NoMemory, Text};
use lv_declared::list_module;
use lv_links::{LinkError, Linked, link, list_settable};
use lv_resolve::ResolveError;
use lv_scopes::Modules;
use sqlite_items::Items;
use std::alloc::Global;

fn is_same(a: &Text, b: &Text) -> bool
    ensures { result ≡ bytes_eq a.now b.now }
{
    a.bytes() == b.bytes()
}

/// Whether one of these names is this one.
fn is_around(names: &[&Text], name: &Text) -> bool
    ensures { result ≡ list_any (λ b. bytes_eq name.now b.now) names.now }
{
    for other in names {
        if is_same(name, *other) {
            return true;
        }
    }
    false
}

/// The settings with their parameters.
fn link_settings<'a>(
    alloc: Global,
    module: &'a Module,
    settings: &'a [Conn],
) -> Result<Vec<Linked<'a>>, LinkError>
    ensures right { IfOk result (λ ls. AreLinked (settable_in module.now) settings.now ls.items) }
    ensures wrong { IfErr result (IsLinkError (settable_in module.now) settings.now) }
{
    let Ok(listed) = list_module(alloc, module) else {
        return Err(LinkError::NoMemory);
    };
    let Ok(names) = list_settable(alloc, &listed.declarations) else {
        return Err(LinkError::NoMemory);
    };
    link(alloc, &names, settings)
}

fn add<'a>(
    module: &'a Module,
    settings: &'a Items<Conn>,
    insts: &'a [Inst],
    into: &mut Vec<Child<'a>>,
) -> Result<(), NoMemory>
    ensures { OnOk result (all_seen into.new.items ≡ all_seen into.old.items ++ map (instance_of module.now settings.now) insts.now) }
{
    for inst in insts {
        into.push(Child::Instance(module, settings, inst))?;
    }
    Ok(())
}

fn told(error: LinkError) -> ChildError
    ensures { result ≡ spec_told error }
{
    match error {
        LinkError::Unlisted(place) => ChildError::UnknownSetting(place),
        LinkError::Extra(place) => ChildError::Port(place),
        LinkError::Twice(place) => ChildError::Port(place),
        LinkError::NoMemory => ChildError::Fault(ResolveError::NoMemory),
    }
}

/// Adds the instances of an item, in a scope around which modules of these names stand, its own among them (IEEE 1364-2005, sections 12.1
/// and 12.2). `UnknownModule` where there is none of the name, `Recursion` where it stands around, `UnknownSetting` and `Port` of a setting
/// that has no parameter.
pub fn add_instances<'a>(
    alloc: Global,
    table: &Modules,
    modules: &'a [Module],
    around: &[&Text],
    kind: &Ident,
    settings: &'a Items<Conn>,
    insts: &'a [Inst],
    into: &mut Vec<Child<'a>>,
) -> Result<(), ChildError>
    requires { AreModules table.now modules.now }
    ensures right { OnOk result ((source : Source) (s : Scope) → IsWithin modules.now (names_in around.now) source s →
        AreInstances source s kind.now settings.now insts.now into.old.items into.new.items) }
    ensures wrong { IfErr result (λ y. (source : Source) (s : Scope) → IsWithin modules.now (names_in around.now) source s →
        AreNoInstances source s kind.now settings.now insts.now y) }
{
    let Some(module) = table.find(modules, kind.name.bytes()) else {
        return Err(ChildError::UnknownModule(kind.place));
    };
    if is_around(around, &module.name.name) {
        return Err(ChildError::Recursion(kind.place));
    }
    if let Err(error) = link_settings(alloc, module, settings.as_slice()) {
        return Err(told(error));
    }
    match add(module, settings, insts, into) {
        Err(_) => Err(ChildError::Fault(ResolveError::NoMemory)),
        Ok(()) => Ok(()),
    }
}
