use crate::texts::{ident, names, tree, value_text};
use lv_ast::{Module, Params, Ports, Setting};
use lv_const::Consts;
use lv_scopes::{Modules, ModulesError, NameTable, set_given, set_params};
use sqlite_items::Items;
use std::alloc::Global;
use std::test::Fail;

/// The value of an instance is read among the names around it.
#[test]
fn given(rt: HostRuntime) -> Result<(), Fail> {
    let alloc = rt.alloc();
    let around = names(alloc)?;
    let mut consts = Consts::new(alloc);
    let name = ident(alloc, "p", 6)?;
    let value = tree(alloc, "n + 1")?;
    let set = set_given(&mut consts, &around, &name, false, &None, value.get());
    assert!(rt; set.is_ok());
    let got = value_text(alloc, &consts, &name.name)?;
    assert!(rt; got.as_bytes() == b"32 s 6 31 0".as_slice(), "{got}");
    assert!(rt;
        set_given(
            &mut consts,
            &Consts::new(alloc),
            &name,
            false,
            &None,
            value.get()
        )
        .is_err()
    );
    assert!(rt; consts.len() == 1);
    Ok(())
}

fn params(alloc: Global, last: &str) -> Result<Params, Fail> {
    let mut list = Items::new(alloc);
    let name = ident(alloc, "A", 1)?;
    let value = tree(alloc, "3")?;
    list.push(Setting { name, value })?;
    let name = ident(alloc, "B", 2)?;
    let value = tree(alloc, last)?;
    list.push(Setting { name, value })?;
    Ok(Params {
        signed: false,
        range: None,
        list,
    })
}

/// The second of two parameters reads the first; after a refusal neither is there.
#[test]
fn together(rt: HostRuntime) -> Result<(), Fail> {
    let alloc = rt.alloc();
    let mut consts = names(alloc)?;
    let wrong = params(alloc, "m")?;
    assert!(rt; set_params(&mut consts, &wrong).is_err());
    assert!(rt; consts.len() == 1);
    let right = params(alloc, "A + n")?;
    assert!(rt; set_params(&mut consts, &right).is_ok());
    assert!(rt; consts.len() == 3);
    let last = ident(alloc, "B", 2)?;
    let got = value_text(alloc, &consts, &last.name)?;
    assert!(rt; got.as_bytes() == b"32 s 8 31 0".as_slice(), "{got}");
    Ok(())
}

#[test]
fn by_number(rt: HostRuntime) -> Result<(), Fail> {
    let alloc = rt.alloc();
    let mut table = NameTable::new(alloc);
    assert!(rt; table.add(alloc, b"a")? == (0, true));
    assert!(rt; table.add(alloc, b"b")? == (1, true));
    assert!(rt; table.add(alloc, b"a")? == (0, false));
    assert!(rt; table.len() == 2);
    assert!(rt; table.find(b"b") == Some(1));
    assert!(rt; table.find(b"c").is_none());
    Ok(())
}

fn modules(alloc: Global, first: &str, second: &str) -> Result<Items<Module>, Fail> {
    let mut list = Items::new(alloc);
    let name = ident(alloc, first, 1)?;
    list.push(Module {
        name,
        params: Items::new(alloc),
        ports: Ports::Absent,
        items: Items::new(alloc),
    })?;
    let name = ident(alloc, second, 7)?;
    list.push(Module {
        name,
        params: Items::new(alloc),
        ports: Ports::Absent,
        items: Items::new(alloc),
    })?;
    Ok(list)
}

#[test]
fn by_name(rt: HostRuntime) -> Result<(), Fail> {
    let alloc = rt.alloc();
    let two = modules(alloc, "a", "b")?;
    let Ok(table) = Modules::new(alloc, two.as_slice()) else {
        return Err(Fail::from("no table"));
    };
    let Some(found) = table.find(two.as_slice(), b"b") else {
        return Err(Fail::from("not found"));
    };
    assert!(rt; found.name.place == 7);
    assert!(rt; table.find(two.as_slice(), b"c").is_none());
    let same = modules(alloc, "a", "a")?;
    match Modules::new(alloc, same.as_slice()) {
        Err(ModulesError::Duplicate(place)) => assert!(rt; place == 7),
        _ => return Err(Fail::from("no duplicate")),
    }
    Ok(())
}
