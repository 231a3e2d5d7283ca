ghost use Rattle.std.specs.Prelude.{◌≡◌, ◌++◌, map, flat_map, false, OnOk};
ghost use Rattle.lv_source.specs.Declarations.{declare, of_port, of_params};
ghost use Rattle.lv_source.specs.Declarations as s;
ghost use Rattle.lv_declared.specs.Listing.{all_declared, thing_of};

use crate::declaration::{Declaration, Thing};
use lv_ast::{Aport, Ident, Inst, NetName, Params, Range, RegName};
use lv_bits::NoMemory;

/// Parameters that are declared together.
pub(crate) fn add_params<'a>(
    list: &mut Vec<Declaration<'a>>,
    local: bool,
    params: &'a Params,
) -> Result<(), NoMemory>
    ensures { OnOk result (all_declared list.new.items ≡ all_declared list.old.items ++ of_params local params.now) }
{
    for setting in params.list.as_slice() {
        list.push(Declaration {
            name: &setting.name,
            thing: Thing::Parameter(local, params.signed, &params.range, setting.value.get()),
        })?;
    }
    Ok(())
}

/// Names that are all declared as one thing.
pub(crate) fn add_names<'a>(
    list: &mut Vec<Declaration<'a>>,
    thing: Thing<'a>,
    names: &'a [Ident],
) -> Result<(), NoMemory>
    ensures { OnOk result (all_declared list.new.items ≡ all_declared list.old.items ++ map (declare (thing_of thing.entry)) names.now) }
{
    for name in names {
        list.push(Declaration { name, thing })?;
    }
    Ok(())
}

/// Ports of one direction.
pub(crate) fn add_port<'a>(list: &mut Vec<Declaration<'a>>, port: &'a Aport) -> Result<(), NoMemory>
    ensures { OnOk result (all_declared list.new.items ≡ all_declared list.old.items ++ of_port port.now) }
{
    let thing = Thing::Direction(port.output, port.word, port.signed, &port.range);
    add_names(list, thing, port.names.as_slice())
}

/// Nets.
pub(crate) fn add_nets<'a>(
    list: &mut Vec<Declaration<'a>>,
    signed: bool,
    range: &'a Option<Range>,
    nets: &'a [NetName],
) -> Result<(), NoMemory>
    ensures { OnOk result (all_declared list.new.items ≡
        all_declared list.old.items ++ map (λ n. declare (s.Wire signed range.now) n.name) nets.now) }
{
    for net in nets {
        list.push(Declaration {
            name: &net.name,
            thing: Thing::Wire(signed, range),
        })?;
    }
    Ok(())
}

/// Variables.
pub(crate) fn add_regs<'a>(
    list: &mut Vec<Declaration<'a>>,
    signed: bool,
    range: &'a Option<Range>,
    regs: &'a [RegName],
) -> Result<(), NoMemory>
    ensures { OnOk result (all_declared list.new.items ≡
        all_declared list.old.items ++ map (λ n. declare (s.Reg signed range.now n.bounds) n.name) regs.now) }
{
    for reg in regs {
        list.push(Declaration {
            name: &reg.name,
            thing: Thing::Reg(signed, range, &reg.bounds),
        })?;
    }
    Ok(())
}

/// Instances.
pub(crate) fn add_insts<'a>(
    list: &mut Vec<Declaration<'a>>,
    insts: &'a [Inst],
) -> Result<(), NoMemory>
    ensures { OnOk result (all_declared list.new.items ≡ all_declared list.old.items ++ map (λ n. declare s.Instance n.name) insts.now) }
{
    for inst in insts {
        list.push(Declaration {
            name: &inst.name,
            thing: Thing::Instance,
        })?;
    }
    Ok(())
}

/// Parameters, one group after another.
pub(crate) fn add_groups<'a>(
    list: &mut Vec<Declaration<'a>>,
    groups: &'a [Params],
) -> Result<(), NoMemory>
    ensures { OnOk result (all_declared list.new.items ≡ all_declared list.old.items ++ flat_map (of_params false) groups.now) }
{
    for group in groups {
        add_params(list, false, group)?;
    }
    Ok(())
}

/// Ports, one direction after another.
pub(crate) fn add_ports<'a>(
    list: &mut Vec<Declaration<'a>>,
    ports: &'a [Aport],
) -> Result<(), NoMemory>
    ensures { OnOk result (all_declared list.new.items ≡ all_declared list.old.items ++ flat_map of_port ports.now) }
{
    for port in ports {
        add_port(list, port)?;
    }
    Ok(())
}
