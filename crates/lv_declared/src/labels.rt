ghost use Rattle.std.specs.Prelude.{◌≡◌, ◌++◌, map, flat_map, OnOk, option_map};
ghost use Rattle.lv_source.specs.Declarations.{Label, declare, labels, label_of, labels_or};
ghost use Rattle.lv_declared.specs.Listing.{all_declared};

use crate::declaration::{Declaration, Thing};
use lv_ast::{Arm, Ident, Stmt};
use lv_bits::NoMemory;
use sqlite_items::Boxed;

fn add_label<'a>(list: &mut Vec<Declaration<'a>>, name: &'a Option<Ident>) -> Result<(), NoMemory>
    ensures { OnOk result (all_declared list.new.items ≡ all_declared list.old.items ++ map (declare Label) (label_of name.now)) }
{
    if let Some(name) = name {
        list.push(Declaration {
            name,
            thing: Thing::Label,
        })?;
    }
    Ok(())
}

#[cycle(labels)]
fn add_all_labels<'a>(list: &mut Vec<Declaration<'a>>, stmts: &'a [Stmt]) -> Result<(), NoMemory>
    ensures { OnOk result (all_declared list.new.items ≡
        all_declared list.old.items ++ map (declare Label) (flat_map labels stmts.now)) }
{
    for stmt in stmts {
        add_labels(list, stmt)?;
    }
    Ok(())
}

#[cycle(labels)]
fn add_arm_labels<'a>(list: &mut Vec<Declaration<'a>>, arms: &'a [Arm]) -> Result<(), NoMemory>
    ensures { OnOk result (all_declared list.new.items ≡
        all_declared list.old.items ++ map (declare Label) (flat_map (λ a. labels a.body) arms.now)) }
{
    for arm in arms {
        add_labels(list, &arm.body)?;
    }
    Ok(())
}

#[cycle(labels)]
fn add_other_labels<'a>(
    list: &mut Vec<Declaration<'a>>,
    other: &'a Option<Boxed<Stmt>>,
) -> Result<(), NoMemory>
    ensures { OnOk result (all_declared list.new.items ≡
        all_declared list.old.items ++ map (declare Label) (labels_or (option_map labels other.now))) }
{
    match other {
        None => Ok(()),
        Some(stmt) => add_labels(list, stmt.get()),
    }
}

/// The names of the blocks in a statement.
#[cycle(labels)]
pub(crate) fn add_labels<'a>(
    list: &mut Vec<Declaration<'a>>,
    stmt: &'a Stmt,
) -> Result<(), NoMemory>
    ensures { OnOk result (all_declared list.new.items ≡ all_declared list.old.items ++ map (declare Label) (labels stmt.now)) }
{
    match stmt {
        Stmt::Null => Ok(()),
        Stmt::Block(name, body) => {
            add_label(list, name)?;
            add_all_labels(list, body.as_slice())
        }
        Stmt::If(_, body, other) => {
            add_labels(list, body.get())?;
            add_other_labels(list, other)
        }
        Stmt::Case(_, _, arms) => add_arm_labels(list, arms.as_slice()),
        Stmt::Loop(_, _, _, _, _, body) => add_labels(list, body.get()),
        Stmt::Now(_, _, _) => Ok(()),
        Stmt::Later(_, _, _) => Ok(()),
    }
}
