ghost use Rattle.std.specs.Prelude.{◌≡◌, List, ◌++◌, map, length, ◌∷◌, [], OnOk, OnErr, IfOk, IfErr};
ghost use Rattle.lv_source.specs.Scopes.{here_at};
ghost use Rattle.lv_const.specs.declared.consts.Entry.{Entry};
ghost use Rattle.lv_const.specs.Wherever.{AreDeclared};
ghost use Rattle.lv_const.specs.Constants.{names_of};
ghost use Rattle.lv_declared.specs.Listing.{all_declared, declared};
ghost use Rattle.lv_symbols.specs.Making.{symbol_of, parameters_in};
ghost use Rattle.lv_symbols.specs.Answers.{IsMade, IsNotMade, given_in};
ghost use Rattle.lv_symbols.specs.Frames.{InEach, constants_in, AreSoundIn, ArePrefixes, IsToldIn};

use crate::givens::Givens;
use crate::parameter::parameter;
use crate::signal::signal;
use crate::symbol::{Symbol, SymbolError};
use lv_const::Consts;
use lv_declared::{Declaration, Thing};
use std::alloc::Global;

/// What one declaration makes of its name.
fn symbol(
    consts: &mut Consts,
    there: &Consts,
    givens: &Givens,
    declaration: &Declaration,
) -> Result<Symbol, SymbolError>
    ensures right { IfOk result (IsMade consts.old there.now consts.new (given_in givens.now (declared declaration.now)) (declared declaration.now)) }
    ensures wrong { IfErr result (IsNotMade consts.old there.now (given_in givens.now (declared declaration.now)) (declared declaration.now)) }
    ensures kept { OnErr result (consts.new ≡ consts.old) }
{
    let name = declaration.name;
    match declaration.thing {
        Thing::Direction(_, _, signed, range) => signal(consts, signed, range, &None, name.place),
        Thing::Wire(signed, range) => signal(consts, signed, range, &None, name.place),
        Thing::Reg(signed, range, array) => signal(consts, signed, range, array, name.place),
        Thing::Parameter(local, signed, range, value) => {
            match parameter(consts, there, givens, name, local, signed, range, value) {
                Err(error) => Err(error),
                Ok(()) => Ok(Symbol::Constant),
            }
        }
        Thing::Index(genvar) => Ok(Symbol::Index(genvar)),
        Thing::Instance => Ok(Symbol::Other),
        Thing::Label => Ok(Symbol::Other),
    }
}

/// The symbol of one more declaration behind the others.
fn add(
    consts: &mut Consts,
    there: &Consts,
    givens: &Givens,
    declaration: &Declaration,
    symbols: &mut Vec<Symbol>,
) -> Result<(), SymbolError>
    ensures right { OnOk result ((s : Symbol) × (symbols.new.items ≡ symbols.old.items ++ s ∷ []) ×
        IsMade consts.old there.now consts.new (given_in givens.now (declared declaration.now)) (declared declaration.now) s) }
    ensures wrong { IfErr result (IsNotMade consts.old there.now (given_in givens.now (declared declaration.now)) (declared declaration.now)) }
    ensures kept { OnErr result (consts.new ≡ consts.old) }
{
    if symbols.reserve(1).is_err() {
        return Err(SymbolError::NoMemory);
    }
    match symbol(consts, there, givens, declaration) {
        Err(error) => Err(error),
        Ok(symbol) => {
            symbols.push_reserved(symbol);
            Ok(())
        }
    }
}

/// What the declarations of a scope make of their names, in order (IEEE 1364-2005, sections 4.3, 4.10 and 12.2), in each scope that has
/// them: its constants so far are those that are declared before its first declaration, and `there` those where the values that an
/// instance gives are read. One constant for each parameter is added; after an error the constants are unchanged. `Own` is told of a
/// declaration where it stands, `Given` of a value that an instance gives it.
pub fn declare(
    alloc: Global,
    consts: &mut Consts,
    there: &Consts,
    givens: &Givens,
    declarations: &[Declaration],
) -> Result<Vec<Symbol>, SymbolError>
    ensures symbols { IfOk result (λ xs. InEach consts.old there.now givens.now (all_declared declarations.now) (λ f.
        xs.items ≡ map (symbol_of (constants_in f)) (all_declared declarations.now))) }
    ensures here { IfOk result (λ xs. InEach consts.old there.now givens.now (all_declared declarations.now) (λ f.
        xs.items ≡ map (symbol_of f.scope.names) (all_declared declarations.now))) }
    ensures sound { OnOk result (InEach consts.old there.now givens.now (all_declared declarations.now) (λ f.
        AreSoundIn f (all_declared declarations.now))) }
    ensures constants { OnOk result (InEach consts.old there.now givens.now (all_declared declarations.now) (λ f.
        AreDeclared (names_of consts.new) (here_at f.scope (length declarations.now)))) }
    ensures prefixes { OnOk result (InEach consts.old there.now givens.now (all_declared declarations.now) (λ f.
        ArePrefixes consts.old consts.new f (all_declared declarations.now))) }
    ensures added { OnOk result ((es : List Entry) × (consts.new ≡ consts.old ++ es) × (length es ≡ parameters_in (all_declared declarations.now))) }
    ensures wrong { IfErr result (λ y. InEach consts.old there.now givens.now (all_declared declarations.now) (λ f.
        IsToldIn f (all_declared declarations.now) y)) }
    ensures kept { OnErr result (consts.new ≡ consts.old) }
{
    let len = consts.len();
    let mut symbols = Vec::new(alloc);
    for declaration in declarations {
        match add(consts, there, givens, declaration, &mut symbols) {
            Ok(()) => {}
            Err(error) => {
                consts.cut(len);
                return Err(error);
            }
        }
    }
    Ok(symbols)
}
