ghost use Rattle.std.specs.Prelude.{◌≡◌, List, MatchOption, Some};
ghost use Rattle.lv_ast.specs.declared.item.Conn.{Conn};
ghost use Rattle.lv_ast.specs.declared.item.Module.{Module};
ghost use Rattle.lv_source.specs.Declarations.{of_module};
ghost use Rattle.lv_source.specs.Scopes.{Scope, settable_in};
ghost use Rattle.lv_flat.specs.Signals.{declared_all};
ghost use Rattle.lv_symbols.specs.Frames.{Frame, IsToldIn};
ghost use Rattle.lv_symbols.specs.declared.symbol.SymbolError.TheVariants.{Given};
ghost use Rattle.lv_links.specs.Linking.{link_of, all_links, AreLinked};
ghost use Rattle.lv_resolve.specs.Forms.{Anywhere};
ghost use Rattle.lv_late.specs.Accepted.{IsInstance};
ghost use Rattle.lv_late.specs.Settings.{kind_of, IsSettingFault, IsFormedValue, IsFaultyValue, IsFormedMaybe, IsFaultyMaybe, AreFormed, HasFaulty};

use lv_ast::Expr;
use lv_const::{ConstError, own_of};
use lv_faults::{ScopeError, of_node};
use lv_links::Linked;
use lv_resolve::{Bindings, Place, ResolveError, late_in};

/// A fault of a node that is no name, by its kind.
fn kind(error: ConstError) -> ResolveError
    ensures { result ≡ kind_of error }
{
    match error {
        ConstError::NoValue(place) => ResolveError::UnknownName(place),
        ConstError::ZeroDivisor(place) => ResolveError::ZeroDivisor(place),
        ConstError::Range(place) => ResolveError::Range(place),
    }
}

/// A fault of a value at whatever width it is taken: the first name that stands for no constant declared before, or why it has no width.
fn value_fault<B: Bindings>(place: &Place<B>, value: &Expr) -> Option<ResolveError>
    ensures { Anywhere (declared_all place.now.signals.now) (B.numbers place.now.bindings.now) place.now.all.now place.now.early.now (λ here.
        MatchOption result (IsFormedValue here value.now) (IsFaultyValue here value.now)) }
{
    if let Some(error) = late_in(place, value) {
        return Some(error);
    }
    match own_of(place.early, value) {
        Ok(_) => None,
        Err(error) => Some(kind(error)),
    }
}

/// Such a fault of a setting.
fn link_fault<B: Bindings>(place: &Place<B>, link: &Linked) -> Option<ResolveError>
    ensures { Anywhere (declared_all place.now.signals.now) (B.numbers place.now.bindings.now) place.now.all.now place.now.early.now (λ here.
        MatchOption result (IsFormedMaybe here (link_of link.now).conn.value) (IsFaultyMaybe here (link_of link.now).conn.value)) }
{
    match &link.conn.value {
        None => None,
        Some(value) => value_fault(place, value.get()),
    }
}

/// The first such fault of the settings.
fn any_fault<B: Bindings>(place: &Place<B>, links: &[Linked]) -> Option<ResolveError>
    ensures { Anywhere (declared_all place.now.signals.now) (B.numbers place.now.bindings.now) place.now.all.now place.now.early.now (λ here.
        MatchOption result (AreFormed here (all_links links.now)) (HasFaulty here (all_links links.now))) }
{
    for link in links {
        if let Some(error) = link_fault(place, link) {
            return Some(error);
        }
    }
    None
}

/// A fault that `declare` tells of a value which an instance gives a parameter, by its kind (IEEE 1364-2005, section 12.2), where the item of
/// the instance stands: `links` are its settings with their parameters.
pub fn setting_fault<B: Bindings>(
    place: &Place<B>,
    links: &[Linked],
    error: ConstError,
) -> ScopeError
    ensures { Anywhere (declared_all place.now.signals.now) (B.numbers place.now.bindings.now) place.now.all.now place.now.early.now (λ here.
        (s : Scope) (settings : List Conn) (m : Module) (f : Frame) → IsInstance here s settings m f → AreLinked (settable_in m) settings links.now →
        IsToldIn f (of_module m) (Given error) → IsSettingFault here s settings m result) }
{
    match any_fault(place, links) {
        Some(error) => of_node(error),
        None => of_node(kind(error)),
    }
}
