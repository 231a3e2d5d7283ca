ghost use Rattle.std.specs.Prelude.{◌≡◌, ◌<◌, ◌≤◌, ◌^◌};
ghost use Rattle.lv_clauses.specs.Literals.{IsWithin};
ghost use Rattle.lv_trail.specs.Store.{entries, IsSound};
ghost use Rattle.lv_trail.specs.Trail.{truths};
ghost use Rattle.lv_trail.specs.Search.{IsOpenBut, IsBut};

use crate::lists::list_of;
use crate::store::Store;
use lv_clauses::Lit;

/// A literal that isn't false and isn't that of a list.
pub fn find_open(store: &Store, clause: &[Lit], but: u64) -> Option<Lit>
    requires sound { IsSound store.now }
    requires few { store.now.vars < 2 ^ 60 }
    requires within { IsWithin clause.now store.now.vars }
    ensures { IsOpenBut (truths (entries store.now)) clause.now but result }
{
    for x in clause {
        if list_of(*x) != but && !store.is_true(x.negated()) {
            return Some(*x);
        }
    }
    None
}

/// A literal that isn't that of a list, of the last level if there is one.
pub fn find_late(store: &Store, clause: &[Lit], but: u64) -> Option<Lit>
    requires sound { IsSound store.now }
    requires few { store.now.vars < 2 ^ 60 }
    requires within { IsWithin clause.now store.now.vars }
    ensures { IsBut clause.now but result }
{
    let mut found: Option<Lit> = None;
    for x in clause {
        if list_of(*x) != but {
            found = Some(*x);
            if store.level(x.var()) == store.level {
                break;
            }
        }
    }
    found
}
