//! What the expressions and names of a contract file are kept as.

ghost use Rattle.std.specs.Prelude.{IsTrue, length, nat_le};
ghost use Rattle.lv_contract.specs.declared.key.Key.TheVariants as k;
ghost use Rattle.lv_contract.specs.Values.{is_printable};
ghost use Rattle.lv_contract.specs.Ranges.{in_count};
ghost use Rattle.lv_contract.specs.Expressions.{IsExpression};

use lv_ast::Expr;
use lv_bits::Text;
use lv_held::Held;
use sqlite_items::Items;

/// An expression, as it stands in the file and as the tree that this text spells. Names in it may be paths; it is no literal
/// with free bits and no higher than 200.
pub struct Named {
    pub text: Text,
    pub expr: Held<Expr>,
    ghost printable: { IsTrue (is_printable text) },
    ghost spelled: { ∥ IsExpression text expr ∥₁ },
}

impl Drop for Named {
    fn drop(self) {
        let Named { text, expr } = self;
        drop(text);
        drop(expr);
    }
}

/// An entry of `candidates.when`.
pub struct Guarded {
    pub guard: Named,
    pub expr: Named,
}

impl Drop for Guarded {
    fn drop(self) {
        let Guarded { guard, expr } = self;
        drop(guard);
        drop(expr);
    }
}

/// A port at which instructions retire: a condition, and what may be seen where it is met.
pub struct PortText {
    pub retire: Named,
    pub contract: Items<Named>,
    ghost counted: { IsTrue (in_count k.Contract (length contract)) },
}

impl Drop for PortText {
    fn drop(self) {
        let PortText { retire, contract } = self;
        drop(retire);
        drop(contract);
    }
}

/// A first value of a register.
pub struct SimState {
    pub register: Text,
    pub value: Named,
    ghost printable: { IsTrue (is_printable register) },
}

impl Drop for SimState {
    fn drop(self) {
        let SimState { register, value } = self;
        drop(register);
        drop(value);
    }
}

/// The values of an input, one per cycle from the first on.
pub struct SimInput {
    pub input: Text,
    pub values: Items<Named>,
    ghost printable: { IsTrue (is_printable input) },
    ghost few: { IsTrue (nat_le (length values) 10000) },
}

impl Drop for SimInput {
    fn drop(self) {
        let SimInput { input, values } = self;
        drop(input);
        drop(values);
    }
}
