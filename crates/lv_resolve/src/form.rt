ghost use Rattle.std.specs.Prelude.{◌≡◌, ◌++◌, [], IfOk, IfErr};
ghost use Rattle.lv_resolve.specs.declared.error.ResolveError.TheVariants.{NoMemory};

use crate::error::ResolveError;
use crate::operand::Operand;
use lv_ast::Expr;
use lv_flat::FlatExpr;
use lv_held::Held;
use sqlite_items::{Boxed, Items};
use std::alloc::Global;

/// A divisor, with the place where it begins.
pub struct Divisor {
    pub expr: Held<Expr>,
    pub place: u64,
}

impl Drop for Divisor {
    fn drop(self) {
        let Divisor { expr, place: _ } = self;
        drop(expr);
    }
}

/// What is noted of a tree: the places of its clock names, and the divisors that wait for the width and the sign that reach them.
pub struct Notes {
    pub clocks: Items<u64>,
    pub divisors: Items<Divisor>,
}

impl Drop for Notes {
    fn drop(self) {
        let Notes { clocks, divisors } = self;
        drop(clocks);
        drop(divisors);
    }
}

/// A flat tree with its notes.
pub struct Form {
    pub operand: Operand,
    pub notes: Notes,
}

impl Drop for Form {
    fn drop(self) {
        let Form { operand, notes } = self;
        drop(operand);
        drop(notes);
    }
}

/// Two trees with the notes of both.
pub struct Pair {
    pub left: Operand,
    pub right: Operand,
    pub notes: Notes,
}

impl Drop for Pair {
    fn drop(self) {
        let Pair { left, right, notes } = self;
        drop(left);
        drop(right);
        drop(notes);
    }
}

/// The operands of a concatenation, with their widths together.
pub struct Parts {
    pub exprs: Items<FlatExpr>,
    pub total: u128,
    pub constant: bool,
    pub notes: Notes,
}

impl Drop for Parts {
    fn drop(self) {
        let Parts {
            exprs,
            total: _,
            constant: _,
            notes,
        } = self;
        drop(exprs);
        drop(notes);
    }
}

/// A value behind a pointer.
pub fn boxed<T: Drop>(alloc: Global, value: T) -> Result<Boxed<T>, ResolveError>
    ensures ok { IfOk result (λ b. b ≡ value) }
    ensures err { IfErr result (λ e. e ≡ NoMemory) }
{
    match Boxed::new(alloc, value) {
        Ok(boxed) => Ok(boxed),
        Err(_) => Err(ResolveError::NoMemory),
    }
}

impl Notes {
    /// None.
    pub fn new(alloc: Global) -> Notes
        ensures clocks { result.clocks ≡ [] }
        ensures divisors { result.divisors ≡ [] }
    {
        Notes {
            clocks: Items::new(alloc),
            divisors: Items::new(alloc),
        }
    }

    /// These, and others behind them.
    pub fn with(self, more: Notes) -> Result<Notes, ResolveError>
        ensures clocks { IfOk result (λ n. n.clocks ≡ self.clocks ++ more.clocks) }
        ensures divisors { IfOk result (λ n. n.divisors ≡ self.divisors ++ more.divisors) }
        ensures err { IfErr result (λ e. e ≡ NoMemory) }
    {
        let Notes {
            mut clocks,
            mut divisors,
        } = self;
        let Notes {
            clocks: more_clocks,
            divisors: more_divisors,
        } = more;
        if clocks.append(more_clocks).is_err() {
            return Err(ResolveError::NoMemory);
        }
        if divisors.append(more_divisors).is_err() {
            return Err(ResolveError::NoMemory);
        }
        Ok(Notes { clocks, divisors })
    }

    pub fn of(clocks: Items<u64>, divisors: Items<Divisor>) -> Notes
        ensures clocks { result.clocks ≡ clocks }
        ensures divisors { result.divisors ≡ divisors }
    {
        Notes { clocks, divisors }
    }

    pub fn into_parts(self) -> (Items<u64>, Items<Divisor>)
        ensures { result ≡ (self.clocks, self.divisors) }
    {
        let Notes { clocks, divisors } = self;
        (clocks, divisors)
    }

    /// The clocks alone.
    pub fn without_divisors(self, alloc: Global) -> Notes
        ensures clocks { result.clocks ≡ self.clocks }
        ensures divisors { result.divisors ≡ [] }
    {
        let Notes { clocks, divisors } = self;
        drop(divisors);
        Notes {
            clocks,
            divisors: Items::new(alloc),
        }
    }
}

impl Form {
    pub fn into_parts(self) -> (Operand, Notes)
        ensures { result ≡ (self.operand, self.notes) }
    {
        let Form { operand, notes } = self;
        (operand, notes)
    }
}

impl Pair {
    pub fn into_parts(self) -> (Operand, Operand, Notes)
        ensures { result ≡ (self.left, self.right, self.notes) }
    {
        let Pair { left, right, notes } = self;
        (left, right, notes)
    }
}

impl Parts {
    pub fn into_parts(self) -> (Items<FlatExpr>, u128, bool, Notes)
        ensures { result ≡ (self.exprs, self.total, self.constant, self.notes) }
    {
        let Parts {
            exprs,
            total,
            constant,
            notes,
        } = self;
        (exprs, total, constant, notes)
    }
}
