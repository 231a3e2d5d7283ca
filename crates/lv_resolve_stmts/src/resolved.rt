ghost use Rattle.std.specs.Prelude.{◌≡◌, ◌++◌, ◌∷◌, [], IfOk, IfErr};
ghost use Rattle.lv_flat.specs.declared.stmt.FlatStmt.TheVariants as b;
ghost use Rattle.lv_resolve_stmts.specs.declared.error.StmtError.TheVariants.{NoMemory};
ghost use Rattle.lv_resolve_stmts.specs.Joins.{AreMore};

use crate::error::StmtError;
use lv_flat::FlatStmt;
use lv_held::Held;
use sqlite_items::{Boxed, Items};
use std::alloc::Global;

/// A flat statement, and the places of the clock names in it.
pub struct ResolvedStmt {
    pub stmt: Held<FlatStmt>,
    pub clocks: Items<u64>,
}

impl Drop for ResolvedStmt {
    fn drop(self) {
        let ResolvedStmt { stmt, clocks } = self;
        drop(stmt);
        drop(clocks);
    }
}

impl ResolvedStmt {
    pub fn into_parts(self) -> (Held<FlatStmt>, Items<u64>)
        ensures { result ≡ (self.stmt, self.clocks) }
    {
        let ResolvedStmt { stmt, clocks } = self;
        (stmt, clocks)
    }
}

/// Statements, one after another.
pub struct Stmts {
    pub stmts: Items<FlatStmt>,
    pub clocks: Items<u64>,
}

impl Drop for Stmts {
    fn drop(self) {
        let Stmts { stmts, clocks } = self;
        drop(stmts);
        drop(clocks);
    }
}

impl Stmts {
    pub fn into_parts(self) -> (Items<FlatStmt>, Items<u64>)
        ensures { result ≡ (self.stmts, self.clocks) }
    {
        let Stmts { stmts, clocks } = self;
        (stmts, clocks)
    }
}

/// None.
pub fn no_stmts(alloc: Global) -> Stmts
    ensures stmts { result.stmts ≡ [] }
    ensures clocks { result.clocks ≡ [] }
{
    Stmts {
        stmts: Items::new(alloc),
        clocks: Items::new(alloc),
    }
}

/// One more.
pub fn with_stmt(found: Stmts, one: ResolvedStmt) -> Result<Stmts, StmtError>
    ensures ok { IfOk result (λ f. AreMore found one f) }
    ensures err { IfErr result (λ x. x ≡ NoMemory) }
{
    let (mut stmts, mut clocks) = found.into_parts();
    let (stmt, more) = one.into_parts();
    if clocks.append(more).is_err() {
        return Err(StmtError::NoMemory);
    }
    if stmts.push(stmt.into_inner()).is_err() {
        return Err(StmtError::NoMemory);
    }
    Ok(Stmts { stmts, clocks })
}

/// Their block.
pub fn block_of(found: Stmts) -> ResolvedStmt
    ensures stmt { result.stmt ≡ b.Block found.stmts }
    ensures clocks { result.clocks ≡ found.clocks }
{
    let (stmts, clocks) = found.into_parts();
    ResolvedStmt {
        stmt: Held::new(FlatStmt::Block(stmts)),
        clocks,
    }
}

/// The statement that does nothing.
pub fn nothing(alloc: Global) -> ResolvedStmt
    ensures stmt { result.stmt ≡ b.Null }
    ensures clocks { result.clocks ≡ [] }
{
    ResolvedStmt {
        stmt: Held::new(FlatStmt::Null),
        clocks: Items::new(alloc),
    }
}

/// A value behind a pointer.
pub fn boxed<T: Drop>(alloc: Global, value: T) -> Result<Boxed<T>, StmtError>
    ensures ok { IfOk result (λ b. b ≡ value) }
    ensures err { IfErr result (λ e. e ≡ NoMemory) }
{
    match Boxed::new(alloc, value) {
        Ok(boxed) => Ok(boxed),
        Err(_) => Err(StmtError::NoMemory),
    }
}
