ghost use Rattle.std.specs.Prelude.{◌≡◌};

use lv_flat::FlatExpr;
use lv_held::Held;
use sqlite_items::Items;

/// A flat tree, and the places of the clock names in it.
pub struct Resolved {
    pub expr: Held<FlatExpr>,
    pub clocks: Items<u64>,
}

impl Drop for Resolved {
    fn drop(self) {
        let Resolved { expr, clocks } = self;
        drop(expr);
        drop(clocks);
    }
}

impl Resolved {
    /// Its fields.
    pub fn into_parts(self) -> (Held<FlatExpr>, Items<u64>)
        ensures { result ≡ (self.expr, self.clocks) }
    {
        let Resolved { expr, clocks } = self;
        (expr, clocks)
    }
}
