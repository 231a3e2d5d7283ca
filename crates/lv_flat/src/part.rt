use crate::expr::FlatExpr;
use crate::stmt::{FlatName, FlatStmt, FlatTarget};
use lv_bits::Text;
use lv_held::Held;
use sqlite_items::Items;

/// What a part does.
#[derive(Drop)]
pub enum FlatBody {
    /// A continuous assignment, or the connection of a port.
    Assign(FlatTarget, Held<FlatExpr>),
    Combinational(Held<FlatStmt>),
    /// With the name behind `posedge`.
    Clocked(FlatName, Held<FlatStmt>),
}

/// An assignment, a connection or a block, with the path of its scope and its place in the text.
pub struct FlatPart {
    pub path: Text,
    pub place: u64,
    /// The places of clock names in its expressions and targets.
    pub clocks: Items<u64>,
    pub body: FlatBody,
}

impl Drop for FlatPart {
    fn drop(self) {
        let FlatPart {
            path,
            place: _,
            clocks,
            body,
        } = self;
        drop(path);
        drop(clocks);
        drop(body);
    }
}
