use lv_ast::{Conn, Ident, Inst, Item, Module};
use lv_resolve::ResolveError;
use sqlite_items::Items;

/// What stands below a scope (IEEE 1364-2005, sections 12.1 and 12.4).
#[derive(Clone, Copy)]
pub enum Child<'a> {
    /// An instance, with its module and the settings of its parameters.
    Instance(&'a Module, &'a Items<Conn>, &'a Inst),
    /// A turn of a loop: its index, its label, its items, and the value of the index.
    Turn(&'a Ident, &'a Ident, &'a Items<Item>, u32),
}

/// Why what stands below a scope is not told, with a place in the text.
#[derive(Clone, Copy, Debug, PartialEq, Eq)]
pub enum ChildError {
    /// An instance of no module.
    UnknownModule(u64),
    /// An instance of a module that stands around it.
    Recursion(u64),
    /// A setting of a name that is no parameter which an instance can set.
    UnknownSetting(u64),
    /// A setting of a parameter that is set before, or behind the last parameter.
    Port(u64),
    /// A fault of the header of a loop, or want of memory.
    Fault(ResolveError),
    /// A loop has more turns than are allowed.
    Limit,
}
