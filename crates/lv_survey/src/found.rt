ghost use Rattle.std.specs.Prelude.{◌≡◌};

use crate::below::Below;

/// What the items of a scope come to.
pub struct Survey<'a> {
    /// What stands below it, item by item.
    pub children: Vec<Below<'a>>,
    /// How many of these there are up to and with each item.
    pub ends: Vec<usize>,
    /// The turns that are left.
    pub turns: u64,
    /// The nodes that are left.
    pub nodes: u64,
}

impl<'a> Drop for Survey<'a> {
    fn drop(self) {
        let Survey {
            children,
            ends,
            turns: _,
            nodes: _,
        } = self;
        drop(children);
        drop(ends);
    }
}

impl<'a> Survey<'a> {
    /// What stands below it, and how many of these there are up to and with each item.
    pub fn into_parts(self) -> (Vec<Below<'a>>, Vec<usize>)
        ensures { result ≡ (self.entry.children, self.entry.ends) }
    {
        let Survey {
            children,
            ends,
            turns: _,
            nodes: _,
        } = self;
        (children, ends)
    }
}
