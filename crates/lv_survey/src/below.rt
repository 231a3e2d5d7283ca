use lv_children::Child;

/// What stands below a scope: the number of that scope, how many of its declarations stand before, and what it is.
#[derive(Clone, Copy)]
pub struct Below<'a> {
    pub parent: usize,
    pub before: usize,
    pub child: Child<'a>,
}
