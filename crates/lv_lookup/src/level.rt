use lv_bindings::Table;
use lv_bits::Text;

/// What stands around a turn of a loop: the scope of the loop by its number, and the name of the loop's index.
#[derive(Clone, Copy)]
pub struct Around<'a> {
    pub scope: usize,
    pub index: &'a Text,
}

/// The names of a scope; around a module there are none.
pub struct Level<'a> {
    pub table: Table,
    pub around: Option<Around<'a>>,
}

impl<'a> Drop for Level<'a> {
    fn drop(self) {
        let Level { table, around: _ } = self;
        drop(table);
    }
}
