use lv_bits::Text;
use lv_scopes::NameTable;

/// What a scope has from around it.
#[derive(Clone, Copy)]
pub struct Around<'a> {
    /// Its path, which the top has none of.
    pub path: &'a Text,
    /// Whether it is the top.
    pub top: bool,
    /// The names to which a clock is connected.
    pub connected: &'a NameTable,
}
