use lv_ast::{Conn, Ident};

/// A connection with the name of its port, or of its parameter.
#[derive(Clone, Copy)]
pub struct Linked<'a> {
    pub port: &'a Ident,
    pub conn: &'a Conn,
}

/// Why connections have no ports, with a place in the text.
#[derive(Clone, Copy, Debug, PartialEq, Eq)]
pub enum LinkError {
    /// A name that is not listed.
    Unlisted(u64),
    /// An ordered connection beyond the last name.
    Extra(u64),
    /// A connection of a port that an earlier one has.
    Twice(u64),
    NoMemory,
}
