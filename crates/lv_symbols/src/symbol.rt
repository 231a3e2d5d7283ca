use lv_const::ConstError;

/// What a declaration makes of its name.
#[derive(Clone, Copy, Debug)]
pub enum Symbol {
    /// A port, a net or a variable: whether it is declared with a range, whether it is signed, its bounds, and those of its
    /// elements where it is an array.
    Signal(bool, bool, (u32, u32), Option<(u32, u32)>),
    /// A parameter, whose value is among the constants.
    Constant,
    /// The index of a loop: whether it is a genvar.
    Index(bool),
    /// An instance or a label.
    Other,
}

/// Why a declaration makes nothing of its name.
#[derive(Clone, Copy, Debug, PartialEq, Eq)]
pub enum SymbolError {
    /// A range that is not allowed, told at the name, or a fault of a node of a range or of a parameter's own value.
    Own(ConstError),
    /// A fault of a node of the value that an instance gives a parameter.
    Given(ConstError),
    NoMemory,
}
