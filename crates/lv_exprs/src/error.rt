use lv_bits::NoMemory;

/// Why tokens are not read.
#[derive(Debug, Drop)]
pub enum SyntaxError {
    /// There is no room for the tree.
    NoMemory,
    /// The number of a token: some expression's spelling begins with those before it and none with it too, and none is read.
    Syntax(usize),
    /// Each expression that begins with the tokens up to this one is higher than 200. Where paths are allowed it may also
    /// be the end of an expression that is higher.
    Depth(usize),
}

impl From<NoMemory> for SyntaxError {
    ghost use Rattle.std.specs.Prelude.{◌≡◌};
    ghost use Rattle.lv_exprs.specs.declared.error.SyntaxError.TheVariants as variant;

    ghost from_gives = { λ _ e. e ≡ variant.NoMemory };

    fn from(_: NoMemory) -> SyntaxError {
        SyntaxError::NoMemory
    }
}
