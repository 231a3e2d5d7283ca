use lv_bits::{NoMemory, Text};
use std::alloc::AllocError;
use thiserror::Error;

/// Why bytes are no contract file.
#[derive(Debug, Drop, Error)]
pub enum ContractError {
    /// They are no TOML document.
    #[error("the contract file is no TOML document")]
    Toml,
    /// A needed key is absent, or a key is unknown.
    #[error("a key of the contract file is absent or unknown")]
    Key(Text),
    /// The value at this key is not of its kind or not in its range.
    #[error("a value of the contract file is of another kind or out of its range")]
    Value(Text),
    /// The key, the entry and a byte of a text that spells no expression.
    #[error("byte {2} of entry {1} of the contract file goes on with no expression")]
    Expr(Text, u64, u64),
    #[error("out of memory")]
    NoMemory,
}

impl From<NoMemory> for ContractError {
    ghost use Rattle.std.specs.Prelude.{◌≡◌};
    ghost use Rattle.lv_contract.specs.declared.error.ContractError.TheVariants as variant;

    ghost from_gives = { λ _ e. e ≡ variant.NoMemory };

    fn from(_: NoMemory) -> ContractError {
        ContractError::NoMemory
    }
}

impl From<AllocError> for ContractError {
    ghost use Rattle.std.specs.Prelude.{◌≡◌};
    ghost use Rattle.lv_contract.specs.declared.error.ContractError.TheVariants as variant;

    ghost from_gives = { λ _ e. e ≡ variant.NoMemory };

    fn from(_: AllocError) -> ContractError {
        ContractError::NoMemory
    }
}
