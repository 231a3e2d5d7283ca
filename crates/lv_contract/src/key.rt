//! The keys of a contract file.

ghost use Rattle.std.specs.Prelude.{◌≡◌};
ghost use Rattle.lv_contract.specs.Keys.{row, name_of, kind_of, keys_of, prefix_of, is_needed};

use crate::need::Need;

/// The tables of a contract file: the whole file in format 1 and in format 2, and the tables inside.
#[derive(Clone, Copy, Debug, PartialEq, Eq)]
pub enum Level {
    First,
    Second,
    Initial,
    Candidates,
    Simulation,
    Port,
}

#[derive(Clone, Copy, Debug, PartialEq, Eq)]
pub enum Key {
    Format,
    Files,
    Top,
    Clock,
    Lookahead,
    Budget,
    Certificate,
    Cycles,
    Retire,
    Contract,
    Attacker,
    Assume,
    Port,
    Initial,
    Candidates,
    Simulation,
    Equal,
    Each,
    Registers,
    When,
    Aligned,
    SimulatedCycles,
    Show,
    State,
    Input,
}

/// What a value is, with the bounds that differ from key to key.
#[derive(Clone, Copy, Debug, PartialEq, Eq)]
pub enum Kind {
    /// An integer from the least to the greatest.
    Number(u64, u64),
    Truth,
    /// A string that isn't empty.
    Name,
    /// An array of 1 to 64 strings.
    Files,
    Expression,
    /// An array of at least so many expressions.
    Expressions(usize),
    /// An array of arrays of two expressions.
    Pairs,
    /// An array of arrays of a register and a constant.
    States,
    /// An array of arrays of an input and its constants.
    Inputs,
    Table,
    /// An array of 1 to 4 tables.
    Ports,
}

const TOP: [Key; 16] = [
    Key::Retire,
    Key::Contract,
    Key::Format,
    Key::Files,
    Key::Top,
    Key::Clock,
    Key::Lookahead,
    Key::Budget,
    Key::Certificate,
    Key::Cycles,
    Key::Attacker,
    Key::Assume,
    Key::Initial,
    Key::Candidates,
    Key::Simulation,
    Key::Port,
];

const INITIAL: [Key; 2] = [Key::Equal, Key::Each];

const CANDIDATES: [Key; 5] = [
    Key::Registers,
    Key::Equal,
    Key::When,
    Key::Each,
    Key::Aligned,
];

const SIMULATION: [Key; 4] = [Key::SimulatedCycles, Key::Show, Key::State, Key::Input];

const PORT: [Key; 2] = [Key::Retire, Key::Contract];

impl Level {
    /// The keys of the table.
    pub(crate) fn keys(self) -> &'static [Key]
        ensures { result.now ≡ keys_of self }
    {
        match self {
            Level::First => &TOP[..15],
            Level::Second => &TOP[2..],
            Level::Initial => &INITIAL,
            Level::Candidates => &CANDIDATES,
            Level::Simulation => &SIMULATION,
            Level::Port => &PORT,
        }
    }

    /// What a refusal writes before the name of a key of this table.
    pub(crate) fn prefix(self) -> &'static str
        ensures { result.now ≡ prefix_of self }
    {
        match self {
            Level::First => "",
            Level::Second => "",
            Level::Initial => "initial.",
            Level::Candidates => "candidates.",
            Level::Simulation => "sim.",
            Level::Port => "port.",
        }
    }
}

impl Key {
    pub(crate) fn name(self) -> &'static str
        ensures { result.now ≡ name_of self }
    {
        match self {
            Key::Format => "format",
            Key::Files => "files",
            Key::Top => "top",
            Key::Clock => "clock",
            Key::Lookahead => "lookahead",
            Key::Budget => "budget",
            Key::Certificate => "certificate",
            Key::Cycles => "cycles",
            Key::Retire => "retire",
            Key::Contract => "contract",
            Key::Attacker => "attacker",
            Key::Assume => "assume",
            Key::Port => "port",
            Key::Initial => "initial",
            Key::Candidates => "candidates",
            Key::Simulation => "sim",
            Key::Equal => "equal",
            Key::Each => "each",
            Key::Registers => "registers",
            Key::When => "when",
            Key::Aligned => "aligned",
            Key::SimulatedCycles => "cycles",
            Key::Show => "show",
            Key::State => "state",
            Key::Input => "input",
        }
    }

    pub(crate) fn kind(self) -> Kind
        ensures { result ≡ kind_of self }
    {
        match self {
            Key::Format => Kind::Number(1, 2),
            Key::Files => Kind::Files,
            Key::Top => Kind::Name,
            Key::Clock => Kind::Name,
            Key::Lookahead => Kind::Number(0, 32),
            Key::Budget => Kind::Number(0, 2_000_000),
            Key::Certificate => Kind::Name,
            Key::Cycles => Kind::Number(0, 64),
            Key::Retire => Kind::Expression,
            Key::Contract => Kind::Expressions(0),
            Key::Attacker => Kind::Expressions(1),
            Key::Assume => Kind::Expressions(0),
            Key::Port => Kind::Ports,
            Key::Initial => Kind::Table,
            Key::Candidates => Kind::Table,
            Key::Simulation => Kind::Table,
            Key::Equal => Kind::Expressions(0),
            Key::Each => Kind::Expressions(0),
            Key::Registers => Kind::Truth,
            Key::When => Kind::Pairs,
            Key::Aligned => Kind::Truth,
            Key::SimulatedCycles => Kind::Number(1, 10_000),
            Key::Show => Kind::Expressions(0),
            Key::State => Kind::States,
            Key::Input => Kind::Inputs,
        }
    }

    /// Whether the key may not be absent.
    pub(crate) fn is_needed(self, need: Need) -> bool
        ensures { result ≡ is_needed need self }
    {
        match self {
            Key::Format => true,
            Key::Files => true,
            Key::Top => true,
            Key::Clock => true,
            Key::Lookahead => true,
            Key::Certificate => need == Need::Certificate,
            Key::Retire => true,
            Key::Attacker => true,
            Key::Port => true,
            Key::Simulation => need == Need::Simulation,
            Key::SimulatedCycles => true,
            Key::Show => true,
            _ => false,
        }
    }
}
