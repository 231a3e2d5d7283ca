ghost use Rattle.std.specs.Prelude.{◌≡◌};
ghost use Rattle.lv_exprs.specs.Levels as levels;

/// The operators' marks (IEEE 1364-2005, section 5.1).
#[derive(Clone, Copy)]
pub enum Sign {
    Plus,
    Minus,
    Tilde,
    Bang,
    Amp,
    Bar,
    Caret,
    TildeAmp,
    TildeBar,
    TildeCaret,
    CaretTilde,
    BarBar,
    AmpAmp,
    EqualEqual,
    BangEqual,
    Less,
    LessEqual,
    Greater,
    GreaterEqual,
    LessLess,
    LessLessLess,
    GreaterGreater,
    GreaterGreaterGreater,
    Star,
    Slash,
    Percent,
}

/// What stands between the two numbers of a part select: `:`, `+:` or `-:`.
#[derive(Clone, Copy)]
pub enum Divider {
    Colon,
    Up,
    Down,
}

/// A name: its bytes are those of the text from `start` to the byte before `end`.
#[derive(Clone, Copy)]
pub struct Name {
    /// The byte where its token begins.
    pub place: u64,
    pub start: u64,
    pub end: u64,
}

/// A decimal number.
#[derive(Clone, Copy)]
pub struct Number {
    pub place: u64,
    pub value: u128,
}

/// A based token, at 128 bits: where its leftmost digit is free, so are all bits above.
#[derive(Clone, Copy)]
pub struct Based {
    pub place: u64,
    pub signed: bool,
    pub value: u128,
    pub wild: u128,
}

/// What a token is to an expression.
#[derive(Clone, Copy)]
pub enum Symbol {
    Name(Name),
    Number(Number),
    Based(Based),
    /// `$signed` or `$unsigned`.
    Cast(bool),
    Sign(Sign),
    Divider(Divider),
    Question,
    Dot,
    Comma,
    LeftParen,
    RightParen,
    LeftBracket,
    RightBracket,
    LeftBrace,
    RightBrace,
    /// No expression has this token.
    Other,
}

impl Sign {
    /// How tightly it binds between two operands, 2 for `||` to 11 for `*`; 0 where it can't stand there.
    pub fn level(self) -> u8
        ensures { result ≡ levels.level self }
    {
        match self {
            Sign::BarBar => 2,
            Sign::AmpAmp => 3,
            Sign::Bar => 4,
            Sign::Caret | Sign::TildeCaret | Sign::CaretTilde => 5,
            Sign::Amp => 6,
            Sign::EqualEqual | Sign::BangEqual => 7,
            Sign::Less | Sign::LessEqual | Sign::Greater | Sign::GreaterEqual => 8,
            Sign::LessLess | Sign::LessLessLess => 9,
            Sign::GreaterGreater | Sign::GreaterGreaterGreater => 9,
            Sign::Plus | Sign::Minus => 10,
            Sign::Star | Sign::Slash | Sign::Percent => 11,
            _ => 0,
        }
    }

    /// Whether it may stand before an operand.
    pub fn leads(self) -> bool
        ensures { result ≡ levels.leads self }
    {
        match self {
            Sign::Plus | Sign::Minus | Sign::Tilde | Sign::Bang => true,
            Sign::Amp | Sign::Bar | Sign::Caret => true,
            Sign::TildeAmp | Sign::TildeBar | Sign::TildeCaret | Sign::CaretTilde => true,
            _ => false,
        }
    }

    /// How many nodes it makes before an operand.
    pub fn weight(self) -> u32
        ensures { result ≡ levels.weight self }
    {
        match self {
            Sign::Plus => 0,
            Sign::TildeAmp | Sign::TildeBar | Sign::TildeCaret | Sign::CaretTilde => 2,
            _ => 1,
        }
    }
}
