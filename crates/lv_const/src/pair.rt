use lv_bits::Word;

/// Two operands at one type; what makes a pair gives them one width.
#[derive(Clone, Copy)]
pub struct Pair {
    pub left: Word,
    pub right: Word,
    pub signed: bool,
}
