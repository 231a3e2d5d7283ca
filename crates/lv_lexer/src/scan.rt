ghost use Rattle.std.specs.Prelude.{◌≡◌, ◌==◌, ◌&&◌, ◌∷◌, ℕ, ◌<◌, ◌≤◌, false, IfSome, length, take, MatchOption};
ghost use Rattle.lv_ast.specs.Tokens as tokens;
ghost use Rattle.lv_ast.specs.TokenLists as lists;
ghost use Rattle.lv_lexer.specs.Fronts.{begins, begins_blank, IsFront, IsFound, IsNamed, mark_front};
ghost use Rattle.lv_lexer.specs.Pieces.{opening_of, IsPiece};

use crate::bytes::{
    Class, Lead, begins, front, is_base_digit, is_printed, lead_of, prefix, skip, split,
};
use crate::literal::fits;
use crate::words::{is_head, is_mark};
use lv_ast::{Kind, base_of, is_blank, is_keyword, is_letter, is_sign};

/// What begins at the front of a text, as far as comments go.
#[derive(Clone, Copy)]
pub enum Start {
    Other,
    /// A comment of so many bytes.
    Comment(usize),
    /// A block comment that never ends.
    Endless,
}

/// What stands at the front of a text.
#[derive(Clone, Copy)]
pub enum Piece {
    /// White space or a comment.
    Gap(usize),
    Token(Kind, usize),
    BadLiteral,
    BadByte,
    Unclosed,
}

fn is_block_end(byte: u8, after: &[u8]) -> bool
    ensures { result ≡ ((byte == 42) && begins 47 after.now) }
{
    byte == b'*' && begins(after, b'/')
}

// How many bytes a block comment has behind its first two.
fn block(rest: &[u8]) -> Option<usize>
    ensures value { result ≡ lists.block_length rest.now }
    ensures within { IfSome result (λ n. n ≤ length rest.now) }
{
    for (i, byte) in rest.iter().enumerate() {
        if is_block_end(*byte, skip(rest, i + 1)) {
            return Some(i + 2);
        }
    }
    None
}

fn after_slash(second: u8, after: &[u8]) -> Start
    ensures { opening_of result ≡ lists.opening (47 ∷ second ∷ after.now) }
{
    if second == b'/' {
        Start::Comment(2 + front(after, Class::Comment))
    } else if second == b'*' {
        match block(after) {
            Some(n) => Start::Comment(2 + n),
            None => Start::Endless,
        }
    } else {
        Start::Other
    }
}

fn after_first(first: u8, after: &[u8]) -> Start
    ensures { opening_of result ≡ lists.opening (first ∷ after.now) }
{
    if first != b'/' {
        return Start::Other;
    }
    match split(after) {
        Some((second, more)) => after_slash(second, more),
        None => Start::Other,
    }
}

fn opening(rest: &[u8]) -> Start
    ensures { opening_of result ≡ lists.opening rest.now }
{
    match split(rest) {
        Some((first, after)) => after_first(first, after),
        None => Start::Other,
    }
}

fn word(rest: &[u8]) -> Option<usize>
    ensures { IsFront tokens.is_word rest.now result }
{
    let (first, inner) = split(rest)?;
    if is_letter(first) {
        Some(1 + front(inner, Class::Inner))
    } else {
        None
    }
}

fn digits(rest: &[u8], base: u8) -> Option<usize>
    ensures { IsFront (tokens.is_digits base) rest.now result }
{
    let (first, more) = split(rest)?;
    if is_base_digit(base, first) {
        Some(1 + front(more, Class::Digits(base)))
    } else {
        None
    }
}

fn spaced_digits(rest: &[u8], base: u8) -> Option<usize>
    ensures { IsFront (λ s. tokens.is_digits base (tokens.without_blanks s)) rest.now result }
{
    let blanks = front(rest, Class::Blank);
    let length = digits(skip(rest, blanks), base)?;
    Some(blanks + length)
}

fn base_and_digits(rest: &[u8]) -> Option<usize>
    ensures { IsFront tokens.is_base_and_digits rest.now result }
{
    let (letter, after) = split(rest)?;
    let base = base_of(letter);
    if base == 0 {
        return None;
    }
    let length = spaced_digits(after, base)?;
    Some(1 + length)
}

fn based(rest: &[u8]) -> Option<usize>
    ensures { IsFront (λ s. tokens.is_base_and_digits (tokens.without_sign s)) rest.now result }
{
    let (first, after) = split(rest)?;
    if is_sign(first) {
        let length = base_and_digits(after)?;
        Some(1 + length)
    } else {
        base_and_digits(rest)
    }
}

fn is_mark_front(rest: &[u8], n: usize) -> bool
    ensures { result ≡ mark_front rest.now n }
{
    n <= rest.len() && is_mark(&rest[..n])
}

// The same for a mark of more than one byte, which few bytes begin.
fn is_long_mark(rest: &[u8], n: usize) -> bool
    requires { 1 < n }
    ensures { result ≡ mark_front rest.now n }
{
    match split(rest) {
        Some((first, _)) => {
            if is_head(first) {
                is_mark_front(rest, n)
            } else {
                false
            }
        }
        None => false,
    }
}

fn mark(rest: &[u8]) -> Option<usize>
    ensures { IsFront tokens.is_mark rest.now result }
{
    let three = is_long_mark(rest, 3);
    let two = is_long_mark(rest, 2);
    let one = is_mark_front(rest, 1);
    if three {
        Some(3)
    } else if two {
        Some(2)
    } else if one {
        Some(1)
    } else {
        None
    }
}

// Whether a carriage return stands before a newline.
fn is_return(first: u8, after: &[u8]) -> bool
    ensures { result ≡ ((first == 13) && begins 10 after.now) }
{
    first == b'\r' && begins(after, b'\n')
}

fn backslashed(rest: &[u8]) -> Option<(Kind, usize)>
    ensures { IsFound tokens.after_backslash rest.now result }
{
    let (first, after) = split(rest)?;
    if first == b'\n' {
        Some((Kind::Join, 1))
    } else if is_return(first, after) {
        Some((Kind::Join, 2))
    } else if is_printed(first) {
        Some((Kind::Escaped, 1 + front(after, Class::Printed)))
    } else {
        None
    }
}

fn named(rest: &[u8]) -> Option<(Kind, usize)>
    ensures { MatchOption result ((m : ℕ) → tokens.is_word (take m rest.now) ≡ false) (λ found. IsNamed rest.now found.0 found.1) }
{
    let length = word(rest)?;
    if is_keyword(prefix(rest, length)) {
        Some((Kind::Word, length))
    } else {
        Some((Kind::Name, length))
    }
}

// The longest token at the front.
fn token(rest: &[u8]) -> Option<(Kind, usize)>
    ensures { IsFound tokens.kind_of rest.now result }
{
    let (first, after) = split(rest)?;
    match lead_of(first) {
        Lead::Letter => named(rest),
        Lead::Digit => Some((Kind::Number, 1 + front(after, Class::Number))),
        Lead::Backslash => {
            let (kind, length) = backslashed(after)?;
            Some((kind, 1 + length))
        }
        Lead::Dollar => {
            let system = word(after)?;
            Some((Kind::System, 1 + system))
        }
        Lead::Accent => {
            let tick = word(after)?;
            Some((Kind::Tick, 1 + tick))
        }
        Lead::Apostrophe => {
            let based = based(after)?;
            Some((Kind::Based, 1 + based))
        }
        Lead::Newline => Some((Kind::Line, 1)),
        Lead::Other => {
            let mark = mark(rest)?;
            Some((Kind::Mark, mark))
        }
    }
}

fn begins_blank(rest: &[u8]) -> bool
    ensures { result ≡ begins_blank rest.now }
{
    !rest.is_empty() && is_blank(rest[0])
}

// White space or a token.
fn uncommented(rest: &[u8]) -> Piece
    requires { lists.opening rest.now ≡ lists.Nothing }
    ensures { IsPiece rest.now result }
{
    if begins_blank(rest) {
        return Piece::Gap(1);
    }
    match token(rest) {
        Some((kind, length)) => {
            if fits(kind, prefix(rest, length)) {
                Piece::Token(kind, length)
            } else {
                Piece::BadLiteral
            }
        }
        None => Piece::BadByte,
    }
}

pub fn next_piece(rest: &[u8]) -> Piece
    requires { 0 < length rest.now }
    ensures { IsPiece rest.now result }
{
    match opening(rest) {
        Start::Comment(length) => Piece::Gap(length),
        Start::Endless => Piece::Unclosed,
        Start::Other => uncommented(rest),
    }
}
