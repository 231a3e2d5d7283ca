ghost use Rattle.std.specs.Prelude.{◌≡◌, ◌≤◌, ◌<◌, true, [], ◌∷◌, ◌++◌, length, IfOk, IfErr, IsErrAnd, OnOk, List};
ghost use Rattle.lv_ast.specs.TokenLists.{BeginsWithMore, IsTokenListOf, IsTokenAt};
ghost use Rattle.lv_ast.specs.Tokens.{fits, token_bytes};
ghost use Rattle.lv_ast.specs.declared.tokens.Token.{Token};
ghost use Rattle.lv_lexer.specs.Refusals.{IsLexRefusal, IsRefusalOfMany, Stand};

use crate::bytes::skip;
use crate::error::LexError;
use crate::scan::{Piece, next_piece};
use lv_ast::{Token, Tokens};
use lv_bits::Text;
use sqlite_items::Items;
use std::alloc::Global;

/// A text has at most so many tokens.
pub const MOST_TOKENS: usize = 500_000;

// Takes the token at that place into the list.
fn take_token(bytes: &[u8], list: &mut Items<Token>, token: Token) -> Result<(), LexError>
    requires stand { Stand bytes.now list.old token.start }
    requires token { IsTokenAt bytes.now token }
    requires within { token.start ≤ length bytes.now }
    requires fits { fits token.kind (token_bytes bytes.now token) ≡ true }
    ensures ok { OnOk result (Stand bytes.now list.new token.end) }
    ensures err { IfErr result (IsLexRefusal bytes.now) }
    ensures many { BeginsWithMore MOST_TOKENS bytes.now → IfErr result IsRefusalOfMany }
{
    if list.len() == MOST_TOKENS {
        return Err(LexError::TooMany(MOST_TOKENS as u64 + 1));
    }
    match list.push(token) {
        Ok(()) => Ok(()),
        Err(_) => Err(LexError::NoMemory),
    }
}

// Reads what stands at that place, and gives the place behind it.
fn step(bytes: &[u8], place: usize, list: &mut Items<Token>) -> Result<usize, LexError>
    requires stand { Stand bytes.now list.old place }
    requires within { place < length bytes.now }
    ensures ok { IfOk result (λ next. (place < next) × (next ≤ length bytes.now)) }
    ensures stand { IfOk result (Stand bytes.now list.new) }
    ensures err { IfErr result (IsLexRefusal bytes.now) }
    ensures many { BeginsWithMore MOST_TOKENS bytes.now → IfErr result IsRefusalOfMany }
{
    match next_piece(skip(bytes, place)) {
        Piece::Gap(length) => Ok(place + length),
        Piece::Token(kind, length) => {
            let token = Token {
                kind,
                start: place as u64,
                end: (place + length) as u64,
            };
            take_token(bytes, list, token)?;
            Ok(place + length)
        }
        Piece::BadLiteral => Err(LexError::BadLiteral(place as u64)),
        Piece::BadByte => Err(LexError::BadByte(place as u64)),
        Piece::Unclosed => Err(LexError::Unclosed(place as u64)),
    }
}

/// The token list of a text: the longest token at each place, with `Line` and `Join` tokens, and without white space
/// and comments (IEEE 1364-2005, section 3). Each place in a refusal is one that white space, whole comments and
/// tokens lead to; `TooMany` carries the first number above the limit. A text that begins with more tokens than the
/// limit is told so, unless it has a bad literal or memory is wanted.
pub fn lex(alloc: Global, bytes: &[u8]) -> Result<Tokens, LexError>
    ensures text { IfOk result (λ tokens. tokens.text ≡ bytes.now) }
    ensures list { IfOk result (λ tokens. IsTokenListOf bytes.now tokens.list) }
    ensures only { IfOk result (λ tokens. (other : List Token) → IsTokenListOf bytes.now other → other ≡ tokens.list) }
    ensures few { IfOk result (λ tokens. length tokens.list ≤ MOST_TOKENS) }
    ensures refused { IfErr result (IsLexRefusal bytes.now) }
    ensures unrefused { OnOk result ((e : LexError) → IsLexRefusal bytes.now e → e ≡ LexError.NoMemory) }
    ensures many { BeginsWithMore MOST_TOKENS bytes.now → IsErrAnd result IsRefusalOfMany }
{
    let text = match Text::new(alloc, bytes) {
        Ok(text) => text,
        Err(_) => return Err(LexError::NoMemory),
    };
    let mut list = Items::new(alloc);
    let mut place = 0;
    while place < bytes.len() {
        place = step(bytes, place, &mut list)?;
    }
    Ok(Tokens { list, text })
}
