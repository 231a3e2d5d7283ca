use lv_ast::{Expr, Ident, Range};
use lv_bits::{Text, Word};
use lv_const::{Const, ConstError, Consts};
use lv_exprs::read_expr;
use lv_held::Held;
use lv_lexer::lex;
use std::alloc::Global;
use std::test::Fail;

/// The tree of a text.
pub fn tree(alloc: Global, text: &str) -> Result<Held<Expr>, Fail> {
    let Ok(tokens) = lex(alloc, text.as_bytes()) else {
        return Err(Fail::from("no tokens"));
    };
    let Ok((expr, _)) = read_expr(alloc, &tokens, 0, false) else {
        return Err(Fail::from("no expression"));
    };
    Ok(Held::new(expr))
}

/// The range of two texts, or none where they are empty.
pub fn range(alloc: Global, left: &str, right: &str) -> Result<Option<Range>, Fail> {
    if left.is_empty() {
        return Ok(None);
    }
    let left = tree(alloc, left)?;
    let right = tree(alloc, right)?;
    Ok(Some(Range { left, right }))
}

pub fn ident(alloc: Global, name: &str, place: u64) -> Result<Ident, Fail> {
    let name = Text::new(alloc, name.as_bytes())?;
    Ok(Ident { name, place })
}

/// `n` is 5.
pub fn names(alloc: Global) -> Result<Consts, Fail> {
    let mut consts = Consts::new(alloc);
    let five = Const {
        word: Word::new(32, 5),
        signed: true,
        left: 31,
        right: 0,
    };
    let name = Text::new(alloc, b"n")?;
    consts.put(&name, Some(five))?;
    Ok(consts)
}

pub fn error_text(alloc: Global, error: ConstError) -> Result<String, Fail> {
    Ok(match error {
        ConstError::NoValue(place) => format!(in alloc; "none {}", place)?,
        ConstError::ZeroDivisor(place) => format!(in alloc; "zero {}", place)?,
        ConstError::Range(place) => format!(in alloc; "range {}", place)?,
    })
}

/// The width, the type and the value of a word.
pub fn word_text(alloc: Global, word: Word, signed: bool) -> Result<String, Fail> {
    let kind = if signed { "s" } else { "u" };
    Ok(format!(in alloc; "{} {} {}", word.width(), kind, word.value())?)
}

/// What a name stands for, with its bounds.
pub fn value_text(alloc: Global, consts: &Consts, name: &Text) -> Result<String, Fail> {
    let Some(value) = consts.get(name) else {
        return Err(Fail::from("no value"));
    };
    let word = word_text(alloc, value.word, value.signed)?;
    Ok(format!(in alloc; "{} {} {}", word, value.left, value.right)?)
}
