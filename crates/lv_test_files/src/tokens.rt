//! Tokens and directives. In a row the answer stands before `=>`, and in the text `%` stands for a newline and `CRLF` for a
//! carriage return and a newline.
use lv_ast::Tokens;
use lv_lexer::{DirectiveError, LexError, directives, lex};
use std::alloc::{AllocError, Global};
use std::test::Fail;

fn spelled(alloc: Global, text: &str) -> Result<String, Fail> {
    let text = text.replace(alloc, "CRLF", "\r\n")?;
    Ok(text.replace(alloc, "%", "\n")?)
}

fn listed(alloc: Global, tokens: &Tokens) -> Result<String, Fail> {
    let mut out = String::new(alloc);
    for token in tokens.list.as_slice() {
        let row = format!(in alloc; "{:?} {} {};", token.kind, token.start, token.end)?;
        out.push_str(row.as_str())?;
    }
    Ok(out)
}

/// The tokens of a text, or the refusal.
fn told(alloc: Global, text: &[u8]) -> Result<String, Fail> {
    match lex(alloc, text) {
        Ok(tokens) => listed(alloc, &tokens),
        Err(LexError::BadByte(place)) => Ok(format!(in alloc; "BadByte {place}")?),
        Err(LexError::BadLiteral(place)) => Ok(format!(in alloc; "BadLiteral {place}")?),
        Err(LexError::Unclosed(place)) => Ok(format!(in alloc; "Unclosed {place}")?),
        Err(LexError::TooMany(number)) => Ok(format!(in alloc; "TooMany {number}")?),
        Err(LexError::NoMemory) => Ok(format!(in alloc; "no memory")?),
    }
}

const TOKENS: &str = r#"Name 0 1;Mark 1 3;Name 3 4;=>a&&b
Mark 0 3;=>>>>
Mark 0 3;Mark 3 4;=><<<<
Mark 0 2;Mark 2 4;Mark 4 6;Mark 6 8;=>+:-:~^^~
Mark 0 1;Mark 1 2;Mark 2 4;Mark 4 5;=>(*===
Word 0 4;Name 5 10;Name 11 15;=>wire wires Wire
Name 0 4;System 5 12;Tick 13 15;=>_a$1 $signed `x
Escaped 0 5;Escaped 6 11;Line 11 12;=>\a//b \wire%
Number 0 1;Based 1 7;=>4'b1?z0
Based 0 4;Number 5 6;Based 7 12;=>'d12 8 'h ff
Based 0 4;Based 5 10;=>'sb1 'SO?7
Number 0 4;Based 4 9;Number 10 11;=>12_3'd1_2 3
Number 0 39;=>340282366920938463463374607431768211455
Based 0 34;=>'hffffffffffffffffffffffffffffffff
=>
Name 0 1;Line 4 5;Name 11 12;=>a//b%/*c%*/d
Name 0 1;=>a//b
=>/**/ /***/ /*/ */
Name 0 1;Join 1 3;Name 3 4;=>a\%b
Name 0 1;Join 1 4;Name 4 5;=>a\CRLFb
BadByte 2=>a "b"
BadByte 1=>4'b
BadByte 1=>4'b%1
BadByte 0=>'b_1
BadByte 0=>'dz
BadByte 2=>a \ b
BadByte 2=>a $ b
Unclosed 2=>a /* b
Unclosed 0=>/*/
BadLiteral 0=>340282366920938463463374607431768211456
BadLiteral 1=> 340282366920938463463374607431768211456
BadLiteral 1=>1'h1ffffffffffffffffffffffffffffffff
BadLiteral 0=>'o?000000000000000000000000000000000000000000"#;

#[test]
fn reads_tokens(rt: HostRuntime) -> Result<(), Fail> {
    let alloc = rt.alloc();
    for row in TOKENS.lines() {
        let (wanted, text) = row.split_once("=>").ok_or("no answer")?;
        let text = spelled(alloc, text)?;
        assert!(rt; told(alloc, text.as_bytes())?.as_str() == wanted, "{row}");
    }
    Ok(())
}

#[test]
fn limits_tokens(rt: HostRuntime) -> Result<(), Fail> {
    let alloc = rt.alloc();
    let Ok(many) = vec![in alloc; b'\n'; 500_001] else {
        return Err(Fail::from("no memory"));
    };
    assert!(rt; told(alloc, &many)?.as_str() == "TooMany 500001");
    assert!(rt; lex(alloc, &many[1..]).is_ok());
    Ok(())
}

/// The tokens that are left, each with a space behind it.
fn written(alloc: Global, text: &[u8], tokens: &Tokens) -> Result<Vec<u8>, Fail> {
    let mut out: Vec<u8> = Vec::new(alloc);
    for token in tokens.list.as_slice() {
        for at in token.start..token.end {
            if let Some(byte) = text.get(at as usize) {
                out.push(*byte)?;
            }
        }
        out.push(b' ')?;
    }
    Ok(out)
}

fn refusal(alloc: Global, error: DirectiveError) -> Result<Vec<u8>, Fail> {
    let text = match error {
        DirectiveError::UnknownMacro(place) => format!(in alloc; "UnknownMacro {place}")?,
        DirectiveError::Unbalanced(place) => format!(in alloc; "Unbalanced {place}")?,
        DirectiveError::Malformed(place) => format!(in alloc; "Malformed {place}")?,
        DirectiveError::Depth(place) => format!(in alloc; "Depth {place}")?,
        DirectiveError::TooMany(number) => format!(in alloc; "TooMany {number}")?,
        DirectiveError::NoMemory => format!(in alloc; "no memory")?,
    };
    let mut out = Vec::new(alloc);
    out.extend_from_slice(text.as_bytes())?;
    Ok(out)
}

/// What the directives of a text leave, or the refusal.
fn folds(alloc: Global, text: &[u8]) -> Result<Vec<u8>, Fail> {
    let Ok(tokens) = lex(alloc, text) else {
        return Err(Fail::from("no tokens"));
    };
    match directives(alloc, tokens) {
        Ok(folded) => written(alloc, text, &folded),
        Err(error) => refusal(alloc, error),
    }
}

const DIRECTIVES: &str = r#"a b c =>a%b \% c // d%
q ^ d ; =>`define X q ^ d%`X; // sum%
a b a b =>`define X a \% b%`X `X
[ ] =>`define X%[`X]
( a ) =>`define X (a)%`X
2 =>`define X 1%`define X 2%`X
2 3 =>`define X 1%`define Y `X 3%`define X 2%`Y
3 =>`define \% X \CRLF 3%`X
1 =>`define wire 1%`wire
=>`define X 1
b =>`define X 1%`undef X%`undef Y%`ifdef X a `else b `endif
a d =>`ifndef X a `elsif Y b `else c `endif d
b =>`define Y%`ifdef X a `elsif Y b `elsif Y c `else d `endif
c =>`ifdef X a `elsif Y b `else c `endif
c =>`ifdef X `ifdef Y a `else b `endif `unknown `define Z `else% c `endif
d =>`ifdef X `ifndef Y a `endif `endif d
b =>`define X%`ifdef X `ifdef Y a `else b `endif `else c `endif
a b =>`timescale 1/1 foo%a `default_nettype none%`resetall%b
b =>`ifdef \% X a `else b `endif
UnknownMacro 2=>a `X
UnknownMacro 10=>`define X `Y% `X
UnknownMacro 21=>`define X 1%`undef X%`X
Unbalanced 0=>`else
Unbalanced 1=> `endif
Unbalanced 0=>`elsif X
Unbalanced 15=>`ifdef X `else `else `endif
Unbalanced 15=>`ifdef X `else `elsif X `endif
Unbalanced 10=>`ifdef X a
Unbalanced 24=>`ifdef X `ifdef Y `endif
Malformed 0=>`ifdef%X
Malformed 2=>a `define 3
Malformed 0=>`define X(a) a
Malformed 0=>`define else 1
Malformed 0=>`define X `ifdef Y%
Malformed 0=>`undef \X 
Depth 10=>`define X `X `X%`X"#;

#[test]
fn folds_directives(rt: HostRuntime) -> Result<(), Fail> {
    let alloc = rt.alloc();
    for row in DIRECTIVES.lines() {
        let (wanted, text) = row.split_once("=>").ok_or("no answer")?;
        let text = spelled(alloc, text)?;
        assert!(rt;
            folds(alloc, text.as_bytes())?.as_slice() == wanted.as_bytes(),
            "{row}"
        );
    }
    Ok(())
}

fn name(text: &mut Vec<u8>, length: usize) -> Result<(), AllocError> {
    for _ in 0..length {
        text.push(b'm')?;
    }
    Ok(())
}

// Macros m, mm and so on: the first gives `;`, each other one so many uses of the one before. At the end a use of the
// last.
fn chain(alloc: Global, count: usize, uses: usize) -> Result<Vec<u8>, AllocError> {
    let mut text = Vec::new(alloc);
    for n in 1..=count {
        text.extend_from_slice(b"`define ")?;
        name(&mut text, n)?;
        text.push(b' ')?;
        if n == 1 {
            text.push(b';')?;
        } else {
            for _ in 0..uses {
                text.push(b'`')?;
                name(&mut text, n - 1)?;
            }
        }
        text.push(b'\n')?;
    }
    text.push(b'`')?;
    name(&mut text, count)?;
    Ok(text)
}

#[test]
fn nests_uses(rt: HostRuntime) -> Result<(), Fail> {
    let alloc = rt.alloc();
    assert!(rt; folds(alloc, chain(alloc, 64, 1)?.as_slice())?.as_slice() == b"; ".as_slice());
    assert!(rt;
        folds(alloc, chain(alloc, 65, 1)?.as_slice())?.as_slice() == b"Depth 23".as_slice()
    );
    // the limit ends it: the last macro would give 2 ^ 30 tokens
    let doubled = chain(alloc, 31, 2)?;
    assert!(rt; folds(alloc, doubled.as_slice())?.as_slice() == b"TooMany 500001".as_slice());
    Ok(())
}
