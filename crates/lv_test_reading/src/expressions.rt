//! Expressions: the trees are written by hand, as their canonical texts, in which each node has its parentheses.
use crate::rows::refused;
use crate::shapes::repeated;
use lv_ast::Expr;
use lv_bits::{Op, Text};
use lv_exprs::read_expr;
use lv_held::Held;
use lv_lexer::lex;
use lv_print::print_expr;
use std::alloc::Global;
use std::str;
use std::test::Fail;

/// How an operator is spelled.
pub fn op_text(op: Op) -> &'static str {
    match op {
        Op::Neg => "-",
        Op::Not => "~",
        Op::LogNot => "!",
        Op::RedAnd => "&",
        Op::RedOr => "|",
        Op::RedXor => "^",
        Op::Add => "+",
        Op::Sub => "-",
        Op::Mul => "*",
        Op::Shl => "<<",
        Op::Shr => ">>",
        Op::Sar => ">>>",
        Op::Lt => "<",
        Op::Le => "<=",
        Op::Gt => ">",
        Op::Ge => ">=",
        Op::Eq => "==",
        Op::Ne => "!=",
        Op::And => "&",
        Op::Or => "|",
        Op::Xor => "^",
        Op::Xnor => "~^",
        Op::LogAnd => "&&",
        Op::LogOr => "||",
    }
}

fn word(text: &Text) -> Result<&str, Fail> {
    match str::from_utf8(text.bytes()) {
        Ok(word) => Ok(word),
        Err(_) => Err("no text")?,
    }
}

/// The number of tokens and, where it is wanted, the tree.
fn accepted(alloc: Global, tree: Held<Expr>, end: usize, shown: bool) -> Result<String, Fail> {
    if !shown {
        return Ok(format!(in alloc; "{end}")?);
    }
    let Ok(text) = print_expr(alloc, tree.get()) else {
        return Err(Fail::from("no memory"));
    };
    Ok(format!(in alloc; "{end} {}", word(&text)?)?)
}

/// What reading a text gives, or the refusal.
fn answer(alloc: Global, text: &[u8], paths: bool, shown: bool) -> Result<String, Fail> {
    let Ok(tokens) = lex(alloc, text) else {
        return Err(Fail::from("no tokens"));
    };
    match read_expr(alloc, &tokens, 0, paths) {
        Ok((tree, end)) => accepted(alloc, Held::new(tree), end, shown),
        Err(error) => refused(alloc, error),
    }
}

/// The answer stands before `@`.
const ROWS: &str = r#"1 a@a ;
syntax 2@a + ;
syntax 0@
syntax 0@;
syntax 2@a +
syntax 2@( a
1 a@a )
1 a@a b
5 ( a || ( b && c ) )@a || b && c
5 ( ( a && b ) || c )@a && b || c
5 ( a && ( b | c ) )@a && b | c
5 ( ( a | b ) && c )@a | b && c
5 ( a | ( b ^ c ) )@a | b ^ c
5 ( ( a ^ b ) | c )@a ^ b | c
5 ( a ^ ( b & c ) )@a ^ b & c
5 ( ( a & b ) ~^ c )@a & b ^~ c
5 ( a & ( b == c ) )@a & b == c
5 ( ( a != b ) & c )@a != b & c
5 ( a == ( b < c ) )@a == b < c
5 ( ( a <= b ) != c )@a <= b != c
5 ( a > ( b << c ) )@a > b << c
5 ( ( a >> b ) >= c )@a >> b >= c
5 ( a << ( b + c ) )@a <<< b + c
5 ( ( a - b ) >>> c )@a - b >>> c
5 ( a + ( b * c ) )@a + b * c
5 ( ( a / b ) - c )@a / b - c
5 ( ( a || b ) || c )@a || b || c
5 ( ( a && b ) && c )@a && b && c
5 ( ( a | b ) | c )@a | b | c
5 ( ( a ^ b ) ~^ c )@a ^ b ~^ c
5 ( ( a & b ) & c )@a & b & c
5 ( ( a == b ) != c )@a == b != c
5 ( ( a < b ) >= c )@a < b >= c
5 ( ( a << b ) >> c )@a << b >> c
5 ( ( a - b ) + c )@a - b + c
7 ( ( ( a * b ) / c ) % d )@a * b / c % d
9 ( a ? b : ( c ? d : e ) )@a ? b : c ? d : e
9 ( a ? ( b ? c : d ) : e )@a ? b ? c : d : e
7 ( ( a || b ) ? c : d )@a || b ? c : d
syntax 3@a ? b ;
5 ( ( - a ) + ( ~ b ) )@- a + ~ b
3 ( ! ( & a ) )@! & a
2 ( ! ( & a ) )@~& a
2 ( ! ( | a ) )@~| a
2 ( ! ( ^ a ) )@~^ a
2 ( ! ( ^ a ) )@^~ a
1 a@a ~& b
5 ( a + b )@a + + + b
6 a@+ ( ( a ) )
syntax 1@~ ;
5 { a , b }@{ a , b }
syntax 5@{ a , b , }
syntax 1@{ }
6 { 2 { a } }@{ 2 { a } }
6 { a { b } }@{ a { b } }
8 { 2 { a , b } }@{ 2 { a , b } }
syntax 5@{ 2 { a } ;
syntax 4@{ a , 2 { b } }
11 { { a } , { b , c } }@{ { a } , { b , c } }
4 $signed ( a )@$signed ( a )
6 $unsigned ( ( a + b ) )@$unsigned ( a + b )
syntax 1@$signed a
syntax 0@$other ( a )
4 a [ 1 ]@a [ 1 ]
6 a [ 3 : 0 ]@a [ 3 : 0 ]
6 a [ i +: 4 ]@a [ i +: 4 ]
6 a [ i -: 4 ]@a [ i -: 4 ]
7 m [ 1 ] [ 2 ]@m [ 1 ] [ 2 ]
12 m [ 1 ] [ 2 ] [ 3 : 0 ]@m [ 1 ] [ 2 ] [ 3 : 0 ]
3 a@( a ) [ 1 ]
3 { a }@{ a } [ 1 ]
8 a [ ( b ? c : d ) ]@a [ b ? c : d ]
syntax 5@a [ 1 +: 2 : 3 ]
4 \a+b [ 1 ]@\a+b [ 1 ]
1 7@7
2 4'h1@4 'b1
1 'sh7b@'sd12_3
2 4'hf@4 'hfF
2 4'b1?@4 'b1? ;
2 8'b?@8 'bz
2 2'h1@2 'b?01
syntax 2@( 4 'b1? )
2 4@+ 4 'b1?
1 u0@u0 . v [ 3 ] . w [ 1 ]
4 v [ 3 ]@v [ 3 ] . w
6 ( v [ 3 ] + w )@v [ 3 ] + w
4 v [ a ]@v [ a ] . w
6 v [ 3 ]@v [ ( 3 ) ] . w
7 v [ 1 ] [ 3 ]@v [ 1 ] [ 3 ] . w
3 v@( v ) . w
1 v@v . 3"#;

/// The same, where names may be paths.
const PATHS: &str = r#"11 u0 . v [ 3 ] . w [ 1 ]@u0 . v [ 3 ] . w [ 1 ]
6 v [ 3 ] . w@v [ 3 ] . w
6 ( v [ 3 ] + w )@v [ 3 ] + w
4 v [ a ]@v [ a ] . w
6 v [ 3 ]@v [ ( 3 ) ] . w
7 v [ 1 ] [ 3 ]@v [ 1 ] [ 3 ] . w
3 v@( v ) . w
syntax 2@v . 3"#;

#[test]
fn reads_expressions(rt: HostRuntime) -> Result<(), Fail> {
    for (rows, paths) in [(ROWS, false), (PATHS, true)] {
        for row in rows.lines() {
            let (wanted, text) = row.split_once('@').ok_or("no answer")?;
            let given = answer(rt.alloc(), text.as_bytes(), paths, true)?;
            assert!(rt; given.as_str() == wanted, "{row}");
        }
    }
    Ok(())
}

/// A text by its parts between `@`, of which the first and the third are repeated.
fn deep(alloc: Global, times: u32, parts: &str) -> Result<String, Fail> {
    let mut text = String::new(alloc);
    for (at, part) in parts.split('@').enumerate() {
        repeated(&mut text, part, if at % 2 == 0 { times } else { 1 })?;
    }
    Ok(text)
}

/// The number of tokens that are read, or the refusal, how often a text is nested, and its three parts.
const HEIGHTS: &str = r#"199@198@~@a@
200@199@~@a@
depth 199@200@~@a@
397@198@@a@+a
399@199@@a@+a
depth 399@200@@a@+a
595@198@a[@a@]
598@199@a[@a@]
depth 399@200@a[@a@]
797@199@a?@a@:a
depth 399@200@a?@a@:a
depth 200@199@~@a[1]@
399@199@{@a@}
depth 199@200@{@a@}
996@199@{2{@a@}}
depth 597@200@{2{@a@}}
598@199@$signed(@a@)
depth 398@200@$signed(@a@)
depth 199@199@~@$unsigned(a)@
202@198@~@$unsigned(a)@
400001@200000@(@a@)
syntax 50001@50000@(@a@"#;

/// The same, where names may be paths.
const PATH_HEIGHTS: &str = r#"200@199@~@a@
depth 201@200@~@a@
205@199@~@a[1].a@
depth 203@199@~@a[1]@
202@198@~@a[1]@
depth 201@200@~@a[1].a@
150001@50000@+(@a@)"#;

#[test]
fn limits_heights(rt: HostRuntime) -> Result<(), Fail> {
    let alloc = rt.alloc();
    for (rows, paths) in [(HEIGHTS, false), (PATH_HEIGHTS, true)] {
        for row in rows.lines() {
            let (wanted, rest) = row.split_once('@').ok_or("no answer")?;
            let (times, parts) = rest.split_once('@').ok_or("no count")?;
            let text = deep(alloc, times.parse::<u32>()?, parts)?;
            let given = answer(alloc, text.as_bytes(), paths, false)?;
            assert!(rt; given.as_str() == wanted, "{row}");
        }
    }
    Ok(())
}
