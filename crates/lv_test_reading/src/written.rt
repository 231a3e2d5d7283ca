//! The canonical text of expressions.
use crate::expressions::op_text;
use lv_ast::{Expr, Literal, Path, PathStep, Select};
use lv_bits::{NoMemory, Op, Text};
use lv_print::print_expr;
use sqlite_items::{Boxed, Items};
use std::alloc::Global;
use std::test::Fail;

type Tree = Boxed<Expr>;

fn literal(alloc: Global, literal: Literal) -> Result<Tree, NoMemory> {
    Ok(Boxed::new(alloc, Expr::Lit(literal))?)
}

fn plain(alloc: Global, value: u128) -> Result<Tree, NoMemory> {
    literal(
        alloc,
        Literal {
            size: None,
            plain: true,
            signed: true,
            value,
            wild: 0,
            place: 3,
        },
    )
}

fn named(
    alloc: Global,
    steps: Items<PathStep>,
    bytes: &[u8],
    selects: Items<Select>,
) -> Result<Tree, NoMemory> {
    let path = Path {
        steps,
        name: Text::new(alloc, bytes)?,
        place: 5,
    };
    Ok(Boxed::new(alloc, Expr::Name(path, selects))?)
}

fn name(alloc: Global, bytes: &[u8]) -> Result<Tree, NoMemory> {
    named(alloc, Items::new(alloc), bytes, Items::new(alloc))
}

fn binary(alloc: Global, op: Op) -> Result<Tree, NoMemory> {
    let a = name(alloc, b"a")?;
    let b = name(alloc, b"b")?;
    Ok(Boxed::new(alloc, Expr::Bin(op, a, b))?)
}

fn unary(alloc: Global, op: Op) -> Result<Tree, NoMemory> {
    let a = name(alloc, b"a")?;
    Ok(Boxed::new(alloc, Expr::Un(op, a))?)
}

fn pair(alloc: Global) -> Result<Items<Expr>, NoMemory> {
    let mut parts = Items::new(alloc);
    parts.push(name(alloc, b"a")?.into_inner())?;
    parts.push(plain(alloc, 3)?.into_inner())?;
    Ok(parts)
}

fn step(alloc: Global, name: &[u8], index: Option<u128>) -> Result<PathStep, NoMemory> {
    Ok(PathStep {
        name: Text::new(alloc, name)?,
        index,
    })
}

/// `u[3].if.a[2][a:1][a +: 1][a -: 1]`
fn selected(alloc: Global) -> Result<Tree, NoMemory> {
    let mut steps = Items::new(alloc);
    steps.push(step(alloc, b"u", Some(3))?)?;
    steps.push(step(alloc, b"if", None)?)?;
    let mut selects = Items::new(alloc);
    selects.push(Select::Bit(plain(alloc, 2)?))?;
    let a = name(alloc, b"a")?;
    selects.push(Select::Part(a, plain(alloc, 1)?))?;
    let a = name(alloc, b"a")?;
    selects.push(Select::Up(a, plain(alloc, 1)?))?;
    let a = name(alloc, b"a")?;
    selects.push(Select::Down(a, plain(alloc, 1)?))?;
    named(alloc, steps, b"a", selects)
}

fn shows(alloc: Global, tree: Result<Tree, NoMemory>, text: &str) -> Result<bool, NoMemory> {
    let tree = tree?;
    let printed = print_expr(alloc, tree.get())?;
    Ok(printed.bytes() == text.as_bytes())
}

const BINARY: [Op; 18] = [
    Op::Add,
    Op::Sub,
    Op::Mul,
    Op::Shl,
    Op::Shr,
    Op::Sar,
    Op::Lt,
    Op::Le,
    Op::Gt,
    Op::Ge,
    Op::Eq,
    Op::Ne,
    Op::And,
    Op::Or,
    Op::Xor,
    Op::Xnor,
    Op::LogAnd,
    Op::LogOr,
];

const UNARY: [Op; 6] = [
    Op::Neg,
    Op::Not,
    Op::LogNot,
    Op::RedAnd,
    Op::RedOr,
    Op::RedXor,
];

#[test]
fn prints_operators(rt: HostRuntime) -> Result<(), Fail> {
    let alloc = rt.alloc();
    for op in BINARY.iter() {
        let text = format!(in alloc; "( a {} b )", op_text(*op))?;
        assert!(rt; matches!(shows(alloc, binary(alloc, *op), text.as_str()), Ok(true)));
    }
    for op in UNARY.iter() {
        let text = format!(in alloc; "( {} a )", op_text(*op))?;
        assert!(rt; matches!(shows(alloc, unary(alloc, *op), text.as_str()), Ok(true)));
    }
    Ok(())
}

/// Size, sign, value, free bits and text.
const LITERALS: &str = r#"- unsigned 0 0 'h0
- signed 255 0 'shff
8 unsigned 10 0 8'ha
128 signed 340282366920938463463374607431768211455 0 128'shffffffffffffffffffffffffffffffff
4 unsigned 8 7 4'b1???
4 unsigned 4 3 4'b1??
4 unsigned 0 15 4'b?
4 unsigned 1 12 4'b?01
4 signed 1 8 4'sb?001
4 unsigned 0 2 4'b0?0
- unsigned 1 340282366920938463463374607431768211454 'b?1
- unsigned 0 1 'b0?
200 unsigned 2 340282366920938463463374607431768211452 200'b?10"#;

fn of_row(row: &str) -> Result<(Literal, &str), Fail> {
    let (size, rest) = row.split_once(' ').ok_or("no size")?;
    let (sign, rest) = rest.split_once(' ').ok_or("no sign")?;
    let (value, rest) = rest.split_once(' ').ok_or("no value")?;
    let (wild, text) = rest.split_once(' ').ok_or("no free bits")?;
    let literal = Literal {
        size: if size == "-" {
            None
        } else {
            Some(size.parse::<u128>()?)
        },
        plain: false,
        signed: sign == "signed",
        value: value.parse::<u128>()?,
        wild: wild.parse::<u128>()?,
        place: 3,
    };
    Ok((literal, text))
}

#[test]
fn prints_literals(rt: HostRuntime) -> Result<(), Fail> {
    let alloc = rt.alloc();
    for row in LITERALS.lines() {
        let (read, text) = of_row(row)?;
        assert!(rt;
            matches!(shows(alloc, literal(alloc, read), text), Ok(true)),
            "{row}"
        );
    }
    assert!(rt; matches!(shows(alloc, plain(alloc, 1203), "1203"), Ok(true)));
    assert!(rt; matches!(shows(alloc, plain(alloc, 0), "0"), Ok(true)));
    Ok(())
}

/// A name, and behind `=>` its text.
const NAMES: &str = r#"a_1$=>a_1$
endmodule=>\endmodule 
a+b=>\a+b 
;=>\; 
1a=>\1a "#;

#[test]
fn prints_names(rt: HostRuntime) -> Result<(), Fail> {
    let alloc = rt.alloc();
    for row in NAMES.lines() {
        let (bytes, text) = row.split_once("=>").ok_or("no text")?;
        assert!(rt;
            matches!(shows(alloc, name(alloc, bytes.as_bytes()), text), Ok(true)),
            "{row}"
        );
    }
    let text = "u [ 3 ] . \\if . a [ 2 ] [ a : 1 ] [ a +: 1 ] [ a -: 1 ]";
    assert!(rt; matches!(shows(alloc, selected(alloc), text), Ok(true)));
    Ok(())
}

fn choice(alloc: Global) -> Result<Tree, NoMemory> {
    let c = unary(alloc, Op::LogNot)?;
    let a = Boxed::new(alloc, Expr::Cat(pair(alloc)?))?;
    let count = plain(alloc, 2)?;
    let b = Boxed::new(alloc, Expr::Rep(count, pair(alloc)?))?;
    Ok(Boxed::new(alloc, Expr::Cond(c, a, b))?)
}

fn quotient(alloc: Global) -> Result<Tree, NoMemory> {
    let a = name(alloc, b"a")?;
    let b = plain(alloc, 2)?;
    let rest = Boxed::new(alloc, Expr::Rem(a, b))?;
    let b = name(alloc, b"b")?;
    Ok(Boxed::new(alloc, Expr::Div(rest, b))?)
}

fn cast(alloc: Global, signed: bool, inner: Result<Tree, NoMemory>) -> Result<Tree, NoMemory> {
    let inner = inner?;
    Ok(Boxed::new(alloc, Expr::Cast(signed, inner))?)
}

#[test]
fn prints_other_forms(rt: HostRuntime) -> Result<(), Fail> {
    let alloc = rt.alloc();
    let text = "( ( ! a ) ? { a , 3 } : { 2 { a , 3 } } )";
    assert!(rt; matches!(shows(alloc, choice(alloc), text), Ok(true)));
    let text = "$signed ( ( a + b ) )";
    let sum = cast(alloc, true, binary(alloc, Op::Add));
    assert!(rt; matches!(shows(alloc, sum, text), Ok(true)));
    let text = "$unsigned ( ( ( a % 2 ) / b ) )";
    let rest = cast(alloc, false, quotient(alloc));
    assert!(rt; matches!(shows(alloc, rest, text), Ok(true)));
    Ok(())
}
