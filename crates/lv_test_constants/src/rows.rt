ghost use Rattle.std.specs.Prelude.{◌≡◌};

use lv_ast::Expr;
use lv_bits::{Text, Word};
use lv_const::{Const, ConstError, Consts, own_of, value_of};
use lv_exprs::read_expr;
use lv_lexer::lex;
use std::alloc::Global;
use std::test::Fail;

fn error_text(alloc: Global, error: ConstError) -> Result<String, Fail> {
    Ok(match error {
        ConstError::NoValue(place) => format!(in alloc; "none {}", place)?,
        ConstError::ZeroDivisor(place) => format!(in alloc; "zero {}", place)?,
        ConstError::Range(place) => format!(in alloc; "range {}", place)?,
    })
}

/// The own width, the own type and the value at a width and a type, or a refusal.
fn answer(
    alloc: Global,
    consts: &Consts,
    expr: &Expr,
    width: u32,
    signed: bool,
) -> Result<String, Fail> {
    match own_of(consts, expr) {
        Err(error) => error_text(alloc, error),
        Ok((own, own_signed)) => {
            if width > 128 || own > width {
                return Err(Fail::from("too wide"));
            }
            let kind = if own_signed { "s" } else { "u" };
            let value = match value_of(consts, expr, width, signed) {
                Err(error) => error_text(alloc, error)?,
                Ok(word) => format!(in alloc; "{}", word.value())?,
            };
            Ok(format!(in alloc; "{} {} {}", own, kind, value)?)
        }
    }
}

fn put(alloc: Global, consts: &mut Consts, name: &str, value: Const) -> Result<(), Fail> {
    let name = Text::new(alloc, name.as_bytes())?;
    consts.put(&name, Some(value))?;
    Ok(())
}

/// `n` is 5, `P` and `Q` are 180 in both directions, `S` is -3.
fn names(alloc: Global) -> Result<Consts, Fail> {
    let mut consts = Consts::new(alloc);
    let five = Const {
        word: Word::new(32, 5),
        signed: true,
        left: 31,
        right: 0,
    };
    put(alloc, &mut consts, "n", five)?;
    let falling = Const {
        word: Word::new(8, 180),
        signed: false,
        left: 7,
        right: 0,
    };
    put(alloc, &mut consts, "P", falling)?;
    let rising = Const {
        word: Word::new(8, 180),
        signed: false,
        left: 0,
        right: 7,
    };
    put(alloc, &mut consts, "Q", rising)?;
    let negative = Const {
        word: Word::new(4, 13),
        signed: true,
        left: 3,
        right: 0,
    };
    put(alloc, &mut consts, "S", negative)?;
    Ok(consts)
}

fn told(
    alloc: Global,
    consts: &Consts,
    text: &[u8],
    width: u32,
    signed: bool,
) -> Result<String, Fail> {
    let Ok(tokens) = lex(alloc, text) else {
        return Err(Fail::from("no tokens"));
    };
    let Ok((expr, _)) = read_expr(alloc, &tokens, 0, false) else {
        return Err(Fail::from("no expression"));
    };
    answer(alloc, consts, &expr, width, signed)
}

const ROWS: [(&str, u32, bool, &str); 120] = [
    ("- 4'd12", 4, false, "4 u 4"),
    ("~ 4'd12", 4, false, "4 u 3"),
    ("4'd12 + 4'd5", 4, false, "4 u 1"),
    ("4'd12 - 4'd5", 4, false, "4 u 7"),
    ("4'd12 * 4'd5", 4, false, "4 u 12"),
    ("4'd12 & 4'd5", 4, false, "4 u 4"),
    ("4'd12 | 4'd5", 4, false, "4 u 13"),
    ("4'd12 ^ 4'd5", 4, false, "4 u 9"),
    ("4'd12 ~^ 4'd5", 4, false, "4 u 6"),
    ("4'd12 / 4'd5", 4, false, "4 u 2"),
    ("4'd12 % 4'd5", 4, false, "4 u 2"),
    ("4'd12 << 2'd1", 4, false, "4 u 8"),
    ("4'd12 >> 2'd1", 4, false, "4 u 6"),
    ("4'd12 >>> 2'd1", 4, false, "4 u 6"),
    ("4'd12 < 4'd5", 4, false, "1 u 0"),
    ("4'd12 <= 4'd5", 4, false, "1 u 0"),
    ("4'd12 > 4'd5", 4, false, "1 u 1"),
    ("4'd12 >= 4'd5", 4, false, "1 u 1"),
    ("4'd12 == 4'd5", 4, false, "1 u 0"),
    ("4'd12 != 4'd5", 4, false, "1 u 1"),
    ("4'd12 && 4'd5", 4, false, "1 u 1"),
    ("4'd12 || 4'd5", 4, false, "1 u 1"),
    ("! 4'd12", 4, false, "1 u 0"),
    ("& 4'd12", 4, false, "1 u 0"),
    ("| 4'd12", 4, false, "1 u 1"),
    ("^ 4'd12", 4, false, "1 u 0"),
    ("- 4'sd12", 8, true, "4 s 4"),
    ("~ 4'sd12", 8, true, "4 s 3"),
    ("4'sd12 + 4'sd5", 8, true, "4 s 1"),
    ("4'sd12 - 4'sd5", 8, true, "4 s 247"),
    ("4'sd12 * 4'sd5", 8, true, "4 s 236"),
    ("4'sd12 & 4'sd5", 8, true, "4 s 4"),
    ("4'sd12 | 4'sd5", 8, true, "4 s 253"),
    ("4'sd12 ^ 4'sd5", 8, true, "4 s 249"),
    ("4'sd12 ~^ 4'sd5", 8, true, "4 s 6"),
    ("4'sd12 / 4'sd5", 8, true, "4 s 0"),
    ("4'sd12 % 4'sd5", 8, true, "4 s 252"),
    ("4'sd12 << 2'd1", 8, true, "4 s 248"),
    ("4'sd12 >> 2'd1", 8, true, "4 s 126"),
    ("4'sd12 >>> 2'd1", 8, true, "4 s 254"),
    ("4'sd12 < 4'sd5", 8, true, "1 u 255"),
    ("4'sd12 <= 4'sd5", 8, true, "1 u 255"),
    ("4'sd12 > 4'sd5", 8, true, "1 u 0"),
    ("4'sd12 >= 4'sd5", 8, true, "1 u 0"),
    ("4'sd12 == 4'sd5", 8, true, "1 u 0"),
    ("4'sd12 != 4'sd5", 8, true, "1 u 255"),
    ("4'sd12 && 4'sd5", 8, true, "1 u 255"),
    ("4'sd12 || 4'sd5", 8, true, "1 u 255"),
    ("! 4'sd12", 8, true, "1 u 0"),
    ("& 4'sd12", 8, true, "1 u 0"),
    ("| 4'sd12", 8, true, "1 u 255"),
    ("^ 4'sd12", 8, true, "1 u 0"),
    ("7 / 2 - 1", 32, true, "32 s 2"),
    ("7 / 0", 32, true, "32 s zero 4"),
    ("m", 32, true, "none 0"),
    ("n + 1", 32, true, "32 s 6"),
    ("P", 8, false, "8 u 180"),
    ("S", 8, true, "4 s 253"),
    ("S[3:0]", 8, true, "4 u 253"),
    ("S[3:0]", 8, false, "4 u 13"),
    ("P[5]", 1, false, "1 u 1"),
    ("P[n]", 1, false, "1 u 1"),
    ("P[9]", 1, false, "1 u 0"),
    ("P[-1]", 1, false, "1 u 0"),
    ("Q[0]", 1, false, "1 u 1"),
    ("P[7:4]", 4, false, "4 u 11"),
    ("Q[0:3]", 4, false, "4 u 11"),
    ("P[9:6]", 4, false, "4 u 2"),
    ("Q[6:9]", 4, false, "4 u 0"),
    ("P[2 +: 3]", 3, false, "3 u 5"),
    ("P[6 +: 4]", 4, false, "4 u 2"),
    ("P[2 -: 4]", 4, false, "4 u 8"),
    ("Q[1 -: 3]", 3, false, "3 u 2"),
    ("Q[4 +: 6]", 6, false, "6 u 16"),
    ("P[-1 +: 4]", 4, false, "4 u 8"),
    ("P[0:3]", 4, false, "range 0"),
    ("Q[3:0]", 4, false, "range 0"),
    ("P[3][2]", 1, false, "range 0"),
    ("P[0 +: 0]", 1, false, "range 0"),
    ("P[7:m]", 8, false, "none 4"),
    ("{2'd2, 1'd1}", 8, false, "3 u 5"),
    ("{2{2'd1, 1'd1}}", 8, false, "6 u 27"),
    ("{{2{1'd1}}{2'd1}}", 8, false, "6 u 21"),
    ("$signed(4'd12) < 4'sd1", 1, false, "1 u 1"),
    ("4'd12 < 4'sd1", 1, false, "1 u 0"),
    ("1'd1 == 1'd1", 8, true, "1 u 255"),
    ("1'd1 == 1'd1", 8, false, "1 u 1"),
    ("1 ? 2 : 3 / 0", 32, true, "32 s zero 12"),
    ("{1 / 0{1'd1}}", 8, false, "zero 5"),
    ("P[7 / 0 +: 1]", 1, false, "1 u zero 6"),
    ("P[1 / 0]", 1, false, "1 u zero 6"),
    ("P[7 / 0:0]", 8, false, "zero 6"),
    ("P[0 +: 1 / 0]", 1, false, "zero 11"),
    ("{1 ? 1 : 1 / 0{1'd1}}", 1, false, "zero 13"),
    ("{1 + 1 / 0, 1'd1}", 33, false, "33 u zero 9"),
    ("{2{1 / 0 == 1}}", 2, false, "2 u zero 7"),
    ("{0{1'd1}}", 8, false, "range 1"),
    ("{3, 1'd1}", 8, false, "range 1"),
    ("{128{2'd1}}", 8, false, "range 1"),
    ("129'd1", 8, false, "range 0"),
    ("0 && 1 / 0", 1, false, "1 u zero 9"),
    ("3 + 128'd4", 128, false, "128 u 7"),
    ("1 ? 4'd12 : 4'd5", 4, false, "4 u 12"),
    ("0 ? 4'd12 : 4'd5", 4, false, "4 u 5"),
    ("1 ? 4'sd12 : 4'sd5", 8, true, "4 s 252"),
    ("1 ? 4'sd12 : 4'd5", 8, false, "4 u 12"),
    ("$unsigned(4'sd12)", 8, false, "4 u 12"),
    ("$signed(4'd12)", 8, true, "4 s 252"),
    ("- 8 / 3", 32, true, "32 s 4294967294"),
    ("- 8 % 3", 32, true, "32 s 4294967294"),
    ("8 % - 3", 32, true, "32 s 2"),
    ("8'sd128 / 8'sd255", 8, true, "8 s 128"),
    ("4'd12 + 4'd5", 8, false, "4 u 17"),
    ("(4'd15 + 4'd1) >> 1", 4, false, "4 u 0"),
    ("(4'd15 + 4'd1) >> 1", 8, false, "4 u 8"),
    ("{4'd15 + 4'd1}", 8, false, "4 u 0"),
    ("4294967295", 32, true, "32 s 4294967295"),
    ("4294967296", 32, true, "range 0"),
    ("a.n", 32, true, "none 0"),
    ("{m{1'd1}}", 8, false, "none 1"),
];

#[test]
fn rows(rt: HostRuntime) -> Result<(), Fail> {
    let consts = names(rt.alloc())?;
    for (text, width, signed, want) in ROWS.iter() {
        let got = told(rt.alloc(), &consts, text.as_bytes(), *width, *signed)?;
        assert!(rt; got.as_bytes() == want.as_bytes(), "{text} {got}");
    }
    Ok(())
}

const BARE: [(&str, &str); 3] = [
    ("7 / 2 - 1", "32 s 2"),
    ("7 / 0", "32 s zero 4"),
    ("n", "none 0"),
];

/// Without names.
#[test]
fn bare(rt: HostRuntime) -> Result<(), Fail> {
    let consts = Consts::new(rt.alloc());
    for (text, want) in BARE.iter() {
        let got = told(rt.alloc(), &consts, text.as_bytes(), 32, true)?;
        assert!(rt; got.as_bytes() == want.as_bytes(), "{text} {got}");
    }
    Ok(())
}

const NESTED: [(u32, &str, &str, &str, u32, &str); 4] = [
    (190, "{", "1'd1", "{1'd1}}", 1, "1 u 1"),
    (95, "{", "1'd1", "+ 1'd0{1'd1}}", 1, "1 u 1"),
    (95, "{1'd0 + ", "1'd1", "{1'd1}}", 1, "1 u 1"),
    (190, "P[", "2", "]", 1, "1 u 0"),
];

#[test]
fn nested(rt: HostRuntime) -> Result<(), Fail> {
    let consts = names(rt.alloc())?;
    for (times, before, middle, behind, width, want) in NESTED.iter() {
        let mut text = Vec::new(rt.alloc());
        for _ in 0..*times {
            text.extend_from_slice(before.as_bytes())?;
        }
        text.extend_from_slice(middle.as_bytes())?;
        for _ in 0..*times {
            text.extend_from_slice(behind.as_bytes())?;
        }
        let got = told(rt.alloc(), &consts, text.as_slice(), *width, false)?;
        assert!(rt; got.as_bytes() == want.as_bytes(), "{before} {got}");
    }
    Ok(())
}

#[test]
fn entries(rt: HostRuntime) -> Result<(), Fail> {
    let alloc = rt.alloc();
    let mut consts = names(alloc)?;
    let name = Text::new(alloc, b"n")?;
    let Some(first) = consts.get(&name) else {
        return Err(Fail::from("no value"));
    };
    assert!(rt; first.word.value() == 5 && first.signed && first.left == 31 && first.right == 0);
    consts.put(&name, None)?;
    assert!(rt; consts.get(&name).is_none());
    if consts.len() == 5 {
        consts.cut(4);
    }
    assert!(rt; consts.get(&name).is_some());
    Ok(())
}
