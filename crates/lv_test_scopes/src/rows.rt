use crate::texts::{error_text, ident, names, range, tree, value_text, word_text};
use lv_bits::Text;
use lv_scopes::{ParameterError, TurnsError, number_of, range_of, set_own, turns_of};
use std::test::Fail;

const NUMBERS: [(&str, u32, &str); 8] = [
    ("4'sd12", 8, "8 s 252"),
    ("4'd12", 8, "8 u 12"),
    ("8'd200", 4, "8 u 200"),
    ("4'd15 + 4'd1", 0, "4 u 0"),
    ("4'd15 + 4'd1", 5, "5 u 16"),
    ("n", 0, "32 s 5"),
    ("m", 0, "none 0"),
    ("1 / 0", 0, "zero 4"),
];

#[test]
fn numbers(rt: HostRuntime) -> Result<(), Fail> {
    let alloc = rt.alloc();
    let consts = names(alloc)?;
    for (text, least, want) in NUMBERS.iter() {
        let expr = tree(alloc, *text)?;
        if *least > 128 {
            return Err(Fail::from("too wide"));
        }
        let got = match number_of(&consts, expr.get(), *least) {
            Ok(number) => word_text(alloc, number.word, number.signed)?,
            Err(error) => error_text(alloc, error)?,
        };
        assert!(rt; got.as_bytes() == want.as_bytes(), "{text} {got}");
    }
    Ok(())
}

const RANGES: [(&str, &str, bool, &str); 10] = [
    ("7", "0", true, "7 0"),
    ("0", "7", true, "0 7"),
    ("n - 1", "n - 4", true, "4 1"),
    ("127", "0", true, "127 0"),
    ("128", "0", true, "range 9"),
    ("65535", "0", false, "65535 0"),
    ("65536", "0", false, "range 9"),
    ("- 1", "0", true, "range 9"),
    ("m", "0", true, "none 0"),
    ("7", "1 / 0", true, "zero 4"),
];

#[test]
fn ranges(rt: HostRuntime) -> Result<(), Fail> {
    let alloc = rt.alloc();
    let consts = names(alloc)?;
    for (left, right, vector, want) in RANGES.iter() {
        let Some(bounds) = range(alloc, *left, *right)? else {
            return Err(Fail::from("no range"));
        };
        let got = match range_of(&consts, &bounds, *vector, 9) {
            Ok((first, last)) => format!(in alloc; "{} {}", first, last)?,
            Err(error) => error_text(alloc, error)?,
        };
        assert!(rt; got.as_bytes() == want.as_bytes(), "{left} {right} {got}");
    }
    Ok(())
}

const PARAMETERS: [(bool, &str, &str, &str, &str); 7] = [
    (false, "", "", "4'd12", "4 u 12 3 0"),
    (true, "", "", "4'd12", "4 s 12 3 0"),
    (false, "7", "0", "4'sd12", "8 u 252 7 0"),
    (true, "0", "3", "8'd255", "4 s 15 0 3"),
    (false, "200", "0", "1", "range 6"),
    (false, "7", "m", "1", "none 0"),
    (false, "", "", "1 / 0", "zero 4"),
];

#[test]
fn parameters(rt: HostRuntime) -> Result<(), Fail> {
    let alloc = rt.alloc();
    for (signed, left, right, value, want) in PARAMETERS.iter() {
        let mut consts = names(alloc)?;
        let name = ident(alloc, "p", 6)?;
        let bounds = range(alloc, *left, *right)?;
        let value = tree(alloc, *value)?;
        let got = match set_own(&mut consts, &name, *signed, &bounds, value.get()) {
            Ok(()) => value_text(alloc, &consts, &name.name)?,
            Err(ParameterError::Const(error)) => error_text(alloc, error)?,
            Err(ParameterError::NoMemory) => return Err(Fail::from("no memory")),
        };
        assert!(rt; got.as_bytes() == want.as_bytes(), "{left} {right} {got}");
    }
    Ok(())
}

const TURNS: [(&str, &str, &str, usize, &str); 7] = [
    ("0", "i < 3", "i + 1", 10, "0 1 2 "),
    ("0", "i < 2", "i + 1", 2, "0 1 "),
    ("3", "i < 3", "i + 1", 10, ""),
    ("7", "i > n", "i - 1", 10, "7 6 "),
    ("0", "1", "i + 1", 2, "limit"),
    ("0", "i < m", "i + 1", 2, "none 4"),
    ("0", "1", "1 / i", 2, "zero 4"),
];

#[test]
fn turns(rt: HostRuntime) -> Result<(), Fail> {
    let alloc = rt.alloc();
    let mut consts = names(alloc)?;
    let index = Text::new(alloc, b"i")?;
    for (start, test, next, most, want) in TURNS.iter() {
        let (start, test, next) = (
            tree(alloc, *start)?,
            tree(alloc, *test)?,
            tree(alloc, *next)?,
        );
        if *most > 1000000 {
            return Err(Fail::from("too many"));
        }
        let mut got = Vec::new(alloc);
        match turns_of(
            alloc,
            &mut consts,
            &index,
            start.get(),
            test.get(),
            next.get(),
            *most,
        ) {
            Ok(values) => {
                for value in values.as_slice() {
                    got.extend_from_slice(format!(in alloc; "{} ", value)?.as_bytes())?;
                }
            }
            Err(TurnsError::Const(error)) => {
                got.extend_from_slice(error_text(alloc, error)?.as_bytes())?;
            }
            Err(TurnsError::Limit) => got.extend_from_slice(b"limit")?,
            Err(TurnsError::NoMemory) => return Err(Fail::from("no memory")),
        }
        assert!(rt; got.as_slice() == want.as_bytes(), "{want}");
        assert!(rt; consts.len() == 1);
    }
    Ok(())
}
