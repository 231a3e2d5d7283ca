ghost use Rattle.std.specs.Prelude.{◌≡◌, ◌+◌, ◌-◌, ◌≤◌, ◌<◌, ◌^◌, ◌++◌, [], ◌∷◌, OnOk};
ghost use Rattle.lv_print.specs.Literals as literals;
ghost use Rattle.lv_print.specs.Paper.{with_tokens, put};
ghost use Rattle.lv_print.specs.Written.{written};

use crate::paper::{Paper, push_all};
use lv_ast::{Kind, Literal};
use lv_bits::NoMemory;
use sqlite_items::Items;
use std::alloc::Global;

fn glyph(digit: u8) -> u8
    requires { digit < 16 }
    ensures { result ≡ literals.glyph digit }
{
    if digit < 10 {
        b'0' + digit
    } else {
        b'a' + (digit - 10)
    }
}

/// Writes the digits of a number, at most this many.
#[tactic(auto, using(crate::proofs::DigitRules::digit_rules))]
fn digits(bytes: &mut Items<u8>, base: u8, most: u32, n: u128) -> Result<(), NoMemory>
    requires low { 2 ≤ base }
    requires high { base ≤ 16 }
    ensures { OnOk result (bytes.new ≡ bytes.old ++ literals.digits base most n) }
{
    if most == 0 {
        return Ok(());
    }
    if n >= base as u128 {
        digits(bytes, base, most - 1, n / base as u128)?;
    }
    bytes.push(glyph((n % base as u128) as u8))?;
    Ok(())
}

fn free_glyph(value: u128, wild: u128) -> u8
    ensures { result ≡ literals.free_glyph value wild }
{
    if wild % 2 == 1 {
        b'?'
    } else {
        b'0' + (value % 2) as u8
    }
}

/// Writes the lowest binary digits.
#[tactic(auto, using(crate::proofs::DigitRules::digit_rules))]
fn free_digits(bytes: &mut Items<u8>, count: u32, value: u128, wild: u128) -> Result<(), NoMemory>
    ensures { OnOk result (bytes.new ≡ bytes.old ++ literals.free_digits count value wild) }
{
    if count == 0 {
        return Ok(());
    }
    free_digits(bytes, count - 1, value / 2, wild / 2)?;
    bytes.push(free_glyph(value, wild))?;
    Ok(())
}

/// All bits of a width.
fn ones(width: u32) -> u128
    requires { width ≤ 128 }
    ensures { result ≡ 2 ^ width - 1 }
{
    if width == 128 {
        u128::MAX
    } else {
        (1u128 << width) - 1
    }
}

#[tactic(auto, unfolding(crate::specs::Literals::gives_back))]
fn gives_back(width: u32, value: u128, wild: u128, k: u32) -> bool
    requires width { width ≤ 128 }
    requires low { 1 ≤ k }
    requires high { k < 128 }
    ensures { result ≡ literals.gives_back width value wild k }
{
    let above = if (wild >> (k - 1)) % 2 == 1 {
        ones(width) >> k
    } else {
        0
    };
    value >> k == 0 && wild >> k == above
}

/// As few digits as give a literal back.
fn fewest(width: u32, value: u128, wild: u128) -> u32
    requires { width ≤ 128 }
    ensures { result ≡ literals.fewest width value wild }
{
    for k in 1..128 {
        if gives_back(width, value, wild, k) {
            return k;
        }
    }
    128
}

fn digits_width(size: Option<u128>) -> u32
    ensures value { result ≡ literals.digits_width size }
    ensures bound { result ≤ 128 }
{
    match size {
        None => 128,
        Some(size) => { if size < 128 { size as u32 } else { 128 } }
    }
}

fn base_and_digits(bytes: &mut Items<u8>, literal: &Literal) -> Result<(), NoMemory>
    ensures { OnOk result (bytes.new ≡ bytes.old ++ literals.base_and_digits literal.now) }
{
    if literal.wild > 0 {
        bytes.push(b'b')?;
        let count = fewest(digits_width(literal.size), literal.value, literal.wild);
        free_digits(bytes, count, literal.value, literal.wild)
    } else {
        bytes.push(b'h')?;
        digits(bytes, 16, 128, literal.value)
    }
}

impl Paper {
    /// Writes a number in decimal.
    pub fn number(&mut self, alloc: Global, n: u128) -> Result<(), NoMemory>
        ensures { OnOk result (self.new ≡ put self.old (literals.number_token n)) }
    {
        let mut bytes = Items::new(alloc);
        digits(&mut bytes, 10, 128, n)?;
        self.put(Kind::Number, bytes.as_slice())
    }

    fn based(&mut self, alloc: Global, literal: &Literal) -> Result<(), NoMemory>
        ensures { OnOk result (self.new ≡ put self.old (literals.based_token literal.now)) }
    {
        let mut bytes = Items::new(alloc);
        bytes.push(b'\'')?;
        if literal.signed {
            bytes.push(b's')?;
        }
        base_and_digits(&mut bytes, literal)?;
        self.put(Kind::Based, bytes.as_slice())
    }

    /// Writes a literal.
    #[tactic(auto, unfolding(crate::specs::Literals::literal_tokens, crate::specs::Paper::with_tokens))]
    pub fn literal(&mut self, alloc: Global, literal: &Literal) -> Result<(), NoMemory>
        ensures { OnOk result (self.new ≡ with_tokens self.old (literals.literal_tokens literal.now)) }
    {
        if literal.plain {
            return self.number(alloc, literal.value);
        }
        if let Some(size) = literal.size {
            self.number(alloc, size)?;
        }
        self.based(alloc, literal)
    }
}
