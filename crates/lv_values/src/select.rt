ghost use Rattle.std.specs.Prelude.{◌≡◌, ◌+◌, ◌*◌, ◌/◌, ◌%◌, ◌^◌, ◌≤◌, IfOk};
ghost use Rattle.lv_source.specs.Places.{read_bits, write_bits};
ghost use Rattle.lv_values.specs.Worlds.{World, IsIn, IsKnown, width_of, number, Gives};
ghost use Rattle.lv_values.specs.Windows.{window_bits, replaced};

use crate::value::{Value, cut, extend, join};
use crate::window::Window;
use lv_bits::{NoMemory, Word};
use lv_netlist::Builder;

/// A word of zeros.
pub fn zeros(width: u32) -> Value
    requires some { 1 ≤ width }
    requires most { width ≤ 128 }
    ensures { result ≡ Value.Known (record { width = width; value = 0 }) }
{
    Value::Known(Word::new(width, 0))
}

/// The bits above so many zeros.
fn raised(b: &mut Builder, x: Value, zero: u32) -> Result<Value, NoMemory>
    requires x_in { IsIn b.old x }
    requires most { width_of x + zero ≤ 128 }
    ensures is { IfOk result (λ r. Gives b.old b.new r (width_of x + zero) (λ w. number w x * 2 ^ zero)) }
    ensures known { IfOk result (λ r. IsKnown x → IsKnown r) }
{
    if zero == 0 {
        return Ok(x);
    }
    let low = zeros(zero);
    let r = join(b, x, low)?;
    Ok(r)
}

/// What the bits of a window read. Those outside of the word are 0.
pub fn read(b: &mut Builder, word: Value, at: Window) -> Result<Value, NoMemory>
    requires word_in { IsIn b.old word }
    requires inside { at.low + at.count ≤ width_of word }
    requires some { 1 ≤ at.below + (at.count + at.above) }
    requires most { at.below + (at.count + at.above) ≤ 128 }
    ensures is { IfOk result (λ r. Gives b.old b.new r (at.below + (at.count + at.above)) (λ w. read_bits (number w word) (window_bits at))) }
    ensures known { IfOk result (λ r. IsKnown word → IsKnown r) }
{
    if at.count == 0 {
        let r = zeros(at.below + at.above);
        return Ok(r);
    }
    let x = cut(b, word, at.low, at.count)?;
    let y = extend(b, x, at.count + at.above, false)?;
    let r = raised(b, y, at.below)?;
    Ok(r)
}

/// The word with so many bits of `x` in place of its own.
fn splice(b: &mut Builder, word: Value, low: u32, x: Value) -> Result<Value, NoMemory>
    requires word_in { IsIn b.old word }
    requires x_in { IsIn b.old x }
    requires some { 1 ≤ width_of x }
    requires inside { low + width_of x ≤ width_of word }
    requires most { width_of word ≤ 128 }
    ensures { IfOk result (λ r. Gives b.old b.new r (width_of word) (λ w. replaced (number w word) low (width_of x) (number w x))) }
{
    let lower = above_low(b, word.same(), low, x)?;
    let r = below_high(b, word, lower)?;
    Ok(r)
}

/// The bits of `x` above the lowest ones of the word.
fn above_low(b: &mut Builder, word: Value, low: u32, x: Value) -> Result<Value, NoMemory>
    requires word_in { IsIn b.old word }
    requires x_in { IsIn b.old x }
    requires inside { low + width_of x ≤ width_of word }
    requires most { width_of word ≤ 128 }
    ensures { IfOk result (λ r. Gives b.old b.new r (low + width_of x) (λ w. number w x * 2 ^ low + number w word % 2 ^ low)) }
{
    if low == 0 {
        return Ok(x);
    }
    let y = cut(b, word, 0, low)?;
    let r = join(b, x, y)?;
    Ok(r)
}

/// The lowest bits of the word replaced by `x`.
fn below_high(b: &mut Builder, word: Value, x: Value) -> Result<Value, NoMemory>
    requires word_in { IsIn b.old word }
    requires x_in { IsIn b.old x }
    requires some { 1 ≤ width_of x }
    requires inside { width_of x ≤ width_of word }
    requires most { width_of word ≤ 128 }
    ensures { IfOk result (λ r. Gives b.old b.new r (width_of word) (λ w. number w word / 2 ^ width_of x * 2 ^ width_of x + number w x)) }
{
    let low = x.width();
    let width = word.width();
    if low == width {
        return Ok(x);
    }
    let y = cut(b, word, low, width - low)?;
    let r = join(b, y, x)?;
    Ok(r)
}

/// What writing `x` to the bits of a window leaves of the word. Those outside of it write nothing.
pub fn written(b: &mut Builder, word: Value, at: Window, x: Value) -> Result<Value, NoMemory>
    requires word_in { IsIn b.old word }
    requires x_in { IsIn b.old x }
    requires inside { at.low + at.count ≤ width_of word }
    requires most { width_of word ≤ 128 }
    requires width { width_of x ≡ at.below + (at.count + at.above) }
    ensures { IfOk result (λ r. Gives b.old b.new r (width_of word) (λ w. write_bits (number w word) (window_bits at) (number w x))) }
{
    if at.count == 0 {
        return Ok(word);
    }
    let y = cut(b, x, at.below, at.count)?;
    let r = splice(b, word, at.low, y)?;
    Ok(r)
}
