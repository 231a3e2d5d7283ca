ghost use Rattle.std.specs.Prelude.{◌≡◌, ◌≢◌, ◌≤◌, ◌<◌, ◌^◌, ◌+◌, ◌*◌, ◌-◌, length, get_or, decimal, MatchOption};
ghost use Rattle.lv_cert.specs.Inputs.{IsDigit, IsTooMuch};
ghost use Rattle.lv_cert.specs.Parts.{IsReadOr};

/// The next digit behind a number.
fn with_digit(number: u128, letter: u8) -> Option<u128>
    ensures { MatchOption result (IsTooMuch number letter) (λ n. IsDigit letter × (n ≡ number * 10 + (letter - 48)) × (n < 2 ^ 128)) }
{
    if letter < b'0' || letter > b'9' {
        return None;
    }
    number.checked_mul(10)?.checked_add((letter - b'0') as u128)
}

/// The number of letters that begin with a zero.
fn zero_of(letters: &[u8]) -> Option<u128>
    requires some { 0 < length letters.now }
    requires zero { get_or letters.now 0 0 ≡ 48 }
    ensures { IsReadOr (λ n. n < 2 ^ 128) decimal letters.now result }
{
    if letters.len() == 1 { Some(0) } else { None }
}

/// The number of letters that don't begin with a zero.
fn digits_of(letters: &[u8]) -> Option<u128>
    requires some { 0 < length letters.now }
    requires lead { get_or letters.now 0 0 ≢ 48 }
    ensures { IsReadOr (λ n. n < 2 ^ 128) decimal letters.now result }
{
    let mut number = 0;
    for letter in letters {
        number = with_digit(number, *letter)?;
    }
    Some(number)
}

/// The number below 2^128 that has these decimal digits.
pub(crate) fn number_of(letters: &[u8]) -> Option<u128>
    ensures { IsReadOr (λ n. n < 2 ^ 128) decimal letters.now result }
{
    if letters.is_empty() {
        return None;
    }
    if letters[0] == b'0' {
        zero_of(letters)
    } else {
        digits_of(letters)
    }
}

/// The number between these two that has these decimal digits.
pub(crate) fn small_number_of(letters: &[u8], low: u64, high: u64) -> Option<u64>
    ensures { IsReadOr (λ n. (low ≤ n) × (n ≤ high)) decimal letters.now result }
{
    let number = number_of(letters)?;
    if number < low as u128 {
        return None;
    }
    if number > high as u128 {
        return None;
    }
    Some(number as u64)
}
