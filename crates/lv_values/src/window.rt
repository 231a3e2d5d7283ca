ghost use Rattle.std.specs.Prelude.{◌≡◌, ◌+◌, ◌≤◌, pos};
ghost use Rattle.lv_source.specs.Names.{size};
ghost use Rattle.lv_values.specs.Windows.{integer, IsInside, IsWindow};

/// A number: so many above 0, or so many below -1.
#[derive(Clone, Copy)]
pub enum Number {
    Above(u128),
    Below(u128),
}

/// Of numbers that follow one another: how many stand before those of a declaration, the first of these and how many they are,
/// and how many stand behind.
#[derive(Clone, Copy)]
pub(crate) struct Inside {
    pub before: u32,
    pub first: u32,
    pub count: u32,
    pub after: u32,
}

/// Bits that follow one another: how many lie below a word, the place of the first inside and how many these are, and how many
/// lie above.
#[derive(Clone, Copy)]
pub struct Window {
    pub below: u32,
    pub low: u32,
    pub count: u32,
    pub above: u32,
}

fn rising(low: u32, high: u32, from: u32, n: u32) -> Inside
    requires order { low ≤ high }
    requires most { high ≤ low + 127 }
    requires from { from ≤ high }
    ensures { IsInside low high (pos from) n result }
{
    let first = from.max(low);
    let before = (first - from).min(n);
    let count = (high - first + 1).min(n - before);
    Inside {
        before,
        first,
        count,
        after: n - before - count,
    }
}

/// The numbers from `low` to `high` among the `n` from `from` on.
fn numbers_inside(low: u32, high: u32, from: Number, n: u32) -> Inside
    requires order { low ≤ high }
    requires most { high ≤ low + 127 }
    ensures { IsInside low high (integer from) n result }
{
    match from {
        Number::Above(i) => {
            if i <= u128::from(high) {
                return rising(low, high, i as u32, n);
            }
            Inside {
                before: 0,
                first: low,
                count: 0,
                after: n,
            }
        }
        Number::Below(i) => {
            if i < u128::from(n) {
                let skipped = i as u32 + 1;
                let r = rising(low, high, 0, n - skipped);
                return Inside {
                    before: skipped + r.before,
                    first: r.first,
                    count: r.count,
                    after: r.after,
                };
            }
            Inside {
                before: n,
                first: low,
                count: 0,
                after: 0,
            }
        }
    }
}

/// The `n` bits from a number on, of a word with these bounds.
pub fn window_of(left: u32, right: u32, from: Number, n: u32) -> Window
    requires { size (record { left = left; right = right }) ≤ 128 }
    ensures { IsWindow (record { left = left; right = right }) (integer from) n result }
{
    if left < right {
        let r = numbers_inside(left, right, from, n);
        Window {
            below: r.after,
            low: right - r.first + 1 - r.count,
            count: r.count,
            above: r.before,
        }
    } else {
        let r = numbers_inside(right, left, from, n);
        Window {
            below: r.before,
            low: r.first - right,
            count: r.count,
            above: r.after,
        }
    }
}
