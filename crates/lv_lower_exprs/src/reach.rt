ghost use Rattle.std.specs.Prelude.{◌≡◌};
ghost use Rattle.lv_lower_exprs.specs.Reached.{reached, reached_by_one, own_of_unary, own_of_binary};

use lv_bits::Op;

/// The widths and signs that reach two operands, and how the operator takes them.
#[derive(Clone, Copy)]
pub(crate) struct Reach {
    pub left: u32,
    pub left_signed: bool,
    pub right: u32,
    pub right_signed: bool,
    pub signed: bool,
}

#[tactic(auto, unfolding(crate::specs::Reached::reached))]
pub(crate) fn reach_two(
    op: Op,
    width: u32,
    signed: bool,
    left: (u32, bool),
    right: (u32, bool),
) -> Reach
    ensures left { result.left ≡ (reached op width signed left.0 left.1 right.0 right.1).left }
    ensures left_signed { result.left_signed ≡ (reached op width signed left.0 left.1 right.0 right.1).left_signed }
    ensures right { result.right ≡ (reached op width signed left.0 left.1 right.0 right.1).right }
    ensures right_signed { result.right_signed ≡ (reached op width signed left.0 left.1 right.0 right.1).right_signed }
    ensures signed { result.signed ≡ (reached op width signed left.0 left.1 right.0 right.1).signed }
{
    if op.keeps_width() {
        if op.is_apart() {
            return Reach {
                left: width,
                left_signed: signed,
                right: right.0,
                right_signed: right.1,
                signed,
            };
        }
        return Reach {
            left: width,
            left_signed: signed,
            right: width,
            right_signed: signed,
            signed,
        };
    }
    if op.is_apart() {
        return Reach {
            left: left.0,
            left_signed: left.1,
            right: right.0,
            right_signed: right.1,
            signed: false,
        };
    }
    let width = left.0.max(right.0);
    let signed = left.1 & right.1;
    Reach {
        left: width,
        left_signed: signed,
        right: width,
        right_signed: signed,
        signed,
    }
}

#[tactic(auto, unfolding(crate::specs::Reached::reached_by_one))]
pub(crate) fn reach_one(op: Op, width: u32, signed: bool, own: (u32, bool)) -> (u32, bool)
    ensures { result ≡ reached_by_one op width signed own.0 own.1 }
{
    if op.keeps_width() {
        (width, signed)
    } else {
        own
    }
}

#[tactic(auto, unfolding(crate::specs::Reached::own_of_unary))]
pub(crate) fn unary_own(op: Op, own: (u32, bool)) -> (u32, bool)
    ensures { result ≡ own_of_unary op own.0 own.1 }
{
    if op.keeps_width() { own } else { (1, false) }
}

#[tactic(auto, unfolding(crate::specs::Reached::own_of_binary))]
pub(crate) fn binary_own(op: Op, left: (u32, bool), right: (u32, bool)) -> (u32, bool)
    ensures { result ≡ own_of_binary op left.0 left.1 right.0 right.1 }
{
    if !op.keeps_width() {
        return (1, false);
    }
    if op.is_apart() {
        return left;
    }
    (left.0.max(right.0), left.1 & right.1)
}
