ghost use Rattle.std.specs.Prelude.{ℕ, ◌+◌, map, sum};
ghost use Rattle.lv_source.specs.Limits.{expr_nodes, maybe_nodes, range_nodes, params_nodes, conn_nodes};
ghost use Rattle.lv_sizes.specs.Counts.{Spends, continuous_nodes};

use crate::exprs::spend_expr;
use crate::heads::spend_sides;
use lv_ast::{Aport, Conn, Continuous, Expr, Inst, NetName, Params, Range, RegName, Setting};
use lv_held::Held;

/// What has nodes.
pub trait Counted {
    ghost nodes: { Self → ℕ };

    /// What is left of `left` after them; nothing where there are more.
    fn spend(&self, left: u64) -> Option<u64>
        ensures { Spends left (nodes self.now) result };
}

/// All of a list.
pub fn spend_all<T: Counted>(list: &[T], left: u64) -> Option<u64>
    ensures { Spends left (sum (map T.nodes list.now)) result }
{
    let mut left = left;
    for one in list {
        match one.spend(left) {
            None => return None,
            Some(rest) => left = rest,
        }
    }
    Some(left)
}

pub fn spend_maybe(value: &Option<Held<Expr>>, left: u64) -> Option<u64>
    ensures { Spends left (maybe_nodes value.now) result }
{
    match value {
        None => Some(left),
        Some(value) => spend_expr(value.get(), left),
    }
}

pub fn spend_range(range: &Option<Range>, left: u64) -> Option<u64>
    ensures { Spends left (range_nodes range.now) result }
{
    match range {
        None => Some(left),
        Some(range) => match spend_expr(range.left.get(), left) {
            None => None,
            Some(rest) => spend_expr(range.right.get(), rest),
        },
    }
}

/// A range, and a list that it is for.
pub fn spend_ranged<T: Counted>(range: &Option<Range>, list: &[T], left: u64) -> Option<u64>
    ensures { Spends left (range_nodes range.now + sum (map T.nodes list.now)) result }
{
    match spend_range(range, left) {
        None => None,
        Some(rest) => spend_all(list, rest),
    }
}

impl Counted for NetName {
    ghost nodes = { λ n. maybe_nodes n.value };

    fn spend(&self, left: u64) -> Option<u64> {
        spend_maybe(&self.value, left)
    }
}

impl Counted for RegName {
    ghost nodes = { λ n. range_nodes n.bounds };

    fn spend(&self, left: u64) -> Option<u64> {
        spend_range(&self.bounds, left)
    }
}

impl Counted for Setting {
    ghost nodes = { λ s. expr_nodes s.value };

    fn spend(&self, left: u64) -> Option<u64> {
        spend_expr(self.value.get(), left)
    }
}

impl Counted for Params {
    ghost nodes = { params_nodes };

    fn spend(&self, left: u64) -> Option<u64> {
        spend_ranged(&self.range, self.list.as_slice(), left)
    }
}

impl Counted for Aport {
    ghost nodes = { λ a. range_nodes a.range };

    fn spend(&self, left: u64) -> Option<u64> {
        spend_range(&self.range, left)
    }
}

impl Counted for Continuous {
    ghost nodes = { continuous_nodes };

    fn spend(&self, left: u64) -> Option<u64> {
        spend_sides(&self.target, self.value.get(), left)
    }
}

impl Counted for Conn {
    ghost nodes = { λ c. maybe_nodes c.value };

    fn spend(&self, left: u64) -> Option<u64> {
        spend_maybe(&self.value, left)
    }
}

impl Counted for Inst {
    ghost nodes = { λ n. conn_nodes n.conns };

    fn spend(&self, left: u64) -> Option<u64> {
        spend_all(self.conns.as_slice(), left)
    }
}
