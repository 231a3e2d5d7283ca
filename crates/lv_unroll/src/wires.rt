ghost use Rattle.std.specs.Prelude.{◌≡◌, ℕ, ◌<◌, ◌&&◌, ◌||◌, ◌==◌, not, length, IfOk, true};
ghost use Rattle.lv_netlist.specs.Net.{Net, IsNet, IsInner, IsRight, width_at, node_width};
ghost use Rattle.lv_unroll.specs.Wires.{is_on, number_in, node_word, chosen_number, GivesWord, GivesNumber, GivesTest};

use lv_bits::{NoMemory, Op, Word};
use lv_netlist::{Builder, Node};

/// Adds a node.
///
/// It is neither an input nor a register, and its operands are nodes of the builder whose widths meet its operator's row.
pub fn add(b: &mut Builder, node: Node) -> Result<u64, NoMemory>
    requires inner { IsInner node }
    requires right { IsRight b.old (length b.old.nodes) node }
    ensures { IfOk result (λ at. GivesWord b.old b.new at (node_width b.old node) (node_word b.old node)) }
{
    let at = b.node(node)?;
    Ok(at)
}

/// A node that is 1 where neither of both is 0, else 0.
///
/// It has one bit; both may have any width. IEEE 1364-2005, 5.1.9.
pub fn both(b: &mut Builder, x: u64, y: u64) -> Result<u64, NoMemory>
    requires left { x < length b.old.nodes }
    requires right { y < length b.old.nodes }
    ensures { IfOk result (λ at. GivesTest b.old b.new at (λ ws. is_on b.old ws x && is_on b.old ws y)) }
{
    let at = add(b, Node::Bin(Op::LogAnd, x, y, false))?;
    Ok(at)
}

/// A node that is 1 where one of both isn't 0, else 0.
///
/// It has one bit; both may have any width. IEEE 1364-2005, 5.1.9.
pub fn either(b: &mut Builder, x: u64, y: u64) -> Result<u64, NoMemory>
    requires left { x < length b.old.nodes }
    requires right { y < length b.old.nodes }
    ensures { IfOk result (λ at. GivesTest b.old b.new at (λ ws. is_on b.old ws x || is_on b.old ws y)) }
{
    let at = add(b, Node::Bin(Op::LogOr, x, y, false))?;
    Ok(at)
}

/// A node that is 1 where this one is 0, else 0.
///
/// It has one bit; this one may have any width. IEEE 1364-2005, 5.1.9.
pub fn negated(b: &mut Builder, x: u64) -> Result<u64, NoMemory>
    requires { x < length b.old.nodes }
    ensures { IfOk result (λ at. GivesTest b.old b.new at (λ ws. not (is_on b.old ws x))) }
{
    let at = add(b, Node::Un(Op::LogNot, x))?;
    Ok(at)
}

/// A node of one bit that is always 1.
pub fn always(b: &mut Builder) -> Result<u64, NoMemory>
    ensures { IfOk result (λ at. GivesTest b.old b.new at (λ ws. true)) }
{
    let at = add(b, Node::Const(Word::new(1, 1)))?;
    Ok(at)
}

/// A node of 128 bits with the number of this one.
pub fn wide(b: &mut Builder, x: u64) -> Result<u64, NoMemory>
    requires { x < length b.old.nodes }
    ensures { IfOk result (λ at. GivesNumber b.old b.new at 128 (λ ws. number_in b.old ws x)) }
{
    let _ = b.len();
    let at = add(b, Node::Ext(x, 128, false))?;
    Ok(at)
}

/// A node that is 1 where two nodes of one width have one number, else 0.
///
/// It has one bit. IEEE 1364-2005, 5.1.8.
pub fn equal(b: &mut Builder, x: u64, y: u64) -> Result<u64, NoMemory>
    requires left { x < length b.old.nodes }
    requires right { y < length b.old.nodes }
    requires widths { width_at b.old.nodes x ≡ width_at b.old.nodes y }
    ensures { IfOk result (λ at. GivesTest b.old b.new at (λ ws. number_in b.old ws x == number_in b.old ws y)) }
{
    let at = add(b, Node::Bin(Op::Eq, x, y, false))?;
    Ok(at)
}

/// A node that has the number of x where c isn't 0, else that of y.
///
/// It has the width that x and y have; c may have any. IEEE 1364-2005, 5.1.13.
pub fn chosen(b: &mut Builder, c: u64, x: u64, y: u64) -> Result<u64, NoMemory>
    requires test { c < length b.old.nodes }
    requires left { x < length b.old.nodes }
    requires right { y < length b.old.nodes }
    requires widths { width_at b.old.nodes x ≡ width_at b.old.nodes y }
    ensures { IfOk result (λ at. GivesNumber b.old b.new at (width_at b.old.nodes x) (chosen_number b.old c x y)) }
{
    let at = add(b, Node::Mux(c, x, y))?;
    Ok(at)
}
