ghost use Rattle.std.specs.Prelude.{◌≡◌, ℕ, ◌+◌, ◌*◌, ◌/◌, ◌%◌, ◌^◌, ◌≤◌, if◌then◌else◌, ◌==◌, length, IfOk, IsTrue, IsFalse};
ghost use Rattle.lv_bits.specs.Values.{is_unary, is_apart, result_width, unary_value, binary_value, extended};
ghost use Rattle.lv_netlist.specs.Net.{IsInner, IsRight, node_width};
ghost use Rattle.lv_netlist.specs.Run.{node_bits};
ghost use Rattle.lv_values.specs.Worlds.{World, IsIn, IsKnown, width_of, number, Gives};

use lv_bits::{NoMemory, Op, Word, binary, unary};
use lv_netlist::{Builder, Node};

/// A value that is known, or the number of a node with its width.
#[derive(Clone, Copy)]
pub enum Value {
    Known(Word),
    Node(u64, u32),
}

impl Value {
    /// The same value.
    pub fn same(&self) -> Value
        ensures { result ≡ self.now }
    {
        match self {
            Value::Known(word) => Value::Known(*word),
            Value::Node(at, width) => Value::Node(*at, *width),
        }
    }

    pub fn width(&self) -> u32
        ensures { result ≡ width_of self.now }
    {
        match self {
            Value::Known(word) => word.width(),
            Value::Node(_, width) => *width,
        }
    }
}

/// Adds a node of this width.
pub fn add(b: &mut Builder, node: Node, width: u32) -> Result<Value, NoMemory>
    requires inner { IsInner node }
    requires right { IsRight b.old (length b.old.nodes) node }
    requires width { width ≡ node_width b.old node }
    ensures { IfOk result (λ r. Gives b.old b.new r width (λ w. (node_bits w.state w.inputs w.values node).value)) }
{
    let at = b.node(node)?;
    Ok(Value::Node(at, width))
}

/// The number of a node with the value.
pub fn node(b: &mut Builder, a: Value) -> Result<u64, NoMemory>
    requires { IsIn b.old a }
    ensures { IfOk result (λ k. Gives b.old b.new (Value.Node k (width_of a)) (width_of a) (λ w. number w a)) }
{
    match a {
        Value::Known(word) => b.node(Node::Const(word)),
        Value::Node(at, _) => Ok(at),
    }
}

pub fn unary_value(b: &mut Builder, op: Op, a: Value) -> Result<Value, NoMemory>
    requires unary { IsTrue (is_unary op) }
    requires a_in { IsIn b.old a }
    ensures is { IfOk result (λ r. Gives b.old b.new r (result_width op (width_of a)) (λ w. unary_value op (width_of a) (number w a))) }
    ensures known { IfOk result (λ r. IsKnown a → IsKnown r) }
{
    match a {
        Value::Known(word) => Ok(Value::Known(unary(op, word))),
        Value::Node(at, width) => {
            let width = if op.keeps_width() { width } else { 1 };
            add(b, Node::Un(op, at), width)
        }
    }
}

/// `signed` says whether the operands are signed.
pub fn binary_value(
    b: &mut Builder,
    op: Op,
    signed: bool,
    x: Value,
    y: Value,
) -> Result<Value, NoMemory>
    requires binary { IsFalse (is_unary op) }
    requires x_in { IsIn b.old x }
    requires y_in { IsIn b.old y }
    requires same { IsFalse (is_apart op) → width_of x ≡ width_of y }
    ensures is { IfOk result (λ r. Gives b.old b.new r (result_width op (width_of x)) (λ w. binary_value op signed (width_of x) (number w x) (number w y))) }
    ensures known { IfOk result (λ r. IsKnown x → IsKnown y → IsKnown r) }
{
    if let Value::Known(p) = x {
        if let Value::Known(q) = y {
            return Ok(Value::Known(binary(op, p, q, signed)));
        }
    }
    let of = x.width();
    let width = if op.keeps_width() { of } else { 1 };
    let p = node(b, x)?;
    let q = node(b, y)?;
    add(b, Node::Bin(op, p, q, signed), width)
}

/// `x` where `c` isn't 0, else `y`.
pub fn choose(b: &mut Builder, c: Value, x: Value, y: Value) -> Result<Value, NoMemory>
    requires c_in { IsIn b.old c }
    requires x_in { IsIn b.old x }
    requires y_in { IsIn b.old y }
    requires same { width_of x ≡ width_of y }
    ensures is { IfOk result (λ r. Gives b.old b.new r (width_of x) (λ w. if number w c == 0 then number w y else number w x)) }
    ensures known { IfOk result (λ r. IsKnown c → IsKnown x → IsKnown y → IsKnown r) }
{
    match c {
        Value::Known(c) => { if c.value() == 0 { Ok(y) } else { Ok(x) } }
        Value::Node(c, _) => {
            let width = x.width();
            let p = node(b, x)?;
            let q = node(b, y)?;
            add(b, Node::Mux(c, p, q), width)
        }
    }
}

/// The `width` bits from `low` on.
pub fn cut(b: &mut Builder, x: Value, low: u32, width: u32) -> Result<Value, NoMemory>
    requires x_in { IsIn b.old x }
    requires some { 1 ≤ width }
    requires inside { low + width ≤ width_of x }
    ensures is { IfOk result (λ r. Gives b.old b.new r width (λ w. number w x / 2 ^ low % 2 ^ width)) }
    ensures known { IfOk result (λ r. IsKnown x → IsKnown r) }
{
    if width == x.width() {
        return Ok(x);
    }
    match x {
        Value::Known(p) => Ok(Value::Known(p.slice(low, width))),
        Value::Node(p, _) => add(b, Node::Slice(p, low, width), width),
    }
}

/// The bits of `x` above those of `y`.
pub fn join(b: &mut Builder, x: Value, y: Value) -> Result<Value, NoMemory>
    requires x_in { IsIn b.old x }
    requires y_in { IsIn b.old y }
    requires most { width_of x + width_of y ≤ 128 }
    ensures is { IfOk result (λ r. Gives b.old b.new r (width_of x + width_of y) (λ w. number w x * 2 ^ width_of y + number w y)) }
    ensures known { IfOk result (λ r. IsKnown x → IsKnown y → IsKnown r) }
{
    if let Value::Known(p) = x {
        if let Value::Known(q) = y {
            return Ok(Value::Known(p.concat(q)));
        }
    }
    let width = x.width() + y.width();
    let p = node(b, x)?;
    let q = node(b, y)?;
    add(b, Node::Cat(p, q), width)
}

/// At a width that isn't less, with the top bit repeated where `signed`, else with zeros above.
pub fn extend(b: &mut Builder, x: Value, width: u32, signed: bool) -> Result<Value, NoMemory>
    requires x_in { IsIn b.old x }
    requires wide { width_of x ≤ width }
    requires most { width ≤ 128 }
    ensures is { IfOk result (λ r. Gives b.old b.new r width (λ w. extended signed (width_of x) width (number w x))) }
    ensures known { IfOk result (λ r. IsKnown x → IsKnown r) }
{
    if width == x.width() {
        return Ok(x);
    }
    match x {
        Value::Known(x) => Ok(Value::Known(if signed { x.sext(width) } else { x.zext(width) })),
        Value::Node(x, _) => add(b, Node::Ext(x, width, signed), width),
    }
}
