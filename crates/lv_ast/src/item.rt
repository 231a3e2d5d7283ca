ghost use Rattle.std.specs.Prelude.{◌≡◌};

use crate::{Expr, Ident, Stmt, Target};
use lv_held::Held;
use sqlite_items::Items;

/// The bounds of a vector or an array, `[left:right]`.
pub struct Range {
    pub left: Held<Expr>,
    pub right: Held<Expr>,
}

impl Drop for Range {
    fn drop(self) {
        let Range { left, right } = self;
        drop(left);
        drop(right);
    }
}

/// A parameter with its value.
pub struct Setting {
    pub name: Ident,
    pub value: Held<Expr>,
}

impl Drop for Setting {
    fn drop(self) {
        let Setting { name, value } = self;
        drop(name);
        drop(value);
    }
}

/// Parameters that are declared together.
pub struct Params {
    pub signed: bool,
    pub range: Option<Range>,
    pub list: Items<Setting>,
}

impl Drop for Params {
    fn drop(self) {
        let Params {
            signed: _,
            range,
            list,
        } = self;
        drop(range);
        drop(list);
    }
}

/// What a direction says besides: nothing, `wire` or `reg`.
#[derive(Clone, Copy, Debug, PartialEq, Eq)]
pub enum PortWord {
    Absent,
    Wire,
    Reg,
}

/// Ports of one direction.
pub struct Aport {
    pub output: bool,
    pub word: PortWord,
    pub signed: bool,
    pub range: Option<Range>,
    pub names: Items<Ident>,
}

impl Drop for Aport {
    fn drop(self) {
        let Aport {
            output: _,
            word: _,
            signed: _,
            range,
            names,
        } = self;
        drop(range);
        drop(names);
    }
}

/// The list in a module's header.
#[derive(Drop)]
pub enum Ports {
    Absent,
    Empty,
    Names(Items<Ident>),
    Declared(Items<Aport>),
}

/// A net, and the expression that drives it.
pub struct NetName {
    pub name: Ident,
    pub value: Option<Held<Expr>>,
}

impl Drop for NetName {
    fn drop(self) {
        let NetName { name, value } = self;
        drop(name);
        drop(value);
    }
}

/// A variable, and its bounds where it is an array.
pub struct RegName {
    pub name: Ident,
    pub bounds: Option<Range>,
}

impl Drop for RegName {
    fn drop(self) {
        let RegName { name, bounds } = self;
        drop(name);
        drop(bounds);
    }
}

/// A continuous assignment, with the place of its first token.
pub struct Continuous {
    pub target: Target,
    pub value: Held<Expr>,
    pub place: u64,
}

impl Drop for Continuous {
    fn drop(self) {
        let Continuous {
            target,
            value,
            place: _,
        } = self;
        drop(target);
        drop(value);
    }
}

/// What an `always` waits for: `*`, `( * )` or an edge of a clock.
#[derive(Drop)]
pub enum Watch {
    Star,
    Closed,
    Posedge(Ident),
}

/// A connection of an instance; an ordered one has no name.
pub struct Conn {
    pub name: Option<Ident>,
    pub value: Option<Held<Expr>>,
    pub place: u64,
}

impl Drop for Conn {
    fn drop(self) {
        let Conn {
            name,
            value,
            place: _,
        } = self;
        drop(name);
        drop(value);
    }
}

/// An instance of a module.
pub struct Inst {
    pub name: Ident,
    pub conns: Items<Conn>,
}

impl Drop for Inst {
    fn drop(self) {
        let Inst { name, conns } = self;
        drop(name);
        drop(conns);
    }
}

/// An item of a module or a generate block (IEEE 1364-2005, section 12).
#[derive(Drop)]
pub enum Item {
    Port(Aport),
    /// Whether they are signed.
    Wire(bool, Option<Range>, Items<NetName>),
    /// Whether they are signed.
    Reg(bool, Option<Range>, Items<RegName>),
    /// Whether they are genvars.
    Index(bool, Items<Ident>),
    /// Whether they are local.
    Params(bool, Params),
    Assign(Items<Continuous>),
    /// With the place of its keyword.
    Always(Watch, Stmt, u64),
    /// The module, the settings of its parameters, and the instances.
    Instance(Ident, Items<Conn>, Items<Inst>),
    Generate(Items<Item>),
    /// The genvar and its first value, the test, the genvar again with its next value, the label, and the items.
    Loop(Ident, Held<Expr>, Held<Expr>, Ident, Held<Expr>, Ident, Items<Item>),
}

/// A module.
pub struct Module {
    pub name: Ident,
    pub params: Items<Params>,
    pub ports: Ports,
    pub items: Items<Item>,
}

impl Drop for Module {
    fn drop(self) {
        let Module {
            name,
            params,
            ports,
            items,
        } = self;
        drop(name);
        drop(params);
        drop(ports);
        drop(items);
    }
}

/// The modules of all files.
pub struct Source {
    pub modules: Items<Module>,
}

impl Drop for Source {
    fn drop(self) {
        let Source { modules } = self;
        drop(modules);
    }
}

impl Params {
    /// Its fields.
    pub fn into_parts(self) -> (bool, Option<Range>, Items<Setting>)
        ensures { result ≡ (self.signed, self.range, self.list) }
    {
        let Params {
            signed,
            range,
            list,
        } = self;
        (signed, range, list)
    }
}

impl Aport {
    /// What stands before its names, and these.
    pub fn into_parts(self) -> (((bool, PortWord), (bool, Option<Range>)), Items<Ident>)
        ensures { result ≡ (((self.output, self.word), (self.signed, self.range)), self.names) }
    {
        let Aport {
            output,
            word,
            signed,
            range,
            names,
        } = self;
        (((output, word), (signed, range)), names)
    }
}
