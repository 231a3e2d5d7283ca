ghost use Rattle.std.specs.Prelude.{◌≡◌, ◌≤◌};
ghost use Rattle.lv_source.specs.Names.{size};

use lv_flat::FlatSelect;
use lv_held::Held;
use sqlite_items::Items;

/// How a name is declared.
#[derive(Clone, Copy)]
pub struct Head {
    pub left: u32,
    pub right: u32,
    pub width: u32,
    pub ranged: bool,
    pub signed: bool,
    pub array: bool,
    pub constant: bool,
    ghost wide: { size (record { left = left; right = right }) ≡ width },
    ghost some: { 1 ≤ width },
    ghost most: { width ≤ 128 },
}

/// A select of bits, how many it takes, and the places of the clock names in it.
pub struct Pick {
    pub select: Held<FlatSelect>,
    pub width: u32,
    pub constant: bool,
    pub clocks: Items<u64>,
    ghost some: { 1 ≤ width },
    ghost most: { width ≤ 128 },
}

impl Drop for Pick {
    fn drop(self) {
        let Pick {
            select,
            width: _,
            constant: _,
            clocks,
        } = self;
        drop(select);
        drop(clocks);
    }
}

/// The selects of a name, and what it is with them.
pub struct Picks {
    pub selects: Items<FlatSelect>,
    pub width: u32,
    pub signed: bool,
    pub constant: bool,
    pub clocks: Items<u64>,
    ghost some: { 1 ≤ width },
    ghost most: { width ≤ 128 },
}

impl Drop for Picks {
    fn drop(self) {
        let Picks {
            selects,
            width: _,
            signed: _,
            constant: _,
            clocks,
        } = self;
        drop(selects);
        drop(clocks);
    }
}

impl Pick {
    pub fn into_parts(self) -> (FlatSelect, u32, bool, Items<u64>)
        ensures { result ≡ (self.select, self.width, self.constant, self.clocks) }
    {
        let Pick {
            select,
            width,
            constant,
            clocks,
        } = self;
        (select.into_inner(), width, constant, clocks)
    }
}

impl Picks {
    pub fn into_parts(self) -> (Items<FlatSelect>, Items<u64>)
        ensures { result ≡ (self.selects, self.clocks) }
    {
        let Picks {
            selects,
            width: _,
            signed: _,
            constant: _,
            clocks,
        } = self;
        (selects, clocks)
    }
}
