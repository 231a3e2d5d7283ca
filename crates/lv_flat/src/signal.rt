ghost use Rattle.std.specs.Prelude.{◌≡◌, ◌≤◌};
ghost use Rattle.lv_source.specs.Names.{size};

use crate::sort::Sort;
use lv_bits::Text;

/// A signal or a clock, by its path from the top, with the bounds of its bits and of its elements.
pub struct Signal {
    pub path: Text,
    pub width: u32,
    pub left: u32,
    pub right: u32,
    /// Whether it is declared with a range.
    pub ranged: bool,
    pub signed: bool,
    pub array: Option<(u32, u32)>,
    pub sort: Sort,
    ghost wide: { size (record { left = left; right = right }) ≡ width },
    ghost most: { width ≤ 128 },
}

impl Drop for Signal {
    fn drop(self) {
        let Signal {
            path,
            width: _,
            left: _,
            right: _,
            ranged: _,
            signed: _,
            array: _,
            sort: _,
        } = self;
        drop(path);
    }
}
