ghost use Rattle.std.specs.Prelude.{◌≡◌, ◌≤◌};

use lv_flat::FlatTarget;
use lv_held::Held;
use sqlite_items::Items;

/// A flat target, how many bits it has (129 where they are more than 128), and the places of the clock names in it.
pub struct TargetForm {
    pub target: Held<FlatTarget>,
    pub width: u32,
    pub clocks: Items<u64>,
    ghost most: { width ≤ 129 },
}

impl Drop for TargetForm {
    fn drop(self) {
        let TargetForm {
            target,
            width: _,
            clocks,
        } = self;
        drop(target);
        drop(clocks);
    }
}

impl TargetForm {
    pub fn into_parts(self) -> (Held<FlatTarget>, Items<u64>)
        ensures { result ≡ (self.target, self.clocks) }
    {
        let TargetForm {
            target,
            width: _,
            clocks,
        } = self;
        (target, clocks)
    }
}

/// Those of a concatenation.
pub struct TargetForms {
    pub targets: Items<FlatTarget>,
    pub width: u32,
    pub clocks: Items<u64>,
    ghost most: { width ≤ 129 },
}

impl Drop for TargetForms {
    fn drop(self) {
        let TargetForms {
            targets,
            width: _,
            clocks,
        } = self;
        drop(targets);
        drop(clocks);
    }
}

impl TargetForms {
    pub fn into_parts(self) -> (Items<FlatTarget>, Items<u64>)
        ensures { result ≡ (self.targets, self.clocks) }
    {
        let TargetForms {
            targets,
            width: _,
            clocks,
        } = self;
        (targets, clocks)
    }
}

/// A flat target of 1 to 128 bits, and the places of the clock names in it.
pub struct ResolvedTarget {
    pub target: Held<FlatTarget>,
    pub width: u32,
    pub clocks: Items<u64>,
    ghost most: { width ≤ 128 },
}

impl Drop for ResolvedTarget {
    fn drop(self) {
        let ResolvedTarget {
            target,
            width: _,
            clocks,
        } = self;
        drop(target);
        drop(clocks);
    }
}

impl ResolvedTarget {
    /// Its fields but for the width.
    pub fn into_parts(self) -> (Held<FlatTarget>, Items<u64>)
        ensures { result ≡ (self.target, self.clocks) }
    {
        let ResolvedTarget {
            target,
            width: _,
            clocks,
        } = self;
        (target, clocks)
    }
}
