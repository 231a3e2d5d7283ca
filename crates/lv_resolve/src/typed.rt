ghost use Rattle.std.specs.Prelude.{◌≤◌};

/// The width and the sign that an expression has of itself.
#[derive(Clone, Copy, Debug, PartialEq, Eq)]
pub struct OwnType {
    pub width: u32,
    pub signed: bool,
    ghost some: { 1 ≤ width },
    ghost most: { width ≤ 128 },
}
