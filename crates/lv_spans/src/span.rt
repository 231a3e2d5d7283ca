/// Bits of one signal: of one element, or with `None` of the whole signal where it is no array, and else of every element.
#[derive(Copy, Clone, Drop)]
pub struct Span {
    pub signal: u64,
    pub element: Option<u64>,
    pub mask: u128,
}
