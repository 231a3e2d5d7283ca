/// A part by its number, and a place in the text at which a rule is told of it.
#[derive(Clone, Copy)]
pub struct Told {
    pub part: usize,
    pub place: u64,
}
