/// What a name of a flat design is declared as.
#[derive(Clone, Copy, Debug, PartialEq, Eq)]
pub enum Sort {
    Input,
    Net,
    Variable,
    Clock,
}
