use lv_bits::Text;
use lv_flat::Sort;
use lv_spans::Span;
use sqlite_items::Items;

/// How a part is carried out.
#[derive(Clone, Copy)]
pub enum Way {
    Continuous,
    Combinational,
    /// With what the name behind `posedge` is declared as, and its place.
    Edge(Sort, u64),
}

/// A name in a target: what it is declared as, the bits that it may write, whether it writes them for sure, and its place.
#[derive(Drop)]
pub struct Aim {
    pub sort: Sort,
    pub bits: Items<Span>,
    pub sure: bool,
    pub place: u64,
}

/// A step of a block: what it reads, what it writes, at once or after the block, and the place of its target.
pub struct Step {
    pub reads: Items<Span>,
    pub aims: Items<Aim>,
    pub at_once: bool,
    pub place: u64,
}

impl Drop for Step {
    fn drop(self) {
        let Step {
            reads,
            aims,
            at_once: _,
            place: _,
        } = self;
        drop(reads);
        drop(aims);
    }
}

/// What the rules on parts need of one part, without trees.
pub struct Extent {
    pub way: Way,
    /// The path of its scope.
    pub path: Text,
    pub place: u64,
    /// The places of clock names in it.
    pub clocks: Items<u64>,
    pub drives: Items<Span>,
    pub reads: Items<Span>,
    /// The names in the target of a continuous assignment. Those of a block stand in its steps.
    pub aims: Items<Aim>,
    /// The steps of a block.
    pub steps: Items<Step>,
    /// A bit that a block writes is not written on every path.
    pub latch: bool,
    /// A bit that a block writes is read first on some path.
    pub exposed: bool,
    /// A continuous assignment names one bit twice.
    pub twice: bool,
}

impl Drop for Extent {
    fn drop(self) {
        let Extent {
            way: _,
            path,
            place: _,
            clocks,
            drives,
            reads,
            aims,
            steps,
            latch: _,
            exposed: _,
            twice: _,
        } = self;
        drop(path);
        drop(clocks);
        drop(drives);
        drop(reads);
        drop(aims);
        drop(steps);
    }
}
