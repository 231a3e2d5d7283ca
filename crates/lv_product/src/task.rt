ghost use Rattle.lv_product.specs.Tasks.{IsTask};

use lv_bits::{Text, Word};
use lv_netlist::{Graph, Inputs};
use lv_unroll::Port;

/// A relation between two copies that may hold at each moment.
#[derive(Clone, Copy, Debug, PartialEq, Eq)]
pub enum Candidate {
    /// The node has one number in both copies.
    Eq(u64),
    /// The second node has one number in both copies, or the first is 0 in one of them.
    When(u64, u64),
    /// The node isn't 0 in either copy.
    Each(u64),
    /// Both copies have shown equally many entries.
    Aligned,
}

/// What is asked of the clauses of a product.
#[derive(Clone, Copy, Debug, PartialEq, Eq)]
pub enum Query {
    /// Two states that are an initial pair.
    Initial,
    /// An allowed input.
    Allowed,
    /// An initial pair at which a candidate fails.
    Base,
    /// A window at whose first moment all candidates hold, and not all at its second.
    Step,
    /// A window at whose first moment all candidates hold, and the attacker sees a difference.
    Imply,
}

/// A graph with the nodes that its two copies are observed by. The candidates are numbered from 0, and each has its text.
///
/// There are 1 to 4 ports, all with equally many nodes to show. What is in `equal`, `each` and `candidates` depends on the
/// registers alone, what is in `assume` on the inputs alone. At most 32 cycles are looked ahead.
#[derive(Drop)]
pub struct Task {
    pub graph: Graph,
    pub ports: Vec<Port>,
    pub attacker: Vec<u64>,
    pub assume: Vec<u64>,
    pub equal: Vec<u64>,
    pub each: Vec<u64>,
    pub candidates: Vec<Candidate>,
    pub texts: Vec<Text>,
    pub lookahead: u32,
    pub ghost fits: { IsTask graph ports.items attacker.items assume.items equal.items each.items candidates.items texts.items lookahead },
}

/// Numbers of candidates, rising.
#[derive(Drop)]
pub struct Kept {
    pub numbers: Vec<u64>,
}

/// Two first states, the inputs of each cycle, and whether both copies are aligned at first.
#[derive(Drop)]
pub struct Pair {
    pub left: Vec<Word>,
    pub right: Vec<Word>,
    pub inputs: Vec<Inputs>,
    pub aligned: bool,
}
