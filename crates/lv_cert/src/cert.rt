use lv_clauses::Derivation;

/// What the verifier found: the numbers of the kept candidates, which rise, an initial pair of states, an allowed input, and what refutes the sets of base, step and imply.
pub struct Cert {
    pub kept: Vec<u64>,
    pub left: Vec<u128>,
    pub right: Vec<u128>,
    pub input: Vec<u128>,
    pub base: Derivation,
    pub step: Derivation,
    pub imply: Derivation,
}

impl Drop for Cert {
    fn drop(self) {
        let Cert {
            kept,
            left,
            right,
            input,
            base,
            step,
            imply,
        } = self;
        drop(kept);
        drop(left);
        drop(right);
        drop(input);
        drop(base);
        drop(step);
        drop(imply);
    }
}

/// How many candidates, registers and inputs a task has.
#[derive(Clone, Copy, Debug, PartialEq, Eq)]
pub struct Shape {
    pub candidates: u64,
    pub registers: u64,
    pub inputs: u64,
}
