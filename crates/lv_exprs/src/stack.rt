ghost use Rattle.std.specs.Prelude.{◌≡◌, ◌≤◌, [], ◌∷◌, ◌+◌, MatchOption, OnOk, true, false};
ghost use Rattle.lv_exprs.specs.Steps as step;
ghost use Rattle.lv_exprs.specs.declared.operand.Operand.{Operand};

use crate::operand::Frame;
use lv_bits::NoMemory;
use std::alloc::{AllocError, Global};
use std::collections::VecDeque;

/// Whether a token that pulls so strongly takes the operand away from the frame.
pub fn stops(frame: &Frame, pull: u8) -> bool
    ensures { result ≡ step.stops pull frame.now }
{
    match frame {
        Frame::Prefix(_) => 12 < pull,
        Frame::Left(sign, _, _) => sign.level() < pull,
        Frame::Colon(_, _, _) => 1 < pull,
        _ => true,
    }
}

/// How many nodes the frame will be.
fn weight(frame: &Frame) -> u32
    ensures value { result ≡ step.frame_weight frame.now }
    ensures within { result ≤ 2 }
{
    match frame {
        Frame::Prefix(sign) => sign.weight(),
        Frame::Paren => 0,
        _ => 1,
    }
}

pub fn mark(frame: &Frame) -> u32
    ensures { result ≡ step.mark frame.now }
{
    match frame {
        Frame::Left(_, _, reach) => *reach,
        Frame::Question(_, reach) => *reach,
        Frame::Colon(_, _, reach) => *reach,
        Frame::Brace(_, reach) => *reach,
        Frame::Repeat(_, _, reach) => *reach,
        Frame::Index(_, _, reach) => *reach,
        Frame::Part(_, _, _, _, reach) => *reach,
        _ => 0,
    }
}

/// What is open, the top at the front, and how many nodes that will be.
#[derive(Drop)]
pub struct Stack {
    pub frames: VecDeque<Frame>,
    pub depth: u32,
    pub ghost counted: { depth ≡ step.nodes frames.items },
}

impl Stack {
    pub fn new(alloc: Global) -> Stack
        ensures { result.frames.items ≡ [] }
    {
        Stack {
            frames: VecDeque::new(alloc),
            depth: 0,
        }
    }

    pub fn push(&mut self, frame: Frame) -> Result<(), NoMemory>
        requires { self.old.depth ≤ 1000 }
        ensures { OnOk result (self.new.frames.items ≡ frame ∷ self.old.frames.items) }
    {
        let weight = weight(&frame);
        match self.frames.push_front(frame) {
            Ok(()) => {
                self.depth += weight;
                Ok(())
            }
            Err(e) => Err(AllocError::from(e).into()),
        }
    }

    pub fn pop(&mut self) -> Option<Frame>
        ensures depth { self.new.depth ≤ self.old.depth }
        ensures items { MatchOption result ((self.old.frames.items ≡ []) × (self.new.frames.items ≡ [])) (λ f. self.old.frames.items ≡ f ∷ self.new.frames.items) }
    {
        let frame = self.frames.pop_front()?;
        self.depth -= weight(&frame);
        Some(frame)
    }

    /// Takes the top where a token that pulls so strongly closes it.
    pub fn take_loose(&mut self, pull: u8) -> Option<Frame>
        ensures { MatchOption result ((x : Operand) → step.lower pull self.old.frames.items x ≡ (self.new.frames.items, x))
            (λ f. (self.old.frames.items ≡ f ∷ self.new.frames.items) × (step.stops pull f ≡ false)) }
    {
        match self.frames.front() {
            None => return None,
            Some(frame) => {
                if stops(frame, pull) {
                    return None;
                }
            }
        }
        match self.pop() {
            None => None,
            Some(frame) => Some(frame),
        }
    }

    pub fn is_empty(&self) -> bool
        ensures { result ≡ step.is_none self.now.frames.items }
    {
        match self.frames.front() {
            None => true,
            Some(_) => false,
        }
    }

    /// The number of the top.
    pub fn top_mark(&self) -> u32
        ensures { result ≡ step.top_mark self.now.frames.items }
    {
        match self.frames.front() {
            None => 0,
            Some(frame) => mark(frame),
        }
    }
}
