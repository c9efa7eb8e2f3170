// The forms that have begun, around the expression that is read next.
ghost use Rattle.std.specs.Prelude.{◌≡◌, ◌<◌, List, [], ◌∷◌, length, MatchOption, OnOk};

use crate::forms::{OneForm, TwoForm};
use shapes_core::NoMemory;
use std::alloc::Global;
use std::marker::Model;
use text_tokens::Position;

/// A form that has begun. `at` is the position of its word.
#[derive(Clone, Copy)]
pub(crate) enum Frame {
    /// The expression stands in parentheses.
    Parentheses,
    One {
        form: OneForm,
        at: Position,
    },
    /// The expression is the first operand.
    First {
        form: TwoForm,
        at: Position,
    },
    /// The expression is the second operand, and the first is this node.
    Second {
        form: TwoForm,
        at: Position,
        left: u32,
    },
}

/// The forms that have begun, each in the one below it. Contracts see the last that began first.
#[derive(Drop)]
pub(crate) struct Frames {
    items: Vec<Frame>,
}

impl Model for Frames {
    ghost use Rattle.std.specs.Prelude.{List, reverse};
    ghost use Rattle.moa_reader.specs.declared.frames.Frame.{Frame};

    ghost Value = { List Frame };

    ghost view = { λ f. reverse f.items.items };
}

impl Frames {
    pub(crate) fn new(alloc: Global) -> Frames
        ensures { result ≡ [] }
    {
        Frames {
            items: Vec::new(alloc),
        }
    }

    pub(crate) fn len(&self) -> usize
        ensures { result ≡ length self.now }
    {
        self.items.len()
    }

    pub(crate) fn push(&mut self, frame: Frame) -> Result<(), NoMemory>
        ensures { OnOk result (self.new ≡ frame ∷ self.old) }
    {
        self.items.push(frame)?;
        Ok(())
    }

    pub(crate) fn pop(&mut self) -> Option<Frame>
        ensures { MatchOption result ((self.old ≡ []) × (self.new ≡ [])) (λ frame. self.old ≡ frame ∷ self.new) }
    {
        self.items.pop()
    }
}
