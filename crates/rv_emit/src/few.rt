// Short lists of lines.
ghost use Rattle.std.specs.Prelude.{◌≡◌, ◌<◌, ◌≤◌, ◌++◌, ◌∷◌, [], length};

use rv_line::Line;
use std::marker::Model;

/// The greatest number of lines.
const MOST_LINES: usize = 8;

/// At most 8 lines, which take no memory of the heap.
#[derive(Clone, Copy)]
pub struct Few {
    places: [Line; 8],
    count: usize,
}

impl Model for Few {
    ghost use Rattle.std.specs.Prelude.{List, length, take};
    ghost use Rattle.shapes_core.specs.Padded.{IsPadded, padded};
    ghost use Rattle.rv_line.specs.declared.line.Line.{Line};

    ghost Value = { List Line };

    ghost view = { λ f. take f.count f.places };

    ghost invariant = { λ f. IsPadded Line.Fence 8 f.places f.count };

    ghost inverse = { λ list. record { places = padded Line.Fence 8 list; count = length list } };

    ghost inverse_ok = { λ n h i. record { places = h.filled i; count = h.counted i } };
}

impl Few {
    /// These lines. It takes no memory.
    pub fn new(lines: &[Line]) -> Few
        requires { length lines.now ≤ 8 }
        ensures { result ≡ lines.now }
    {
        let mut few = Few::none();
        for line in lines {
            few.push(*line);
        }
        few
    }

    /// No line.
    pub(crate) fn none() -> Few
        ensures { result ≡ [] }
    {
        Few {
            places: [Line::Fence; MOST_LINES],
            count: 0,
        }
    }

    /// Puts a line behind those that are there.
    pub(crate) fn push(&mut self, line: Line)
        requires room { length self.now < 8 }
        ensures { self.new ≡ self.old ++ line ∷ [] }
    {
        self.places[self.count] = line;
        self.count += 1;
    }

    /// The lines, in order.
    pub fn lines(&self) -> &[Line]
        ensures value { result.now ≡ self.now }
        ensures few { length self.now ≤ 8 }
    {
        &self.places[..self.count]
    }
}
