// Parts of what is said of a refusal: where it is, and a limit that is exceeded.
ghost use Rattle.std.specs.Prelude.{Some};
ghost use Rattle.psi_top.specs.Line.{excess, line_place, place, place_or_whole};

use std::fmt;
use text_tokens::Position;

/// A place of the file of this name.
#[derive(Clone, Copy)]
pub(crate) struct Place<'a> {
    pub(crate) name: &'a str,
    pub(crate) at: Position,
}

impl fmt::Display for Place<'_> {
    ghost output = { λ p. Some (place p.name.now p.at) };

    fn fmt<W: fmt::Write>(&self, f: &mut fmt::Formatter<W>) -> fmt::Result {
        write!(f, "{}:{}:{}: ", self.name, self.at.line, self.at.column)
    }
}

/// A place of the file of this name, or the file as a whole.
#[derive(Clone, Copy)]
pub(crate) struct PlaceOrWhole<'a> {
    pub(crate) name: &'a str,
    pub(crate) at: Option<Position>,
}

impl fmt::Display for PlaceOrWhole<'_> {
    ghost output = { λ p. Some (place_or_whole p.name.now p.at) };

    fn fmt<W: fmt::Write>(&self, f: &mut fmt::Formatter<W>) -> fmt::Result {
        let name = self.name;
        match self.at {
            Some(at) => write!(f, "{}", Place { name, at }),
            None => write!(f, "{name}: "),
        }
    }
}

/// A line of the file of this name.
#[derive(Clone, Copy)]
pub(crate) struct LinePlace<'a> {
    pub(crate) name: &'a str,
    pub(crate) line: u32,
}

impl fmt::Display for LinePlace<'_> {
    ghost output = { λ p. Some (line_place p.name.now p.line) };

    fn fmt<W: fmt::Write>(&self, f: &mut fmt::Formatter<W>) -> fmt::Result {
        write!(f, "{}:{}: ", self.name, self.line)
    }
}

/// A limit, the value that exceeds it, and the greatest that it allows.
#[derive(Clone, Copy)]
pub(crate) struct Excess {
    pub(crate) which: u8,
    pub(crate) value: u64,
    pub(crate) most: u64,
}

impl fmt::Display for Excess {
    ghost output = { λ e. Some (excess e.which e.value e.most) };

    fn fmt<W: fmt::Write>(&self, f: &mut fmt::Formatter<W>) -> fmt::Result {
        let Excess { which, value, most } = *self;
        writeln!(f, "limit {which}: {value} exceeds {most}")
    }
}
