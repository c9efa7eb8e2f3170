// With what a call ends.
ghost use Rattle.std.specs.Prelude.{◌≡◌};

use std::marker::Model;

/// The status with which a call ends. A contract sees it as its number.
#[derive(Clone, Copy)]
pub struct Status {
    byte: u8,
}

impl Model for Status {
    ghost use Rattle.std.specs.Prelude.{ℕ};

    ghost Value = { ℕ };

    ghost view = { λ s. s.byte };

    ghost inverse = { λ number. record { byte = number } };
}

impl Status {
    /// The whole text was put.
    pub(crate) const DONE: Status = Status { byte: 0 };

    /// The words are no command, or no text.
    pub(crate) const MISUSE: Status = Status { byte: 1 };

    /// A file cannot be read.
    pub(crate) const CANNOT_READ: Status = Status { byte: 2 };

    /// A put failed.
    pub(crate) const CANNOT_WRITE: Status = Status { byte: 3 };

    /// A file is no program.
    pub(crate) const NO_PROGRAM: Status = Status { byte: 4 };

    /// A shape rule is broken.
    pub(crate) const RULE: Status = Status { byte: 5 };

    /// A limit is exceeded.
    pub(crate) const LIMIT: Status = Status { byte: 6 };

    /// A file does not hold the arrays of an assembly text.
    pub(crate) const NO_ARRAYS: Status = Status { byte: 7 };

    /// A file is no assembly text.
    pub(crate) const NO_ASSEMBLY: Status = Status { byte: 8 };

    /// A run stopped before its end.
    pub(crate) const STOPPED: Status = Status { byte: 9 };

    /// Memory was wanted.
    pub(crate) const NO_MEMORY: Status = Status { byte: 10 };

    /// An expression is not built.
    pub(crate) const NOT_BUILT: Status = Status { byte: 11 };

    /// The number of the status.
    pub fn byte(self) -> u8
        ensures { result ≡ self }
    {
        self.byte
    }
}
