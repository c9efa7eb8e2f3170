// A file that stays open between two reads.
ghost use Rattle.std.specs.Prelude.{◌≡◌, ◌+◌, ◌^◌, ◌≤◌, length, IfOk};
ghost use Rattle.std.specs.Io.KnownBytes.{ReadConsumes};

use std::io;
use std::io::{Read, Seek, SeekFrom};

/// An open file, and the place where it stands: the number of bytes before the next one.
#[derive(Drop)]
pub(crate) struct OpenFile<F> {
    file: F,
    at: u64,
}

impl<F: Read + Seek> OpenFile<F> {
    /// A file that was opened just now.
    pub(crate) fn new(file: F) -> OpenFile<F>
        ensures { result.at ≡ 0 }
    {
        OpenFile { file, at: 0 }
    }

    /// Reads once from byte `at` on. Where the file stands there it is only read, so one that cannot seek, as a pipe,
    /// will do. After a failure the file may stand anywhere.
    pub(crate) fn read_from(&mut self, at: u64, into: &mut [u8]) -> io::Result<usize>
        requires near { at ≤ 2 ^ 32 }
        ensures within { IfOk result (λ count. count ≤ length into.new) }
        ensures stands { IfOk result (λ count. self.new.at ≡ at + count) }
        ensures on { self.old.at ≡ at →
            ReadConsumes (F.remaining self.old.file) (F.remaining self.new.file) result into.new }
    {
        if self.at != at {
            self.file.seek(SeekFrom::Start(at))?;
        }
        let count = self.file.read(into)?;
        self.at = at + count as u64;
        Ok(count)
    }
}
