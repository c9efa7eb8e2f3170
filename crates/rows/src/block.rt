// A block of memory of a run, word by word.
ghost use Rattle.std.specs.Prelude.{◌≡◌, ◌+◌, ◌^◌, ◌≤◌, length, slice_index};

use crate::machine::next_number;
use rv_line::Assembly;
use rv_machine::{End, Regs, run};
use shapes_core::NoMemory;
use std::alloc::Global;

/// The address of the block.
pub const BASE: u64 = 1099511627776;

/// The spill words of a run and its areas.
#[derive(Drop)]
pub struct Block {
    spill: u64,
    bytes: Vec<u8>,
}

impl Block {
    /// A block of so many words, which are filled from a seed.
    pub fn filled(alloc: Global, seed: u64, spill: u64, words: u64) -> Result<Block, NoMemory> {
        let mut bytes = Vec::new(alloc);
        let mut number = !seed;
        for _ in 0..words {
            number = next_number(number);
            bytes.extend_from_slice(&number.to_le_bytes())?;
        }
        Ok(Block { spill, bytes })
    }

    /// The same block.
    pub fn copy(&self, alloc: Global) -> Result<Block, NoMemory> {
        Ok(Block {
            spill: self.spill,
            bytes: Vec::from_slice(alloc, &self.bytes)?,
        })
    }

    /// The place in the bytes of a word that is counted from the end of the spill words.
    fn place(&self, word: u64) -> usize {
        self.spill.saturating_add(word).saturating_mul(8) as usize
    }

    /// The value of a word, which is 0 outside the block.
    pub fn value(&self, word: u64) -> i64 {
        value_at(&self.bytes, self.place(word))
    }

    /// The values of so many words from one of them on.
    pub fn values(&self, alloc: Global, word: u64, count: u64) -> Result<Vec<i64>, NoMemory> {
        let mut values = Vec::new(alloc);
        for place in 0..count {
            values.push(self.value(word.saturating_add(place)))?;
        }
        Ok(values)
    }

    /// Puts values into the words from one of them on.
    pub fn put(&mut self, word: u64, values: &[i64]) {
        let mut at = word;
        for value in values {
            let place = self.place(at);
            put_at(&mut self.bytes, place, *value);
            at = at.saturating_add(1);
        }
    }

    /// Runs a program on the block and on registers of which the first is 0.
    pub fn run(&mut self, program: &Assembly, regs: &mut Regs) -> End
        requires { slice_index regs.old.x 0 ≡ 0 }
    {
        let budget = program.header().steps;
        if self.bytes.len() as u64 > 4294967296 {
            return End::Budget;
        }
        run(program, BASE, &mut self.bytes, regs, budget)
    }
}

fn value_at(bytes: &[u8], place: usize) -> i64 {
    if bytes.len() < 8 || place > bytes.len() - 8 {
        return 0;
    }
    u64::from_le_bytes(*bytes[place..place + 8].as_array::<8>().unwrap()).cast_signed()
}

fn put_at(bytes: &mut [u8], place: usize, value: i64) {
    if bytes.len() >= 8 && place <= bytes.len() - 8 {
        bytes[place..place + 8].copy_from_slice(&value.cast_unsigned().to_le_bytes());
    }
}
