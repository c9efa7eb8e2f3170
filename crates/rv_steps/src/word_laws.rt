// The laws of the words of an area: what a write in any order leaves, and the loads and stores of whole words.
// The functions do nothing: their clauses are the laws.

ghost use Rattle.rv_line.specs.declared.line.Line.{Line};
ghost use Rattle.rv_line.specs.declared.line.Load.{Load};
ghost use Rattle.rv_line.specs.declared.line.Store.{Store};
ghost use Rattle.rv_steps.specs.Effects.{signed_value};
ghost use Rattle.rv_steps.specs.Good.{values_at};
ghost use Rattle.rv_steps.specs.Machine.{Config, Goes, IsAt, address, next_step, register_at, value_at, with_result, with_value};
ghost use Rattle.std.specs.Int.{w64};
ghost use Rattle.std.specs.Prelude.{List, Some, length, slice_get, slice_set, ℕ, ℤ, ◌%◌, ◌*◌, ◌+◌, ◌<◌, ◌^◌, ◌≡◌, ◌≤◌, ◌⊎◌};

/// The values of a range of words: how many there are, which each one is, and what a write leaves of them, in
/// whatever order words are written.
pub fn area_words_are_set()
    ensures count { (block : List ℕ) (word count : ℕ) → length (values_at block word count) ≡ count }
    ensures value { (block : List ℕ) (word count i : ℕ) → i < count → slice_get (values_at block word count) i
        ≡ Some (signed_value (value_at w64 block (8 * (word + i)))) }
    ensures inside { (block : List ℕ) (word count i value : ℕ) → i < count → 8 * (word + i) + 8 ≤ length block
        → value < 2 ^ 64 → values_at (with_value w64 block (8 * (word + i)) value) word count
        ≡ slice_set (values_at block word count) i (signed_value value) }
    ensures outside { (block : List ℕ) (word count place value : ℕ) → 8 * place + 8 ≤ length block
        → (place < word) ⊎ (word + count ≤ place)
        → values_at (with_value w64 block (8 * place) value) word count ≡ values_at block word count }
{}

/// A whole word is loaded and stored at its place in the block.
pub fn words_are_moved()
    ensures load { (lines : List Line) (base k : ℕ) (c : Config) (to : ℕ) (imm : ℤ) (pointer place : ℕ)
        → IsAt lines k (Line.Load Load.Ld to imm pointer) c → base % 8 ≡ 0
        → address c.registers pointer imm ≡ base + 8 * place → 8 * place + 8 ≤ length c.block
        → next_step lines base c ≡ Goes (with_result c to (value_at w64 c.block (8 * place))) }
    ensures store { (lines : List Line) (base k : ℕ) (c : Config) (from : ℕ) (imm : ℤ) (pointer place : ℕ)
        → IsAt lines k (Line.Store Store.Sd from imm pointer) c → base % 8 ≡ 0
        → address c.registers pointer imm ≡ base + 8 * place → 8 * place + 8 ≤ length c.block
        → next_step lines base c ≡ Goes (record c {
          pc = c.pc + 4;
          block = with_value w64 c.block (8 * place) (register_at c.registers from);
        }) }
{}
