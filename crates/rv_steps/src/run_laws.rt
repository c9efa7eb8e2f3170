// The laws of runs, for every proof of what a program does: pieces of it, and what they leave. The functions
// do nothing: their clauses are the laws.

ghost use Rattle.rv_steps.specs.Accesses.{Leads};
ghost use Rattle.rv_steps.specs.Constants.{constant_lines};
ghost use Rattle.rv_steps.specs.Effects.{signed_value};
ghost use Rattle.rv_steps.specs.Good.{is_fine_load, is_fine_store, is_input, values_at};
ghost use Rattle.rv_steps.specs.Machine.{Config, Goes, IsAt, address_of, next_step, register_at, with_register, with_result, with_value};
ghost use Rattle.rv_steps.specs.Pieces.{StandsAt};
ghost use Rattle.rv_steps.specs.Written.{IsWritten};
ghost use Rattle.rv_line.specs.Fits.{FitLines};
ghost use Rattle.rv_line.specs.declared.assembly.Header.{Header};
ghost use Rattle.rv_line.specs.declared.line.Imm.{Imm};
ghost use Rattle.rv_line.specs.declared.line.Line.{Line};
ghost use Rattle.shapes_core.specs.Shape.{total};
ghost use Rattle.shapes_core.specs.declared.area.Area.{Area};
ghost use Rattle.std.specs.Int.{w64};
ghost use Rattle.std.specs.List.{range_with_len};
ghost use Rattle.std.specs.Prelude.{IsTrue, List, [], Some, false, length, map, pos, slice_get, ℕ, ◌%◌, ◌*◌, ◌+◌, ◌++◌, ◌<◌, ◌^◌, ◌≡◌, ◌≤◌, ◌⊎◌};

/// The lines of a piece are the program's where the piece stands, which is behind those in front of it.
pub fn pieces_stand()
    ensures line { (lines : List Line) (k : ℕ) (piece : List Line) (i : ℕ) → StandsAt lines k piece
        → i < length piece → slice_get lines (k + i) ≡ slice_get piece i }
    ensures front { (lines : List Line) (k : ℕ) (front back : List Line) → StandsAt lines k (front ++ back)
        → StandsAt lines k front }
    ensures back { (lines : List Line) (k : ℕ) (front back : List Line) → StandsAt lines k (front ++ back)
        → StandsAt lines (k + length front) back }
    ensures stands { (front piece back : List Line) → StandsAt (front ++ (piece ++ back)) (length front) piece }
{}

/// Lines that fit their forms where they stand fit one after another.
pub fn pieces_fit()
    ensures { (count at : ℕ) (front back : List Line) → FitLines count at front
        → FitLines count (at + length front) back → FitLines count at (front ++ back) }
{}

/// The words of an area may be loaded, and those of an output or a scan stored.
pub fn area_words_are_fine()
    ensures load { (header : Header) (areas : List Area) (base j : ℕ) (area : Area) (i : ℕ) → slice_get areas j
        ≡ Some area → i < total area.shape → base % 8 ≡ 0
        → IsTrue (is_fine_load header areas base (base + 8 * (header.spill + area.start + i)) 8) }
    ensures store { (header : Header) (areas : List Area) (base j : ℕ) (area : Area) (i : ℕ) → slice_get areas j
        ≡ Some area → i < total area.shape → base % 8 ≡ 0 → is_input area.kind ≡ false
        → IsTrue (is_fine_store header areas base (base + 8 * (header.spill + area.start + i)) 8) }
{}

/// A pointer walks by a stride. Behind the last word of a block it may stand where addresses end, and wraps to 0.
pub fn pointers_walk()
    ensures within { (lines : List Line) (base k : ℕ) (c : Config) (r stride address next : ℕ)
        → IsAt lines k (Line.Imm Imm.Addi r r (pos stride)) c → register_at c.registers r ≡ address
        → address + stride ≡ next → next < 2 ^ 64 → next_step lines base c ≡ Goes (with_result c r next) }
    ensures wrapping { (lines : List Line) (base k : ℕ) (c : Config) (r stride address next : ℕ)
        → IsAt lines k (Line.Imm Imm.Addi r r (pos stride)) c → register_at c.registers r ≡ address % 2 ^ 64
        → address + stride ≡ next → next_step lines base c ≡ Goes (with_result c r (next % 2 ^ 64)) }
{}

/// Words are written one after another, and then their values are read.
pub fn words_are_written()
    ensures none { (word : ℕ) (value : ℕ → ℕ) (block : List ℕ) → IsWritten word 0 value block block }
    ensures more { (word count : ℕ) (value : ℕ → ℕ) (before after : List ℕ) → IsWritten word count value before after
        → 8 * (word + count) + 8 ≤ length before → value count < 2 ^ 64
        → IsWritten word (count + 1) value before (with_value w64 after (8 * (word + count)) (value count)) }
    ensures values { (word count : ℕ) (value : ℕ → ℕ) (before after : List ℕ) → IsWritten word count value before after
        → values_at after word count ≡ map (λ i. signed_value (value i)) (range_with_len 0 count) }
    ensures others { (word count : ℕ) (value : ℕ → ℕ) (before after : List ℕ) (first size : ℕ)
        → IsWritten word count value before after → (first + size ≤ word) ⊎ (word + count ≤ first)
        → values_at after first size ≡ values_at before first size }
{}
