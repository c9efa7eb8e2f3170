// The laws of constants and pointers: lines that set a register to a number, and whole numbers as words. The
// functions do nothing: their clauses are the laws.
#![tactic(auto, unfolding(crate::specs::Constants::shifted_lines))]

ghost use Rattle.rv_line.specs.Fits.{FitLines, IsImmediate};
ghost use Rattle.rv_line.specs.declared.line.Imm.{Imm};
ghost use Rattle.rv_line.specs.declared.line.Line.{Line};
ghost use Rattle.rv_line.specs.declared.line.Three.{Three};
ghost use Rattle.rv_steps.specs.Accesses.{Leads};
ghost use Rattle.rv_steps.specs.Constants.{constant_lines, is_signed_below, lower_of, shift_lines, upper_of};
ghost use Rattle.rv_steps.specs.Effects.{word_of};
ghost use Rattle.rv_steps.specs.Good.{is_kept};
ghost use Rattle.rv_steps.specs.Kinds.{is_base, is_free, written};
ghost use Rattle.rv_steps.specs.Machine.{Config, Goes, IsAt, address, address_of, next_step, register_at, with_register, with_result};
ghost use Rattle.rv_steps.specs.Pieces.{StandsAt};
ghost use Rattle.rv_steps.specs.Wrapped.{residue, wrapped};
ghost use Rattle.std.specs.Int.{w32, w64};
ghost use Rattle.std.specs.List.{list_all};
ghost use Rattle.std.specs.Prelude.{Bool, FitsSigned, IsTrue, List, [], false, length, neg_ℤ, pos, true, ℕ, ℤ, ◌%◌, ◌*◌, ◌*ℤ◌, ◌+◌, ◌++◌, ◌+ℤ◌, ◌-ℤ◌, ◌<◌, ◌==◌, ◌^◌, ◌∷◌, ◌≡◌, ◌≢◌, ◌≤◌};

/// The word of a whole number: a natural below 2^64 is its own, and a signed number has the word of its bits.
/// Sums and multiples may be taken before or after.
pub fn numbers_wrap()
    ensures natural { (n : ℕ) → n < 2 ^ 64 → wrapped (pos n) ≡ n }
    ensures signed { (z : ℤ) → FitsSigned w64 z → word_of z ≡ wrapped z }
    ensures below { (z : ℤ) → wrapped z < 2 ^ 64 }
    ensures sum { (x y : ℤ) → (wrapped x + wrapped y) % 2 ^ 64 ≡ wrapped (x +ℤ y) }
    ensures multiple { (k : ℕ) (x : ℤ) → (wrapped x * k) % 2 ^ 64 ≡ wrapped (pos k *ℤ x) }
{}

/// The address at an offset from a pointer, and where it is a place of the block.
pub fn addresses_have_offsets()
    ensures wrapped { (registers : List ℕ) (r : ℕ) (z imm : ℤ) → register_at registers r ≡ wrapped z → IsImmediate imm
        → address registers r imm ≡ wrapped (z +ℤ imm) }
    ensures place { (registers : List ℕ) (r : ℕ) (z imm : ℤ) (base place : ℕ) → register_at registers r ≡ wrapped z
        → IsImmediate imm → z +ℤ imm ≡ pos (base + place) → base + place < 2 ^ 64
        → address registers r imm ≡ base + place }
{}

/// Pointers are made and moved by sums and shifts. A stride beyond an immediate is set in a register first.
pub fn pointers_move()
    ensures addi { (lines : List Line) (base k to : ℕ) (c : Config) (from : ℕ) (z imm : ℤ)
        → IsAt lines k (Line.Imm Imm.Addi to from imm) c → register_at c.registers from ≡ wrapped z → IsImmediate imm
        → next_step lines base c ≡ Goes (with_result c to (wrapped (z +ℤ imm))) }
    ensures add { (lines : List Line) (base k to : ℕ) (c : Config) (left right : ℕ) (x y : ℤ)
        → IsAt lines k (Line.Three Three.Add to left right) c → register_at c.registers left ≡ wrapped x
        → register_at c.registers right ≡ wrapped y
        → next_step lines base c ≡ Goes (with_result c to (wrapped (x +ℤ y))) }
    ensures slli { (lines : List Line) (base k to : ℕ) (c : Config) (from amount : ℕ) (x : ℤ)
        → IsAt lines k (Line.Imm Imm.Slli to from (pos amount)) c → amount < 64
        → register_at c.registers from ≡ wrapped x
        → next_step lines base c ≡ Goes (with_result c to (wrapped (pos (2 ^ amount) *ℤ x))) }
    ensures stride { (lines : List Line) (base k scratch to from : ℕ) (z stride : ℤ) (c : Config)
        → StandsAt lines k (constant_lines scratch stride ++ Line.Three Three.Add to from scratch ∷ [])
        → 0 < scratch → scratch < length c.registers → from ≢ scratch → FitsSigned w64 stride
        → register_at c.registers from ≡ wrapped z → c.pc ≡ address_of k
        → Leads lines base (length (constant_lines scratch stride) + 1) c (record {
          registers = with_register (with_register c.registers scratch (word_of stride)) to (wrapped (z +ℤ stride));
          pc = address_of (k + length (constant_lines scratch stride) + 1);
          block = c.block;
        }) [] }
{}

/// The lines of a constant set the register to its word, and nothing else.
pub fn constants_are_set()
    ensures leads { (lines : List Line) (base k to : ℕ) (value : ℤ) (c : Config)
        → StandsAt lines k (constant_lines to value) → 0 < to → to < length c.registers → FitsSigned w64 value
        → c.pc ≡ address_of k
        → Leads lines base (length (constant_lines to value)) c (record {
          registers = with_register c.registers to (word_of value);
          pc = address_of (k + length (constant_lines to value));
          block = c.block;
        }) [] }
{}

/// Which lines a constant has: one for a signed number of 12 bits, two for one of 32, and else those of its upper
/// part and two more.
pub fn constants_have_lines()
    ensures one { (to : ℕ) (value : ℤ) → is_signed_below 2048 value ≡ true
        → constant_lines to value ≡ Line.Imm Imm.Addi to 0 value ∷ [] }
    ensures two { (to : ℕ) (value : ℤ) → is_signed_below 2048 value ≡ false → is_signed_below (2 ^ 31) value ≡ true
        → constant_lines to value ≡ Line.Lui to (residue 1048576 (upper_of value))
        ∷ Line.Imm Imm.Addiw to to (lower_of value) ∷ [] }
    ensures more { (to : ℕ) (value : ℤ) → is_signed_below (2 ^ 31) value ≡ false → FitsSigned w64 value
        → constant_lines to value ≡ constant_lines to (upper_of value) ++ shift_lines to value }
{}

/// Constants are short.
pub fn constants_are_short()
    ensures few { (to : ℕ) (value : ℤ) → FitsSigned w32 value → length (constant_lines to value) ≤ 2 }
    ensures most { (to : ℕ) (value : ℤ) → length (constant_lines to value) ≤ 8 }
{}

/// The lines of a constant fit their forms, are of the base instruction set, and write the register alone, so that
/// they are free where it is.
pub fn constants_fit()
    ensures fit { (count to at : ℕ) (value : ℤ) → to < 32 → FitLines count at (constant_lines to value) }
    ensures base { (to : ℕ) (value : ℤ) → IsTrue (list_all is_base (constant_lines to value)) }
    ensures written { (to : ℕ) (value : ℤ) → IsTrue (list_all (λ line. written line == to) (constant_lines to value)) }
    ensures free { (to : ℕ) (value : ℤ) → to < 32 → is_kept to ≡ false
        → IsTrue (list_all is_free (constant_lines to value)) }
{}

/// Worked examples: the ends of the ranges of one and of two lines, numbers whose low part is negative at each
/// level, and the ends of what a register holds.
pub fn constants_compute()
    ensures zero { constant_lines 5 (pos 0) ≡ Line.Imm Imm.Addi 5 0 (pos 0) ∷ [] }
    ensures most_of_one { constant_lines 5 (pos 2047) ≡ Line.Imm Imm.Addi 5 0 (pos 2047) ∷ [] }
    ensures least_of_one { constant_lines 5 (neg_ℤ (pos 2048)) ≡ Line.Imm Imm.Addi 5 0 (neg_ℤ (pos 2048)) ∷ [] }
    ensures above_one { constant_lines 5 (pos 2048)
        ≡ Line.Lui 5 1 ∷ Line.Imm Imm.Addiw 5 5 (neg_ℤ (pos 2048)) ∷ [] }
    ensures below_one { constant_lines 5 (neg_ℤ (pos 2049))
        ≡ Line.Lui 5 1048575 ∷ Line.Imm Imm.Addiw 5 5 (pos 2047) ∷ [] }
    ensures carried { constant_lines 5 (pos (2 ^ 31) -ℤ pos 2048)
        ≡ Line.Lui 5 524288 ∷ Line.Imm Imm.Addiw 5 5 (neg_ℤ (pos 2048)) ∷ [] }
    ensures most_of_two { constant_lines 5 (pos (2 ^ 31) -ℤ pos 1)
        ≡ Line.Lui 5 524288 ∷ Line.Imm Imm.Addiw 5 5 (neg_ℤ (pos 1)) ∷ [] }
    ensures least_of_two { constant_lines 5 (neg_ℤ (pos (2 ^ 31)))
        ≡ Line.Lui 5 524288 ∷ Line.Imm Imm.Addiw 5 5 (pos 0) ∷ [] }
    ensures above_two { constant_lines 5 (pos (2 ^ 31))
        ≡ Line.Lui 5 128 ∷ Line.Imm Imm.Addiw 5 5 (pos 0)
        ∷ Line.Imm Imm.Slli 5 5 (pos 12) ∷ Line.Imm Imm.Addi 5 5 (pos 0) ∷ [] }
    ensures most { constant_lines 5 (pos (2 ^ 63) -ℤ pos 1)
        ≡ Line.Lui 5 32768 ∷ Line.Imm Imm.Addiw 5 5 (pos 0)
        ∷ Line.Imm Imm.Slli 5 5 (pos 12) ∷ Line.Imm Imm.Addi 5 5 (pos 0)
        ∷ Line.Imm Imm.Slli 5 5 (pos 12) ∷ Line.Imm Imm.Addi 5 5 (pos 0)
        ∷ Line.Imm Imm.Slli 5 5 (pos 12) ∷ Line.Imm Imm.Addi 5 5 (neg_ℤ (pos 1)) ∷ [] }
    ensures least { constant_lines 5 (neg_ℤ (pos (2 ^ 63)))
        ≡ Line.Lui 5 1015808 ∷ Line.Imm Imm.Addiw 5 5 (pos 0)
        ∷ Line.Imm Imm.Slli 5 5 (pos 12) ∷ Line.Imm Imm.Addi 5 5 (pos 0)
        ∷ Line.Imm Imm.Slli 5 5 (pos 12) ∷ Line.Imm Imm.Addi 5 5 (pos 0)
        ∷ Line.Imm Imm.Slli 5 5 (pos 12) ∷ Line.Imm Imm.Addi 5 5 (pos 0) ∷ [] }
    ensures negative { constant_lines 5 (pos 9223371968118517759)
        ≡ Line.Lui 5 32768 ∷ Line.Imm Imm.Addiw 5 5 (neg_ℤ (pos 1))
        ∷ Line.Imm Imm.Slli 5 5 (pos 12) ∷ Line.Imm Imm.Addi 5 5 (neg_ℤ (pos 1))
        ∷ Line.Imm Imm.Slli 5 5 (pos 12) ∷ Line.Imm Imm.Addi 5 5 (neg_ℤ (pos 1))
        ∷ Line.Imm Imm.Slli 5 5 (pos 12) ∷ Line.Imm Imm.Addi 5 5 (neg_ℤ (pos 1)) ∷ [] }
{}
