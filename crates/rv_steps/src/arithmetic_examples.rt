// Worked examples of the arithmetic, computed: each mnemonic at a negative operand and at an edge.
// `2 ^ 64 - k` is the word of -k.

ghost use Rattle.rv_steps.specs.Effects.{is_taken, immediate_value, load_value, three_value, upper_value};
ghost use Rattle.rv_line.specs.declared.line.Branch.{Branch};
ghost use Rattle.rv_line.specs.declared.line.Imm.{Imm};
ghost use Rattle.rv_line.specs.declared.line.Load.{Load};
ghost use Rattle.rv_line.specs.declared.line.Three.{Three};
ghost use Rattle.std.specs.Prelude.{false, neg_ℤ, pos, true, ◌+◌, ◌-◌, ◌^◌, ◌≡◌};

/// Sums and differences wrap at 2^64, or at 2^32 with the sign extended.
pub fn sums_wrap()
    ensures add { (three_value Three.Add (2 ^ 64 - 5) 3 ≡ 2 ^ 64 - 2)
        × (three_value Three.Add (2 ^ 64 - 1) 1 ≡ 0) }
    ensures sub { (three_value Three.Sub 3 5 ≡ 2 ^ 64 - 2)
        × (three_value Three.Sub (2 ^ 63) 1 ≡ 2 ^ 63 - 1)
        × (three_value Three.Sub 7 0 ≡ 7) }
    ensures addw { (three_value Three.Addw (2 ^ 31 - 1) 1 ≡ 2 ^ 64 - 2 ^ 31)
        × (three_value Three.Addw (2 ^ 64 - 1) (2 ^ 32) ≡ 2 ^ 64 - 1) }
    ensures subw { (three_value Three.Subw 0 1 ≡ 2 ^ 64 - 1)
        × (three_value Three.Subw (2 ^ 31) 1 ≡ 2 ^ 31 - 1) }
{}

/// `slt` compares signed numbers and `sltu` unsigned ones.
pub fn comparisons_give_flags()
    ensures slt { (three_value Three.Slt (2 ^ 64 - 1) 0 ≡ 1)
        × (three_value Three.Slt (2 ^ 63 - 1) (2 ^ 63) ≡ 0)
        × (three_value Three.Slt 5 5 ≡ 0) }
    ensures sltu { (three_value Three.Sltu (2 ^ 64 - 1) 0 ≡ 0)
        × (three_value Three.Sltu 0 (2 ^ 64 - 1) ≡ 1)
        × (three_value Three.Sltu 5 5 ≡ 0) }
{}

/// The forms that work bit by bit.
pub fn logic_is_bitwise()
    ensures xor { (three_value Three.Xor (2 ^ 64 - 1) 5 ≡ 2 ^ 64 - 6)
        × (three_value Three.Xor (2 ^ 63) (2 ^ 63) ≡ 0) }
    ensures or { (three_value Three.Or (2 ^ 63) 1 ≡ 2 ^ 63 + 1)
        × (three_value Three.Or (2 ^ 64 - 1) 0 ≡ 2 ^ 64 - 1) }
    ensures and { (three_value Three.And (2 ^ 64 - 1) 5 ≡ 5)
        × (three_value Three.And (2 ^ 64 - 2) 1 ≡ 0) }
{}

/// Shifts take the low six bits of the second register.
pub fn shifts_take_six_bits()
    ensures sll { (three_value Three.Sll (2 ^ 64 - 1) 63 ≡ 2 ^ 63)
        × (three_value Three.Sll 3 64 ≡ 3)
        × (three_value Three.Sll 1 (2 ^ 64 - 1) ≡ 2 ^ 63) }
    ensures srl { (three_value Three.Srl (2 ^ 64 - 1) 63 ≡ 1)
        × (three_value Three.Srl (2 ^ 64 - 2) 65 ≡ 2 ^ 63 - 1) }
    ensures sra { (three_value Three.Sra (2 ^ 63) 63 ≡ 2 ^ 64 - 1)
        × (three_value Three.Sra (2 ^ 64 - 5) 65 ≡ 2 ^ 64 - 3)
        × (three_value Three.Sra (2 ^ 63 - 1) 62 ≡ 1) }
{}

/// Shifts of the low half take five bits, and extend the sign of its result.
pub fn shifts_of_the_low_half()
    ensures sllw { (three_value Three.Sllw (2 ^ 64 - 1) 63 ≡ 2 ^ 64 - 2 ^ 31)
        × (three_value Three.Sllw 1 32 ≡ 1) }
    ensures srlw { (three_value Three.Srlw (2 ^ 64 - 1) 32 ≡ 2 ^ 64 - 1)
        × (three_value Three.Srlw (2 ^ 64 - 1) 1 ≡ 2 ^ 31 - 1)
        × (three_value Three.Srlw (2 ^ 32) 1 ≡ 0) }
    ensures sraw { (three_value Three.Sraw (2 ^ 31) 31 ≡ 2 ^ 64 - 1)
        × (three_value Three.Sraw (2 ^ 31) 36 ≡ 2 ^ 64 - 2 ^ 27)
        × (three_value Three.Sraw (2 ^ 63) 1 ≡ 0) }
{}

/// `mul` gives the low half of a product.
pub fn products_wrap()
    ensures mul { (three_value Three.Mul (2 ^ 64 - 3) 7 ≡ 2 ^ 64 - 21)
        × (three_value Three.Mul (2 ^ 63) 2 ≡ 0) }
    ensures mulw { (three_value Three.Mulw (2 ^ 64 - 3) 7 ≡ 2 ^ 64 - 21)
        × (three_value Three.Mulw (2 ^ 32 - 1) (2 ^ 32 - 1) ≡ 1)
        × (three_value Three.Mulw (2 ^ 31) 3 ≡ 2 ^ 64 - 2 ^ 31) }
{}

/// The other products give the upper half of 128 bits, of signed and of unsigned numbers.
pub fn upper_halves_of_products()
    ensures mulh { (three_value Three.Mulh (2 ^ 64 - 1) 1 ≡ 2 ^ 64 - 1)
        × (three_value Three.Mulh (2 ^ 64 - 1) (2 ^ 64 - 1) ≡ 0)
        × (three_value Three.Mulh (2 ^ 63) (2 ^ 63) ≡ 2 ^ 62) }
    ensures mulhsu { (three_value Three.Mulhsu (2 ^ 64 - 1) (2 ^ 64 - 1) ≡ 2 ^ 64 - 1)
        × (three_value Three.Mulhsu (2 ^ 63) (2 ^ 64 - 1) ≡ 2 ^ 63)
        × (three_value Three.Mulhsu 1 (2 ^ 64 - 1) ≡ 0) }
    ensures mulhu { (three_value Three.Mulhu (2 ^ 64 - 1) (2 ^ 64 - 1) ≡ 2 ^ 64 - 2)
        × (three_value Three.Mulhu (2 ^ 32) (2 ^ 32) ≡ 1) }
{}

/// Division rounds toward zero, is defined at 0, and wraps at -2^63 by -1.
pub fn quotients_round_toward_zero()
    ensures div { (three_value Three.Div (2 ^ 64 - 7) 2 ≡ 2 ^ 64 - 3)
        × (three_value Three.Div 7 (2 ^ 64 - 2) ≡ 2 ^ 64 - 3)
        × (three_value Three.Div (2 ^ 64 - 7) (2 ^ 64 - 2) ≡ 3) }
    ensures div_edges { (three_value Three.Div 7 0 ≡ 2 ^ 64 - 1)
        × (three_value Three.Div (2 ^ 63) (2 ^ 64 - 1) ≡ 2 ^ 63) }
    ensures divu { (three_value Three.Divu (2 ^ 64 - 1) 2 ≡ 2 ^ 63 - 1)
        × (three_value Three.Divu 7 0 ≡ 2 ^ 64 - 1) }
    ensures divw { (three_value Three.Divw (2 ^ 64 - 7) 2 ≡ 2 ^ 64 - 3)
        × (three_value Three.Divw 7 (2 ^ 32) ≡ 2 ^ 64 - 1)
        × (three_value Three.Divw (2 ^ 31) (2 ^ 64 - 1) ≡ 2 ^ 64 - 2 ^ 31) }
    ensures divuw { (three_value Three.Divuw (2 ^ 64 - 1) 1 ≡ 2 ^ 64 - 1)
        × (three_value Three.Divuw (2 ^ 64 - 1) 2 ≡ 2 ^ 31 - 1)
        × (three_value Three.Divuw 7 0 ≡ 2 ^ 64 - 1) }
{}

/// A remainder has the dividend's sign.
pub fn remainders_follow_the_dividend()
    ensures rem { (three_value Three.Rem (2 ^ 64 - 7) 2 ≡ 2 ^ 64 - 1)
        × (three_value Three.Rem 7 (2 ^ 64 - 2) ≡ 1) }
    ensures rem_edges { (three_value Three.Rem (2 ^ 64 - 7) 0 ≡ 2 ^ 64 - 7)
        × (three_value Three.Rem (2 ^ 63) (2 ^ 64 - 1) ≡ 0) }
    ensures remu { (three_value Three.Remu (2 ^ 64 - 1) 10 ≡ 5) × (three_value Three.Remu 7 0 ≡ 7) }
    ensures remw { (three_value Three.Remw (2 ^ 64 - 7) 2 ≡ 2 ^ 64 - 1)
        × (three_value Three.Remw (2 ^ 31) (2 ^ 64 - 1) ≡ 0)
        × (three_value Three.Remw (2 ^ 31) 0 ≡ 2 ^ 64 - 2 ^ 31) }
    ensures remuw { (three_value Three.Remuw (2 ^ 64 - 1) 10 ≡ 5)
        × (three_value Three.Remuw (2 ^ 32 - 1) 0 ≡ 2 ^ 64 - 1) }
{}

/// An immediate is extended by its sign, also where it is then compared as an unsigned number.
pub fn immediates_are_signed()
    ensures addi { (immediate_value Imm.Addi 0 (neg_ℤ (pos 1)) ≡ 2 ^ 64 - 1)
        × (immediate_value Imm.Addi 2048 (neg_ℤ (pos 2048)) ≡ 0) }
    ensures slti { (immediate_value Imm.Slti (2 ^ 64 - 2) (neg_ℤ (pos 1)) ≡ 1)
        × (immediate_value Imm.Slti 0 (neg_ℤ (pos 1)) ≡ 0) }
    ensures sltiu { (immediate_value Imm.Sltiu 5 (neg_ℤ (pos 1)) ≡ 1)
        × (immediate_value Imm.Sltiu (2 ^ 64 - 1) (neg_ℤ (pos 1)) ≡ 0) }
    ensures xori { (immediate_value Imm.Xori 5 (neg_ℤ (pos 1)) ≡ 2 ^ 64 - 6)
        × (immediate_value Imm.Xori 5 (pos 0) ≡ 5) }
    ensures ori { (immediate_value Imm.Ori 5 (neg_ℤ (pos 8)) ≡ 2 ^ 64 - 3)
        × (immediate_value Imm.Ori (2 ^ 63) (pos 2047) ≡ 2 ^ 63 + 2047) }
    ensures andi { (immediate_value Imm.Andi (2 ^ 64 - 1) (neg_ℤ (pos 16)) ≡ 2 ^ 64 - 16)
        × (immediate_value Imm.Andi 255 (neg_ℤ (pos 16)) ≡ 240) }
{}

/// Shifts by an immediate.
pub fn immediate_shifts()
    ensures slli { (immediate_value Imm.Slli 1 (pos 63) ≡ 2 ^ 63)
        × (immediate_value Imm.Slli (2 ^ 64 - 1) (pos 0) ≡ 2 ^ 64 - 1) }
    ensures srli { (immediate_value Imm.Srli (2 ^ 64 - 1) (pos 63) ≡ 1)
        × (immediate_value Imm.Srli (2 ^ 64 - 1) (pos 1) ≡ 2 ^ 63 - 1) }
    ensures srai { (immediate_value Imm.Srai (2 ^ 63) (pos 63) ≡ 2 ^ 64 - 1)
        × (immediate_value Imm.Srai (2 ^ 64 - 5) (pos 1) ≡ 2 ^ 64 - 3) }
{}

/// The immediate forms on the low half.
pub fn immediates_on_the_low_half()
    ensures addiw { (immediate_value Imm.Addiw (2 ^ 31 - 1) (pos 1) ≡ 2 ^ 64 - 2 ^ 31)
        × (immediate_value Imm.Addiw (2 ^ 32) (neg_ℤ (pos 1)) ≡ 2 ^ 64 - 1)
        × (immediate_value Imm.Addiw (2 ^ 32 + 5) (pos 0) ≡ 5) }
    ensures slliw { (immediate_value Imm.Slliw 1 (pos 31) ≡ 2 ^ 64 - 2 ^ 31)
        × (immediate_value Imm.Slliw (2 ^ 64 - 1) (pos 4) ≡ 2 ^ 64 - 16) }
    ensures srliw { (immediate_value Imm.Srliw (2 ^ 64 - 1) (pos 31) ≡ 1)
        × (immediate_value Imm.Srliw (2 ^ 31) (pos 0) ≡ 2 ^ 64 - 2 ^ 31) }
    ensures sraiw { (immediate_value Imm.Sraiw (2 ^ 31) (pos 31) ≡ 2 ^ 64 - 1)
        × (immediate_value Imm.Sraiw (2 ^ 32 - 8) (pos 2) ≡ 2 ^ 64 - 2) }
{}

/// Branches compare as their names say.
pub fn branches_compare()
    ensures beq { (is_taken Branch.Beq (2 ^ 64 - 1) (2 ^ 64 - 1) ≡ true)
        × (is_taken Branch.Beq 0 (2 ^ 63) ≡ false) }
    ensures bne { (is_taken Branch.Bne (2 ^ 64 - 1) (2 ^ 64 - 1) ≡ false)
        × (is_taken Branch.Bne 0 (2 ^ 63) ≡ true) }
    ensures blt { (is_taken Branch.Blt (2 ^ 64 - 1) 0 ≡ true)
        × (is_taken Branch.Blt 0 (2 ^ 63) ≡ false)
        × (is_taken Branch.Blt 5 5 ≡ false) }
    ensures bge { (is_taken Branch.Bge 0 (2 ^ 64 - 1) ≡ true)
        × (is_taken Branch.Bge (2 ^ 63) 0 ≡ false)
        × (is_taken Branch.Bge 5 5 ≡ true) }
    ensures bltu { (is_taken Branch.Bltu 0 (2 ^ 64 - 1) ≡ true)
        × (is_taken Branch.Bltu (2 ^ 64 - 1) 0 ≡ false)
        × (is_taken Branch.Bltu 5 5 ≡ false) }
    ensures bgeu { (is_taken Branch.Bgeu (2 ^ 64 - 1) 0 ≡ true)
        × (is_taken Branch.Bgeu 0 (2 ^ 63) ≡ false)
        × (is_taken Branch.Bgeu 5 5 ≡ true) }
{}

/// `lui` fills bits 12 to 31 and extends bit 31.
pub fn upper_immediates()
    ensures low { (upper_value 0 ≡ 0) × (upper_value 1 ≡ 4096) × (upper_value 524287 ≡ 2147479552) }
    ensures high { (upper_value 524288 ≡ 2 ^ 64 - 2 ^ 31) × (upper_value 1048575 ≡ 2 ^ 64 - 4096) }
{}

/// Loads extend by the sign or by zeros.
pub fn loads_extend()
    ensures bytes { (load_value Load.Lb 128 ≡ 2 ^ 64 - 128)
        × (load_value Load.Lb 127 ≡ 127)
        × (load_value Load.Lbu 255 ≡ 255) }
    ensures halves { (load_value Load.Lh 65408 ≡ 2 ^ 64 - 128)
        × (load_value Load.Lh 32767 ≡ 32767)
        × (load_value Load.Lhu 65535 ≡ 65535) }
    ensures words { (load_value Load.Lw (2 ^ 31) ≡ 2 ^ 64 - 2 ^ 31)
        × (load_value Load.Lw (2 ^ 31 - 1) ≡ 2 ^ 31 - 1)
        × (load_value Load.Lwu (2 ^ 32 - 1) ≡ 2 ^ 32 - 1) }
    ensures whole { load_value Load.Ld (2 ^ 64 - 1) ≡ 2 ^ 64 - 1 }
{}
