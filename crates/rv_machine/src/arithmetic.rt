// What the mnemonics compute, on words.
ghost use Rattle.std.specs.Prelude.{◌≡◌, ◌%◌, ◌*ℤ◌, ◌^◌, pos};
ghost use Rattle.std.specs.Int.{from_bool, w32, w64};
ghost use Rattle.rv_line.specs.declared.line.Three.{Three};
ghost use Rattle.rv_steps.specs.Effects.{
  immediate_value,
  is_taken,
  quotient_of,
  quotient_unsigned,
  remainder_of,
  remainder_unsigned,
  sign_extension,
  three_value,
  upper_half,
  upper_value,
  word_of,
};

use rv_line::{Branch, Imm, Three};

/// The low half of a word.
fn low(a: u64) -> u32
    ensures { result ≡ a % 2 ^ 32 }
{
    (a & 0xffff_ffff) as u32
}

/// The word of a half, by its sign.
pub fn extended(a: u32) -> u64
    ensures { result ≡ sign_extension w32 a }
{
    (a.cast_signed() as i64).cast_unsigned()
}

/// The word of an immediate, by its sign.
pub fn word_of(imm: i32) -> u64
    ensures { result ≡ word_of imm }
{
    (imm as i64).cast_unsigned()
}

fn from_bool(holds: bool) -> u64
    ensures { result ≡ from_bool holds }
{
    holds as u64
}

fn quotient(a: u64, b: u64) -> u64
    ensures { result ≡ quotient_of w64 a b }
{
    if b == 0 {
        return u64::MAX;
    }
    a.cast_signed()
        .wrapping_div(b.cast_signed())
        .cast_unsigned()
}

fn quotient_unsigned(a: u64, b: u64) -> u64
    ensures { result ≡ quotient_unsigned w64 a b }
{
    if b == 0 { u64::MAX } else { a / b }
}

fn remainder(a: u64, b: u64) -> u64
    ensures { result ≡ remainder_of w64 a b }
{
    if b == 0 {
        return a;
    }
    a.cast_signed()
        .wrapping_rem(b.cast_signed())
        .cast_unsigned()
}

fn remainder_unsigned(a: u64, b: u64) -> u64
    ensures { result ≡ remainder_unsigned w64 a b }
{
    if b == 0 { a } else { a % b }
}

fn half_quotient(a: u32, b: u32) -> u32
    ensures { result ≡ quotient_of w32 a b }
{
    if b == 0 {
        return u32::MAX;
    }
    a.cast_signed()
        .wrapping_div(b.cast_signed())
        .cast_unsigned()
}

fn half_quotient_unsigned(a: u32, b: u32) -> u32
    ensures { result ≡ quotient_unsigned w32 a b }
{
    if b == 0 { u32::MAX } else { a / b }
}

fn half_remainder(a: u32, b: u32) -> u32
    ensures { result ≡ remainder_of w32 a b }
{
    if b == 0 {
        return a;
    }
    a.cast_signed()
        .wrapping_rem(b.cast_signed())
        .cast_unsigned()
}

fn half_remainder_unsigned(a: u32, b: u32) -> u32
    ensures { result ≡ remainder_unsigned w32 a b }
{
    if b == 0 { a } else { a % b }
}

/// The upper 64 bits.
fn upper_half(z: i128) -> u64
    ensures { result ≡ upper_half z }
{
    ((z >> 64) as i64).cast_unsigned()
}

fn signed_product(a: i64, b: i64) -> i128
    ensures { result ≡ a *ℤ b }
{
    a as i128 * b as i128
}

fn mixed_product(a: i64, b: u64) -> i128
    ensures { result ≡ a *ℤ pos b }
{
    a as i128 * b as i128
}

fn mulhu(a: u64, b: u64) -> u64
    ensures { result ≡ three_value Three.Mulhu a b }
{
    ((a as u128 * b as u128) >> 64) as u64
}

/// The value that a mnemonic with three registers writes, of the values of its two operands.
pub fn three_value(code: Three, a: u64, b: u64) -> u64
    ensures { result ≡ three_value code a b }
{
    match code {
        Three::Add => a.wrapping_add(b),
        Three::Sub => a.wrapping_sub(b),
        Three::Sll => a.wrapping_shl((b & 63) as u32),
        Three::Slt => from_bool(a.cast_signed() < b.cast_signed()),
        Three::Sltu => from_bool(a < b),
        Three::Xor => a ^ b,
        Three::Srl => a >> (b & 63),
        Three::Sra => (a.cast_signed() >> (b & 63)).cast_unsigned(),
        Three::Or => a | b,
        Three::And => a & b,
        Three::Mul => a.wrapping_mul(b),
        Three::Mulh => upper_half(signed_product(a.cast_signed(), b.cast_signed())),
        Three::Mulhsu => upper_half(mixed_product(a.cast_signed(), b)),
        Three::Mulhu => mulhu(a, b),
        Three::Div => quotient(a, b),
        Three::Divu => quotient_unsigned(a, b),
        Three::Rem => remainder(a, b),
        Three::Remu => remainder_unsigned(a, b),
        Three::Addw => extended(low(a).wrapping_add(low(b))),
        Three::Subw => extended(low(a).wrapping_sub(low(b))),
        Three::Sllw => extended(low(a) << (low(b) & 31)),
        Three::Srlw => extended(low(a) >> (low(b) & 31)),
        Three::Sraw => extended((low(a).cast_signed() >> (low(b) & 31)).cast_unsigned()),
        Three::Mulw => extended(low(a).wrapping_mul(low(b))),
        Three::Divw => extended(half_quotient(low(a), low(b))),
        Three::Divuw => extended(half_quotient_unsigned(low(a), low(b))),
        Three::Remw => extended(half_remainder(low(a), low(b))),
        Three::Remuw => extended(half_remainder_unsigned(low(a), low(b))),
    }
}

/// The value that a mnemonic with an immediate writes.
pub fn immediate_value(code: Imm, a: u64, imm: i32) -> u64
    ensures { result ≡ immediate_value code a imm }
{
    let b = word_of(imm);
    match code {
        Imm::Addi => three_value(Three::Add, a, b),
        Imm::Slti => three_value(Three::Slt, a, b),
        Imm::Sltiu => three_value(Three::Sltu, a, b),
        Imm::Xori => three_value(Three::Xor, a, b),
        Imm::Ori => three_value(Three::Or, a, b),
        Imm::Andi => three_value(Three::And, a, b),
        Imm::Slli => three_value(Three::Sll, a, b),
        Imm::Srli => three_value(Three::Srl, a, b),
        Imm::Srai => three_value(Three::Sra, a, b),
        Imm::Addiw => three_value(Three::Addw, a, b),
        Imm::Slliw => three_value(Three::Sllw, a, b),
        Imm::Srliw => three_value(Three::Srlw, a, b),
        Imm::Sraiw => three_value(Three::Sraw, a, b),
    }
}

/// Whether a branch is taken, of the values of its two operands.
pub fn is_taken(code: Branch, a: u64, b: u64) -> bool
    ensures { result ≡ is_taken code a b }
{
    match code {
        Branch::Beq => a == b,
        Branch::Bne => a != b,
        Branch::Blt => a.cast_signed() < b.cast_signed(),
        Branch::Bge => a.cast_signed() >= b.cast_signed(),
        Branch::Bltu => a < b,
        Branch::Bgeu => a >= b,
    }
}

/// The value that `lui` writes.
pub fn upper_value(imm: u32) -> u64
    ensures { result ≡ upper_value imm }
{
    extended(imm.wrapping_mul(4096))
}
