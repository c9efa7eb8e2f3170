// The operators of the language.
ghost use Rattle.std.specs.Prelude.{◌≡◌};
ghost use Rattle.moa_tree.specs.Operators.{apply, apply_unary, identity, quotient, remainder};

/// The binary operators.
#[derive(Clone, Copy, Debug, PartialEq, Eq)]
pub enum Op {
    Add,
    Sub,
    Mul,
    Quot,
    Rem,
    Min,
    Max,
    Eq,
    Ne,
    Lt,
    Le,
    And,
    Or,
    Xor,
}

/// The unary operators.
#[derive(Clone, Copy, Debug, PartialEq, Eq)]
pub enum Unary {
    Neg,
    Not,
    Abs,
}

/// The value of a binary operator on 64-bit two's complement integers. Every operator has a value at
/// every pair: sums, differences and products wrap, and a quotient by 0 is -1. This project's own.
pub fn apply(op: Op, left: i64, right: i64) -> i64
    ensures value { result ≡ apply op left right }
{
    match op {
        Op::Add => left.wrapping_add(right),
        Op::Sub => left.wrapping_sub(right),
        Op::Mul => left.wrapping_mul(right),
        Op::Quot => quotient(left, right),
        Op::Rem => remainder(left, right),
        Op::Min => left.min(right),
        Op::Max => left.max(right),
        Op::Eq => i64::from(left == right),
        Op::Ne => i64::from(left != right),
        Op::Lt => i64::from(left < right),
        Op::Le => i64::from(left <= right),
        Op::And => left & right,
        Op::Or => left | right,
        Op::Xor => left ^ right,
    }
}

/// The value of a unary operator: `neg` and `abs` of -2^63 are -2^63. This project's own.
pub fn apply_unary(op: Unary, of: i64) -> i64
    ensures value { result ≡ apply_unary op of }
{
    match op {
        Unary::Neg => of.wrapping_neg(),
        Unary::Not => !of,
        Unary::Abs => of.wrapping_abs(),
    }
}

/// What a fold by the operator gives over no element, or `None` where the operator does not fold.
pub fn identity(op: Op) -> Option<i64>
    ensures value { result ≡ identity op }
{
    match op {
        Op::Add | Op::Or | Op::Xor => Some(0),
        Op::Mul => Some(1),
        Op::Min => Some(i64::MAX),
        Op::Max => Some(i64::MIN),
        Op::And => Some(-1),
        _ => None,
    }
}

fn quotient(left: i64, right: i64) -> i64
    ensures { result ≡ quotient left right }
{
    if right == 0 {
        -1
    } else {
        left.wrapping_div(right)
    }
}

fn remainder(left: i64, right: i64) -> i64
    ensures { result ≡ remainder left right }
{
    if right == 0 {
        left
    } else {
        left.wrapping_rem(right)
    }
}
