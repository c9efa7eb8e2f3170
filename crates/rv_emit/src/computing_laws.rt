// Laws of the lines that compute, as clauses of functions that do nothing.
ghost use Rattle.moa_tree.specs.declared.operator.Op.{Op};
ghost use Rattle.moa_tree.specs.declared.operator.Unary.{Unary};
ghost use Rattle.moa_tree.specs.Operators.{apply, apply_unary};
ghost use Rattle.loop_ir.specs.Fitting.{Fits64};
ghost use Rattle.rv_emit.specs.Computing.{one_lines, two_lines};
ghost use Rattle.rv_emit.specs.Simulating.{Computes, is_steady_op};
ghost use Rattle.rv_line.specs.declared.line.Line.{Line};
ghost use Rattle.rv_steps.specs.Machine.{Config, address_of, register_at};
ghost use Rattle.rv_steps.specs.Pieces.{StandsAt};
ghost use Rattle.rv_steps.specs.Wrapped.{wrapped};
ghost use Rattle.std.specs.Prelude.{List, length, true, ℕ, ℤ, ◌<◌, ◌≡◌, ◌≢◌};

use crate::machine::machine_is_known;

/// The lines of a unary operator give it of a number, in any register but x31.
pub fn unary_operators_are_computed()
    ensures { (lines : List Line) (base at to from : ℕ) (op : Unary) (x : ℤ) (c : Config)
        → length c.registers ≡ 32 → 0 < to → to < 31 → from ≢ 31 → Fits64 x
        → register_at c.registers from ≡ wrapped x
        → StandsAt lines at (one_lines op to from) → c.pc ≡ address_of at
        → Computes lines base at (one_lines op to from) true to (wrapped (apply_unary op x)) c }
{
    machine_is_known();
}

/// The lines of a binary operator give it of two numbers, in a register that may be one of theirs.
pub fn operators_are_computed()
    ensures { (lines : List Line) (base at to left right : ℕ) (op : Op) (x y : ℤ) (c : Config)
        → length c.registers ≡ 32 → 0 < to → to < 31 → left ≢ 30 → right ≢ 30 → left ≢ 31
        → right ≢ 31 → Fits64 x → Fits64 y
        → register_at c.registers left ≡ wrapped x → register_at c.registers right ≡ wrapped y
        → StandsAt lines at (two_lines at op to left right) → c.pc ≡ address_of at
        → Computes lines base at (two_lines at op to left right) (is_steady_op op) to
        (wrapped (apply op x y)) c }
{
    machine_is_known();
}
