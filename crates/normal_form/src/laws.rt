// The laws of formers, as clauses of functions that do nothing: what each kind of rule makes gives the array that the operator
// does.
ghost use Rattle.std.specs.Prelude.{◌≡◌, ◌+◌, ◌<◌, ◌≤◌, ℕ, ℤ, pos, true, false, List, [], ◌∷◌, drop, length, nat_lt, slice_index, slice_index_or};
ghost use Rattle.shapes_core.specs.Gamma.{IsIndex, gamma, ungamma};
ghost use Rattle.shapes_core.specs.Shape.{total};
ghost use Rattle.moa_tree.specs.Axes.{behind, on_axis, turned};
ghost use Rattle.moa_tree.specs.Folds.{fold_below};
ghost use Rattle.moa_tree.specs.Operators.{apply, apply_unary};
ghost use Rattle.moa_tree.specs.Values.{either_part};
ghost use Rattle.moa_tree.specs.declared.operator.Op.{Op as Operator};
ghost use Rattle.moa_tree.specs.declared.operator.Unary.{Unary as UnaryOperator};
ghost use Rattle.normal_form.specs.declared.entry.Entry.{Entry as AnEntry};
ghost use Rattle.normal_form.specs.declared.entry.Entry.TheVariants.{At};
ghost use Rattle.normal_form.specs.Formers.{Former, Making, folding, joining, just, on_both, on_one, reshaping, turning};
ghost use Rattle.normal_form.specs.Forms.{Lit, Index, Get, Un, Bin};
ghost use Rattle.normal_form.specs.Meaning.{Store};
ghost use Rattle.normal_form.specs.Moves.{behind_entry};
ghost use Rattle.normal_form.specs.Stands.{Moves, Represents};

use shapes_core::laws::{digit_laws, equality_is_exact, gamma_laws, span_laws};

/// Constants, index numbers, stored arrays, and operators on operands whose entries are moved.
pub fn operators_represent()
    ensures constant { (s : Store) (value : ℤ) → Represents s (λ entries. just (Lit value)) [] (λ index. value) }
    ensures numbers { (s : Store) (n : ℕ)
        → Represents s (λ entries. just (Index (slice_index_or entries 0 (At (pos 0))))) (n ∷ []) (λ index. pos (slice_index index 0)) }
    ensures stored { (s : Store) (area : ℕ) (shape : List ℕ)
        → Represents s (λ entries. just (Get (record { area = area; shape = shape; at = entries }))) shape (λ index. s area (gamma index shape)) }
    ensures one { (s : Store) (op : UnaryOperator) (of : Former) (shape : List ℕ) (at : List ℕ → ℤ)
        → Represents s of shape at → Represents s (λ entries. on_one (Un op) (of entries)) shape (λ index. apply_unary op (at index)) }
    ensures moved { (s : Store) (of : Former) (shape operand : List ℕ) (at : List ℕ → ℤ)
        (move : List AnEntry → List AnEntry) (places : List ℕ → List ℕ)
        → Represents s of operand at → Moves move places shape operand
        → Represents s (λ entries. of (move entries)) shape (λ index. at (places index)) }
    ensures two { (s : Store) (op : Operator) (left right : Former) (shape : List ℕ) (at over : List ℕ → ℤ)
        → Represents s left shape at → Represents s right shape over
        → Represents s (λ entries. on_both (Bin op) (left entries) (right entries)) shape (λ index. apply op (at index) (over index)) }
{}

/// A turn of the first axis.
pub fn turns_represent()
    ensures { (s : Store) (by : ℤ) (of : Former) (shape : List ℕ) (at : List ℕ → ℤ) → 0 < length shape
        → Represents s of shape at
        → Represents s
        (λ entries. turning (turned by (slice_index shape 0) 0) (slice_index shape 0) (slice_index_or entries 0 (At (pos 0)))
        (λ entry. of (on_axis 0 (λ extent old. entry) shape entries)))
        shape (λ index. at (on_axis 0 (turned by) shape index)) }
{}

/// A join on the first axis, where the index vectors of the whole lead to those of its parts.
pub fn joins_represent()
    ensures { (s : Store) (left right : Former) (shape first second : List ℕ) (at over : List ℕ → ℤ)
        → 0 < length shape → slice_index shape 0 ≡ slice_index first 0 + slice_index second 0
        → ((index : List ℕ) → IsIndex index shape → nat_lt (slice_index index 0) (slice_index first 0) ≡ true → IsIndex index first)
        → ((index : List ℕ) → IsIndex index shape → nat_lt (slice_index index 0) (slice_index first 0) ≡ false
        → IsIndex (on_axis 0 behind first index) second)
        → Represents s left first at → Represents s right second over
        → Represents s
        (λ entries. joining (slice_index first 0) (slice_index second 0) (slice_index_or entries 0 (At (pos 0)))
        (left entries) (right (on_axis 0 behind_entry first entries)))
        shape (either_part 0 first at over) }
{}

/// A fold over n items, where what is made of each item gives the items as an array with an axis of n in front.
pub fn folds_represent()
    ensures { (s : Store) (op : Operator) (n : ℕ) (item : List AnEntry → AnEntry → Making) (shape : List ℕ) (at : List ℕ → ℕ → ℤ)
        → Represents s (λ entries. item (drop 1 entries) (slice_index_or entries 0 (At (pos 0)))) (n ∷ shape)
        (λ index. at (drop 1 index) (slice_index index 0))
        → Represents s (λ entries. folding op n (item entries)) shape (λ index. fold_below op n (at index)) }
{}

/// Another shape of the same total.
pub fn reshapes_represent()
    ensures { (s : Store) (of : Former) (shape operand : List ℕ) (at : List ℕ → ℤ) → total shape ≡ total operand
        → Represents s of operand at
        → Represents s (λ entries. reshaping shape operand entries of) shape (λ index. at (ungamma operand (gamma index shape))) }
{
    digit_laws();
    equality_is_exact();
    gamma_laws();
    span_laws();
}
