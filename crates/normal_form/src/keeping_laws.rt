// The laws of what formers keep, as clauses of functions that do nothing: each kind of rule keeps
// it where the formers of its operands do.
ghost use Rattle.std.specs.Prelude.{◌≢◌, ◌≡◌, ◌+◌, ◌<◌, ◌≤◌, ℕ, ℤ, pos, List, [], ◌∷◌, drop, slice_index_or};
ghost use Rattle.shapes_core.specs.Limits.{greatest_extent};
ghost use Rattle.shapes_core.specs.Shape.{IsShape, total};
ghost use Rattle.moa_tree.specs.Axes.{on_axis, turned};
ghost use Rattle.moa_tree.specs.declared.operator.Op.{Op as Operator};
ghost use Rattle.moa_tree.specs.declared.operator.Unary.{Unary as UnaryOperator};
ghost use Rattle.normal_form.specs.declared.entry.Entry.{Entry as AnEntry};
ghost use Rattle.normal_form.specs.declared.entry.Entry.TheVariants.{At};
ghost use Rattle.normal_form.specs.Formers.{Former, Making, folding, joining, just, on_both, on_one, reshaping, turning};
ghost use Rattle.normal_form.specs.Forms.{Lit, Index, Get, Un, Bin};
ghost use Rattle.normal_form.specs.Keeps.{Keeps, MovesWithin};
ghost use Rattle.normal_form.specs.Constants.{greatest_constant};
ghost use Rattle.normal_form.specs.Kept.{IsFoldOperator};
ghost use Rattle.normal_form.specs.Moves.{behind_entry};

use shapes_core::laws::{equality_is_exact, gamma_laws, span_laws};

/// Constants, index numbers, stored arrays other than the job's own, and operators on operands
/// whose entries are moved.
pub fn operators_keep()
    ensures constant { (own room : ℕ) (value : ℤ)
        → Keeps own room (λ entries. just (Lit value)) [] }
    ensures numbers { (own room n : ℕ) → room ≤ greatest_constant → n ≤ greatest_extent
        → Keeps own room (λ entries. just (Index (slice_index_or entries 0 (At (pos 0)))))
        (n ∷ []) }
    ensures stored { (own room area : ℕ) (shape : List ℕ) → room ≤ greatest_constant → area ≢ own
        → IsShape shape
        → Keeps own room (λ entries. just (Get (record { area = area; shape = shape; at = entries }))) shape }
    ensures one { (own room : ℕ) (op : UnaryOperator) (of : Former) (shape : List ℕ)
        → Keeps own room of shape → Keeps own room (λ entries. on_one (Un op) (of entries)) shape }
    ensures moved { (own room further : ℕ) (of : Former) (shape operand : List ℕ)
        (move : List AnEntry → List AnEntry)
        → Keeps own further of operand → MovesWithin room further move shape operand
        → Keeps own room (λ entries. of (move entries)) shape }
    ensures two { (own room : ℕ) (op : Operator) (left right : Former) (shape : List ℕ)
        → Keeps own room left shape → Keeps own room right shape
        → Keeps own room (λ entries. on_both (Bin op) (left entries) (right entries)) shape }
{}

/// A turn of the first axis: the variable that is bound carries the extent beside what its entry
/// reaches.
pub fn turns_keep()
    ensures { (own room : ℕ) (by : ℤ) (of : Former) (n : ℕ) (shape : List ℕ)
        → room ≤ greatest_constant → n ≤ greatest_extent
        → Keeps own (room + greatest_extent) of (n ∷ shape)
        → Keeps own room
        (λ entries. turning (turned by n 0) n (slice_index_or entries 0 (At (pos 0)))
        (λ entry. of (on_axis 0 (λ extent old. entry) (n ∷ shape) entries)))
        (n ∷ shape) }
{}

/// A join on the first axis: the constants of the second part's entries grow by the first part's
/// extent.
pub fn joins_keep()
    ensures { (own room : ℕ) (left right : Former) (n m : ℕ) (shape : List ℕ)
        → room ≤ greatest_constant → n + m ≤ greatest_extent
        → Keeps own room left (n ∷ shape) → Keeps own (room + greatest_extent) right (m ∷ shape)
        → Keeps own room
        (λ entries. joining n m (slice_index_or entries 0 (At (pos 0)))
        (left entries) (right (on_axis 0 behind_entry (n ∷ shape) entries)))
        ((n + m) ∷ shape) }
{}

/// A fold over n items, where what is made of each item keeps what an array with an axis of n in
/// front does.
pub fn folds_keep()
    ensures { (own room : ℕ) (op : Operator) (n : ℕ)
        (item : List AnEntry → AnEntry → Making) (shape : List ℕ)
        → IsFoldOperator op → n ≤ greatest_extent
        → Keeps own room (λ entries. item (drop 1 entries) (slice_index_or entries 0 (At (pos 0))))
        (n ∷ shape)
        → Keeps own room (λ entries. folding op n (item entries)) shape }
{}

/// Another shape of the same total.
pub fn reshapes_keep()
    ensures { (own room : ℕ) (of : Former) (shape operand : List ℕ) → room ≤ greatest_constant
        → total shape ≡ total operand
        → IsShape shape → IsShape operand → Keeps own room of operand
        → Keeps own room (λ entries. reshaping shape operand entries of) shape }
{
    equality_is_exact();
    gamma_laws();
    span_laws();
}
