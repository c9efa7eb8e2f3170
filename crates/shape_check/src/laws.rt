// Laws of the definitions, for every proof that stands on them: no body runs.
ghost use Rattle.std.specs.Int.{w64};
ghost use Rattle.std.specs.List.{AllPairs, AllZip, Contains, fold, insert, list_all, remove};
ghost use Rattle.std.specs.Prelude.{FitsSigned, ◌≡◌, ◌==◌, ◌||◌, ◌<◌, ◌≤◌, ℕ, ◌-◌, ◌^◌, true, false, not, Ok, ℤ, List, [], ◌∷◌, ◌++◌, All, drop, length, map, nat_le, nat_lt, reverse, slice_index, slice_set, take, unsigned_abs};
ghost use Rattle.shapes_core.specs.Limits.{greatest_extent, greatest_size, greatest_work, most_words};
ghost use Rattle.shapes_core.specs.declared.area.AreaKind.TheVariants as area;
ghost use Rattle.shapes_core.specs.Gamma.{IsIndex, gamma, ungamma};
ghost use Rattle.shapes_core.specs.Shape.{IsShape, total};
ghost use Rattle.moa_tree.specs.declared.operator.Op.{Op as Operator};
ghost use Rattle.moa_tree.specs.declared.operator.Unary.{Unary as UnaryOperator};
ghost use Rattle.moa_tree.specs.Axes.{behind, but_last, common, each_extent, each_place, joined, mirrored, naturals, on_axis, own_index, remaining, remaining_from, restored, selected, taken, taken_from, turned};
ghost use Rattle.moa_tree.specs.Denotation.{Store, env_after_all, denote_from, denote_scans_from, values};
ghost use Rattle.moa_tree.specs.Expr.{Expr, Number, Use, Iota, One, Two, Psi, Take, Drop, Reverse, Rotate, Transpose, Permute, Cat, Reshape, Ravel, Outer, Inner, Reduce, Scan, Item, Input, Let, Output};
ghost use Rattle.moa_tree.specs.ShapeOf.{Shapes, shape_of};
ghost use Rattle.moa_tree.specs.Subexpressions.{subexpressions};
ghost use Rattle.moa_tree.specs.Values.{Env, shape_in, shapes_of, value};
ghost use Rattle.shape_check.specs.Costs.{size, work};
ghost use Rattle.shape_check.specs.Jobs.{jobs};
ghost use Rattle.shape_check.specs.Layout.{gathered, name_of, output_of, scan_shapes, shapes_after, statement_shapes, words};
ghost use Rattle.shape_check.specs.Rules.{are_equal, each_entry, is_declared, is_natural, is_part, is_permutation, is_place, is_scalar};
ghost use Rattle.shape_check.specs.Statements.{verdict_of};
ghost use Rattle.shape_check.specs.Verdict.{verdict};

use shapes_core::laws::gamma_laws;

/// Where the rules of an operator hold, an element of its result comes from within its operands: each index vector
/// that its value hands to an operand is one of that operand's shape.
pub fn places_are_indices()
    ensures pointwise { (s t index : List ℕ) → (are_equal s t || is_scalar s || is_scalar t) ≡ true
        → IsIndex index (common s t) → IsIndex (own_index s index) s × IsIndex (own_index t index) t }
    ensures psi { (list : List ℤ) (s index : List ℕ) → nat_le (length list) (length s) ≡ true
        → each_entry is_place list s ≡ true
        → IsIndex index (drop (length list) s) → IsIndex (naturals list ++ index) s }
    ensures takes { (list : List ℤ) (s index : List ℕ) → each_entry is_part list s ≡ true
        → IsIndex index (each_extent taken list s) → IsIndex (each_place taken_from list s index) s }
    ensures drops { (list : List ℤ) (s index : List ℕ)
        → IsIndex index (each_extent remaining list s) → IsIndex (each_place remaining_from list s index) s }
    ensures reverses { (s index : List ℕ) → IsIndex index s → IsIndex (on_axis 0 mirrored s index) s }
    ensures rotates { (by : ℤ) (s index : List ℕ) → IsIndex index s → IsIndex (on_axis 0 (turned by) s index) s }
    ensures transposes { (s index : List ℕ) → IsIndex index (reverse s) → IsIndex (reverse index) s }
    ensures permutes { (list : List ℤ) (s index : List ℕ) → (length list == length s) ≡ true
        → is_permutation list ≡ true
        → IsIndex index (selected (naturals list) s) → IsIndex (restored 0 (naturals list) index) s }
    ensures first_part { (s t index : List ℕ) → IsIndex index (joined 0 s t)
        → nat_lt (slice_index index 0) (slice_index s 0) ≡ true → IsIndex index s }
    ensures second_part { (s t index : List ℕ) → (length s == length t) ≡ true → not (is_scalar s) ≡ true
        → are_equal (drop 1 s) (drop 1 t) ≡ true → IsIndex index (joined 0 s t)
        → nat_lt (slice_index index 0) (slice_index s 0) ≡ false → IsIndex (on_axis 0 behind s index) t }
    ensures reshapes { (list : List ℤ) (s index : List ℕ) → (total (naturals list) == total s) ≡ true
        → IsIndex index (naturals list) → IsIndex (ungamma s (gamma index (naturals list))) s }
    ensures ravels { (s index : List ℕ) → IsIndex index (total s ∷ [])
        → IsIndex (ungamma s (gamma index (total s ∷ []))) s }
    ensures outer { (s t index : List ℕ) → IsIndex index (s ++ t)
        → IsIndex (take (length s) index) s × IsIndex (drop (length s) index) t }
    ensures inner { (s t index : List ℕ) (k : ℕ) → (slice_index s (length s - 1) == slice_index t 0) ≡ true
        → IsIndex index (but_last s ++ drop 1 t) → k < slice_index s (length s - 1)
        → IsIndex (take (length s - 1) index ++ k ∷ []) s × IsIndex (k ∷ drop (length s - 1) index) t }
    ensures reduces { (s index : List ℕ) (k : ℕ) → IsIndex index (remove s 0) → k < slice_index s 0
        → IsIndex (insert index 0 k) s }
    ensures scans { (s index : List ℕ) (k : ℕ) → IsIndex index s → k ≤ slice_index index 0
        → IsIndex (slice_set index 0 k) s }
{
    gamma_laws();
}

/// The shape with which an expression is accepted is the one that it has, is within the limits, and is the same wherever
/// the expression stands. The names of an accepted program differ, and have the shapes of its statements, the last
/// first; each expression in it is accepted among the names before it, and the program is within its limits.
pub fn verdicts_are_shapes()
    ensures shape { (shapes : Shapes) (at : ℕ) (expr : Expr) (s : List ℕ) → verdict shapes at expr ≡ Ok s
        → s ≡ shape_of shapes expr }
    ensures within { (shapes : Shapes) (at : ℕ) (expr : Expr) (s : List ℕ) → verdict shapes at expr ≡ Ok s
        → IsShape s }
    ensures anywhere { (shapes : Shapes) (at other : ℕ) (expr : Expr) (s : List ℕ) → verdict shapes at expr ≡ Ok s
        → verdict shapes other expr ≡ Ok s }
    ensures after { (items : List Item) (shapes : Shapes) → verdict_of items ≡ Ok shapes
        → shapes ≡ fold shapes_after [] items }
    ensures names { (items : List Item) (shapes : Shapes) → verdict_of items ≡ Ok shapes
        → map (λ entry. entry.0) shapes ≡ reverse (map name_of items) }
    ensures of_statements { (items : List Item) (shapes : Shapes) → verdict_of items ≡ Ok shapes
        → map (λ entry. entry.1) shapes ≡ reverse (statement_shapes items) }
    ensures each_within { (items : List Item) (shapes : Shapes) → verdict_of items ≡ Ok shapes
        → All (λ entry. IsShape entry.1) shapes }
    ensures differ { (items : List Item) (shapes : Shapes) → verdict_of items ≡ Ok shapes
        → AllPairs (λ name other. name ≡ other → ⊥) (map name_of items) }
    ensures inputs { (before after : List Item) (name : List ℕ) (extents : List ℤ) (shapes : Shapes)
        → verdict_of (before ++ Input name extents ∷ after) ≡ Ok shapes
        → list_all is_natural extents ≡ true }
    ensures lets { (before after : List Item) (name : List ℕ) (of : Expr) (shapes : Shapes)
        → verdict_of (before ++ Let name of ∷ after) ≡ Ok shapes
        → (at : ℕ) → verdict (fold shapes_after [] before) at of ≡ Ok (shape_of (fold shapes_after [] before) of) }
    ensures outputs { (before after : List Item) (name : List ℕ) (of : Expr) (shapes : Shapes)
        → verdict_of (before ++ Output name of ∷ after) ≡ Ok shapes
        → (at : ℕ) → verdict (fold shapes_after [] before) at of ≡ Ok (shape_of (fold shapes_after [] before) of) }
    ensures limits { (items : List Item) (shapes : Shapes) → verdict_of items ≡ Ok shapes
        → (size items ≤ greatest_size) × (work items ≤ greatest_work) × (words items ≤ most_words) }
{}

/// An accepted program has few jobs, since each counts in its size.
pub fn jobs_are_few()
    ensures { (items : List Item) (shapes : Shapes) → verdict_of items ≡ Ok shapes → length (jobs items) ≤ greatest_size }
{}

/// The operands of an accepted expression are accepted, wherever they stand, and their shapes keep the rules of its
/// operator.
pub fn operands_are_accepted()
    ensures uses { (shapes : Shapes) (at : ℕ) (name s : List ℕ) → verdict shapes at (Use name) ≡ Ok s
        → is_declared shapes name ≡ true }
    ensures iota { (shapes : Shapes) (at : ℕ) (extent : ℤ) (s : List ℕ) → verdict shapes at (Iota extent) ≡ Ok s
        → (is_natural extent ≡ true) × (unsigned_abs extent ≤ greatest_extent) }
    ensures unary { (shapes : Shapes) (at other : ℕ) (op : UnaryOperator) (of : Expr) (s : List ℕ) → verdict shapes at (One op of) ≡ Ok s
        → verdict shapes other of ≡ Ok (shape_of shapes of) }
    ensures binary { (shapes : Shapes) (at other : ℕ) (op : Operator) (left right : Expr) (s : List ℕ) → verdict shapes at (Two op left right) ≡ Ok s
        → (verdict shapes other left ≡ Ok (shape_of shapes left)) × (verdict shapes other right ≡ Ok (shape_of shapes right))
        × ((are_equal (shape_of shapes left) (shape_of shapes right) || is_scalar (shape_of shapes left) || is_scalar (shape_of shapes right)) ≡ true) }
    ensures psi { (shapes : Shapes) (at other : ℕ) (list : List ℤ) (of : Expr) (s : List ℕ) → verdict shapes at (Psi list of) ≡ Ok s
        → (verdict shapes other of ≡ Ok (shape_of shapes of))
        × (nat_le (length list) (length (shape_of shapes of)) ≡ true)
        × (each_entry is_place list (shape_of shapes of) ≡ true) }
    ensures takes { (shapes : Shapes) (at other : ℕ) (list : List ℤ) (of : Expr) (s : List ℕ) → verdict shapes at (Take list of) ≡ Ok s
        → (verdict shapes other of ≡ Ok (shape_of shapes of))
        × (nat_le (length list) (length (shape_of shapes of)) ≡ true)
        × (each_entry is_part list (shape_of shapes of) ≡ true) }
    ensures drops { (shapes : Shapes) (at other : ℕ) (list : List ℤ) (of : Expr) (s : List ℕ) → verdict shapes at (Drop list of) ≡ Ok s
        → (verdict shapes other of ≡ Ok (shape_of shapes of))
        × (nat_le (length list) (length (shape_of shapes of)) ≡ true)
        × (each_entry is_part list (shape_of shapes of) ≡ true) }
    ensures reverses { (shapes : Shapes) (at other : ℕ) (of : Expr) (s : List ℕ) → verdict shapes at (Reverse of) ≡ Ok s
        → (verdict shapes other of ≡ Ok (shape_of shapes of))
        × (not (is_scalar (shape_of shapes of)) ≡ true) }
    ensures rotates { (shapes : Shapes) (at other : ℕ) (by : ℤ) (of : Expr) (s : List ℕ) → verdict shapes at (Rotate by of) ≡ Ok s
        → (verdict shapes other of ≡ Ok (shape_of shapes of))
        × (not (is_scalar (shape_of shapes of)) ≡ true) }
    ensures transposes { (shapes : Shapes) (at other : ℕ) (of : Expr) (s : List ℕ) → verdict shapes at (Transpose of) ≡ Ok s
        → verdict shapes other of ≡ Ok (shape_of shapes of) }
    ensures permutes { (shapes : Shapes) (at other : ℕ) (list : List ℤ) (of : Expr) (s : List ℕ) → verdict shapes at (Permute list of) ≡ Ok s
        → (verdict shapes other of ≡ Ok (shape_of shapes of))
        × ((length list == length (shape_of shapes of)) ≡ true)
        × (is_permutation list ≡ true) }
    ensures cat { (shapes : Shapes) (at other : ℕ) (left right : Expr) (s : List ℕ) → verdict shapes at (Cat left right) ≡ Ok s
        → (verdict shapes other left ≡ Ok (shape_of shapes left)) × (verdict shapes other right ≡ Ok (shape_of shapes right))
        × ((length (shape_of shapes left) == length (shape_of shapes right)) ≡ true)
        × (not (is_scalar (shape_of shapes left)) ≡ true)
        × (are_equal (drop 1 (shape_of shapes left)) (drop 1 (shape_of shapes right)) ≡ true) }
    ensures reshapes { (shapes : Shapes) (at other : ℕ) (list : List ℤ) (of : Expr) (s : List ℕ) → verdict shapes at (Reshape list of) ≡ Ok s
        → (verdict shapes other of ≡ Ok (shape_of shapes of))
        × (list_all is_natural list ≡ true)
        × ((total (naturals list) == total (shape_of shapes of)) ≡ true) }
    ensures ravels { (shapes : Shapes) (at other : ℕ) (of : Expr) (s : List ℕ) → verdict shapes at (Ravel of) ≡ Ok s
        → verdict shapes other of ≡ Ok (shape_of shapes of) }
    ensures outer { (shapes : Shapes) (at other : ℕ) (op : Operator) (left right : Expr) (s : List ℕ) → verdict shapes at (Outer op left right) ≡ Ok s
        → (verdict shapes other left ≡ Ok (shape_of shapes left)) × (verdict shapes other right ≡ Ok (shape_of shapes right)) }
    ensures inner { (shapes : Shapes) (at other : ℕ) (fold op : Operator) (left right : Expr) (s : List ℕ) → verdict shapes at (Inner fold op left right) ≡ Ok s
        → (verdict shapes other left ≡ Ok (shape_of shapes left)) × (verdict shapes other right ≡ Ok (shape_of shapes right))
        × (not (is_scalar (shape_of shapes left) || is_scalar (shape_of shapes right)) ≡ true)
        × ((slice_index (shape_of shapes left) (length (shape_of shapes left) - 1) == slice_index (shape_of shapes right) 0) ≡ true) }
    ensures reduces { (shapes : Shapes) (at other : ℕ) (fold : Operator) (of : Expr) (s : List ℕ) → verdict shapes at (Reduce fold of) ≡ Ok s
        → (verdict shapes other of ≡ Ok (shape_of shapes of))
        × (not (is_scalar (shape_of shapes of)) ≡ true) }
    ensures scans { (shapes : Shapes) (at other : ℕ) (fold : Operator) (of : Expr) (s : List ℕ) → verdict shapes at (Scan fold of) ≡ Ok s
        → (verdict shapes other of ≡ Ok (shape_of shapes of))
        × (not (is_scalar (shape_of shapes of)) ≡ true) }
{}

/// A value never leaves the arrays: where an expression is accepted, its value at an index vector of its shape depends
/// on nothing but the values of names at index vectors of their shapes.
pub fn values_stay_within()
    ensures { (env other : Env) (at : ℕ) (expr : Expr) (s index : List ℕ)
        → AllZip (λ here there. (here.0 ≡ there.0) × (here.1.shape ≡ there.1.shape)
        × ((place : List ℕ) → IsIndex place here.1.shape → here.1.at place ≡ there.1.at place)) env other
        → verdict (shapes_of env) at expr ≡ Ok s → IsIndex index s
        → value env expr index ≡ value other expr index }
{
    gamma_laws();
}

/// The names after some statements have the shapes of the statements, and each list that a program denotes, of an
/// output or of a scan, has as many elements as an array of its shape.
pub fn lists_are_totals()
    ensures after { (inputs : Store) (env : Env) (items : List Item)
        → shapes_of (env_after_all inputs env items) ≡ fold shapes_after (shapes_of env) items }
    ensures values { (env : Env) (expr : Expr) → length (values env expr) ≡ total (shape_in env expr) }
    ensures outputs { (inputs : Store) (env : Env) (items : List Item)
        → AllZip (λ output array. (array.0 ≡ area.Out output.0) × (length output.1 ≡ total array.1))
        (denote_from inputs env items) (gathered output_of (shapes_of env) items) }
    ensures scans { (inputs : Store) (env : Env) (items : List Item)
        → AllZip (λ list shape. length list ≡ total shape)
        (denote_scans_from inputs env items) (gathered scan_shapes (shapes_of env) items) }
{
    gamma_laws();
}

/// Where an expression is accepted and its numbers fit 64 bits, and those of its names do at each index vector of their
/// shapes, its value at an index vector of its shape fits too.
pub fn values_fit()
    ensures { (env : Env) (at : ℕ) (expr : Expr) (s index : List ℕ)
        → All (λ entry. (place : List ℕ) → IsIndex place entry.1.shape → FitsSigned w64 (entry.1.at place)) env
        → ((number : ℤ) → Contains (subexpressions expr) (Number number) → FitsSigned w64 number)
        → verdict (shapes_of env) at expr ≡ Ok s → IsIndex index s
        → FitsSigned w64 (value env expr index) }
{
    gamma_laws();
    moa_tree::values_fit();
}
