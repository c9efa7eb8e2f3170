// Worked examples of what programs denote: no body runs.
ghost use Rattle.std.specs.Prelude.{◌≡◌, ℕ, ℤ, pos, negsuc, List, [], ◌∷◌, codes};
ghost use Rattle.moa_tree.specs.Expr.{Number, Use, Iota, One, Two, Psi, Take, Drop, Reverse, Rotate, Transpose, Permute, Cat, Reshape, Ravel, Outer, Inner, Reduce, Scan, Input, Let, Output};
ghost use Rattle.moa_tree.specs.Denotation.{denote, denote_scans, scans_of};
ghost use Rattle.moa_tree.specs.Axes.{joined, mirrored, on_axis, own_index, restored};
ghost use Rattle.moa_tree.specs.Folds.{fold_along, fold_until};
ghost use Rattle.moa_tree.specs.Values.{either_part, element};
ghost use Rattle.moa_tree.specs.Examples.{a, b, numbers, array, program, with_one, with_two, alone};

use crate::operator::{Op, Unary};

/// Binary operators, element by element.
pub fn binary_examples()
    ensures sub_each { with_two "3" "5 -3 5" "3" "5 4 -2" (Two Op.Sub a b) ≡ array "3" "0 -7 7" }
    ensures mul_each { with_two "3" "5 -3 5" "3" "5 4 -2" (Two Op.Mul a b)
        ≡ array "3" "25 -12 -10" }
    ensures quot_each { with_two "3" "5 -3 5" "3" "5 4 -2" (Two Op.Quot a b) ≡ array "3" "1 0 -2" }
    ensures rem_each { with_two "3" "5 -3 5" "3" "5 4 -2" (Two Op.Rem a b) ≡ array "3" "0 -3 1" }
    ensures min_each { with_two "3" "5 -3 5" "3" "5 4 -2" (Two Op.Min a b) ≡ array "3" "5 -3 -2" }
    ensures max_each { with_two "3" "5 -3 5" "3" "5 4 -2" (Two Op.Max a b) ≡ array "3" "5 4 5" }
    ensures eq_each { with_two "3" "5 -3 5" "3" "5 4 -2" (Two Op.Eq a b) ≡ array "3" "1 0 0" }
    ensures ne_each { with_two "3" "5 -3 5" "3" "5 4 -2" (Two Op.Ne a b) ≡ array "3" "0 1 1" }
    ensures lt_each { with_two "3" "5 -3 5" "3" "5 4 -2" (Two Op.Lt a b) ≡ array "3" "0 1 0" }
    ensures le_each { with_two "3" "5 -3 5" "3" "5 4 -2" (Two Op.Le a b) ≡ array "3" "1 1 0" }
    ensures and_each { with_two "3" "5 -3 5" "3" "5 4 -2" (Two Op.And a b) ≡ array "3" "5 4 4" }
    ensures or_each { with_two "3" "5 -3 5" "3" "5 4 -2" (Two Op.Or a b) ≡ array "3" "5 -3 -1" }
    ensures xor_each { with_two "3" "5 -3 5" "3" "5 4 -2" (Two Op.Xor a b) ≡ array "3" "0 -7 -5" }
    ensures square_past_range { with_one "" "3037000500" (Two Op.Mul a a)
        ≡ array "" "-9223372036709301616" }
    ensures scalar_overflow { with_one "" "9223372036854775807" (Two Op.Add a (Number (pos 1)))
        ≡ array "" "-9223372036854775808" }
    ensures scalar_on_the_left { with_one "2" "1 2" (Two Op.Sub (Number (pos 10)) a)
        ≡ array "2" "9 8" }
    ensures scalar_on_the_right { with_one "2" "1 2" (Two Op.Sub a (Number (pos 10)))
        ≡ array "2" "-9 -8" }
{}

/// Unary operators, at their edges too.
pub fn unary_examples()
    ensures neg_each { with_one "3" "5 -1 -9223372036854775808" (One Unary.Neg a)
        ≡ array "3" "-5 1 -9223372036854775808" }
    ensures not_each { with_one "3" "0 -1 -9223372036854775808" (One Unary.Not a)
        ≡ array "3" "-1 0 9223372036854775807" }
    ensures abs_each { with_one "3" "5 -1 -9223372036854775808" (One Unary.Abs a)
        ≡ array "3" "5 1 -9223372036854775808" }
    ensures number { alone (Number (negsuc 6)) ≡ array "" "-7" }
    ensures iota { alone (Iota (pos 3)) ≡ array "3" "0 1 2" }
    ensures iota_of_0 { alone (Iota (pos 0)) ≡ array "0" "" }
{}

/// Inner and outer products.
pub fn product_examples()
    ensures matrix_product { with_two "2 2" "1 2 3 4" "2 2" "5 6 7 8" (Inner Op.Add Op.Mul a b)
        ≡ array "2 2" "19 22 43 50" }
    ensures dot_product { with_two "3" "1 2 3" "3" "4 5 6" (Inner Op.Add Op.Mul a b)
        ≡ array "" "32" }
    ensures inner_of_other_operators { with_two "2 2" "1 2 3 4" "2" "3 1" (Inner Op.Max Op.Sub a b)
        ≡ array "2" "1 3" }
    ensures inner_over_nothing { with_two "1 0" "" "0 2" "" (Inner Op.Min Op.Mul a b)
        ≡ array "1 2" "9223372036854775807 9223372036854775807" }
    ensures inner_of_no_row { with_two "0 2" "" "2" "1 2" (Inner Op.Add Op.Mul a b)
        ≡ array "0" "" }
    ensures inner_of_no_column { with_two "2" "1 2" "2 0" "" (Inner Op.Add Op.Mul a b)
        ≡ array "0" "" }
    ensures inner_of_a_cube_and_a_matrix { with_two "2 2 3" "1 2 3 4 5 6 7 8 9 10 11 12" "3 2" "1 2 0 1 3 -1" (Inner Op.Add Op.Mul a b)
        ≡ array "2 2 2" "10 1 22 7 34 13 46 19" }
    ensures inner_of_a_vector_and_a_matrix { with_two "2" "1 2" "2 3" "1 2 3 4 5 6" (Inner Op.Add Op.Mul a b)
        ≡ array "3" "9 12 15" }
    ensures inner_of_a_vector_and_a_cube { with_two "2" "1 2" "2 2 2" "1 2 3 4 5 6 7 8" (Inner Op.Add Op.Mul a b)
        ≡ array "2 2" "11 14 17 20" }
    ensures outer_product { with_two "2" "1 2" "3" "10 20 30" (Outer Op.Sub a b)
        ≡ array "2 3" "-9 -19 -29 -8 -18 -28" }
    ensures outer_of_a_matrix_and_a_vector { with_two "2 2" "1 2 3 4" "3" "10 20 30" (Outer Op.Sub a b)
        ≡ array "2 2 3" "-9 -19 -29 -8 -18 -28 -7 -17 -27 -6 -16 -26" }
    ensures outer_of_none_before { with_two "0" "" "2" "1 2" (Outer Op.Sub a b) ≡ array "0 2" "" }
    ensures outer_of_none_behind { with_two "2" "1 2" "0" "" (Outer Op.Sub a b) ≡ array "2 0" "" }
{}

/// Reductions and scans.
pub fn fold_examples()
    ensures empty_sums { with_one "0 3" "" (Reduce Op.Add a) ≡ array "3" "0 0 0" }
    ensures empty_minimum { with_one "0" "" (Reduce Op.Min a) ≡ array "" "9223372036854775807" }
    ensures empty_maximum { with_one "0" "" (Reduce Op.Max a) ≡ array "" "-9223372036854775808" }
    ensures empty_product { with_one "0" "" (Reduce Op.Mul a) ≡ array "" "1" }
    ensures empty_and { with_one "0" "" (Reduce Op.And a) ≡ array "" "-1" }
    ensures empty_or { with_one "0" "" (Reduce Op.Or a) ≡ array "" "0" }
    ensures empty_xor { with_one "0" "" (Reduce Op.Xor a) ≡ array "" "0" }
    ensures no_sums { with_one "2 0" "" (Reduce Op.Add a) ≡ array "0" "" }
    ensures sums_down { with_one "2 3" "1 2 3 4 5 6" (Reduce Op.Add a) ≡ array "3" "5 7 9" }
    ensures least { with_one "3" "2 -1 4" (Reduce Op.Min a) ≡ array "" "-1" }
    ensures sums_so_far { with_one "4" "1 2 3 4" (Scan Op.Add a) ≡ array "4" "1 3 6 10" }
    ensures products_down { with_one "3 2" "1 2 3 4 5 6" (Scan Op.Mul a)
        ≡ array "3 2" "1 2 3 8 15 48" }
    ensures scan_of_none { with_one "0" "" (Scan Op.Add a) ≡ array "0" "" }
{}

/// Parts and turns of an array.
pub fn view_examples()
    ensures psi_of_a_row { with_one "2 3" "1 2 3 4 5 6" (Psi (numbers "1") a) ≡ array "3" "4 5 6" }
    ensures psi_of_an_element { with_one "2 3" "1 2 3 4 5 6" (Psi (numbers "1 2") a)
        ≡ array "" "6" }
    ensures psi_of_no_axis { with_one "2" "1 2" (Psi (numbers "") a) ≡ array "2" "1 2" }
    ensures take_front { with_one "4" "1 2 3 4" (Take (numbers "3") a) ≡ array "3" "1 2 3" }
    ensures take_of_reverse { with_one "4" "1 2 3 4" (Take (numbers "-2") (Reverse a))
        ≡ array "2" "2 1" }
    ensures take_two_axes { with_one "2 3" "1 2 3 4 5 6" (Take (numbers "1 -2") a)
        ≡ array "1 2" "2 3" }
    ensures take_leaves_later_axes { with_one "2 3" "1 2 3 4 5 6" (Take (numbers "1") a)
        ≡ array "1 3" "1 2 3" }
    ensures drop_back { with_one "4" "1 2 3 4" (Drop (numbers "-3") a) ≡ array "1" "1" }
    ensures drop_two_axes { with_one "2 3" "1 2 3 4 5 6" (Drop (numbers "1 -1") a)
        ≡ array "1 2" "4 5" }
    ensures drop_leaves_later_axes { with_one "2 3" "1 2 3 4 5 6" (Drop (numbers "1") a)
        ≡ array "1 3" "4 5 6" }
    ensures differences { with_one "6" "3 5 4 9 9 2" (Two Op.Sub (Drop (numbers "1") a) (Drop (numbers "-1") a))
        ≡ array "5" "2 -1 5 0 -7" }
    ensures reverse_rows { with_one "2 2" "1 2 3 4" (Reverse a) ≡ array "2 2" "3 4 1 2" }
    ensures rotate_back { with_one "4" "1 2 3 4" (Rotate (negsuc 0) a) ≡ array "4" "4 1 2 3" }
    ensures rotate_beyond { with_one "4" "1 2 3 4" (Rotate (pos 5) a) ≡ array "4" "2 3 4 1" }
    ensures rotate_rows { with_one "3 2" "1 2 3 4 5 6" (Rotate (pos 1) a)
        ≡ array "3 2" "3 4 5 6 1 2" }
    ensures rotate_none { with_one "0" "" (Rotate (pos 2) a) ≡ array "0" "" }
{}

/// Joins.
pub fn join_examples()
    ensures empty_join { with_two "0" "" "2" "4 5" (Cat a b) ≡ array "2" "4 5" }
    ensures join_empty { with_two "2" "4 5" "0" "" (Cat a b) ≡ array "2" "4 5" }
    ensures both_empty { with_two "0 2" "" "0 2" "" (Cat a b) ≡ array "0 2" "" }
    ensures join_rows { with_two "1 2" "1 2" "2 2" "3 4 5 6" (Cat a b)
        ≡ array "3 2" "1 2 3 4 5 6" }
    ensures reversed_join { with_two "2" "1 2" "3" "3 4 5" (Reverse (Cat a b))
        ≡ array "5" "5 4 3 2 1" }
{}

/// Axes in another order, and arrays in another shape.
pub fn axis_examples()
    ensures transposed { with_one "2 3" "1 2 3 4 5 6" (Transpose a) ≡ array "3 2" "1 4 2 5 3 6" }
    ensures transposed_cube { with_one "2 3 4" "0 1 2 3 4 5 6 7 8 9 10 11 12 13 14 15 16 17 18 19 20 21 22 23" (Transpose a)
        ≡ array "4 3 2" "0 12 4 16 8 20 1 13 5 17 9 21 2 14 6 18 10 22 3 15 7 19 11 23" }
    ensures permuted_cube { with_one "2 3 4" "0 1 2 3 4 5 6 7 8 9 10 11 12 13 14 15 16 17 18 19 20 21 22 23" (Permute (numbers "2 0 1") a)
        ≡ array "4 2 3" "0 4 8 12 16 20 1 5 9 13 17 21 2 6 10 14 18 22 3 7 11 15 19 23" }
    ensures reshaped { with_one "6" "1 2 3 4 5 6" (Reshape (numbers "3 2") a)
        ≡ array "3 2" "1 2 3 4 5 6" }
    ensures reshaped_transpose { with_one "3 4" "0 1 2 3 4 5 6 7 8 9 10 11" (Reshape (numbers "3 4") (Transpose a))
        ≡ array "3 4" "0 4 8 1 5 9 2 6 10 3 7 11" }
    ensures reshaped_scalar { with_one "" "7" (Reshape (numbers "1 1") a) ≡ array "1 1" "7" }
    ensures reshaped_to_scalar { with_one "1" "7" (Reshape (numbers "") a) ≡ array "" "7" }
    ensures reshaped_nothing { with_one "0 3" "" (Reshape (numbers "2 0") a) ≡ array "2 0" "" }
    ensures ravelled { with_one "2 2" "1 2 3 4" (Ravel a) ≡ array "4" "1 2 3 4" }
    ensures ravelled_scalar { with_one "" "7" (Ravel a) ≡ array "1" "7" }
    ensures ravelled_nothing { with_one "2 0" "" (Ravel a) ≡ array "0" "" }
    ensures ravelled_transpose { with_two "3 4" "0 1 2 3 4 5 6 7 8 9 10 11" "12" "0 1 2 3 4 5 6 7 8 9 10 11" (Two Op.Add b (Reshape (numbers "12") (Transpose a)))
        ≡ array "12" "0 5 10 4 9 14 8 13 18 12 17 22" }
{}

/// Several statements: names, outputs that later expressions read, and the lists of scans.
pub fn program_examples()
    ensures quotient_edges { denote (program (Input (codes "A") (numbers "3") ∷ Input (codes "B") (numbers "3")
        ∷ Output (codes "Q") (Two Op.Quot a b) ∷ Output (codes "R") (Two Op.Rem a b) ∷ []))
        ((codes "A", numbers "7 -9223372036854775808 -7") ∷ (codes "B", numbers "0 -1 2") ∷ [])
        ≡ (codes "Q", numbers "-1 -9223372036854775808 -3") ∷ (codes "R", numbers "7 0 -1") ∷ [] }
    ensures scan_used_twice { denote (program (Input (codes "A") (numbers "4") ∷ Let (codes "P") (Scan Op.Add a)
        ∷ Output (codes "C") (Two Op.Add (Use (codes "P")) (Use (codes "P"))) ∷ []))
        ((codes "A", numbers "1 2 3 4") ∷ [])
        ≡ (codes "C", numbers "2 6 12 20") ∷ [] }
    ensures scan_counts_once { denote_scans (program (Input (codes "A") (numbers "4") ∷ Let (codes "P") (Scan Op.Add a)
        ∷ Output (codes "C") (Two Op.Add (Use (codes "P")) (Use (codes "P"))) ∷ []))
        ((codes "A", numbers "1 2 3 4") ∷ [])
        ≡ numbers "1 3 6 10" ∷ [] }
    ensures let_used_twice { denote (program (Input (codes "A") (numbers "2 2") ∷ Let (codes "P") (Transpose a)
        ∷ Output (codes "C") (Two Op.Sub (Reverse (Use (codes "P"))) (Use (codes "P"))) ∷ []))
        ((codes "A", numbers "1 2 3 4") ∷ [])
        ≡ (codes "C", numbers "1 1 -1 -1") ∷ [] }
    ensures scan_of_earlier_output { denote (program (Input (codes "A") (numbers "2 3") ∷ Output (codes "D") (One Unary.Neg a)
        ∷ Output (codes "C") (Scan Op.Add (Reduce Op.Mul (Use (codes "D")))) ∷ []))
        ((codes "A", numbers "1 2 3 4 5 6") ∷ [])
        ≡ (codes "D", numbers "-1 -2 -3 -4 -5 -6") ∷ (codes "C", numbers "4 14 32") ∷ [] }
    ensures scans_by_place { denote_scans (program (Input (codes "A") (numbers "3") ∷ Let (codes "P") (Scan Op.Max (Reverse a))
        ∷ Output (codes "C") (Cat (Scan Op.Add (Scan Op.Mul a)) (Scan Op.Min a)) ∷ []))
        ((codes "A", numbers "1 2 3") ∷ [])
        ≡ numbers "3 3 3" ∷ numbers "1 3 9" ∷ numbers "1 2 6" ∷ numbers "1 1 1" ∷ [] }
{}

/// The scans of a statement: an operator before its operands, and these from the left.
pub fn scan_examples()
    ensures in_both_operands { scans_of (Let (codes "P") (Two Op.Add (Scan Op.Add a) (Scan Op.Mul b)))
        ≡ Scan Op.Add a ∷ Scan Op.Mul b ∷ [] }
    ensures in_both_joined { scans_of (Output (codes "P") (Cat (Scan Op.Add a) (Scan Op.Mul b)))
        ≡ Scan Op.Add a ∷ Scan Op.Mul b ∷ [] }
    ensures in_both_of_an_outer_product { scans_of (Output (codes "P") (Outer Op.Add (Scan Op.Add a) (Scan Op.Mul b)))
        ≡ Scan Op.Add a ∷ Scan Op.Mul b ∷ [] }
    ensures in_both_of_an_inner_product { scans_of (Output (codes "P") (Inner Op.Min Op.Add (Scan Op.Add a) (Scan Op.Mul b)))
        ≡ Scan Op.Add a ∷ Scan Op.Mul b ∷ [] }
    ensures below_turns { scans_of (Let (codes "P") (One Unary.Neg (Reverse (Rotate (pos 1) (Transpose (Ravel (Reduce Op.Add (Scan Op.Max a))))))))
        ≡ Scan Op.Max a ∷ [] }
    ensures below_lists { scans_of (Let (codes "P") (Psi (numbers "0") (Take (numbers "1") (Drop (numbers "1") (Permute (numbers "0") (Reshape (numbers "3") (Scan Op.Max (Scan Op.Min a))))))))
        ≡ Scan Op.Max (Scan Op.Min a) ∷ Scan Op.Min a ∷ [] }
    ensures in_no_leaf { scans_of (Let (codes "P") (Two Op.Add (Iota (pos 3)) (Two Op.Mul a (Number (pos 2)))))
        ≡ [] }
    ensures in_no_input { scans_of (Input (codes "A") (numbers "3")) ≡ [] }
{}

/// What is done on one axis that is not the first, and to items that are no numbers.
pub fn later_axis_examples()
    ensures changed { on_axis 1 mirrored (2 ∷ 3 ∷ 4 ∷ []) (1 ∷ 0 ∷ 3 ∷ []) ≡ 1 ∷ 2 ∷ 3 ∷ [] }
    ensures joined_shape { joined 1 (2 ∷ 3 ∷ []) (2 ∷ 4 ∷ []) ≡ 2 ∷ 7 ∷ [] }
    ensures in_the_first_part { either_part 1 (2 ∷ 3 ∷ []) (element (numbers "1 2 3 4 5 6") (2 ∷ 3 ∷ [])) (element (numbers "7 8 9 10") (2 ∷ 2 ∷ [])) (1 ∷ 2 ∷ [])
        ≡ pos 6 }
    ensures in_the_second_part { either_part 1 (2 ∷ 3 ∷ []) (element (numbers "1 2 3 4 5 6") (2 ∷ 3 ∷ [])) (element (numbers "7 8 9 10") (2 ∷ 2 ∷ [])) (1 ∷ 3 ∷ [])
        ≡ pos 9 }
    ensures folded { fold_along Op.Add 1 (2 ∷ 3 ∷ []) (element (numbers "1 2 3 4 5 6") (2 ∷ 3 ∷ [])) (1 ∷ [])
        ≡ pos 15 }
    ensures folded_so_far { fold_until Op.Add 1 (element (numbers "1 2 3 4 5 6") (2 ∷ 3 ∷ [])) (1 ∷ 1 ∷ [])
        ≡ pos 9 }
    ensures last_entries { own_index (3 ∷ []) (numbers "-1 -2") ≡ numbers "-2" }
    ensures restored_items { restored (pos 0) (2 ∷ 0 ∷ 1 ∷ []) (numbers "-1 -2 -3") ≡ numbers "-2 -3 -1" }
{}
