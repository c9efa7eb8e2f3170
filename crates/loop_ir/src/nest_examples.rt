// What nests do, need, cost and keep, computed.
ghost use Rattle.std.specs.Prelude.{◌≡◌, ◌+◌, ◌-◌, ◌*◌, ◌^◌, pos, negsuc, suc, ℕ, [], ◌∷◌, length, map, true, false};
ghost use Rattle.moa_tree.specs.declared.operator.Op.TheVariants as op;
ghost use Rattle.moa_tree.specs.declared.operator.Unary.TheVariants as unary;
ghost use Rattle.loop_ir.specs.declared.step.Step.TheVariants as step;
ghost use Rattle.loop_ir.specs.Costs.{action_cost, choice_cost, cost, loop_cost, time};
ghost use Rattle.loop_ir.specs.Fitting.{HoldsFit, SetsFit};
ghost use Rattle.loop_ir.specs.Inside.{IsDefined, IsWordOf, has_word};
ghost use Rattle.loop_ir.specs.Kept.{EachNamed, IsMaking, IsNest, KeepsCounters, may_set};
ghost use Rattle.loop_ir.specs.Needed.{AreAlike, among, needed, none};
ghost use Rattle.loop_ir.specs.NestExamples.{fresh, matrix_areas, near, numbered, product_keys, product_making, product_nest, product_start, product_tree, element_tree, row_tree, spilled, sum_nest, sum_start, sum_tree, term_tree, vector_areas, weighed};
ghost use Rattle.loop_ir.specs.Pool.{tree, trees, turned};
ghost use Rattle.loop_ir.specs.Running.{Key, Pointer, ReadsWord, Register, WritesWord, acted, holding, repeated, run, run_all};
ghost use Rattle.loop_ir.specs.Steps.{Copy, End, For, If, One, Place, Read, Set, Spot, Then, Two, Walk, Write};

/// An action changes the register or the place that it sets. A read and a write are accesses of
/// an area at the word of a place, and the last access stands first. Outside the words a read
/// gives 0, and a write changes nothing. Before each action register n holds 10 * n and place n
/// holds n.
pub fn acts()
    ensures set { let after = acted (Set 1 (pos 4)) numbered in (after.held (Register 1) ≡ pos 4)
        × (after.words ≡ numbered.words) × (after.trace ≡ numbered.trace) }
    ensures others { let after = acted (Set 1 (pos 4)) numbered in (after.held (Register 2) ≡ pos 20) × (after.held (Pointer 1) ≡ pos 1) }
    ensures copy { let after = acted (Copy 1 2) numbered in (after.held (Register 1) ≡ pos 20) × (after.held (Register 2) ≡ pos 20)
        × (after.words ≡ numbered.words) × (after.trace ≡ numbered.trace) }
    ensures one { let after = acted (One unary.Neg 1 2) numbered in (after.held (Register 1) ≡ negsuc 19)
        × (after.words ≡ numbered.words) × (after.trace ≡ numbered.trace) }
    ensures two { let after = acted (Two op.Sub 1 2 3) numbered in (after.held (Register 1) ≡ negsuc 9)
        × (after.words ≡ numbered.words) × (after.trace ≡ numbered.trace) }
    ensures own_operand { (acted (Two op.Sub 2 3 2) numbered).held (Register 2) ≡ pos 10 }
    ensures place { let after = acted (Place 2 (pos 9)) numbered in (after.held (Pointer 2) ≡ pos 9) × (after.held (Register 2) ≡ pos 20)
        × (after.words ≡ numbered.words) × (after.trace ≡ numbered.trace) }
    ensures spot { let after = acted (Spot 2 (negsuc 1) 3) numbered in (after.held (Pointer 2) ≡ pos 28)
        × (after.words ≡ numbered.words) × (after.trace ≡ numbered.trace) }
    ensures walk { let after = acted (Walk 2 (negsuc 2)) numbered in (after.held (Pointer 2) ≡ negsuc 0)
        × (after.words ≡ numbered.words) × (after.trace ≡ numbered.trace) }
    ensures read { let after = acted (Read 1 4 2) numbered in (after.held (Register 1) ≡ pos 7)
        × (after.words ≡ numbered.words) × (after.trace ≡ ReadsWord 4 (pos 2) ∷ ReadsWord 0 (pos 0) ∷ []) }
    ensures read_behind { let after = acted (Read 1 4 3) numbered in (after.held (Register 1) ≡ pos 0)
        × (after.trace ≡ ReadsWord 4 (pos 3) ∷ ReadsWord 0 (pos 0) ∷ []) }
    ensures read_before { let after = acted (Read 1 4 2) (acted (Walk 2 (negsuc 2)) numbered) in (after.held (Register 1) ≡ pos 0)
        × (after.trace ≡ ReadsWord 4 (negsuc 0) ∷ ReadsWord 0 (pos 0) ∷ []) }
    ensures write { let after = acted (Write 4 1 2) numbered in (after.held (Register 2) ≡ pos 20)
        × (after.words ≡ pos 5 ∷ pos 20 ∷ pos 7 ∷ []) × (after.trace ≡ WritesWord 4 (pos 1) ∷ ReadsWord 0 (pos 0) ∷ []) }
    ensures write_behind { let after = acted (Write 4 3 2) numbered in (after.words ≡ numbered.words)
        × (after.trace ≡ WritesWord 4 (pos 3) ∷ ReadsWord 0 (pos 0) ∷ []) }
    ensures write_before { let after = acted (Write 4 2 1) (acted (Walk 2 (negsuc 2)) numbered) in (after.words ≡ numbered.words)
        × (after.trace ≡ WritesWord 4 (negsuc 0) ∷ ReadsWord 0 (pos 0) ∷ []) }
{}

/// A loop sets its counter to 0 and adds 1 after each turn, and makes its turns whatever becomes
/// of the counter.
pub fn loops_count()
    ensures sum { (run (For 0 3 (Then (Two op.Add 1 1 0) End) End) numbered).held (Register 1) ≡ pos 13 }
    ensures last_turn { (run (For 0 3 (Then (Copy 1 0) End) End) numbered).held (Register 1) ≡ pos 2 }
    ensures counter { (run (For 1 3 End End) numbered).held (Register 1) ≡ pos 3 }
    ensures no_turn { let after = run (For 1 0 (Then (Set 2 (pos 7)) End) End) numbered in (after.held (Register 1) ≡ pos 0)
        × (after.held (Register 2) ≡ pos 20) × (after.words ≡ numbered.words) × (after.trace ≡ numbered.trace) }
    ensures rest { (run (For 1 3 End (Then (Two op.Add 1 1 2) End)) numbered).held (Register 1) ≡ pos 23 }
    ensures inner { (run (For 0 3 (For 1 2 (Then (Two op.Add 2 2 1) End) End) End) numbered).held (Register 2) ≡ pos 23 }
    ensures counter_set { (run (For 1 3 (Then (Set 1 (pos 9)) (Then (Two op.Add 2 2 3) End)) End) numbered).held (Register 2) ≡ pos 110 }
    ensures outermost { (turn : ℕ → ℕ) (x : ℕ) → repeated turn 3 x ≡ turn (turn (turn x)) }
    ensures outermost_of_any { (turn : ℕ → ℕ) (count x : ℕ) → repeated turn (suc count) x ≡ turn (repeated turn count x) }
{}

/// A choice does its first list where the register is below the number and else its second, and
/// then what stands behind it. Before it register 1 holds 10 and register 2 holds 20.
pub fn choices()
    ensures below { (run (If 1 (pos 11) (Then (Set 2 (pos 1)) End) (Then (Set 2 (pos 2)) End) End) numbered).held (Register 2) ≡ pos 1 }
    ensures equal { (run (If 1 (pos 10) (Then (Set 2 (pos 1)) End) (Then (Set 2 (pos 2)) End) End) numbered).held (Register 2) ≡ pos 2 }
    ensures above { (run (If 1 (negsuc 10) (Then (Set 2 (pos 1)) End) (Then (Set 2 (pos 2)) End) End) numbered).held (Register 2) ≡ pos 2 }
    ensures first_and_rest { (run (If 1 (pos 11) (Then (Set 2 (pos 1)) End) End (Then (Two op.Add 2 2 1) End)) numbered).held (Register 2)
        ≡ pos 11 }
    ensures second_and_rest { (run (If 1 (pos 10) (Then (Set 2 (pos 1)) End) End (Then (Two op.Add 2 2 1) End)) numbered).held (Register 2)
        ≡ pos 30 }
{}

/// Nests are done one after another, from the first on.
pub fn nests_follow_one_another()
    ensures in_order { (run_all (Then (Set 1 (pos 4)) End ∷ Then (Copy 2 1) End ∷ []) numbered).held (Register 2) ≡ pos 4 }
    ensures other_order { (run_all (Then (Copy 2 1) End ∷ Then (Set 1 (pos 4)) End ∷ []) numbered).held (Register 2) ≡ pos 10 }
{}

/// The sum of the vectors 1 2 3 and 10 20 30 in one block: list 0 sets a place for each area and
/// does list 1 three times, which reads an element of both, writes their sum and walks on. Each
/// access is inside its area.
pub fn sums_two_vectors()
    ensures tree { tree sum_nest ≡ sum_tree }
    ensures words { (run sum_tree sum_start).words
        ≡ pos 1 ∷ pos 2 ∷ pos 3 ∷ pos 10 ∷ pos 20 ∷ pos 30 ∷ pos 11 ∷ pos 22 ∷ pos 33 ∷ [] }
    ensures accesses { length (run sum_tree sum_start).trace ≡ 9 }
    ensures trace { (run sum_tree sum_start).trace
        ≡ WritesWord 2 (pos 8) ∷ ReadsWord 1 (pos 5) ∷ ReadsWord 0 (pos 2)
        ∷ WritesWord 2 (pos 7) ∷ ReadsWord 1 (pos 4) ∷ ReadsWord 0 (pos 1)
        ∷ WritesWord 2 (pos 6) ∷ ReadsWord 1 (pos 3) ∷ ReadsWord 0 (pos 0) ∷ [] }
    ensures inside { IsDefined vector_areas (run sum_tree sum_start) }
    ensures last_place { (run sum_tree sum_start).held (Pointer 5) ≡ pos 9 }
{}

/// The product of the matrices 1 2 3 4 and 5 6 7 8: a loop over rows, one over columns, and one
/// that adds up the products of a row and a column. Its lists in the order of making, each behind
/// those that it names, stand for the same trees, and the other way round they are the nest.
pub fn multiplies_matrices()
    ensures tree { tree product_nest ≡ product_tree }
    ensures trees { trees product_making ≡ term_tree ∷ element_tree ∷ row_tree ∷ product_tree ∷ [] }
    ensures turned { turned product_making ≡ product_nest }
    ensures words { (run product_tree product_start).words
        ≡ pos 1 ∷ pos 2 ∷ pos 3 ∷ pos 4 ∷ pos 5 ∷ pos 6 ∷ pos 7 ∷ pos 8 ∷ pos 19 ∷ pos 22 ∷ pos 43 ∷ pos 50 ∷ [] }
    ensures accesses { length (run product_tree product_start).trace ≡ 20 }
    ensures inside { IsDefined matrix_areas (run product_tree product_start) }
{}

/// A word is of an area from its start on and before its end. Each access has to be inside,
/// whatever comes after it.
pub fn areas_have_their_words()
    ensures first { IsWordOf vector_areas 1 (pos 3) }
    ensures last { IsWordOf vector_areas 1 (pos 5) }
    ensures before { IsWordOf vector_areas 1 (pos 2) → ⊥ }
    ensures behind { IsWordOf vector_areas 1 (pos 6) → ⊥ }
    ensures negative { IsWordOf vector_areas 0 (negsuc 0) → ⊥ }
    ensures no_area { IsWordOf vector_areas 3 (pos 0) → ⊥ }
    ensures tested { map (has_word vector_areas 1) (pos 2 ∷ pos 3 ∷ pos 5 ∷ pos 6 ∷ negsuc 0 ∷ [])
        ≡ false ∷ true ∷ true ∷ false ∷ false ∷ [] }
    ensures no_area_tested { has_word vector_areas 3 (pos 0) ≡ false }
    ensures read { IsDefined vector_areas (run (Then (Place 3 (pos 3)) (Then (Read 1 0 3) (Then (Read 1 1 3) End))) sum_start) → ⊥ }
    ensures write { IsDefined vector_areas (run (Then (Place 3 (pos 3)) (Then (Write 2 3 1) (Then (Write 1 3 1) End))) sum_start) → ⊥ }
{}

/// What is read before it is set is needed. What is read behind a loop is needed before it even
/// where its body sets it, since there may be no turn. A counter is set by its loop, and is never
/// needed before it. Either list of a choice may be done.
pub fn needs()
    ensures read { map (needed (Then (Read 1 0 2) End) (among (Register 1 ∷ Register 3 ∷ [])))
        (Register 1 ∷ Register 2 ∷ Register 3 ∷ Pointer 1 ∷ Pointer 2 ∷ []) ≡ false ∷ false ∷ true ∷ false ∷ true ∷ [] }
    ensures write { map (needed (Then (Write 0 2 1) End) none)
        (Register 1 ∷ Register 2 ∷ Pointer 0 ∷ Pointer 1 ∷ Pointer 2 ∷ []) ≡ true ∷ false ∷ false ∷ false ∷ true ∷ [] }
    ensures one { map (needed (Then (One unary.Neg 1 2) End) (among (Register 1 ∷ []))) (Register 1 ∷ Register 2 ∷ []) ≡ false ∷ true ∷ [] }
    ensures two { map (needed (Then (Two op.Sub 1 2 3) End) (among (Register 1 ∷ []))) (Register 1 ∷ Register 2 ∷ Register 3 ∷ [])
        ≡ false ∷ true ∷ true ∷ [] }
    ensures own_operand { map (needed (Then (Two op.Add 1 1 2) End) none) (Register 1 ∷ Register 2 ∷ Register 3 ∷ [])
        ≡ true ∷ true ∷ false ∷ [] }
    ensures place { map (needed (Then (Place 1 (pos 4)) End) (among (Register 1 ∷ Pointer 1 ∷ []))) (Register 1 ∷ Pointer 1 ∷ []) ≡ true ∷ false ∷ [] }
    ensures spot { map (needed (Then (Spot 1 (pos 4) 2) End) (among (Pointer 1 ∷ [])))
        (Register 1 ∷ Register 2 ∷ Pointer 1 ∷ Pointer 2 ∷ []) ≡ false ∷ true ∷ false ∷ false ∷ [] }
    ensures walk { map (needed (Then (Walk 1 (pos 4)) End) none) (Register 1 ∷ Pointer 1 ∷ []) ≡ false ∷ true ∷ [] }
    ensures set_first { needed (Then (Set 1 (pos 7)) (Then (Copy 2 1) End)) none (Register 1) ≡ false }
    ensures read_first { needed (Then (Copy 2 1) (Then (Set 1 (pos 7)) End)) none (Register 1) ≡ true }
    ensures body_skipped { needed (For 0 3 (Then (Set 1 (pos 7)) End) (Then (Copy 2 1) End)) none (Register 1) ≡ true }
    ensures body_reads { needed (For 0 3 (Then (Copy 2 1) (Then (Set 1 (pos 7)) End)) End) none (Register 1) ≡ true }
    ensures body_sets_first { needed (For 0 3 (Then (Set 1 (pos 7)) (Then (Copy 2 1) End)) End) none (Register 1) ≡ false }
    ensures counter { needed (For 0 3 (Then (Two op.Add 1 1 0) End) (Then (Copy 2 0) End)) (among (Register 0 ∷ [])) (Register 0) ≡ false }
    ensures place_of_that_number { needed (For 0 3 (Then (Walk 0 (pos 1)) End) End) none (Pointer 0) ≡ true }
    ensures choice { map (needed (If 1 (pos 5) (Then (Copy 4 2) End) (Then (Copy 4 3) End) End) none)
        (Register 1 ∷ Register 2 ∷ Register 3 ∷ Register 4 ∷ []) ≡ true ∷ true ∷ true ∷ false ∷ [] }
    ensures first_sets { needed (If 1 (pos 5) (Then (Set 2 (pos 7)) End) End (Then (Copy 3 2) End)) none (Register 2) ≡ true }
    ensures second_sets { needed (If 1 (pos 5) End (Then (Set 2 (pos 7)) End) (Then (Copy 3 2) End)) none (Register 2) ≡ true }
    ensures both_set { needed (If 1 (pos 5) (Then (Set 2 (pos 7)) End) (Then (Set 2 (pos 8)) End) (Then (Copy 3 2) End)) none (Register 2)
        ≡ false }
    ensures product { map (needed product_tree none) product_keys
        ≡ false ∷ false ∷ false ∷ false ∷ false ∷ false ∷ false ∷ false ∷ false ∷ [] }
    ensures nothing { (key : Key) → needed product_tree none key ≡ false }
{}

/// A step costs 8, the lines of its number, and twice the width of each register and place that
/// it names. Here a number takes as many lines as it is far from 0, register n is n wide, and
/// place n is 100 * n wide.
pub fn steps_cost()
    ensures set { action_cost weighed (Set 1 (pos 7)) ≡ 8 + 7 + 2 * 1 }
    ensures copy { action_cost weighed (Copy 1 2) ≡ 8 + 2 * (1 + 2) }
    ensures one { action_cost weighed (One unary.Neg 1 2) ≡ 8 + 2 * (1 + 2) }
    ensures two { action_cost weighed (Two op.Add 1 2 4) ≡ 8 + 2 * (1 + 2 + 4) }
    ensures place { action_cost weighed (Place 2 (pos 9)) ≡ 8 + 9 + 2 * 200 }
    ensures spot { action_cost weighed (Spot 2 (negsuc 4) 3) ≡ 8 + 5 + 2 * (200 + 3) }
    ensures walk { action_cost weighed (Walk 2 (negsuc 4)) ≡ 8 + 5 + 2 * 200 }
    ensures read { action_cost weighed (Read 1 4 2) ≡ 8 + 2 * (1 + 200) }
    ensures write { action_cost weighed (Write 4 2 1) ≡ 8 + 2 * (200 + 1) }
    ensures loop_itself { loop_cost weighed 3 5 ≡ 8 + 5 + 2 * (4 * 3) }
    ensures choice_itself { choice_cost weighed 3 (negsuc 3) ≡ 8 + 4 + 2 * 3 }
{}

/// The lines of a loop are its own and those of its body. Its time is its own once, and its own
/// and its body's for each turn. The lines of a choice are those of both lists, and its time that
/// of the slower one. A step without a number costs 8 and one with a number 9, and where each
/// register lies in a spill word 2 more for each that it names.
pub fn costs()
    ensures none { (cost near End ≡ 0) × (time near End ≡ 0) }
    ensures loop_lines { cost near (For 0 5 (Then (Set 1 (pos 7)) End) End) ≡ 9 + 9 }
    ensures loop_time { time near (For 0 5 (Then (Set 1 (pos 7)) End) End) ≡ 9 + 5 * (9 + 9) }
    ensures spilled_lines { cost spilled (For 0 5 (Then (Set 1 (pos 7)) End) End) ≡ 17 + 11 }
    ensures spilled_time { time spilled (For 0 5 (Then (Set 1 (pos 7)) End) End) ≡ 17 + 5 * (17 + 11) }
    ensures no_turn { time near (For 0 0 (Then (Set 1 (pos 7)) End) End) ≡ 9 }
    ensures rest { (cost near (For 0 5 End (Then (Copy 1 2) End)) ≡ 9 + 8) × (time near (For 0 5 End (Then (Copy 1 2) End)) ≡ 9 + 5 * 9 + 8) }
    ensures nested { time near (For 0 3 (For 1 5 (Then (Set 2 (pos 7)) End) End) End) ≡ 9 + 3 * (9 + 99) }
    ensures choice_lines { cost near (If 1 (pos 4) (Then (Copy 2 3) End) (Then (Set 2 (pos 7)) (Then (Copy 2 3) End)) (Then (Copy 1 2) End))
        ≡ 9 + 8 + 17 + 8 }
    ensures choice_time { time near (If 1 (pos 4) (Then (Copy 2 3) End) (Then (Set 2 (pos 7)) (Then (Copy 2 3) End)) (Then (Copy 1 2) End))
        ≡ 9 + 17 + 8 }
    ensures first_slower { time near (If 1 (pos 4) (Then (Set 2 (pos 7)) (Then (Copy 2 3) End)) (Then (Copy 2 3) End) End) ≡ 9 + 17 }
    ensures product { (cost near product_tree ≡ 193) × (time near product_tree ≡ 900) }
{}

/// A counter is set by its loop alone, and not in its body by a step, an inner loop or a choice.
/// It may be set behind its loop, and the place of that number within it. A loop turns less than
/// 2^63 times.
pub fn counters_are_kept()
    ensures kept { KeepsCounters (For 0 3 (Then (Set 1 (pos 7)) (Then (Place 0 (pos 4)) End)) (Then (Set 0 (pos 7)) End)) }
    ensures product { KeepsCounters product_tree }
    ensures most_turns { KeepsCounters (For 0 (2 ^ 63 - 1) (Then (Set 1 (pos 7)) End) End) }
    ensures one_turn_more { KeepsCounters (For 0 (2 ^ 63) (Then (Set 1 (pos 7)) End) End) → ⊥ }
    ensures body { KeepsCounters (For 0 3 (Then (Set 1 (pos 7)) (Then (Set 0 (pos 7)) End)) End) → ⊥ }
    ensures inner_counter { KeepsCounters (For 0 3 (For 0 2 End End) End) → ⊥ }
    ensures inner_body { KeepsCounters (For 0 3 (For 1 2 (Then (Set 0 (pos 7)) End) End) End) → ⊥ }
    ensures behind_inner { KeepsCounters (For 0 3 (For 1 2 End (Then (Set 0 (pos 7)) End)) End) → ⊥ }
    ensures inner_loop { KeepsCounters (For 0 3 (For 1 2 (Then (Set 1 (pos 7)) End) End) End) → ⊥ }
    ensures loop_behind { KeepsCounters (For 0 3 End (For 1 2 (Then (Set 1 (pos 7)) End) End)) → ⊥ }
    ensures action_before { KeepsCounters (Then (Set 2 (pos 7)) (For 1 2 (Then (Set 1 (pos 7)) End) End)) → ⊥ }
    ensures first_list { KeepsCounters (For 0 3 (If 1 (pos 5) (Then (Set 0 (pos 7)) End) End End) End) → ⊥ }
    ensures second_list { KeepsCounters (For 0 3 (If 1 (pos 5) End (Then (Set 0 (pos 7)) End) End) End) → ⊥ }
    ensures behind_choice { KeepsCounters (For 0 3 (If 1 (pos 5) End End (Then (Set 0 (pos 7)) End)) End) → ⊥ }
    ensures loop_in_first { KeepsCounters (If 1 (pos 5) (For 0 3 (Then (Set 0 (pos 7)) End) End) End End) → ⊥ }
    ensures loop_in_second { KeepsCounters (If 1 (pos 5) End (For 0 3 (Then (Set 0 (pos 7)) End) End) End) → ⊥ }
    ensures loop_behind_choice { KeepsCounters (If 1 (pos 5) End End (For 0 3 (Then (Set 0 (pos 7)) End) End)) → ⊥ }
{}

/// What fits lies from -2^63 on and below 2^63. Each number to which a register is set has to, in a
/// body and in either list of a choice too, and so has each that a register or a word holds. Places,
/// and what a register is compared with, are free.
pub fn numbers_fit()
    ensures least { SetsFit (Then (Set 1 (negsuc (2 ^ 63 - 1))) End) }
    ensures most { SetsFit (Then (Set 1 (pos (2 ^ 63 - 1))) End) }
    ensures one_less { SetsFit (Then (Set 1 (negsuc (2 ^ 63))) End) → ⊥ }
    ensures one_more { SetsFit (Then (Set 1 (pos (2 ^ 63))) End) → ⊥ }
    ensures free { SetsFit (Then (Place 1 (pos (2 ^ 63))) (Then (Spot 1 (pos (2 ^ 63)) 2) (Then (Walk 1 (pos (2 ^ 63)))
        (If 1 (pos (2 ^ 63)) End End End)))) }
    ensures behind { SetsFit (Then (Copy 1 2) (Then (Set 1 (pos (2 ^ 63))) End)) → ⊥ }
    ensures body { SetsFit (For 0 3 (Then (Set 1 (pos (2 ^ 63))) End) End) → ⊥ }
    ensures behind_loop { SetsFit (For 0 3 End (Then (Set 1 (pos (2 ^ 63))) End)) → ⊥ }
    ensures first_list { SetsFit (If 0 (pos 4) (Then (Set 1 (pos (2 ^ 63))) End) End End) → ⊥ }
    ensures second_list { SetsFit (If 0 (pos 4) End (Then (Set 1 (pos (2 ^ 63))) End) End) → ⊥ }
    ensures behind_choice { SetsFit (If 0 (pos 4) End End (Then (Set 1 (pos (2 ^ 63))) End)) → ⊥ }
    ensures state { HoldsFit (holding (Pointer 1) (pos (2 ^ 63)) (fresh (pos 5 ∷ negsuc (2 ^ 63 - 1) ∷ []))) }
    ensures word { HoldsFit (fresh (pos 5 ∷ pos (2 ^ 63) ∷ [])) → ⊥ }
    ensures register { HoldsFit (holding (Register 1) (pos (2 ^ 63)) (fresh [])) → ⊥ }
{}

/// A list stands for the tree of its steps, in their order, and a list that is not there for no
/// step. A nest that is made has the lists of its making from the last to the first.
pub fn lists_stand_for_trees()
    ensures each_step { tree ((step.Set 1 (pos 7) ∷ step.Copy 1 2 ∷ step.One unary.Abs 1 2 ∷ step.Two op.Sub 1 2 3 ∷ step.Place 1 (pos 7)
        ∷ step.Spot 1 (pos 7) 2 ∷ step.Walk 1 (pos 7) ∷ step.Read 1 2 3 ∷ step.Write 1 2 3 ∷ []) ∷ [])
        ≡ Then (Set 1 (pos 7)) (Then (Copy 1 2) (Then (One unary.Abs 1 2) (Then (Two op.Sub 1 2 3) (Then (Place 1 (pos 7))
        (Then (Spot 1 (pos 7) 2) (Then (Walk 1 (pos 7)) (Then (Read 1 2 3) (Then (Write 1 2 3) End)))))))) }
    ensures choice { tree ((step.If 1 (pos 4) 1 2 ∷ step.For 0 3 2 ∷ []) ∷ (step.Copy 1 2 ∷ []) ∷ (step.Copy 3 4 ∷ []) ∷ [])
        ≡ If 1 (pos 4) (Then (Copy 1 2) End) (Then (Copy 3 4) End) (For 0 3 (Then (Copy 3 4) End) End) }
    ensures choice_in_making { trees ((step.Copy 3 4 ∷ []) ∷ (step.Copy 1 2 ∷ []) ∷ (step.If 1 (pos 4) 1 0 ∷ step.For 0 3 0 ∷ []) ∷ [])
        ≡ Then (Copy 3 4) End ∷ Then (Copy 1 2) End
        ∷ If 1 (pos 4) (Then (Copy 1 2) End) (Then (Copy 3 4) End) (For 0 3 (Then (Copy 3 4) End) End) ∷ [] }
    ensures choice_turned { turned ((step.Copy 3 4 ∷ []) ∷ (step.Copy 1 2 ∷ []) ∷ (step.If 1 (pos 4) 1 0 ∷ step.For 0 3 0 ∷ []) ∷ [])
        ≡ (step.If 1 (pos 4) 1 2 ∷ step.For 0 3 2 ∷ []) ∷ (step.Copy 1 2 ∷ []) ∷ (step.Copy 3 4 ∷ []) ∷ [] }
    ensures no_list { (tree [] ≡ End) × (trees [] ≡ []) × (turned [] ≡ []) }
    ensures no_such_list { tree ((step.For 0 3 1 ∷ []) ∷ []) ≡ For 0 3 End End }
{}

/// In a nest each list stands before those that it names, and in the making behind them. A list
/// may be named twice.
pub fn lists_stand_in_order()
    ensures nest { IsNest product_nest }
    ensures making { IsMaking product_making }
    ensures making_is_no_nest { IsNest product_making → ⊥ }
    ensures nest_is_no_making { IsMaking product_nest → ⊥ }
    ensures no_list { IsNest [] → ⊥ }
    ensures nothing_made { IsMaking [] }
    ensures own_list { IsNest ((step.For 0 3 0 ∷ []) ∷ []) → ⊥ }
    ensures own_list_in_making { IsMaking ((step.For 0 3 0 ∷ []) ∷ []) → ⊥ }
    ensures no_such_list { IsNest ((step.If 0 (pos 4) 1 2 ∷ []) ∷ [] ∷ []) → ⊥ }
    ensures choice { IsNest ((step.If 0 (pos 4) 1 2 ∷ []) ∷ [] ∷ [] ∷ []) }
    ensures named_twice { IsNest ((step.If 0 (pos 4) 1 1 ∷ []) ∷ [] ∷ []) × IsMaking ([] ∷ (step.If 0 (pos 4) 0 0 ∷ []) ∷ []) }
    ensures first_to_front { IsNest ([] ∷ (step.If 0 (pos 4) 1 2 ∷ []) ∷ [] ∷ []) → ⊥ }
    ensures second_to_front { IsNest ([] ∷ (step.If 0 (pos 4) 2 1 ∷ []) ∷ [] ∷ []) → ⊥ }
    ensures counter_set { IsNest ((step.For 0 3 1 ∷ []) ∷ (step.Set 0 (pos 7) ∷ []) ∷ []) → ⊥ }
{}

/// What steps may set: by their actions, as counters, in bodies and in either list of a choice.
pub fn steps_may_set()
    ensures actions { map (may_set (Then (Set 1 (pos 7)) (Then (Copy 2 6) (Then (One unary.Neg 3 6) (Then (Two op.Add 4 6 7) (Then (Read 5 8 9) End))))))
        (Register 1 ∷ Register 2 ∷ Register 3 ∷ Register 4 ∷ Register 5 ∷ Register 6 ∷ Register 7 ∷ Register 8 ∷ Pointer 9 ∷ [])
        ≡ true ∷ true ∷ true ∷ true ∷ true ∷ false ∷ false ∷ false ∷ false ∷ [] }
    ensures places { map (may_set (Then (Place 1 (pos 7)) (Then (Spot 2 (pos 7) 4) (Then (Walk 3 (pos 7)) (Then (Write 6 5 4) End)))))
        (Pointer 1 ∷ Pointer 2 ∷ Pointer 3 ∷ Register 1 ∷ Register 4 ∷ Pointer 5 ∷ [])
        ≡ true ∷ true ∷ true ∷ false ∷ false ∷ false ∷ [] }
    ensures loop_parts { map (may_set (For 0 3 (Then (Set 1 (pos 7)) End) (Then (Set 2 (pos 7)) End)))
        (Register 0 ∷ Register 1 ∷ Register 2 ∷ Register 3 ∷ []) ≡ true ∷ true ∷ true ∷ false ∷ [] }
    ensures choice_parts { map (may_set (If 0 (pos 4) (Then (Set 1 (pos 7)) End) (Then (Set 2 (pos 7)) End) (Then (Set 3 (pos 7)) End)))
        (Register 0 ∷ Register 1 ∷ Register 2 ∷ Register 3 ∷ []) ≡ false ∷ true ∷ true ∷ true ∷ [] }
{}

/// Steps name the registers and places of their actions, counters, and registers that are
/// compared.
pub fn each_is_named()
    ensures product { EachNamed (λ key. among product_keys key ≡ true) product_tree }
    ensures action { EachNamed (λ key. among (Register 2 ∷ []) key ≡ true) (Then (Copy 1 2) End) → ⊥ }
    ensures counter { EachNamed (λ key. among (Register 2 ∷ []) key ≡ true) (For 1 3 (Then (Copy 2 2) End) End) → ⊥ }
    ensures body { EachNamed (λ key. among (Register 2 ∷ []) key ≡ true) (For 2 3 (Then (Copy 1 2) End) End) → ⊥ }
    ensures compared { EachNamed (λ key. among (Register 2 ∷ []) key ≡ true) (If 1 (pos 4) End End End) → ⊥ }
    ensures first { EachNamed (λ key. among (Register 2 ∷ []) key ≡ true) (If 2 (pos 4) (Then (Copy 1 2) End) End End) → ⊥ }
    ensures second { EachNamed (λ key. among (Register 2 ∷ []) key ≡ true) (If 2 (pos 4) End (Then (Copy 1 2) End) End) → ⊥ }
    ensures action_behind { EachNamed (λ key. among (Register 2 ∷ []) key ≡ true) (Then (Copy 2 2) (Then (Copy 1 2) End)) → ⊥ }
    ensures behind { EachNamed (λ key. among (Register 2 ∷ []) key ≡ true) (If 2 (pos 4) End End (For 2 3 End (Then (Copy 2 1) End))) → ⊥ }
{}

/// States are alike where they hold the same numbers in what is needed, whatever else they hold,
/// over the same words and after the same accesses.
pub fn states_are_alike()
    ensures other_register { AreAlike (among (Register 1 ∷ Pointer 2 ∷ [])) numbered (holding (Register 2) (pos 7) numbered) }
    ensures needed_register { AreAlike (among (Register 1 ∷ Pointer 2 ∷ [])) numbered (holding (Register 1) (pos 7) numbered) → ⊥ }
    ensures needed_place { AreAlike (among (Register 1 ∷ Pointer 2 ∷ [])) numbered (holding (Pointer 2) (pos 7) numbered) → ⊥ }
    ensures other_words { AreAlike none numbered (record { held = numbered.held; words = []; trace = numbered.trace }) → ⊥ }
    ensures other_trace { AreAlike none numbered (record { held = numbered.held; words = numbered.words; trace = [] }) → ⊥ }
{}
