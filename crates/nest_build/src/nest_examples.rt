// Nests of forms, computed.
ghost use Rattle.std.specs.Prelude.{◌≡◌, ◌+◌, ◌*◌, pos, negsuc, [], ◌∷◌, codes, drop, length, map, false, true};
ghost use Rattle.std.specs.declared.option.Option.TheVariants.{None, Some};
ghost use Rattle.moa_tree.specs.declared.operator.Op.TheVariants as op;
ghost use Rattle.moa_tree.specs.declared.operator.Unary.TheVariants as unary;
ghost use Rattle.normal_form.specs.declared.entry.Entry.TheVariants.{At, Minus, Plus};
ghost use Rattle.normal_form.specs.Forms.{Bin, Fold, Get, Index, Lit, Un};
ghost use Rattle.normal_form.specs.Moves.{variable};
ghost use Rattle.shapes_core.specs.declared.area.AreaKind.TheVariants.{In, Out};
ghost use Rattle.loop_ir.specs.Costs.{cost, time};
ghost use Rattle.loop_ir.specs.Inside.{IsDefined};
ghost use Rattle.loop_ir.specs.Needed.{needed, none};
ghost use Rattle.loop_ir.specs.NestExamples.{fresh, near};
ghost use Rattle.loop_ir.specs.Running.{Key, ReadsWord, WritesWord, run};
ghost use Rattle.loop_ir.specs.Steps.{End, For, One, Place, Read, Set, Then, Two, Walk, Write};
ghost use Rattle.nest_build.specs.Gives.{AddsInside, AreLaidOut, Gives, IsBuildable, IsReachedWithin, store_of};
ghost use Rattle.nest_build.specs.NestExamples.{bent_forms, counted_areas, counted_form, counted_nest, element, input, long_nest, loop_over, mixed_form, mixed_steps, outer_areas, outer_form, outer_nest, outer_words, part_areas, part_form, part_nest, part_words, permuted_areas, permuted_form, permuted_nest, permuted_words, reversed_areas, reversed_form, reversed_nest, row_areas, row_form, row_nest, row_words, scalar_areas, scalar_form, scalar_nest, scaled_areas, scaled_form, scaled_nest, two_spots, vector};
ghost use Rattle.nest_build.specs.Nests.{indexed, made_of, nest_of, own_access, spots_from, start_of, stride_along, walk_by, walks};
ghost use Rattle.nest_build.specs.Parts.{accesses, behind_value, counter_of, entries, is_straight, literals, loops_from, low_of, values_of};

use loop_ir::laws::tests_show_what_is_inside;

/// The loops of a region go over the axes with more than one place, and have counters in order.
/// The turns are those from the low end of an axis to its high one.
pub fn loops()
    ensures each { loops_from 0 0 ((0, 4) ∷ (0, 5) ∷ []) ≡ loop_over 0 0 4 ∷ loop_over 1 1 5 ∷ [] }
    ensures one_place { loops_from 0 0 ((0, 4) ∷ (2, 3) ∷ (1, 6) ∷ []) ≡ loop_over 0 0 4 ∷ loop_over 1 2 5 ∷ [] }
    ensures first_has_one { loops_from 0 0 ((5, 6) ∷ (3, 9) ∷ []) ≡ loop_over 0 1 6 ∷ [] }
    ensures from_others { loops_from 7 3 ((1, 3) ∷ (0, 1) ∷ (0, 2) ∷ []) ≡ loop_over 7 3 2 ∷ loop_over 8 5 2 ∷ [] }
    ensures one_element { loops_from 0 0 ((3, 4) ∷ (0, 1) ∷ []) ≡ [] }
    ensures scalar { loops_from 0 0 [] ≡ [] }
{}

/// A variable has a least number in a region, 0 where the region has no such axis, and a counter
/// where there is a loop over it.
pub fn variables_of_loops()
    ensures lows { map (low_of ((2, 5) ∷ (0, 4) ∷ (3, 4) ∷ [])) (0 ∷ 1 ∷ 2 ∷ 3 ∷ []) ≡ 2 ∷ 0 ∷ 3 ∷ 0 ∷ [] }
    ensures counters { map (counter_of (loop_over 7 0 4 ∷ loop_over 8 2 5 ∷ [])) (0 ∷ 1 ∷ 2 ∷ 8 ∷ []) ≡ Some 7 ∷ None ∷ Some 8 ∷ None ∷ [] }
{}

/// Literals, accesses and entries stand in the order of the form, from the left. Each stands as
/// often as the form has it.
pub fn contents()
    ensures literals { literals mixed_form ≡ pos 3 ∷ pos 3 ∷ pos 4 ∷ [] }
    ensures accesses { map Get (accesses mixed_form) ≡ element 1 (pos 2) [] ∷ vector ∷ [] }
    ensures entries { entries mixed_form ≡ variable 1 ∷ Minus 0 (pos 5) ∷ [] }
    ensures literal_alone { (literals (Lit (pos 7)) ≡ pos 7 ∷ []) × (accesses (Lit (pos 7)) ≡ []) × (entries (Lit (pos 7)) ≡ []) }
    ensures index_alone { (literals (Index (At (pos 7))) ≡ []) × (accesses (Index (At (pos 7))) ≡ []) × (entries (Index (At (pos 7))) ≡ At (pos 7) ∷ []) }
    ensures element_alone { (literals (element 3 (pos 7) []) ≡ []) × (entries (element 3 (pos 7) []) ≡ [])
        × (accesses (element 3 (pos 7) []) ≡ record { area = 3; start = pos 7; strides = [] } ∷ []) }
{}

/// A form takes one value register for its result, and one more for each left operand that is held
/// while the right one is made. A literal has a register of its own, and takes none of these.
pub fn registers_of_values()
    ensures alone { map values_of (Lit (pos 7) ∷ vector ∷ Index (variable 0) ∷ []) ≡ 0 ∷ 1 ∷ 1 ∷ [] }
    ensures of_literals { map values_of (Un unary.Neg (Lit (pos 7)) ∷ Bin op.Sub (Lit (pos 7)) (Lit (pos 8)) ∷ []) ≡ 1 ∷ 1 ∷ [] }
    ensures literals_left { values_of (Bin op.Sub (Lit (pos 1)) (Bin op.Sub (Lit (pos 2)) vector)) ≡ 1 }
    ensures literal_right { values_of (Bin op.Sub vector (Lit (pos 1))) ≡ 1 }
    ensures deep_left { values_of (Bin op.Sub (Bin op.Sub (Bin op.Sub vector vector) vector) vector) ≡ 2 }
    ensures deep_right { values_of (Bin op.Sub vector (Bin op.Sub vector (Bin op.Sub vector vector))) ≡ 4 }
    ensures deep_in_left { values_of (Bin op.Sub (Bin op.Sub vector (Bin op.Sub vector vector)) vector) ≡ 3 }
    ensures unary { values_of (Un unary.Neg (Bin op.Sub vector (Un unary.Abs vector))) ≡ 2 }
    ensures behind { map (behind_value 5) (Lit (pos 7) ∷ vector ∷ Index (variable 0) ∷ Un unary.Neg vector ∷ Bin op.Sub (Lit (pos 7)) (Lit (pos 8)) ∷ [])
        ≡ 5 ∷ 6 ∷ 6 ∷ 6 ∷ 6 ∷ [] }
{}

/// A straight form has no choice, no fold and no binding, at its top or below.
pub fn straight_forms()
    ensures accepted { map is_straight (Lit (pos 7) ∷ Index (variable 0) ∷ vector ∷ Un unary.Neg vector ∷ Bin op.Sub vector vector ∷ mixed_form ∷ [])
        ≡ true ∷ true ∷ true ∷ true ∷ true ∷ true ∷ [] }
    ensures refused { map is_straight bent_forms ≡ false ∷ false ∷ false ∷ [] }
    ensures refused_below_unary { map (λ form. is_straight (Un unary.Neg form)) bent_forms ≡ false ∷ false ∷ false ∷ [] }
    ensures refused_on_the_left { map (λ form. is_straight (Bin op.Sub form vector)) bent_forms ≡ false ∷ false ∷ false ∷ [] }
    ensures refused_on_the_right { map (λ form. is_straight (Bin op.Sub vector form)) bent_forms ≡ false ∷ false ∷ false ∷ [] }
{}

/// A place begins at its area's first word and the start and strides of its access, at the low end
/// of the region. Places are numbered in the order of their accesses.
pub fn places()
    ensures starts { map (start_of (input (codes "A") [] 4 ∷ input (codes "B") [] 9 ∷ [])) (0 ∷ 1 ∷ 2 ∷ []) ≡ 4 ∷ 9 ∷ 0 ∷ [] }
    ensures spots { spots_from scaled_areas ((1, 3) ∷ (2, 4) ∷ []) 6
        (record { area = 2; start = pos 1; strides = (0, pos 5) ∷ (1, negsuc 1) ∷ [] } ∷ record { area = 1; start = pos 3; strides = [] } ∷ [])
        ≡ record { place = 6; word = pos 23; strides = (0, pos 5) ∷ (1, negsuc 1) ∷ [] } ∷ record { place = 7; word = pos 23; strides = [] } ∷ [] }
    ensures own { own_access 3 (2 ∷ 3 ∷ 4 ∷ []) ≡ record { area = 3; start = pos 0; strides = (0, pos 12) ∷ (1, pos 4) ∷ (2, pos 1) ∷ [] } }
    ensures along { map (stride_along ((0, pos 5) ∷ (2, negsuc 1) ∷ [])) (0 ∷ 1 ∷ 2 ∷ []) ≡ pos 5 ∷ pos 0 ∷ negsuc 1 ∷ [] }
{}

/// Each place walks by its stride along a variable, forward after a turn and back behind all
/// turns. A place without a stride there stays.
pub fn places_walk()
    ensures forward { walks two_spots 0 (pos 1) ≡ Walk 6 (pos 5) ∷ [] }
    ensures both { walks two_spots 1 (pos 1) ≡ Walk 6 (negsuc 1) ∷ Walk 8 (pos 1) ∷ [] }
    ensures back { walks two_spots 1 (negsuc 2) ≡ Walk 6 (pos 6) ∷ Walk 8 (negsuc 2) ∷ [] }
    ensures neither { walks two_spots 2 (pos 1) ≡ [] }
    ensures no_word { walk_by 6 (pos 0) ≡ [] }
{}

/// The number of an entry over a region where variable 0 begins at 2 and has counter 7, and
/// variable 1 has one place, 3.
pub fn entries_are_counted()
    ensures constant { indexed (loop_over 7 0 4 ∷ []) (low_of ((2, 6) ∷ (3, 4) ∷ [])) 9 (At (pos 5)) ≡ Set 9 (pos 5) ∷ [] }
    ensures plus { indexed (loop_over 7 0 4 ∷ []) (low_of ((2, 6) ∷ (3, 4) ∷ [])) 9 (Plus 0 (pos 5)) ≡ Set 9 (pos 7) ∷ Two op.Add 9 9 7 ∷ [] }
    ensures minus { indexed (loop_over 7 0 4 ∷ []) (low_of ((2, 6) ∷ (3, 4) ∷ [])) 9 (Minus 0 (pos 5)) ≡ Set 9 (pos 3) ∷ Two op.Sub 9 9 7 ∷ [] }
    ensures plus_one_place { indexed (loop_over 7 0 4 ∷ []) (low_of ((2, 6) ∷ (3, 4) ∷ [])) 9 (Plus 1 (pos 5)) ≡ Set 9 (pos 8) ∷ [] }
    ensures minus_one_place { indexed (loop_over 7 0 4 ∷ []) (low_of ((2, 6) ∷ (3, 4) ∷ [])) 9 (Minus 1 (pos 5)) ≡ Set 9 (pos 2) ∷ [] }
{}

/// The steps of a value, where registers are free from 9 on, literals stand from register 4 on,
/// and places have numbers from 12 on.
pub fn values_are_made()
    ensures literal { made_of [] (low_of []) 9 4 12 (Lit (pos 7)) ≡ record { steps = []; value = 4 } }
    ensures element { made_of [] (low_of []) 9 4 12 (element 3 (pos 7) []) ≡ record { steps = Read 9 3 12 ∷ []; value = 9 } }
    ensures unary { made_of [] (low_of []) 9 4 12 (Un unary.Neg (Lit (pos 7))) ≡ record { steps = One unary.Neg 9 4 ∷ []; value = 9 } }
    ensures mixed { made_of (loop_over 0 0 4 ∷ loop_over 1 1 5 ∷ []) (low_of ((0, 4) ∷ (2, 7) ∷ [])) 9 4 12 mixed_form
        ≡ record { steps = mixed_steps; value = 9 } }
{}

/// A matrix and the transpose of another one are added: each place walks by its stride along an
/// axis, and is brought back behind the inner loop.
pub fn adds_a_transpose()
    ensures { nest_of (record { kind = In (codes "A"); shape = 4 ∷ 5 ∷ []; start = 0 } ∷ record { kind = In (codes "B"); shape = 5 ∷ 4 ∷ []; start = 20 }
        ∷ record { kind = Out (codes "C"); shape = 4 ∷ 5 ∷ []; start = 40 } ∷ []) 2 (4 ∷ 5 ∷ []) ((0, 4) ∷ (0, 5) ∷ [])
        (Bin op.Add (Get (record { area = 0; start = pos 0; strides = (0, pos 5) ∷ (1, pos 1) ∷ [] }))
        (Get (record { area = 1; start = pos 0; strides = (0, pos 1) ∷ (1, pos 4) ∷ [] })))
        ≡ Then (Place 4 (pos 0)) (Then (Place 5 (pos 20)) (Then (Place 6 (pos 40)) (For 0 4
        (For 1 5 (Then (Read 2 0 4) (Then (Read 3 1 5) (Then (Two op.Add 2 2 3) (Then (Write 2 6 2)
        (Then (Walk 4 (pos 1)) (Then (Walk 5 (pos 4)) (Then (Walk 6 (pos 1)) End)))))))
        (Then (Walk 4 (negsuc 4)) (Then (Walk 5 (negsuc 19)) (Then (Walk 6 (negsuc 4))
        (Then (Walk 4 (pos 5)) (Then (Walk 5 (pos 1)) (Then (Walk 6 (pos 5)) End))))))) End))) }
{}

/// The nests of forms over whole arrays. A literal is set before the loops, and a place that has
/// no stride along a variable does not walk there.
pub fn whole_nests()
    ensures scaled { nest_of scaled_areas 2 (4 ∷ 5 ∷ []) ((0, 4) ∷ (0, 5) ∷ []) scaled_form ≡ scaled_nest }
    ensures outer { nest_of outer_areas 2 (4 ∷ 5 ∷ []) ((0, 4) ∷ (0, 5) ∷ []) outer_form ≡ outer_nest }
    ensures permuted { nest_of permuted_areas 1 (4 ∷ 2 ∷ 3 ∷ []) ((0, 4) ∷ (0, 2) ∷ (0, 3) ∷ []) permuted_form ≡ permuted_nest }
    ensures reversed { nest_of reversed_areas 1 (2 ∷ []) ((0, 2) ∷ []) reversed_form ≡ reversed_nest }
    ensures counted { nest_of counted_areas 0 (6 ∷ []) ((0, 6) ∷ []) counted_form ≡ counted_nest }
    ensures scalar { nest_of scalar_areas 2 [] [] scalar_form ≡ scalar_nest }
{}

/// On a part of an array the places begin at its first element, and an axis of which it has one
/// element has no loop.
pub fn nests_of_parts()
    ensures part { nest_of part_areas 1 (5 ∷ []) ((1, 3) ∷ []) part_form ≡ part_nest }
    ensures row { nest_of row_areas 1 (2 ∷ 4 ∷ []) ((1, 2) ∷ (1, 4) ∷ []) row_form ≡ row_nest }
{}

/// The outer product of 1 2 3 4 and 10 20 30 40 50: the inner vector is read once for each element
/// of the outer one.
pub fn multiplies_each_by_each()
    ensures words { (run outer_nest (fresh outer_words)).words
        ≡ pos 1 ∷ pos 2 ∷ pos 3 ∷ pos 4 ∷ pos 10 ∷ pos 20 ∷ pos 30 ∷ pos 40 ∷ pos 50
        ∷ pos 10 ∷ pos 20 ∷ pos 30 ∷ pos 40 ∷ pos 50 ∷ pos 20 ∷ pos 40 ∷ pos 60 ∷ pos 80 ∷ pos 100
        ∷ pos 30 ∷ pos 60 ∷ pos 90 ∷ pos 120 ∷ pos 150 ∷ pos 40 ∷ pos 80 ∷ pos 120 ∷ pos 160 ∷ pos 200 ∷ [] }
    ensures accesses { length (run outer_nest (fresh outer_words)).trace ≡ 60 }
    ensures inside { IsDefined outer_areas (run outer_nest (fresh outer_words)) }
    ensures nothing_needed { (key : Key) → needed outer_nest none key ≡ false }
{
    tests_show_what_is_inside();
}

/// Axis 2 becomes the outermost one, over the words 0 to 23: the place of the array walks by 1
/// there, by 12 in the loop within, and by 4 in the innermost one.
pub fn permutes_axes()
    ensures words { drop 24 (run permuted_nest (fresh permuted_words)).words
        ≡ map pos (0 ∷ 4 ∷ 8 ∷ 12 ∷ 16 ∷ 20 ∷ 1 ∷ 5 ∷ 9 ∷ 13 ∷ 17 ∷ 21 ∷ 2 ∷ 6 ∷ 10 ∷ 14 ∷ 18 ∷ 22 ∷ 3 ∷ 7 ∷ 11 ∷ 15 ∷ 19 ∷ 23 ∷ []) }
    ensures accesses { length (run permuted_nest (fresh permuted_words)).trace ≡ 48 }
    ensures inside { IsDefined permuted_areas (run permuted_nest (fresh permuted_words)) }
    ensures nothing_needed { (key : Key) → needed permuted_nest none key ≡ false }
{
    tests_show_what_is_inside();
}

/// On a part of a reversed vector and its indices: the elements 1 and 2 are 40 + 1 and 30 + 2, and
/// no other one changes.
pub fn adds_on_a_part()
    ensures words { (run part_nest (fresh part_words)).words
        ≡ pos 10 ∷ pos 20 ∷ pos 30 ∷ pos 40 ∷ pos 50 ∷ pos 7 ∷ pos 41 ∷ pos 32 ∷ pos 7 ∷ pos 7 ∷ [] }
    ensures trace { (run part_nest (fresh part_words)).trace
        ≡ WritesWord 1 (pos 7) ∷ ReadsWord 0 (pos 2) ∷ WritesWord 1 (pos 6) ∷ ReadsWord 0 (pos 3) ∷ [] }
    ensures inside { IsDefined part_areas (run part_nest (fresh part_words)) }
    ensures nothing_needed { (key : Key) → needed part_nest none key ≡ false }
{
    tests_show_what_is_inside();
}

/// The end of a reversed vector, numbers of indices, a sum of scalars, and a part of a row. What
/// registers and places hold before is never needed.
pub fn runs_of_small_nests()
    ensures reversed { (run reversed_nest (fresh (pos 10 ∷ pos 20 ∷ pos 30 ∷ pos 40 ∷ pos 7 ∷ pos 7 ∷ []))).words
        ≡ pos 10 ∷ pos 20 ∷ pos 30 ∷ pos 40 ∷ pos 20 ∷ pos 10 ∷ [] }
    ensures counted { (run counted_nest (fresh (pos 7 ∷ pos 7 ∷ pos 7 ∷ pos 7 ∷ pos 7 ∷ pos 7 ∷ []))).words
        ≡ pos 1 ∷ pos 3 ∷ pos 5 ∷ pos 7 ∷ pos 9 ∷ pos 11 ∷ [] }
    ensures scalar { (run scalar_nest (fresh (pos 10 ∷ pos 20 ∷ pos 7 ∷ []))).words ≡ pos 10 ∷ pos 20 ∷ pos 30 ∷ [] }
    ensures row { (run row_nest (fresh row_words)).words
        ≡ map pos (10 ∷ 20 ∷ 30 ∷ 40 ∷ 50 ∷ 60 ∷ 70 ∷ 80 ∷ 7 ∷ 7 ∷ 7 ∷ 7 ∷ 7 ∷ 61 ∷ 72 ∷ 83 ∷ []) }
    ensures nothing_needed { (key : Key) → (needed reversed_nest none key ≡ false) × (needed counted_nest none key ≡ false)
        × (needed scalar_nest none key ≡ false) × (needed row_nest none key ≡ false) }
{}

/// The sum of two vectors of 4096 elements: three places are set, at 9 each, and a loop costs 9
/// itself. Each turn costs 9 for the loop again, 8 for each of two reads, the sum and the write,
/// and 9 for each of three walks.
pub fn costs()
    ensures lines { cost near long_nest ≡ 3 * 9 + 9 + (4 * 8 + 3 * 9) }
    ensures instructions { time near long_nest ≡ 3 * 9 + 9 + 4096 * (9 + (4 * 8 + 3 * 9)) }
    ensures in_numbers { (cost near long_nest ≡ 95) × (time near long_nest ≡ 278564) }
{}

/// An access is reached where its place is one of its area.
pub fn accesses_are_reached()
    ensures first { IsReachedWithin part_areas (4 ∷ []) (record { area = 0; start = pos 4; strides = (0, negsuc 0) ∷ [] }) }
    ensures last { IsReachedWithin part_areas (0 ∷ []) (record { area = 0; start = pos 4; strides = (0, negsuc 0) ∷ [] }) }
    ensures before { IsReachedWithin part_areas (5 ∷ []) (record { area = 0; start = pos 4; strides = (0, negsuc 0) ∷ [] }) → ⊥ }
    ensures behind { IsReachedWithin part_areas (0 ∷ []) (record { area = 0; start = pos 5; strides = (0, negsuc 0) ∷ [] }) → ⊥ }
    ensures no_area { IsReachedWithin part_areas (0 ∷ []) (record { area = 2; start = pos 0; strides = [] }) → ⊥ }
{}

/// A nest is built of a straight form of an area of that shape, on a part of it that has elements,
/// over variables of the job, which reads other areas.
pub fn forms_are_buildable()
    ensures part { IsBuildable part_areas 1 (5 ∷ []) ((1, 3) ∷ []) part_form }
    ensures own { IsBuildable part_areas 1 (5 ∷ []) ((1, 3) ∷ []) (element 1 (pos 0) ((0, pos 1) ∷ [])) → ⊥ }
    ensures fold { IsBuildable part_areas 1 (5 ∷ []) ((1, 3) ∷ []) (Fold op.Add 1 0 3 (Lit (pos 7))) → ⊥ }
    ensures other_shape { IsBuildable part_areas 1 (4 ∷ []) ((1, 3) ∷ []) part_form → ⊥ }
    ensures no_element { IsBuildable part_areas 1 (5 ∷ []) ((1, 1) ∷ []) part_form → ⊥ }
    ensures large_region { IsBuildable part_areas 1 (5 ∷ []) ((1, 6) ∷ []) part_form → ⊥ }
    ensures other_variable { IsBuildable part_areas 1 (5 ∷ []) ((1, 3) ∷ []) (Index (variable 1)) → ⊥ }
    ensures no_area { IsBuildable part_areas 2 (5 ∷ []) ((1, 3) ∷ []) part_form → ⊥ }
    ensures outside { IsBuildable part_areas 1 (5 ∷ []) ((1, 3) ∷ []) (element 0 (pos 3) ((0, pos 1) ∷ [])) → ⊥ }
{}

/// Areas hold the words from their begins on. Each has to end within the words, and apart from the
/// others.
pub fn areas_in_words()
    ensures stored { (store_of part_areas part_words 0 2 ≡ pos 30) × (store_of part_areas part_words 1 2 ≡ pos 7) }
    ensures laid_out { AreLaidOut part_areas 10 }
    ensures short { AreLaidOut part_areas 9 → ⊥ }
    ensures together { AreLaidOut (input (codes "A") (5 ∷ []) 0 ∷ input (codes "B") (2 ∷ []) 4 ∷ []) 10 → ⊥ }
{
    tests_show_what_is_inside();
}

/// The accesses behind those that were made before are inside, and those before stay.
pub fn accesses_are_added()
    ensures inside { AddsInside part_areas (ReadsWord 0 (pos 9) ∷ []) (WritesWord 1 (pos 6) ∷ ReadsWord 0 (pos 9) ∷ []) }
    ensures outside { AddsInside part_areas [] (ReadsWord 0 (pos 9) ∷ []) → ⊥ }
    ensures lost { AddsInside part_areas (ReadsWord 0 (pos 1) ∷ []) [] → ⊥ }
{
    tests_show_what_is_inside();
}

/// On the elements 1 and 2 the job's values are 41 and 32. A nest that changes another word, or one
/// of these not, does not give them.
pub fn values_are_given()
    ensures nest { Gives part_areas 1 (5 ∷ []) ((1, 3) ∷ []) part_form part_words (run part_nest (fresh part_words)).words }
    ensures nothing_done { Gives part_areas 1 (5 ∷ []) ((1, 3) ∷ []) part_form part_words part_words → ⊥ }
    ensures one_more { Gives part_areas 1 (5 ∷ []) ((1, 3) ∷ []) part_form part_words
        (map pos (10 ∷ 20 ∷ 30 ∷ 40 ∷ 50 ∷ 50 ∷ 41 ∷ 32 ∷ 7 ∷ 7 ∷ [])) → ⊥ }
    ensures one_longer { Gives part_areas 1 (5 ∷ []) ((1, 3) ∷ []) part_form part_words
        (map pos (10 ∷ 20 ∷ 30 ∷ 40 ∷ 50 ∷ 7 ∷ 41 ∷ 32 ∷ 7 ∷ 7 ∷ 0 ∷ [])) → ⊥ }
{}
