// Worked examples of runs on arrays, computed: no body runs.
#![tactic(auto, unfolding(crate::specs::Examples::ran_lines))]

ghost use Rattle.std.specs.Prelude.{◌≡◌, [], ◌∷◌, ◌++◌, ℕ, ℤ, List, codes, negsuc, pos, replicate};
ghost use Rattle.shapes_core.specs.declared.area.Area.{Area};
ghost use Rattle.rv_line.specs.Parts.{Parts};
ghost use Rattle.rv_line.specs.Spells.{Spells};
ghost use Rattle.rv_line.specs.declared.line.Line.{Line};
ghost use Rattle.rv_line.specs.declared.line.Store.{Store};
ghost use Rattle.rv_steps.specs.Good.{input_values, output_values};
ghost use Rattle.rv_steps.specs.GoodText.{IsGood};
ghost use Rattle.rv_steps.specs.Machine.{BadAccess, OffText as OffTextStop, Trap as TrapStop};
ghost use Rattle.rv_steps.specs.Stops.{Budget, Done, Stopped};
ghost use Rattle.array_run.specs.Examples.{copy_areas, copy_lines, five_area_program, five_areas, numbered_block, ran_lines};
ghost use Rattle.array_run.specs.Ran.{Access, OffText, Prints, Refused, Says, Spent, Trap, ended, printed_all, printed_outputs};
ghost use Rattle.array_run.specs.declared.error.RunError.{RunError};
ghost use Rattle.array_run.specs.Starts.{inputs, outputs, start, start_block, start_registers};

/// The arrays that a program takes and gives.
pub fn arrays_are_listed()
    ensures inputs { inputs five_areas
        ≡ record { name = codes "A"; shape = 2 ∷ [] }
        ∷ record { name = codes "B"; shape = [] } ∷ [] }
    ensures outputs { outputs five_areas
        ≡ record { name = codes "R"; shape = [] }
        ∷ record { name = codes "S"; shape = 1 ∷ 3 ∷ [] } ∷ [] }
{}

/// Where a run starts: the block behind its spill words, and the registers.
pub fn runs_start()
    ensures block { start_block 2 five_areas ((pos 258 ∷ negsuc 0 ∷ []) ∷ (pos 7 ∷ []) ∷ [])
        ≡ replicate 16 0 ++ (2 ∷ 1 ∷ replicate 6 0) ++ replicate 8 255 ++ (7 ∷ replicate 79 0) }
    ensures registers { start_registers 3
        ≡ (0 ∷ 65548 ∷ replicate 8 0) ++ (4294967296 ∷ replicate 21 0) }
    ensures first { (start five_area_program []).pc ≡ 65536 }
    ensures end { (start five_area_program []).registers ≡ start_registers 3 }
    ensures spill { (start five_area_program []).block ≡ replicate 80 0 }
{}

/// The outputs alone are printed, each from its own words.
pub fn outputs_are_printed()
    ensures two { printed_outputs 1 five_areas numbered_block
        ≡ codes "array R\n5\narray S 1 3\n6 -7 8\n" }
    ensures shifted { printed_outputs 0 five_areas numbered_block
        ≡ codes "array R\n3\narray S 1 3\n5 6 -7\n" }
    ensures all { printed_all (outputs five_areas)
        ((pos 5 ∷ []) ∷ (pos 6 ∷ negsuc 6 ∷ pos 8 ∷ []) ∷ [])
        ≡ printed_outputs 1 five_areas numbered_block }
{}

/// The values of the inputs and of the outputs of a block. A scan is neither.
pub fn areas_are_told_apart()
    ensures inputs { input_values five_area_program.header five_areas numbered_block
        ≡ (pos 1 ∷ pos 2 ∷ []) ∷ (pos 3 ∷ []) ∷ [] }
    ensures outputs { output_values five_area_program.header five_areas numbered_block
        ≡ (pos 5 ∷ []) ∷ (pos 6 ∷ negsuc 6 ∷ pos 8 ∷ []) ∷ [] }
{}

/// A text is good for the areas of the one program that it spells, and for no others.
pub fn good_texts_have_their_areas()
    ensures spelled { (text : List ℕ) (areas : List Area) (demand : List (List ℤ) → List (List ℤ)) (made : Parts)
        → IsGood text areas demand → Spells text made → made.areas ≡ areas }
    ensures other_areas { (text : List ℕ) (demand : List (List ℤ) → List (List ℤ)) (made : Parts)
        → IsGood text copy_areas demand → Spells text made → made.areas ≡ five_areas → ⊥ }
{}

/// Each end: what is printed, or the line of the text where the run stopped.
pub fn ends_are_told()
    ensures done { ended five_area_program (Done 3) numbered_block
        ≡ Prints (codes "array R\n5\narray S 1 3\n6 -7 8\n") }
    ensures access { ended five_area_program (Stopped (BadAccess 1 4294967303)) []
        ≡ Access 8 4294967303 }
    ensures text { ended five_area_program (Stopped (OffTextStop 2)) [] ≡ OffText 2 }
    ensures trap { ended five_area_program (Stopped (TrapStop 2)) [] ≡ Trap 9 }
    ensures budget { ended five_area_program Budget [] ≡ Spent 4 }
{}

/// Whole runs on a file.
pub fn files_are_run()
    ensures copied { ran_lines copy_lines 3 (codes "array A\n-5\n")
        ≡ Prints (codes "array C\n-5\n") }
    ensures spent { ran_lines copy_lines 2 (codes "array A\n-5\n") ≡ Spent 2 }
    ensures refused { ran_lines copy_lines 3 (codes "\narray C\n5\n") ≡ Refused 2 5 }
    ensures trap { ran_lines (Line.Fence ∷ Line.Ecall ∷ []) 3 (codes "array A\n-5\n") ≡ Trap 9 }
    ensures access { ran_lines (Line.Store Store.Sd 0 (pos 24) 10 ∷ []) 3 (codes "array A\n-5\n")
        ≡ Access 7 4294967320 }
    ensures away { ran_lines (Line.Jalr 0 (pos 4) 1 ∷ []) 3 (codes "array A\n-5\n")
        ≡ OffText 65544 }
{}

/// An error says what became of a run, and not what did not.
pub fn errors_say_what_became()
    ensures data { Says (RunError.Data 3 7) (Refused 3 7)
        × (Says (RunError.Data 3 7) (Refused 7 3) → ⊥) }
    ensures access { Says (RunError.Access 8 1) (Access 8 1)
        × (Says (RunError.Access 8 1) (Access 8 2) → ⊥) }
    ensures text { Says (RunError.OffText 8) (OffText 8)
        × (Says (RunError.OffText 8) (Trap 8) → ⊥) }
    ensures trap { Says (RunError.Trap 8) (Trap 8) × (Says (RunError.Trap 8) (Spent 8) → ⊥) }
    ensures budget { Says (RunError.Budget 8) (Spent 8) × (Says (RunError.Budget 8) (Spent 9) → ⊥) }
    ensures memory { Says RunError.Memory (Spent 8) }
{}
