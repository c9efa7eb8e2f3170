// What the laws on accesses tell apart, in a block at address 1024 with two spill words.
ghost use Rattle.loop_ir.specs.Running.{ReadsWord, WritesWord};
ghost use Rattle.rv_emit.specs.Showing.{AreInOrder, IsTouch};
ghost use Rattle.rv_steps.specs.Machine.{Loads, Stores};
ghost use Rattle.std.specs.Prelude.{[], negsuc, pos, ◌∷◌};

/// Loads and stores of spill words may stand between those of a nest, whose accesses stand last one
/// first; the others come in their order, and each of them comes.
pub fn accesses_are_in_order()
    ensures between { AreInOrder 1024 2 (Loads 1024 8 ∷ Loads 1040 8 ∷ Stores 1048 8 ∷ [])
        (WritesWord 0 (pos 1) ∷ ReadsWord 0 (pos 0) ∷ []) }
    ensures turned { AreInOrder 1024 2 (Stores 1048 8 ∷ Loads 1040 8 ∷ [])
        (WritesWord 0 (pos 1) ∷ ReadsWord 0 (pos 0) ∷ []) → ⊥ }
    ensures lost { AreInOrder 1024 2 (Loads 1024 8 ∷ []) (ReadsWord 0 (pos 0) ∷ []) → ⊥ }
    ensures one_more { AreInOrder 1024 2 (Loads 1040 8 ∷ []) [] → ⊥ }
{}

/// Of three words the last has the number 2.
pub fn touches_are_of_words()
    ensures last { IsTouch 3 (ReadsWord 0 (pos 2)) }
    ensures behind { IsTouch 3 (ReadsWord 0 (pos 3)) → ⊥ }
    ensures before { IsTouch 3 (WritesWord 0 (negsuc 0)) → ⊥ }
{}
