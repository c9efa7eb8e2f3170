// Worked examples of loads and stores, computed. The block is at 4294967296.
#![tactic(auto, unfolding(crate::specs::MachineExamples::accesses_after))]

ghost use Rattle.rv_steps.specs.Frames.{Spares};
ghost use Rattle.rv_steps.specs.Machine.{Loads, Stores};
ghost use Rattle.rv_steps.specs.MachineExamples.{accesses_after};
ghost use Rattle.rv_steps.specs.Registers.{is_among};
ghost use Rattle.rv_line.specs.declared.line.Imm.{Imm};
ghost use Rattle.rv_line.specs.declared.line.Line.{Line};
ghost use Rattle.rv_line.specs.declared.line.Load.{Load};
ghost use Rattle.rv_line.specs.declared.line.Store.{Store};
ghost use Rattle.std.specs.Prelude.{[], false, pos, true, ◌∷◌, ◌≡◌};

/// The loads and stores of a run stand in the order of its steps, and a step that is not made has none.
pub fn accesses_are_listed()
    ensures both { accesses_after (Line.Load Load.Lw 5 (pos 4) 10 ∷ Line.Fence ∷ Line.Store Store.Sb 5 (pos 1) 10 ∷ []) 3
        ≡ Loads 4294967300 4 ∷ Stores 4294967297 1 ∷ [] }
    ensures fewer { accesses_after (Line.Load Load.Ld 5 (pos 0) 10 ∷ Line.Store Store.Sd 5 (pos 0) 10 ∷ []) 1
        ≡ Loads 4294967296 8 ∷ [] }
    ensures ended { accesses_after (Line.Store Store.Sd 5 (pos 0) 10 ∷ []) 9 ≡ Stores 4294967296 8 ∷ [] }
    ensures stopped { accesses_after (Line.Store Store.Sd 5 (pos 8) 10 ∷ []) 1 ≡ [] }
    ensures none { accesses_after (Line.Imm Imm.Addi 5 5 (pos 1) ∷ []) 1 ≡ [] }
{}

/// A store spares the bytes on both sides of it, and a load all.
pub fn spared_bytes()
    ensures before { Spares 4294967296 7 (Stores 4294967304 8) }
    ensures behind { Spares 4294967296 16 (Stores 4294967304 8) }
    ensures load { Spares 4294967296 8 (Loads 4294967304 8) }
    ensures among { (is_among 6 (5 ∷ 6 ∷ []) ≡ true) × (is_among 7 (5 ∷ 6 ∷ []) ≡ false) }
{}
