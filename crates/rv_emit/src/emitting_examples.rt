// The lines of nests, computed.
#![tactic(auto, unfolding(rv_steps::specs::Constants::shifted_lines))]

ghost use Rattle.loop_ir.specs.NestExamples.{sum_body, sum_tree};
ghost use Rattle.loop_ir.specs.Running.{Pointer, Register};
ghost use Rattle.loop_ir.specs.Steps.{Copy, End, For, If, Read, Set, Then, Two, Walk, Write};
ghost use Rattle.moa_tree.specs.declared.operator.Op.TheVariants as op;
ghost use Rattle.register_map.specs.declared.home.Home.TheVariants as home;
ghost use Rattle.rv_emit.specs.Counting.{counts_down};
ghost use Rattle.rv_emit.specs.EmitExamples.{spilled_homes, sum_homes, sum_nests};
ghost use Rattle.rv_emit.specs.Emitting.{Plan, action_lines, emitted, owed_by, plan_of, program};
ghost use Rattle.rv_emit.specs.Pricing.{is_base_op};
ghost use Rattle.rv_emit.specs.Simulating.{is_steady_op};
ghost use Rattle.rv_line.specs.declared.line.Branch.{Branch};
ghost use Rattle.rv_line.specs.declared.line.Imm.{Imm};
ghost use Rattle.rv_line.specs.declared.line.Line.{Line};
ghost use Rattle.rv_line.specs.declared.line.Load.{Load};
ghost use Rattle.rv_line.specs.declared.line.Store.{Store};
ghost use Rattle.rv_line.specs.declared.line.Three.{Three};
ghost use Rattle.std.specs.Prelude.{[], false, length, negsuc, pos, true, ◌*◌, ◌+◌, ◌++◌, ◌∷◌, ◌≡◌};

/// The loop of the sum of two vectors of three elements: nine lines a turn, and its counter counts
/// down.
pub fn sums_are_emitted()
    ensures lines { (emitted (plan_of 0 (sum_tree, sum_homes)) [] (For 0 3 sum_body End) 6).lines
        ≡ Line.Imm Imm.Addi 5 0 (pos 3)
        ∷ Line.Load Load.Ld 6 (pos 0) 11 ∷ Line.Load Load.Ld 7 (pos 0) 12
        ∷ Line.Three Three.Add 6 6 7 ∷ Line.Store Store.Sd 6 (pos 0) 13
        ∷ Line.Imm Imm.Addi 11 11 (pos 8) ∷ Line.Imm Imm.Addi 12 12 (pos 8)
        ∷ Line.Imm Imm.Addi 13 13 (pos 8)
        ∷ Line.Imm Imm.Addi 5 5 (negsuc 0) ∷ Line.Branch Branch.Bne 5 0 7 ∷ [] }
    ensures steps { (emitted (plan_of 0 (sum_tree, sum_homes)) [] (For 0 3 sum_body End) 6).steps
        ≡ 1 + 3 * 9 }
{}

/// A counter that is read counts up, and is compared with the turns.
pub fn counters_count()
    ensures down { counts_down sum_tree (Register 0) ≡ true }
    ensures up { (emitted (plan_of 0 (For 0 3 (Then (Copy 1 0) End) End, sum_homes)) []
        (For 0 3 (Then (Copy 1 0) End) End) 4).lines
        ≡ Line.Imm Imm.Addi 5 0 (pos 0) ∷ Line.Imm Imm.Addi 6 5 (pos 0)
        ∷ Line.Imm Imm.Addi 5 5 (pos 1) ∷ Line.Imm Imm.Addi 31 0 (pos 3)
        ∷ Line.Branch Branch.Bne 5 31 5 ∷ [] }
    ensures no_turn { (emitted (plan_of 0 (For 0 0 (Then (Copy 1 0) End) End, sum_homes)) []
        (For 0 0 (Then (Copy 1 0) End) End) 4).lines
        ≡ Line.Imm Imm.Addi 5 0 (pos 0) ∷ [] }
{}

/// Products, quotients and remainders are of the M extension; and the minimum and the maximum take
/// more steps of some numbers than of others.
pub fn operators_are_told_apart()
    ensures product { is_base_op op.Mul ≡ false }
    ensures quotient { is_base_op op.Quot ≡ false }
    ensures remainder { is_base_op op.Rem ≡ false }
    ensures sum { is_base_op op.Add ≡ true }
    ensures difference { is_base_op op.Sub ≡ true }
    ensures least_is_base { is_base_op op.Min ≡ true }
    ensures least { is_steady_op op.Min ≡ false }
    ensures greatest { is_steady_op op.Max ≡ false }
    ensures less { is_steady_op op.Lt ≡ true }
    ensures at_most { is_steady_op op.Le ≡ true }
    ensures product_is_steady { is_steady_op op.Mul ≡ true }
{}

/// A walk is made where the number is wanted: as an offset, or else as a step of its own; and a
/// choice is a branch over a jump.
pub fn walks_wait()
    ensures offset { (emitted (plan_of 0 (End, sum_homes)) []
        (Then (Walk 3 (pos 1)) (Then (Read 1 0 3) End)) 0).lines
        ≡ Line.Load Load.Ld 6 (pos 8) 11 ∷ [] }
    ensures beyond { (emitted (plan_of 0 (End, sum_homes)) []
        (Then (Walk 3 (pos 255)) (Then (Walk 3 (pos 1)) (Then (Read 1 0 3) End))) 0).lines
        ≡ Line.Lui 31 1 ∷ Line.Imm Imm.Addiw 31 31 (negsuc 2047) ∷ Line.Three Three.Add 11 11 31
        ∷ Line.Load Load.Ld 6 (pos 0) 11 ∷ [] }
    ensures spilled { (emitted (plan_of 301 (End, spilled_homes)) []
        (Then (Walk 3 (pos 1)) (Then (Read 1 0 3) End)) 0).lines
        ≡ Line.Lui 31 1 ∷ Line.Imm Imm.Addiw 31 31 (negsuc 1695) ∷ Line.Three Three.Add 31 31 10
        ∷ Line.Load Load.Ld 30 (pos 0) 31
        ∷ Line.Load Load.Ld 30 (pos 8) 30 ∷ Line.Store Store.Sd 30 (pos 24) 10 ∷ [] }
    ensures choice { (emitted (plan_of 0 (End, sum_homes)) []
        (If 1 (pos 4) (Then (Set 2 (pos 7)) End) (Then (Walk 3 (pos 1)) End)
        (Then (Copy 1 2) End)) 10).lines
        ≡ Line.Imm Imm.Addi 29 0 (pos 4) ∷ Line.Branch Branch.Blt 6 29 13 ∷ Line.Jal 0 15
        ∷ Line.Imm Imm.Addi 7 0 (pos 7) ∷ Line.Jal 0 16
        ∷ Line.Imm Imm.Addi 11 11 (pos 8) ∷ Line.Imm Imm.Addi 6 7 (pos 0) ∷ [] }
{}
