// Worked examples of what a text is good for: what is accepted, and near misses that are not. The functions do
// nothing: their clauses are the examples.

ghost use Rattle.rv_line.specs.declared.line.Branch.{Branch};
ghost use Rattle.rv_line.specs.declared.line.Imm.{Imm};
ghost use Rattle.rv_line.specs.declared.line.Line.{Line};
ghost use Rattle.rv_line.specs.declared.line.Load.{Load};
ghost use Rattle.rv_line.specs.declared.line.Store.{Store};
ghost use Rattle.rv_line.specs.declared.line.Three.{Three};
ghost use Rattle.rv_steps.specs.Good.{IsStart, Serves, is_fine_load, is_fine_store, is_kept, is_within};
ghost use Rattle.rv_steps.specs.GoodExamples.{copied, copy_areas, copy_lines, header_of, multiplications, others, start_at};
ghost use Rattle.rv_steps.specs.Kinds.{is_base, is_free, is_multiplication, written};
ghost use Rattle.rv_steps.specs.Machine.{Config};
ghost use Rattle.std.specs.List.{list_all, list_any, range_with_len};
ghost use Rattle.std.specs.Prelude.{Bool, List, [], false, pos, true, ℕ, ◌*◌, ◌+◌, ◌-◌, ◌^◌, ◌∷◌, ◌≡◌};

/// The registers that are given back, and those that may change.
pub fn kept_registers_are_listed()
    ensures first { list_all is_kept (1 ∷ 2 ∷ 3 ∷ 4 ∷ 8 ∷ 9 ∷ 10 ∷ []) ≡ true }
    ensures saved { list_all is_kept (range_with_len 18 10) ≡ true }
    ensures zero { is_kept 0 ≡ false }
    ensures temporaries { list_any is_kept (5 ∷ 6 ∷ 7 ∷ 28 ∷ 29 ∷ 30 ∷ 31 ∷ []) ≡ false }
    ensures arguments { list_any is_kept (range_with_len 11 7) ≡ false }
    ensures none { list_any is_kept (range_with_len 32 32) ≡ false }
{}

/// Bytes lie in the words 3 and 4 of the block, from the first byte of the one to the last of the other.
pub fn bytes_lie_within()
    ensures whole { is_within 4096 3 2 4120 16 ≡ true }
    ensures first { is_within 4096 3 2 4120 1 ≡ true }
    ensures last { is_within 4096 3 2 4135 1 ≡ true }
    ensures before { is_within 4096 3 2 4119 1 ≡ false }
    ensures from_before { is_within 4096 3 2 4119 2 ≡ false }
    ensures behind { is_within 4096 3 2 4136 1 ≡ false }
    ensures to_behind { is_within 4096 3 2 4135 2 ≡ false }
{}

/// Where a program may load and store: the spill words, its input and its output, which are the three words of the
/// block at 4096, aligned, and an input is not stored to.
pub fn accesses_are_fine()
    ensures load_spill { is_fine_load (header_of 2) copy_areas 4096 4096 8 ≡ true }
    ensures load_input { is_fine_load (header_of 2) copy_areas 4096 4104 8 ≡ true }
    ensures load_output { is_fine_load (header_of 2) copy_areas 4096 4112 8 ≡ true }
    ensures load_before { is_fine_load (header_of 2) copy_areas 4096 4088 8 ≡ false }
    ensures load_behind { is_fine_load (header_of 2) copy_areas 4096 4120 8 ≡ false }
    ensures load_half { is_fine_load (header_of 2) copy_areas 4096 4108 4 ≡ true }
    ensures load_misaligned { is_fine_load (header_of 2) copy_areas 4096 4106 4 ≡ false }
    ensures store_spill { is_fine_store (header_of 2) copy_areas 4096 4096 8 ≡ true }
    ensures store_input { is_fine_store (header_of 2) copy_areas 4096 4104 8 ≡ false }
    ensures store_output { is_fine_store (header_of 2) copy_areas 4096 4112 8 ≡ true }
    ensures store_before { is_fine_store (header_of 2) copy_areas 4096 4088 8 ≡ false }
    ensures store_behind { is_fine_store (header_of 2) copy_areas 4096 4120 8 ≡ false }
    ensures store_half { is_fine_store (header_of 2) copy_areas 4096 4116 4 ≡ true }
    ensures store_misaligned { is_fine_store (header_of 2) copy_areas 4096 4114 4 ≡ false }
{}

/// A block may end where addresses do, and no later.
pub fn blocks_have_room()
    ensures last { IsStart (header_of 2) copy_areas (copy_lines 5) (2 ^ 64 - 24) (start_at (2 ^ 64 - 24)) }
    ensures beyond { (c : Config) → IsStart (header_of 2) copy_areas (copy_lines 5) (2 ^ 64 - 16) c → ⊥ }
{}

/// A copy in two steps serves its caller, where two are printed and not where one is, and where it goes through a
/// register that may change.
pub fn copies_serve()
    ensures serves { Serves (header_of 2) copy_areas (copy_lines 5) copied 4096 (start_at 4096) }
    ensures steps { Serves (header_of 1) copy_areas (copy_lines 5) copied 4096 (start_at 4096) → ⊥ }
    ensures saved { Serves (header_of 2) copy_areas (copy_lines 18) copied 4096 (start_at 4096) → ⊥ }
{}

/// The register that each form writes.
pub fn forms_write()
    ensures three { written (Line.Three Three.Add 5 6 7) ≡ 5 }
    ensures imm { written (Line.Imm Imm.Addi 5 6 (pos 7)) ≡ 5 }
    ensures load { written (Line.Load Load.Ld 5 (pos 8) 10) ≡ 5 }
    ensures store { written (Line.Store Store.Sd 5 (pos 8) 10) ≡ 0 }
    ensures branch { written (Line.Branch Branch.Beq 5 6 7) ≡ 0 }
    ensures lui { written (Line.Lui 5 7) ≡ 5 }
    ensures auipc { written (Line.Auipc 5 7) ≡ 5 }
    ensures jal { written (Line.Jal 5 7) ≡ 5 }
    ensures jalr { written (Line.Jalr 5 (pos 8) 1) ≡ 5 }
    ensures fence { written Line.Fence ≡ 0 }
    ensures ecall { written Line.Ecall ≡ 0 }
    ensures ebreak { written Line.Ebreak ≡ 0 }
{}

/// The base instruction set has all forms, and of those with three registers the mnemonics that are none of the M
/// extension.
pub fn forms_are_base()
    ensures multiplications { list_all is_multiplication multiplications ≡ true }
    ensures others { list_any is_multiplication others ≡ false }
    ensures lines_of_multiplications { list_any (λ code. is_base (Line.Three code 5 6 7)) multiplications ≡ false }
    ensures lines_of_others { list_all (λ code. is_base (Line.Three code 5 6 7)) others ≡ true }
    ensures forms { list_all is_base (Line.Imm Imm.Addi 5 6 (pos 7) ∷ Line.Load Load.Ld 5 (pos 8) 10
        ∷ Line.Store Store.Sd 5 (pos 8) 10 ∷ Line.Branch Branch.Beq 5 6 7 ∷ Line.Lui 5 7
        ∷ Line.Auipc 5 7 ∷ Line.Jal 5 7 ∷ Line.Jalr 5 (pos 8) 1 ∷ Line.Fence
        ∷ Line.Ecall ∷ Line.Ebreak ∷ []) ≡ true }
{}

/// A line is free where the register that it writes is one of 32 and may change.
pub fn free_lines_are_listed()
    ensures first { list_any (λ to. is_free (Line.Lui to 7)) (1 ∷ 2 ∷ 3 ∷ 4 ∷ 8 ∷ 9 ∷ 10 ∷ []) ≡ false }
    ensures saved { list_any (λ to. is_free (Line.Lui to 7)) (range_with_len 18 10) ≡ false }
    ensures zero { is_free (Line.Lui 0 7) ≡ true }
    ensures temporaries { list_all (λ to. is_free (Line.Lui to 7)) (5 ∷ 6 ∷ 7 ∷ 28 ∷ 29 ∷ 30 ∷ 31 ∷ []) ≡ true }
    ensures arguments { list_all (λ to. is_free (Line.Lui to 7)) (range_with_len 11 7) ≡ true }
    ensures none { list_any (λ to. is_free (Line.Lui to 7)) (range_with_len 32 32) ≡ false }
    ensures store { is_free (Line.Store Store.Sd 18 (pos 8) 10) ≡ true }
    ensures load { is_free (Line.Load Load.Ld 18 (pos 8) 10) ≡ false }
{}
