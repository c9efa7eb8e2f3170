// Worked examples of the machine, computed.
#![tactic(auto, unfolding(crate::specs::MachineExamples::outcome_of))]

ghost use Rattle.rv_steps.specs.MachineExamples.{bytes_after, end_of, loaded_from, register_after};
ghost use Rattle.rv_steps.specs.Machine.{BadAccess, OffText, Trap, value_at, with_value};
ghost use Rattle.rv_steps.specs.Stops.{Budget, Done, Stopped};
ghost use Rattle.rv_line.specs.declared.line.Branch.{Branch};
ghost use Rattle.rv_line.specs.declared.line.Imm.{Imm};
ghost use Rattle.rv_line.specs.declared.line.Line.{Line};
ghost use Rattle.rv_line.specs.declared.line.Load.{Load};
ghost use Rattle.rv_line.specs.declared.line.Store.{Store};
ghost use Rattle.rv_line.specs.declared.line.Three.{Three};
ghost use Rattle.std.specs.Int.{w16, w32, w64, w8};
ghost use Rattle.std.specs.Prelude.{List, [], neg_ℤ, pos, ℕ, ◌+◌, ◌-◌, ◌^◌, ◌∷◌, ◌≡◌};

/// An access is aligned and lies in the block, here 8 bytes at 4294967296, or it stops the run.
pub fn accesses_are_tested()
    ensures word { end_of (Line.Store Store.Sw 5 (pos 4) 10 ∷ []) 4294967296 9 ≡ Done 1 }
    ensures byte { end_of (Line.Load Load.Lb 5 (pos 7) 10 ∷ []) 4294967296 9 ≡ Done 1 }
    ensures misaligned { end_of (Line.Store Store.Sd 5 (pos 1) 10 ∷ []) 4294967296 9
        ≡ Stopped (BadAccess 0 4294967297) }
    ensures misaligned_word { end_of (Line.Store Store.Sw 5 (pos 2) 10 ∷ []) 4294967296 9
        ≡ Stopped (BadAccess 0 4294967298) }
    ensures misaligned_half { end_of (Line.Load Load.Lhu 5 (pos 5) 10 ∷ []) 4294967296 9
        ≡ Stopped (BadAccess 0 4294967301) }
    ensures above { end_of (Line.Load Load.Lb 5 (pos 8) 10 ∷ []) 4294967296 9
        ≡ Stopped (BadAccess 0 4294967304) }
    ensures below { end_of (Line.Load Load.Ld 5 (neg_ℤ (pos 8)) 10 ∷ []) 4294967296 9
        ≡ Stopped (BadAccess 0 4294967288) }
{}

/// An address is a sum that wraps, and a stop names the line.
pub fn addresses_wrap()
    ensures far { end_of (Line.Lui 5 524288 ∷ Line.Load Load.Ld 6 (pos 0) 5 ∷ []) 4294967296 9
        ≡ Stopped (BadAccess 1 18446744071562067968) }
    ensures wrapped { end_of (Line.Store Store.Sd 5 (pos 8) 10 ∷ []) (2 ^ 64 - 8) 9
        ≡ Stopped (BadAccess 0 0) }
    ensures last { end_of (Line.Store Store.Sd 5 (pos 0) 10 ∷ []) (2 ^ 64 - 8) 9 ≡ Done 1 }
{}

/// `jalr` clears bit 0 of its target, and the pc must then be the address of a line or the end address.
pub fn jumps_leave_the_text()
    ensures odd { end_of (Line.Jalr 0 (pos 1) 1 ∷ []) 4294967296 9 ≡ Done 1 }
    ensures between { end_of (Line.Jalr 0 (pos 2) 1 ∷ []) 4294967296 9 ≡ Stopped (OffText 65542) }
    ensures beyond { end_of (Line.Jalr 0 (pos 4) 1 ∷ []) 4294967296 9 ≡ Stopped (OffText 65544) }
    ensures before { end_of (Line.Jalr 0 (neg_ℤ (pos 8)) 1 ∷ []) 4294967296 9
        ≡ Stopped (OffText 65532) }
    ensures zero { end_of (Line.Jalr 0 (pos 0) 0 ∷ []) 4294967296 9 ≡ Stopped (OffText 0) }
{}

/// The end is tested before the budget, and the budget before the other tests.
pub fn tests_have_an_order()
    ensures empty { end_of [] 4294967296 0 ≡ Done 0 }
    ensures budget { end_of (Line.Fence ∷ []) 4294967296 0 ≡ Budget }
    ensures enough { end_of (Line.Fence ∷ []) 4294967296 1 ≡ Done 1 }
    ensures text { end_of (Line.Jalr 0 (pos 2) 1 ∷ []) 4294967296 1 ≡ Budget }
    ensures trap { (end_of (Line.Ecall ∷ []) 4294967296 0 ≡ Budget)
        × (end_of (Line.Ecall ∷ []) 4294967296 1 ≡ Stopped (Trap 0)) }
    ensures second { end_of (Line.Fence ∷ Line.Ebreak ∷ []) 4294967296 2 ≡ Stopped (Trap 1) }
    ensures access { end_of (Line.Load Load.Ld 5 (pos 8) 10 ∷ []) 4294967296 0 ≡ Budget }
    ensures endless { end_of (Line.Branch Branch.Beq 0 0 0 ∷ []) 4294967296 9 ≡ Budget }
{}

/// Jumps write the address of the line after them, which `jalr` does after it has read its target.
pub fn jumps_link()
    ensures jal { register_after (Line.Jal 5 2 ∷ Line.Ecall ∷ []) 5 ≡ 65540 }
    ensures jal_end { end_of (Line.Jal 5 2 ∷ Line.Ecall ∷ []) 4294967296 9 ≡ Done 1 }
    ensures jalr { register_after (Line.Jalr 1 (pos 0) 1 ∷ Line.Ecall ∷ []) 1 ≡ 65540 }
    ensures jalr_end { end_of (Line.Jalr 1 (pos 0) 1 ∷ Line.Ecall ∷ []) 4294967296 9 ≡ Done 1 }
    ensures auipc { register_after (Line.Fence ∷ Line.Auipc 5 1 ∷ []) 5 ≡ 69636 }
    ensures auipc_down { register_after (Line.Auipc 5 1048575 ∷ []) 5 ≡ 61440 }
{}

/// Register 0 is 0, and a loop of three turns is as long as it looks.
pub fn registers_hold_values()
    ensures dropped { register_after (Line.Imm Imm.Addi 0 0 (pos 5)
        ∷ Line.Three Three.Add 6 0 0 ∷ []) 6 ≡ 0 }
    ensures operands { register_after (Line.Imm Imm.Addi 5 0 (pos 3)
        ∷ Line.Imm Imm.Addi 6 0 (pos 5) ∷ Line.Three Three.Sub 7 5 6 ∷ []) 7
        ≡ 2 ^ 64 - 2 }
    ensures branch { end_of (Line.Imm Imm.Addi 5 0 (pos 3)
        ∷ Line.Imm Imm.Addi 5 5 (neg_ℤ (pos 1)) ∷ Line.Branch Branch.Bne 5 0 1 ∷ []) 4294967296 99
        ≡ Done 7 }
{}

/// Numbers lie in memory with the low byte first.
pub fn memory_is_little_endian()
    ensures read_byte { value_at w8 (128 ∷ 255 ∷ 0 ∷ 128 ∷ 1 ∷ 2 ∷ 3 ∷ 255 ∷ []) 1 ≡ 255 }
    ensures read_half { value_at w16 (128 ∷ 255 ∷ 0 ∷ 128 ∷ 1 ∷ 2 ∷ 3 ∷ 255 ∷ []) 0 ≡ 65408 }
    ensures read_word { value_at w32 (128 ∷ 255 ∷ 0 ∷ 128 ∷ 1 ∷ 2 ∷ 3 ∷ 255 ∷ []) 0 ≡ 2147549056 }
    ensures read_whole { value_at w64 (128 ∷ 255 ∷ 0 ∷ 128 ∷ 1 ∷ 2 ∷ 3 ∷ 255 ∷ []) 0 ≡ 18375533110067527552 }
    ensures write_half { with_value w16 (1 ∷ 2 ∷ 3 ∷ 4 ∷ []) 1 458010 ≡ 1 ∷ 26 ∷ 253 ∷ 4 ∷ [] }
{}

/// A store writes the low bits of a register, and a load reads them back.
pub fn stores_are_loaded()
    ensures sb { bytes_after (Line.Imm Imm.Addi 5 0 (neg_ℤ (pos 2))
        ∷ Line.Store Store.Sb 5 (pos 7) 10 ∷ [])
        ≡ 0 ∷ 0 ∷ 0 ∷ 0 ∷ 0 ∷ 0 ∷ 0 ∷ 254 ∷ [] }
    ensures sh { bytes_after (Line.Imm Imm.Addi 5 0 (neg_ℤ (pos 2))
        ∷ Line.Store Store.Sh 5 (pos 2) 10 ∷ [])
        ≡ 0 ∷ 0 ∷ 254 ∷ 255 ∷ 0 ∷ 0 ∷ 0 ∷ 0 ∷ [] }
    ensures sw { bytes_after (Line.Lui 5 524288 ∷ Line.Store Store.Sw 5 (pos 4) 10 ∷ [])
        ≡ 0 ∷ 0 ∷ 0 ∷ 0 ∷ 0 ∷ 0 ∷ 0 ∷ 128 ∷ [] }
    ensures sd { bytes_after (Line.Lui 5 524288 ∷ Line.Store Store.Sd 5 (pos 0) 10 ∷ [])
        ≡ 0 ∷ 0 ∷ 0 ∷ 128 ∷ 255 ∷ 255 ∷ 255 ∷ 255 ∷ [] }
    ensures signed { register_after (Line.Lui 5 524288
        ∷ Line.Store Store.Sd 5 (pos 0) 10 ∷ Line.Load Load.Lw 6 (pos 0) 10 ∷ []) 6
        ≡ 2 ^ 64 - 2 ^ 31 }
    ensures unsigned { register_after (Line.Lui 5 524288
        ∷ Line.Store Store.Sd 5 (pos 0) 10 ∷ Line.Load Load.Lwu 6 (pos 0) 10 ∷ []) 6
        ≡ 2 ^ 31 }
{}

/// Each load reads its own number of bytes, and extends them by the sign or by zeros.
pub fn loads_have_widths()
    ensures lb { loaded_from Load.Lb (pos 3) ≡ 2 ^ 64 - 113 }
    ensures lbu { loaded_from Load.Lbu (pos 3) ≡ 143 }
    ensures lh { loaded_from Load.Lh (pos 2) ≡ 2 ^ 64 - 28914 }
    ensures lhu { loaded_from Load.Lhu (pos 2) ≡ 36622 }
    ensures lw { loaded_from Load.Lw (pos 0) ≡ 2 ^ 64 - 1894903808 }
    ensures lwu { loaded_from Load.Lwu (pos 0) ≡ 2400063488 }
    ensures ld { loaded_from Load.Ld (pos 0) ≡ 2 ^ 64 - 1894903808 }
{}
