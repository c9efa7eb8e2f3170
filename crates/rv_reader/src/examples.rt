// Texts that are refused, and texts that are not, worked out from the definition: no body runs.
ghost use Rattle.std.specs.Prelude.{◌≡◌, ◌++◌, pos, negsuc, List, [], ◌∷◌, codes, replicate, map};
ghost use Rattle.std.specs.declared.option.Option.TheVariants.{None, Some};
ghost use Rattle.std.specs.declared.result.Result.TheVariants.{Ok, Err};
ghost use Rattle.rv_line.specs.declared.line.Three.TheVariants as three;
ghost use Rattle.rv_line.specs.declared.line.Imm.TheVariants as imm;
ghost use Rattle.rv_line.specs.declared.line.Load.TheVariants as load;
ghost use Rattle.rv_line.specs.declared.line.Store.TheVariants as store;
ghost use Rattle.rv_line.specs.declared.line.Branch.TheVariants as branch;
ghost use Rattle.rv_line.specs.declared.line.Line.TheVariants as line;
ghost use Rattle.rv_reader.specs.BodyLines.{reading_of};
ghost use Rattle.rv_reader.specs.BodyLines.Draft.{Whole, ToBranch, ToJump};
ghost use Rattle.rv_reader.specs.BodyLines.Reading.{Nothing, Defines, Codes};
ghost use Rattle.rv_reader.specs.Examples.{refused, behind, reading, bare_text, bare_parts, loose_text, loose_parts, areas_text, areas_parts, far_text};
ghost use Rattle.rv_reader.specs.Refusals.{refusal, parts_of, target_cause};

/// The first three lines.
#[tactic(auto, unfolding(crate::specs::Forms::forms))]
pub fn header_refusals()
    ensures empty { refusal [] ≡ refused 1 1 }
    ensures mark { refusal (codes "#psi 1\n# steps 1\n# spill 0\n") ≡ refused 1 1 }
    ensures steps_missing { refusal (codes "# psi 1\n") ≡ refused 2 2 }
    ensures steps_sign { refusal (codes "# psi 1\n# steps -1\n# spill 0\n") ≡ refused 2 2 }
    ensures steps_most { refusal (codes "# psi 1\n# steps 09223372036854775807\n# spill 134217728") ≡ None }
    ensures steps_large { refusal (codes "# psi 1\n# steps 9223372036854775808\n# spill 0\n") ≡ refused 2 2 }
    ensures spill_missing { refusal (codes "# psi 1\n# steps 1\n") ≡ refused 3 3 }
    ensures spill_large { refusal (codes "# psi 1\n# steps 1\n# spill 134217729\n") ≡ refused 3 3 }
    ensures spill_blank { refusal (codes "# psi 1\n# steps 1\n# spill  1\n") ≡ refused 3 3 }
    ensures first_line { refusal (codes "# psi 1\n# steps\n# spill\nadd\n") ≡ refused 2 2 }
{}

/// Rows of areas, behind two spill words.
#[tactic(auto, unfolding(crate::specs::Forms::forms))]
pub fn area_refusals()
    ensures no_offset { behind "# in A\n" ≡ refused 4 4 }
    ensures name { behind "# in 3A 2\n" ≡ refused 4 4 }
    ensures last_blank { behind "# in A 2 \n" ≡ refused 4 4 }
    ensures extent { behind "# in A 2 -1\n" ≡ refused 4 4 }
    ensures offset { behind "# in A 2 3\n# in B 4 5\n" ≡ refused 5 4 }
    ensures output_first { behind "# out A 2\n# in B 3\n" ≡ refused 5 4 }
    ensures scan_first { behind "# scan 0 2\n# out B 3\n" ≡ refused 5 4 }
    ensures scan_number { behind "# scan 1 2\n" ≡ refused 4 4 }
    ensures scan_again { behind "# scan 0 2\n# scan 0 3\n" ≡ refused 5 4 }
    ensures malformed_first { behind "# in A 2 16777217 x\n" ≡ refused 4 4 }
    ensures extent_large { behind "# in A 2 16777217\n" ≡ refused 4 12 }
    ensures product_large { behind "# in A 2 4097 4096 0\n" ≡ refused 4 12 }
    ensures seven_axes { behind "# in A 2 1 1 1 1 1 1 1\n" ≡ refused 4 12 }
    ensures large_first { behind "# in A 2\n# in A 3 16777217\n" ≡ refused 5 12 }
    ensures repeated { behind "# in A 2\n# out A 3\n" ≡ refused 5 5 }
    ensures repeated_input { behind "# in A 2\n# in B 3\n# in A 4\n" ≡ refused 6 5 }
    ensures behind_the_rows { behind "#\n# in A 3\n" ≡ None }
    ensures other_comment { behind "# int A 3\n" ≡ None }
{}

/// Lines of the body, behind three lines of the header.
#[tactic(auto, unfolding(crate::specs::Forms::forms))]
pub fn line_refusals()
    ensures unknown { map (λ text. behind text) ("nop" ∷ "Add x5, x6, x7" ∷ "add,x5" ∷ "add(x5)" ∷ "fence," ∷ "fence\r" ∷ [])
        ≡ replicate 6 (refused 4 6) }
    ensures no_kind { map (λ text. behind text) ("a: fence" ∷ "a :" ∷ "5:" ∷ "a::" ∷ ":" ∷ ".globl" ∷ ".globl 5" ∷ ".text a" ∷ ".data" ∷ [])
        ≡ replicate 9 (refused 4 6) }
    ensures count { map (λ text. behind text) ("add" ∷ "add x5, x6" ∷ "add x5, x6, x7," ∷ "add x5, x6, x7, x8" ∷ "fence x5" ∷ "ecall ," ∷ [])
        ≡ replicate 6 (refused 4 7) }
    ensures register { map (λ text. behind text)
        ("add x05, x6, x7" ∷ "add x5, x32, x7" ∷ "add x5, x6, 7" ∷ "add t0, x0, x0" ∷ "add x5 x6, x7" ∷ "add x5, x, x7" ∷ "add x5, X6, x7" ∷ "add x5, x6, x7\r" ∷ [])
        ≡ replicate 8 (refused 4 7) }
    ensures operand { map (λ text. behind text)
        ("ld x5, 0 (x6)" ∷ "ld x5, (x6)" ∷ "ld x5, 0(x6" ∷ "ld x5, 0(x6)x" ∷ "ld x5, 0( x6)" ∷ "addi x5, x0, +1" ∷ "addi x5, x0, --1" ∷ "addi x5, x0, -" ∷ "beq x0, x0, 4" ∷ "jal x0, a-b" ∷ [])
        ≡ replicate 10 (refused 4 7) }
    ensures operand_first { behind "addi x05, x0, 2048" ≡ refused 4 7 }
    ensures signed { map (λ text. behind text) ("addi x5, x0, 2048" ∷ "sltiu x5, x0, -2049" ∷ "ld x5, 2048(x6)" ∷ "sd x5, -2049(x6)" ∷ "jalr x0, 2048(x1)" ∷ "addi x5, x0, 99999999999999999999999" ∷ [])
        ≡ replicate 6 (refused 4 8) }
    ensures shift { map (λ text. behind text) ("slli x5, x6, 64" ∷ "srai x5, x6, -1" ∷ "slliw x5, x6, 32" ∷ "sraiw x5, x6, -1" ∷ [])
        ≡ replicate 4 (refused 4 8) }
    ensures upper { map (λ text. behind text) ("lui x5, 1048576" ∷ "auipc x5, -1" ∷ []) ≡ replicate 2 (refused 4 8) }
    ensures repeated { behind "a:\nb:\nfence\na:\n" ≡ refused 7 9 }
    ensures first_line { behind "a:\na:\nnop\n" ≡ refused 5 9 }
{}

/// Targets, once each line is in form.
#[tactic(auto, unfolding(crate::specs::Forms::forms))]
pub fn target_refusals()
    ensures no_label { behind ".globl gone\nbeq x0, x0, gone\n" ≡ refused 5 10 }
    ensures in_form_first { behind "jal x0, gone\nnop\n" ≡ refused 5 6 }
    ensures first_target { behind "a: # here\njal x0, a\njal x0, b\njal x0, c\n" ≡ refused 6 10 }
    ensures too_far { refusal (far_text 1024) ≡ refused 4 11 }
    ensures branch_ahead { map (λ at. target_cause ((codes "a", at) ∷ []) 10 (ToBranch branch.Beq 0 0 (codes "a"))) (1033 ∷ 1034 ∷ [])
        ≡ None ∷ Some 11 ∷ [] }
    ensures branch_back { map (λ at. target_cause ((codes "a", 10) ∷ []) at (ToBranch branch.Bgeu 0 0 (codes "a"))) (1034 ∷ 1035 ∷ [])
        ≡ None ∷ Some 11 ∷ [] }
    ensures jump_ahead { map (λ at. target_cause ((codes "a", at) ∷ []) 10 (ToJump 0 (codes "a"))) (262153 ∷ 262154 ∷ [])
        ≡ None ∷ Some 11 ∷ [] }
    ensures jump_back { map (λ at. target_cause ((codes "a", 10) ∷ []) at (ToJump 0 (codes "a"))) (262154 ∷ 262155 ∷ [])
        ≡ None ∷ Some 11 ∷ [] }
{}

/// What one line is.
#[tactic(auto, unfolding(crate::specs::Forms::forms))]
pub fn reading_examples()
    ensures nothing { map (λ text. reading text) ("" ∷ " \t# a" ∷ "\t.text #" ∷ " .globl\t gone " ∷ []) ≡ replicate 4 (Ok Nothing) }
    ensures label { map (λ text. reading text) ("add:" ∷ " .L_9: # a" ∷ [])
        ≡ Ok (Defines (codes "add")) ∷ Ok (Defines (codes ".L_9")) ∷ [] }
    ensures plain { map (λ text. reading text) ("sub x31\t, x0,x9" ∷ "  fence#" ∷ "ebreak" ∷ [])
        ≡ Ok (Codes (Whole (line.Three three.Sub 31 0 9))) ∷ Ok (Codes (Whole line.Fence)) ∷ Ok (Codes (Whole line.Ebreak)) ∷ [] }
    ensures least { map (λ text. reading text) ("andi x1, x2, -2048" ∷ "srli x1, x2, -0" ∷ "srliw x1, x2, 0" ∷ "lw x1, -2048(x2)" ∷ "auipc x1, 0" ∷ [])
        ≡ Ok (Codes (Whole (line.Imm imm.Andi 1 2 (negsuc 2047)))) ∷ Ok (Codes (Whole (line.Imm imm.Srli 1 2 (pos 0))))
        ∷ Ok (Codes (Whole (line.Imm imm.Srliw 1 2 (pos 0)))) ∷ Ok (Codes (Whole (line.Load load.Lw 1 (negsuc 2047) 2)))
        ∷ Ok (Codes (Whole (line.Auipc 1 0))) ∷ [] }
    ensures most { map (λ text. reading text) ("addiw x1, x2, 002047" ∷ "srai x1, x2, 63" ∷ "sraiw x1, x2, 31" ∷ "sb x1, 2047(x2)" ∷ "lui x1, 1048575" ∷ "jalr x1, 2047(x2)" ∷ [])
        ≡ Ok (Codes (Whole (line.Imm imm.Addiw 1 2 (pos 2047)))) ∷ Ok (Codes (Whole (line.Imm imm.Srai 1 2 (pos 63))))
        ∷ Ok (Codes (Whole (line.Imm imm.Sraiw 1 2 (pos 31)))) ∷ Ok (Codes (Whole (line.Store store.Sb 1 (pos 2047) 2)))
        ∷ Ok (Codes (Whole (line.Lui 1 1048575))) ∷ Ok (Codes (Whole (line.Jalr 1 (pos 2047) 2))) ∷ [] }
    ensures targets { map (λ text. reading text) ("bltu x1, x2, add" ∷ "jal x1, .L2" ∷ [])
        ≡ Ok (Codes (ToBranch branch.Bltu 1 2 (codes "add"))) ∷ Ok (Codes (ToJump 1 (codes ".L2"))) ∷ [] }
{}

/// Texts that are not refused, and what they spell.
#[tactic(auto, unfolding(crate::specs::Forms::forms))]
pub fn accepted_texts()
    ensures bare { refusal bare_text ≡ None }
    ensures bare_parts { parts_of bare_text ≡ bare_parts }
    ensures loose { refusal loose_text ≡ None }
    ensures loose_parts { parts_of loose_text ≡ loose_parts }
    ensures areas { refusal areas_text ≡ None }
    ensures areas_parts { parts_of areas_text ≡ areas_parts }
{}
