// What a call comes to and what it puts, tried on examples: no body runs.
ghost use Rattle.std.specs.Prelude.{◌≡◌, ◌<◌, ◌-◌, ◌^◌, ℕ, List, [], ◌∷◌, codes, pos, Some, None};
ghost use Rattle.std.specs.FinMap.{empty};
ghost use Rattle.moa_tree.specs.Examples.{program};
ghost use Rattle.moa_tree.specs.Expr.{Two};
ghost use Rattle.moa_tree.specs.declared.operator.Op.TheVariants as op;
ghost use Rattle.psi_edges.specs.Files.{Files};
ghost use Rattle.psi_rules.specs.RuleExamples.{a, b, in_a, in_b, out_c};
ghost use Rattle.psi_top.specs.CallExamples.{added, cut, full, idle, told, untold};
ghost use Rattle.psi_top.specs.Line.{cannot_read_line, cannot_write_line, usage_line};
ghost use Rattle.psi_top.specs.Made.{IsTextFor};
ghost use Rattle.psi_top.specs.Outcome.{IsDue, IsGiven, IsOutcome, Outcome, Prints, Refuses, most_read};
ghost use Rattle.psi_top.specs.Put.{IsPut};
ghost use Rattle.psi_top.specs.declared.command.Task.TheVariants as task;

use crate::laws::one_outcome;

/// What is put: a text whole, or a front of it and the line that says so; or a line whole, or a front of it and nothing
/// of a text.
pub fn what_is_put_is_told()
    ensures text { IsPut (Prints (codes "5\n")) idle (full (codes "5\n")) idle idle 0 }
    ensures no_text { IsPut (Prints (codes "5\n")) idle idle idle idle 0 → ⊥ }
    ensures text_and_line { IsPut (Prints (codes "5\n")) idle (full (codes "5\n")) idle (full (codes "5\n")) 0 → ⊥ }
    ensures front { IsPut (Prints (codes "5\n")) idle (cut (codes "5")) idle (full cannot_write_line) 3 }
    ensures front_unsaid { IsPut (Prints (codes "5\n")) idle (cut (codes "5")) idle idle 3 → ⊥ }
    ensures other_text { IsPut (Prints (codes "5\n")) idle (cut (codes "6")) idle (full cannot_write_line) 3 → ⊥ }
    ensures line { IsPut (Refuses 1 usage_line) idle idle idle (full usage_line) 1 }
    ensures line_unsaid { IsPut (Refuses 1 usage_line) idle idle idle idle 1 → ⊥ }
    ensures front_of_line { IsPut (Refuses 1 usage_line) idle idle idle (cut (codes "usage")) 3 }
    ensures text_put_then { IsPut (Refuses 1 usage_line) idle (full (codes "5\n")) idle (cut (codes "usage")) 3 → ⊥ }
{}

/// No words are no command, whatever the files are; and a file that is not there cannot be read.
pub fn outcomes_are_told()
    ensures usage { (files later : Files) → IsOutcome [] files later (Refuses 1 usage_line) 0 }
    ensures other_line { (files later : Files) → IsOutcome [] files later (Refuses 1 cannot_write_line) 0 → ⊥ }
    ensures read { (files later : Files) → IsOutcome [] files later (Refuses 1 usage_line) 1 → ⊥ }
    ensures missing { IsOutcome (codes "check" ∷ codes "a" ∷ []) empty empty (Refuses 2 (cannot_read_line (codes "a"))) 0 }
    ensures other_name { IsOutcome (codes "check" ∷ codes "a" ∷ []) empty empty (Refuses 2 (cannot_read_line (codes "b"))) 0 → ⊥ }
{
    one_outcome();
}

/// Status 2 is due where a read of a file of the words failed, and not where the count stood still or another file was
/// read last, also over a shelf that tells no files.
pub fn what_is_due_is_told()
    ensures usage { IsDue [] (untold 0 [] 0) (untold 0 [] 0) (Refuses 1 usage_line) }
    ensures given { IsDue [] (untold 0 [] 0) (untold 0 [] 1) (Refuses 1 usage_line) → ⊥ }
    ensures failed { IsDue [] (untold 0 [] 0) (untold 1 [] 0) (Refuses 1 usage_line) → ⊥ }
    ensures unread { IsDue (codes "check" ∷ codes "a" ∷ []) (untold 0 [] 0) (untold 1 (codes "a") 0) (Refuses 2 (cannot_read_line (codes "a"))) }
    ensures last_count { IsDue (codes "check" ∷ codes "a" ∷ []) (untold (2 ^ 64 - 1) [] 0) (untold (2 ^ 64 - 1) (codes "a") 0) (Refuses 2 (cannot_read_line (codes "a"))) }
    ensures stood_still { IsDue (codes "check" ∷ codes "a" ∷ []) (untold 0 [] 0) (untold 0 (codes "a") 0) (Refuses 2 (cannot_read_line (codes "a"))) → ⊥ }
    ensures missing { IsDue (codes "check" ∷ codes "a" ∷ []) (told 0 [] 0) (told 0 (codes "a") 0) (Refuses 2 (cannot_read_line (codes "a"))) → ⊥ }
    ensures other_name { IsDue (codes "check" ∷ codes "a" ∷ []) (untold 0 [] 0) (untold 1 (codes "b") 0) (Refuses 2 (cannot_read_line (codes "a"))) → ⊥ }
{}

/// So many bytes were given, up to the last count.
pub fn what_is_given_is_told()
    ensures most { most_read ≡ 301989890 }
    ensures three { IsGiven 4 7 3 }
    ensures two { IsGiven 4 6 3 → ⊥ }
    ensures none { (count : ℕ) → IsGiven count count 0 }
    ensures last { IsGiven (2 ^ 64 - 2) (2 ^ 64 - 1) 3 }
    ensures none_and_one { IsGiven 4 5 0 → ⊥ }
{}

/// The texts of a sum of two lists.
pub fn texts_are_told()
    ensures check { IsTextFor task.Check added (codes "in A 3\nin B 3\nout C 3\nsize 5\nwork 16\nwords 9\n") }
    ensures other_report { IsTextFor task.Check added (codes "in A 3\nin B 3\nout C 3\nsize 5\nwork 16\nwords 8\n") → ⊥ }
    ensures source { IsTextFor task.ShowSource added (codes "psi 1\nin A 3\nin B 3\nout C = add A B\n") }
    ensures other_source { IsTextFor task.ShowSource added (codes "psi 1\nin A 3\nin B 3\nout C = add B A\n") → ⊥ }
    ensures dnf { IsTextFor task.ShowDnf added (codes "out C <3> = add(A[v0], B[v0])\n") }
    ensures other_dnf { IsTextFor task.ShowDnf added (codes "out C <3> = add(A{0; 1*v0}, B{0; 1*v0})\n") → ⊥ }
    ensures onf { IsTextFor task.ShowOnf added (codes "out C <3> = add(A{0; 1*v0}, B{0; 1*v0})\n") }
    ensures other_onf { IsTextFor task.ShowOnf added (codes "out C <3> = add(A[v0], B[v0])\n") → ⊥ }
    ensures no_nest { IsTextFor task.ShowNest added [] → ⊥ }
{}
