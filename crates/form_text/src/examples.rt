// Lines that are computed: no body runs.
ghost use Rattle.std.specs.Prelude.{◌≡◌, [], ◌∷◌, ◌++◌, codes, pos, negsuc};
ghost use Rattle.std.specs.declared.option.Option.TheVariants.{None, Some};
ghost use Rattle.moa_tree.specs.declared.operator.Op.TheVariants as op;
ghost use Rattle.moa_tree.specs.declared.operator.Unary.TheVariants as unary;
ghost use Rattle.normal_form.specs.declared.entry.Entry.TheVariants.{At, Plus, Minus};
ghost use Rattle.normal_form.specs.declared.term.Bind.TheVariants.{Turn};
ghost use Rattle.normal_form.specs.Forms.{Bin, Case, Index, Let, Lit, Un};
ghost use Rattle.normal_form.specs.Moves.{variable};
ghost use Rattle.loop_ir.specs.NestExamples.{sum_tree, vector_areas};
ghost use Rattle.loop_ir.specs.Steps.{Copy, End, For, If, One, Read, Set, Spot, Then, Two, Walk, Write};
ghost use Rattle.form_text.specs.Examples.{access_line, areas, element, line, output, product, reshaped, scan};
ghost use Rattle.form_text.specs.NestSpelling.{nest_lines};
ghost use Rattle.form_text.specs.Spelling.{normal_line, operational_line};

/// Jobs of outputs and of scans.
pub fn jobs()
    ensures product { line (2 ∷ 2 ∷ []) product ≡ codes "out C <2 2> = fold(add, v2 from 0 to 2, mul(A[v0 v2], B[v2 v1]))\n" }
    ensures scan { normal_line areas scan (4 ∷ []) (Some (element 0 (4 ∷ []) (variable 0 ∷ []))) ≡ codes "$0 scan add <4> = A[v0]\n" }
    ensures scanned { line (4 ∷ []) (Bin op.Add (element 3 (4 ∷ []) (variable 0 ∷ [])) (element 3 (4 ∷ []) (variable 0 ∷ [])))
        ≡ codes "out C <4> = add($0[v0], $0[v0])\n" }
    ensures empty { normal_line areas output (0 ∷ []) None ≡ codes "out C <0> = empty\n" }
    ensures empty_too { operational_line areas output (0 ∷ []) None ≡ codes "out C <0> = empty\n" }
    ensures scalar { line [] (element 0 [] []) ≡ codes "out C <> = A[]\n" }
{}

/// Choices and bindings.
pub fn terms()
    ensures turned { line (4 ∷ []) (Let 1 (Turn (variable 0) 3 4) (element 0 (4 ∷ []) (variable 1 ∷ [])))
        ≡ codes "out C <4> = let(v1 = turn(v0, 3, 4), A[v1])\n" }
    ensures joined { line (5 ∷ []) (Case (Minus 0 (pos 4)) (pos 2)
        (element 0 (2 ∷ []) (Minus 0 (pos 4) ∷ [])) (element 1 (3 ∷ []) (Minus 0 (pos 2) ∷ [])))
        ≡ codes "out C <5> = case(-v0+4 < 2, A[-v0+4], B[-v0+2])\n" }
    ensures reshaped { line (3 ∷ 4 ∷ []) reshaped
        ≡ codes "out C <3 4> = let(v2 = flat(<v0 v1>, <3 4>), let(v3 = digit(v2, 3, 4), let(v4 = digit(v2, 1, 3), A[v4 v3])))\n" }
    ensures unary { line (2 ∷ []) (Un unary.Neg (element 1 (2 ∷ []) (variable 0 ∷ []))) ≡ codes "out C <2> = neg(B[v0])\n" }
    ensures negative { line [] (Lit (negsuc 6)) ≡ codes "out C <> = -7\n" }
    ensures numbers { line (3 ∷ []) (Index (variable 0)) ≡ codes "out C <3> = index(v0)\n" }
{}

/// Entries: a constant stands alone or beside a variable.
pub fn entries()
    ensures constant { line (3 ∷ []) (element 0 (2 ∷ 3 ∷ []) (At (pos 1) ∷ variable 0 ∷ [])) ≡ codes "out C <3> = A[1 v0]\n" }
    ensures reversed { line (2 ∷ []) (element 0 (2 ∷ []) (Minus 0 (pos 1) ∷ [])) ≡ codes "out C <2> = A[-v0+1]\n" }
    ensures behind { line (2 ∷ []) (element 0 (3 ∷ []) (Plus 0 (pos 1) ∷ [])) ≡ codes "out C <2> = A[v0+1]\n" }
    ensures before { line (2 ∷ []) (element 0 (3 ∷ []) (Plus 0 (negsuc 0) ∷ [])) ≡ codes "out C <2> = A[v0-1]\n" }
    ensures negative { line (2 ∷ []) (Index (Minus 0 (negsuc 0))) ≡ codes "out C <2> = index(-v0-1)\n" }
    ensures zero { line (1 ∷ []) (Index (Minus 0 (pos 0))) ≡ codes "out C <1> = index(-v0)\n" }
{}

/// Accesses: a start, and the strides that are not 0.
pub fn accesses()
    ensures product { access_line (2 ∷ 2 ∷ []) product
        ≡ codes "out C <2 2> = fold(add, v2 from 0 to 2, mul(A{0; 2*v0 1*v2}, B{0; 1*v1 2*v2}))\n" }
    ensures reversed { access_line (2 ∷ []) (element 0 (2 ∷ []) (Minus 0 (pos 1) ∷ [])) ≡ codes "out C <2> = A{1; -1*v0}\n" }
    ensures constant { access_line (3 ∷ []) (element 0 (2 ∷ 3 ∷ []) (At (pos 1) ∷ variable 0 ∷ [])) ≡ codes "out C <3> = A{3; 1*v0}\n" }
    ensures scalar { access_line [] (element 0 [] []) ≡ codes "out C <> = A{0}\n" }
    ensures none { access_line (2 ∷ []) (element 0 (2 ∷ 2 ∷ []) (variable 0 ∷ Minus 0 (pos 1) ∷ [])) ≡ codes "out C <2> = A{1; 1*v0}\n" }
    ensures opposite { access_line (2 ∷ []) (element 3 (2 ∷ 1 ∷ []) (variable 0 ∷ Minus 0 (pos 0) ∷ [])) ≡ codes "out C <2> = $0{0}\n" }
{}

/// Nests: a step a line, two blanks further in for each loop and each choice.
pub fn nests()
    ensures sum { nest_lines vector_areas output sum_tree
        ≡ codes "job out C\nplace p3 0\nplace p4 3\nplace p5 6\nfor r0 < 3\n  read r1 A p3\n  read r2 B p4\n  add r1 r1 r2\n"
        ++ codes "  write C p5 r1\n  walk p3 1\n  walk p4 1\n  walk p5 1\nend\n" }
    ensures choice { nest_lines areas output
        (If 1 (negsuc 4) (Then (Set 2 (pos 7)) (For 3 5 End (Then (Walk 6 (negsuc 0)) End))) (Then (Copy 2 1) End) (Then (Write 2 4 2) End))
        ≡ codes "job out C\nif r1 < -5\n  set r2 7\n  for r3 < 5\n  end\n  walk p6 -1\nelse\n  copy r2 r1\nend\nwrite C p4 r2\n" }
    ensures within { nest_lines areas output (For 0 2 (If 1 (pos 3) (Then (One unary.Abs 2 4) End) (Then (Two op.Sub 2 3 4) End) End) End)
        ≡ codes "job out C\nfor r0 < 2\n  if r1 < 3\n    abs r2 r4\n  else\n    sub r2 r3 r4\n  end\nend\n" }
    ensures scan { nest_lines areas scan (Then (Spot 4 (negsuc 2) 5) (Then (Read 6 3 4) (Then (Write 3 7 6) End)))
        ≡ codes "job scan 0\nspot p4 -3 r5\nread r6 $0 p4\nwrite $0 p7 r6\n" }
    ensures no_step { nest_lines areas output End ≡ codes "job out C\n" }
    ensures no_such_area { nest_lines [] output (Then (Read 1 2 3) End) ≡ codes "job out \nread r1  p3\n" }
    ensures no_such_scan { nest_lines [] scan End ≡ codes "job scan \n" }
{}
