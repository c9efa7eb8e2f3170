// Forms that are computed: the texts of whole programs.
ghost use Rattle.std.specs.Prelude.{◌≡◌, pos, [], ◌∷◌, ◌++◌, codes};
ghost use Rattle.moa_tree.specs.Expr.{Use, Two, Inner, Scan, Let};
ghost use Rattle.moa_tree.specs.declared.operator.Op.TheVariants as op;
ghost use Rattle.psi_rules.specs.RuleExamples.{a, b, in_a, in_b, out_c};
ghost use Rattle.psi_top.specs.Shown.{dnf, onf};

/// The product of two matrices.
pub fn products()
    ensures dnf { dnf (in_a (pos 2 ∷ pos 2 ∷ []) ∷ in_b (pos 2 ∷ pos 2 ∷ []) ∷ out_c (Inner op.Add op.Mul a b) ∷ [])
        ≡ codes "out C <2 2> = fold(add, v2 from 0 to 2, mul(A[v0 v2], B[v2 v1]))\n" }
    ensures onf { onf (in_a (pos 2 ∷ pos 2 ∷ []) ∷ in_b (pos 2 ∷ pos 2 ∷ []) ∷ out_c (Inner op.Add op.Mul a b) ∷ [])
        ≡ codes "out C <2 2> = fold(add, v2 from 0 to 2, mul(A{0; 2*v0 1*v2}, B{0; 1*v1 2*v2}))\n" }
{}

/// A scan comes before the output that uses it.
pub fn scans()
    ensures dnf { dnf (in_a (pos 4 ∷ []) ∷ Let (codes "P") (Scan op.Add a) ∷ out_c (Two op.Add (Use (codes "P")) (Use (codes "P"))) ∷ [])
        ≡ codes "$0 scan add <4> = A[v0]\nout C <4> = add($0[v0], $0[v0])\n" }
    ensures onf { onf (in_a (pos 4 ∷ []) ∷ Let (codes "P") (Scan op.Add a) ∷ out_c (Two op.Add (Use (codes "P")) (Use (codes "P"))) ∷ [])
        ≡ codes "$0 scan add <4> = A{0; 1*v0}\nout C <4> = add($0{0; 1*v0}, $0{0; 1*v0})\n" }
{}
