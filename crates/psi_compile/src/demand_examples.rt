// What programs demand, worked out from the definitions: no body runs.
ghost use Rattle.std.specs.Prelude.{◌≡◌, [], ◌∷◌, codes};
ghost use Rattle.moa_tree.specs.Examples.{a, b, numbers, program};
ghost use Rattle.moa_tree.specs.Expr.{Input, Let, Output, Scan, Two, Use};
ghost use Rattle.moa_tree.specs.declared.operator.Op.TheVariants as op;
ghost use Rattle.psi_compile.specs.Demands.{denoted};

/// The lists of the outputs, in order, for those of the inputs.
pub fn demand_examples()
    ensures demanded { denoted (program (Input (codes "A") (numbers "3") ∷ Let (codes "P") (Scan op.Add a) ∷ Input (codes "B") (numbers "3")
        ∷ Output (codes "C") (Two op.Sub a b) ∷ Output (codes "D") (Use (codes "P")) ∷ []))
        (numbers "1 2 3" ∷ numbers "10 20 30" ∷ [])
        ≡ numbers "-9 -18 -27" ∷ numbers "1 3 6" ∷ [] }
{}
