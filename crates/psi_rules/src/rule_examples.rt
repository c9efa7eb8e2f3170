// Forms that are computed: programs with the forms of their jobs.
ghost use Rattle.std.specs.Prelude.{◌≡◌, pos, negsuc, codes, [], ◌∷◌};
ghost use Rattle.std.specs.declared.option.Option.TheVariants.{None, Some};
ghost use Rattle.moa_tree.specs.Expr.{Number, Use, Iota, One, Two, Psi, Take, Drop, Reverse, Rotate, Transpose, Permute, Cat, Reshape, Ravel, Outer, Inner, Reduce, Scan, Let, Output};
ghost use Rattle.moa_tree.specs.declared.operator.Op.TheVariants as op;
ghost use Rattle.moa_tree.specs.declared.operator.Unary.TheVariants as unary;
ghost use Rattle.normal_form.specs.declared.entry.Entry.TheVariants.{At, Plus, Minus};
ghost use Rattle.normal_form.specs.declared.term.Bind.TheVariants.{Turn, Flat, Digit};
ghost use Rattle.normal_form.specs.Forms.{Bin, Case, Fold, Index, Let as Binds, Lit, Un};
ghost use Rattle.normal_form.specs.Moves.{variable};
ghost use Rattle.psi_rules.specs.Jobs.{forms};
ghost use Rattle.psi_rules.specs.RuleExamples.{a, b, c, element, in_a, in_b, out_c};

/// The product of two matrices: a fold over a variable that comes behind those of the index.
pub fn products()
    ensures inner { forms (in_a (pos 2 ∷ pos 2 ∷ []) ∷ in_b (pos 2 ∷ pos 2 ∷ []) ∷ out_c (Inner op.Add op.Mul a b) ∷ [])
        ≡ Some (Fold op.Add 2 0 2 (Bin op.Mul
        (element 0 (2 ∷ 2 ∷ []) (variable 0 ∷ variable 2 ∷ []))
        (element 1 (2 ∷ 2 ∷ []) (variable 2 ∷ variable 1 ∷ [])))) ∷ [] }
    ensures outer { forms (in_a (pos 2 ∷ []) ∷ in_b (pos 3 ∷ pos 4 ∷ []) ∷ out_c (Outer op.Sub a b) ∷ [])
        ≡ Some (Bin op.Sub (element 0 (2 ∷ []) (variable 0 ∷ [])) (element 1 (3 ∷ 4 ∷ []) (variable 1 ∷ variable 2 ∷ []))) ∷ [] }
    ensures again { forms (in_a (pos 2 ∷ []) ∷ in_b (pos 2 ∷ []) ∷ out_c (Two op.Sub (Inner op.Add op.Mul a b) (Reduce op.Max a)) ∷ [])
        ≡ Some (Bin op.Sub
        (Fold op.Add 0 0 2 (Bin op.Mul (element 0 (2 ∷ []) (variable 0 ∷ [])) (element 1 (2 ∷ []) (variable 0 ∷ []))))
        (Fold op.Max 1 0 2 (element 0 (2 ∷ []) (variable 1 ∷ [])))) ∷ [] }
{}

/// A fold over no item is the identity of its operator.
pub fn empty_folds()
    ensures reductions { forms (in_a (pos 0 ∷ pos 3 ∷ []) ∷ in_b (pos 0 ∷ []) ∷ out_c (Reduce op.Add a) ∷ Output (codes "D") (Reduce op.Min b) ∷ [])
        ≡ Some (Lit (pos 0)) ∷ Some (Lit (pos 9223372036854775807)) ∷ [] }
    ensures products { forms (in_a (pos 2 ∷ pos 0 ∷ []) ∷ in_b (pos 0 ∷ []) ∷ out_c (Inner op.Mul op.Add a b) ∷ [])
        ≡ Some (Lit (pos 1)) ∷ [] }
{}

/// Joins: nothing on one side, a choice by the entry, a constant that chooses, a reversed one.
pub fn joins()
    ensures empty { forms (in_a (pos 0 ∷ []) ∷ in_b (pos 2 ∷ []) ∷ out_c (Cat a b) ∷ Output (codes "E") (Rotate (pos 2) a) ∷ [])
        ≡ Some (element 1 (2 ∷ []) (variable 0 ∷ [])) ∷ None ∷ [] }
    ensures empty_behind { forms (in_a (pos 2 ∷ []) ∷ in_b (pos 0 ∷ []) ∷ out_c (Cat a b) ∷ [])
        ≡ Some (element 0 (2 ∷ []) (variable 0 ∷ [])) ∷ [] }
    ensures reversed { forms (in_a (pos 2 ∷ []) ∷ in_b (pos 3 ∷ []) ∷ out_c (Reverse (Cat a b)) ∷ [])
        ≡ Some (Case (Minus 0 (pos 4)) (pos 2) (element 0 (2 ∷ []) (Minus 0 (pos 4) ∷ [])) (element 1 (3 ∷ []) (Minus 0 (pos 2) ∷ []))) ∷ [] }
    ensures first { forms (in_a (pos 2 ∷ []) ∷ in_b (pos 3 ∷ []) ∷ out_c (Psi (pos 1 ∷ []) (Cat a b)) ∷ [])
        ≡ Some (element 0 (2 ∷ []) (At (pos 1) ∷ [])) ∷ [] }
    ensures second { forms (in_a (pos 2 ∷ []) ∷ in_b (pos 3 ∷ []) ∷ out_c (Psi (pos 2 ∷ []) (Cat a b)) ∷ [])
        ≡ Some (element 1 (3 ∷ []) (At (pos 0) ∷ [])) ∷ [] }
{}

/// Turns: by none, by a number that is negative or beyond the extent, of a constant.
pub fn turns()
    ensures back { forms (in_a (pos 4 ∷ []) ∷ out_c (Rotate (negsuc 0) a) ∷ [])
        ≡ Some (Binds 1 (Turn (variable 0) 3 4) (element 0 (4 ∷ []) (variable 1 ∷ []))) ∷ [] }
    ensures beyond { forms (in_a (pos 4 ∷ pos 2 ∷ []) ∷ out_c (Rotate (pos 5) a) ∷ [])
        ≡ Some (Binds 2 (Turn (variable 0) 1 4) (element 0 (4 ∷ 2 ∷ []) (variable 2 ∷ variable 1 ∷ []))) ∷ [] }
    ensures none { forms (in_a (pos 4 ∷ []) ∷ out_c (Rotate (pos 8) a) ∷ [])
        ≡ Some (element 0 (4 ∷ []) (variable 0 ∷ [])) ∷ [] }
    ensures constant { forms (in_a (pos 4 ∷ []) ∷ out_c (Psi (pos 3 ∷ []) (Rotate (pos 2) a)) ∷ [])
        ≡ Some (element 0 (4 ∷ []) (At (pos 1) ∷ [])) ∷ [] }
{}

/// Views are moves of entries.
pub fn views()
    ensures permuted { forms (in_a (pos 2 ∷ pos 3 ∷ pos 4 ∷ []) ∷ out_c (Permute (pos 2 ∷ pos 0 ∷ pos 1 ∷ []) a) ∷ [])
        ≡ Some (element 0 (2 ∷ 3 ∷ 4 ∷ []) (variable 1 ∷ variable 2 ∷ variable 0 ∷ [])) ∷ [] }
    ensures transposed { forms (in_a (pos 2 ∷ pos 3 ∷ []) ∷ out_c (Transpose a) ∷ [])
        ≡ Some (element 0 (2 ∷ 3 ∷ []) (variable 1 ∷ variable 0 ∷ [])) ∷ [] }
    ensures taken { forms (in_a (pos 4 ∷ []) ∷ out_c (Take (negsuc 1 ∷ []) (Reverse a)) ∷ [])
        ≡ Some (element 0 (4 ∷ []) (Minus 0 (pos 1) ∷ [])) ∷ [] }
    ensures taken_in_front { forms (in_a (pos 4 ∷ pos 5 ∷ []) ∷ out_c (Take (pos 2 ∷ []) a) ∷ [])
        ≡ Some (element 0 (4 ∷ 5 ∷ []) (variable 0 ∷ variable 1 ∷ [])) ∷ [] }
    ensures dropped { forms (in_a (pos 6 ∷ []) ∷ out_c (Two op.Sub (Drop (pos 1 ∷ []) a) (Drop (negsuc 0 ∷ []) a)) ∷ [])
        ≡ Some (Bin op.Sub (element 0 (6 ∷ []) (Plus 0 (pos 1) ∷ [])) (element 0 (6 ∷ []) (variable 0 ∷ []))) ∷ [] }
    ensures indexed { forms (in_a (pos 2 ∷ pos 3 ∷ []) ∷ out_c (Psi (pos 1 ∷ []) a) ∷ [])
        ≡ Some (element 0 (2 ∷ 3 ∷ []) (At (pos 1) ∷ variable 0 ∷ [])) ∷ [] }
    ensures counted { forms (out_c (One unary.Neg (Reverse (Iota (pos 5)))) ∷ [])
        ≡ Some (Un unary.Neg (Index (Minus 0 (pos 4)))) ∷ [] }
    ensures scalars { forms (in_a (pos 2 ∷ []) ∷ in_b [] ∷ out_c (Two op.Add (Two op.Mul (Number (pos 3)) a) b) ∷ [])
        ≡ Some (Bin op.Add (Bin op.Mul (Lit (pos 3)) (element 0 (2 ∷ []) (variable 0 ∷ []))) (element 1 [] [])) ∷ [] }
{}

/// Reshapes: the offset is an entry, a constant or bound; the entries are none, the offset,
/// constants or bound digits.
pub fn reshapes()
    ensures digits { forms (in_a (pos 3 ∷ pos 4 ∷ []) ∷ out_c (Reshape (pos 3 ∷ pos 4 ∷ []) (Transpose a)) ∷ [])
        ≡ Some (Binds 2 (Flat (variable 0 ∷ variable 1 ∷ []) (3 ∷ 4 ∷ [])) (Binds 3 (Digit (variable 2) 3 4) (Binds 4 (Digit (variable 2) 1 3)
        (element 0 (3 ∷ 4 ∷ []) (variable 4 ∷ variable 3 ∷ []))))) ∷ [] }
    ensures ravelled { forms (in_a (pos 3 ∷ pos 4 ∷ []) ∷ in_b (pos 12 ∷ []) ∷ out_c (Two op.Add b (Reshape (pos 12 ∷ []) (Transpose a))) ∷ [])
        ≡ Some (Bin op.Add (element 1 (12 ∷ []) (variable 0 ∷ []))
        (Binds 1 (Digit (variable 0) 3 4) (Binds 2 (Digit (variable 0) 1 3) (element 0 (3 ∷ 4 ∷ []) (variable 2 ∷ variable 1 ∷ []))))) ∷ [] }
    ensures same { forms (in_a (pos 3 ∷ []) ∷ out_c (Reshape (pos 3 ∷ []) a) ∷ [])
        ≡ Some (element 0 (3 ∷ []) (variable 0 ∷ [])) ∷ [] }
    ensures scalar { forms (in_a [] ∷ out_c (Reshape (pos 1 ∷ pos 1 ∷ []) a) ∷ [])
        ≡ Some (element 0 [] []) ∷ [] }
    ensures one_axis { forms (in_a (pos 6 ∷ []) ∷ out_c (Reshape (pos 2 ∷ pos 3 ∷ []) a) ∷ [])
        ≡ Some (Binds 2 (Flat (variable 0 ∷ variable 1 ∷ []) (2 ∷ 3 ∷ [])) (element 0 (6 ∷ []) (variable 2 ∷ []))) ∷ [] }
    ensures ones { forms (in_a (pos 2 ∷ pos 1 ∷ pos 3 ∷ []) ∷ out_c (Ravel a) ∷ [])
        ≡ Some (Binds 1 (Digit (variable 0) 3 2) (Binds 2 (Digit (variable 0) 1 3)
        (element 0 (2 ∷ 1 ∷ 3 ∷ []) (variable 1 ∷ At (pos 0) ∷ variable 2 ∷ [])))) ∷ [] }
    ensures constants { forms (in_a (pos 2 ∷ pos 3 ∷ []) ∷ out_c (Psi (pos 1 ∷ pos 1 ∷ []) (Reshape (pos 3 ∷ pos 2 ∷ []) a)) ∷ [])
        ≡ Some (element 0 (2 ∷ 3 ∷ []) (At (pos 1) ∷ At (pos 0) ∷ [])) ∷ [] }
    ensures no_axis { forms (in_a (pos 1 ∷ pos 1 ∷ []) ∷ out_c (Reshape [] a) ∷ [])
        ≡ Some (element 0 (1 ∷ 1 ∷ []) (At (pos 0) ∷ At (pos 0) ∷ [])) ∷ [] }
{}

/// A name of a `let` is its expression, an output is loaded, and each scan of the text has an area
/// and a job, however often it is used; the inner one of two comes first.
pub fn scans()
    ensures used_twice { forms (in_a (pos 4 ∷ []) ∷ Let (codes "P") (Scan op.Add a) ∷ out_c (Two op.Add (Use (codes "P")) (Use (codes "P"))) ∷ [])
        ≡ Some (element 0 (4 ∷ []) (variable 0 ∷ []))
        ∷ Some (Bin op.Add (element 2 (4 ∷ []) (variable 0 ∷ [])) (element 2 (4 ∷ []) (variable 0 ∷ []))) ∷ [] }
    ensures within { forms (in_a (pos 4 ∷ []) ∷ out_c (Scan op.Max (Reverse (Scan op.Add a))) ∷ Output (codes "D") (Two op.Sub (Scan op.Mul c) c) ∷ [])
        ≡ Some (element 0 (4 ∷ []) (variable 0 ∷ []))
        ∷ Some (element 4 (4 ∷ []) (Minus 0 (pos 3) ∷ []))
        ∷ Some (element 3 (4 ∷ []) (variable 0 ∷ []))
        ∷ Some (element 1 (4 ∷ []) (variable 0 ∷ []))
        ∷ Some (Bin op.Sub (element 5 (4 ∷ []) (variable 0 ∷ [])) (element 1 (4 ∷ []) (variable 0 ∷ []))) ∷ [] }
{}
