// What formers make, and what entries, bindings and forms are, computed.
ghost use Rattle.std.specs.Prelude.{◌≡◌, ◌+◌, ◌*◌, pos, negsuc, List, [], ◌∷◌};
ghost use Rattle.moa_tree.specs.declared.operator.Op.TheVariants as op;
ghost use Rattle.moa_tree.specs.declared.operator.Unary.TheVariants as unary;
ghost use Rattle.normal_form.specs.declared.entry.Entry.TheVariants.{At, Plus, Minus};
ghost use Rattle.normal_form.specs.declared.term.Bind.TheVariants.{Turn, Flat, Digit};
ghost use Rattle.normal_form.specs.declared.term.Term.TheVariants as term;
ghost use Rattle.normal_form.specs.Assignments.{assigned, bound, bound_to, number};
ghost use Rattle.normal_form.specs.Formers.{flattening, folding, joining, just, on_both, turning, unflattening};
ghost use Rattle.normal_form.specs.Forms.{Bin, Case, Fold, Get, Index, Let, Lit, Un};
ghost use Rattle.normal_form.specs.Kept.{form_in};
ghost use Rattle.normal_form.specs.Meaning.{element_value, meaning};
ghost use Rattle.normal_form.specs.Moves.{mirrored_entry, remaining_entry, taken_entry, variable, variables};
ghost use Rattle.std.specs.declared.option.Option.TheVariants.{None, Some};

/// Each rule that binds takes the next variable, the left operand before the right.
pub fn numbering()
    ensures two { on_both (Bin op.Sub) (turning 1 4 (variable 0) (λ entry. just (Index entry))) (turning 2 5 (variable 0) (λ entry. just (Index entry))) 1
        ≡ (Bin op.Sub (Let 1 (Turn (variable 0) 1 4) (Index (variable 1))) (Let 2 (Turn (variable 0) 2 5) (Index (variable 2))), 3) }
    ensures folds { folding op.Max 3 (λ k. folding op.Add 2 (λ other. just (Bin op.Mul (Index k) (Index other)))) 4
        ≡ (Fold op.Max 4 0 3 (Fold op.Add 5 0 2 (Bin op.Mul (Index (variable 4)) (Index (variable 5)))), 6) }
    ensures no_item { folding op.Min 0 (λ k. just (Index k)) 2 ≡ (Lit (pos 9223372036854775807), 2) }
    ensures variables { variables 3 ≡ variable 0 ∷ variable 1 ∷ variable 2 ∷ [] }
{}

/// Where nothing has to be bound, nothing is.
pub fn bindings()
    ensures no_turn { turning 0 4 (variable 0) (λ entry. just (Index entry)) 1 ≡ (Index (variable 0), 1) }
    ensures constant_turn { turning 3 4 (At (pos 2)) (λ entry. just (Index entry)) 1 ≡ (Index (At (pos 1)), 1) }
    ensures one_axis { flattening (6 ∷ []) (Minus 0 (pos 5) ∷ []) (λ entry. just (Index entry)) 1 ≡ (Index (Minus 0 (pos 5)), 1) }
    ensures constants { flattening (2 ∷ 3 ∷ []) (At (pos 1) ∷ At (pos 2) ∷ []) (λ entry. just (Index entry)) 1 ≡ (Index (At (pos 5)), 1) }
    ensures flat { flattening (2 ∷ 3 ∷ []) (At (pos 1) ∷ variable 0 ∷ []) (λ entry. just (Index entry)) 1
        ≡ (Let 1 (Flat (At (pos 1) ∷ variable 0 ∷ []) (2 ∷ 3 ∷ [])) (Index (variable 1)), 2) }
    ensures to_one_axis { unflattening (6 ∷ []) (Plus 0 (pos 2)) (λ entries. just (Get (record { area = 0; shape = 6 ∷ []; at = entries }))) 1
        ≡ (Get (record { area = 0; shape = 6 ∷ []; at = Plus 0 (pos 2) ∷ [] }), 1) }
    ensures digits { unflattening (2 ∷ 1 ∷ 3 ∷ []) (variable 0) (λ entries. just (Get (record { area = 0; shape = 2 ∷ 1 ∷ 3 ∷ []; at = entries }))) 1
        ≡ (
          Let 1 (Digit (variable 0) 3 2) (Let 2 (Digit (variable 0) 1 3)
              (Get (record { area = 0; shape = 2 ∷ 1 ∷ 3 ∷ []; at = variable 1 ∷ At (pos 0) ∷ variable 2 ∷ [] }))),
          3,
        ) }
    ensures constant_digits { unflattening (2 ∷ 3 ∷ []) (At (pos 5)) (λ entries. just (Get (record { area = 0; shape = 2 ∷ 3 ∷ []; at = entries }))) 1
        ≡ (Get (record { area = 0; shape = 2 ∷ 3 ∷ []; at = At (pos 1) ∷ At (pos 2) ∷ [] }), 1) }
{}

/// A part without items is passed over, a constant chooses, and else the entry does.
pub fn joins()
    ensures first_empty { joining 0 2 (variable 0) (just (Lit (pos 1))) (just (Lit (pos 2))) 1 ≡ (Lit (pos 2), 1) }
    ensures second_empty { joining 2 0 (variable 0) (just (Lit (pos 1))) (just (Lit (pos 2))) 1 ≡ (Lit (pos 1), 1) }
    ensures below { joining 2 3 (At (pos 1)) (just (Lit (pos 1))) (just (Lit (pos 2))) 1 ≡ (Lit (pos 1), 1) }
    ensures behind { joining 2 3 (At (pos 2)) (just (Lit (pos 1))) (just (Lit (pos 2))) 1 ≡ (Lit (pos 2), 1) }
    ensures choice { joining 2 3 (variable 0) (just (Lit (pos 1))) (just (Lit (pos 2))) 1
        ≡ (Case (variable 0) (pos 2) (Lit (pos 1)) (Lit (pos 2)), 1) }
{}

/// Entries that are moved, among 5.
pub fn moves()
    ensures taken { taken_entry (pos 2) 5 (variable 0) ≡ variable 0 }
    ensures taken_behind { taken_entry (negsuc 1) 5 (variable 0) ≡ Plus 0 (pos 3) }
    ensures remaining { remaining_entry (pos 2) 5 (Minus 0 (pos 1)) ≡ Minus 0 (pos 3) }
    ensures remaining_in_front { remaining_entry (negsuc 1) 5 (variable 0) ≡ variable 0 }
    ensures mirrored { mirrored_entry 5 (Plus 0 (pos 1)) ≡ Minus 0 (pos 3) }
    ensures mirrored_twice { mirrored_entry 5 (mirrored_entry 5 (Plus 0 (pos 1))) ≡ Plus 0 (pos 1) }
    ensures mirrored_constant { mirrored_entry 5 (At (pos 1)) ≡ At (pos 3) }
{}

/// The values of forms where the first variable stands for 2 and the second for 5, over areas that hold 100 times their number and
/// their places.
pub fn meanings()
    ensures entries { meaning (element_value (λ area place. pos (100 * area + place))) (assigned (2 ∷ 5 ∷ []))
        (Bin op.Sub (Index (Minus 1 (pos 9))) (Index (Plus 0 (pos 7)))) ≡ negsuc 4 }
    ensures element { meaning (element_value (λ area place. pos (100 * area + place))) (assigned (2 ∷ 5 ∷ []))
        (Get (record { area = 3; shape = 4 ∷ 7 ∷ []; at = variable 0 ∷ variable 1 ∷ [] })) ≡ pos 319 }
    ensures first { meaning (element_value (λ area place. pos (100 * area + place))) (assigned (2 ∷ 5 ∷ []))
        (Case (variable 0) (pos 3) (Lit (pos 1)) (Lit (pos 2))) ≡ pos 1 }
    ensures second { meaning (element_value (λ area place. pos (100 * area + place))) (assigned (2 ∷ 5 ∷ []))
        (Case (variable 0) (pos 2) (Lit (pos 1)) (Lit (pos 2))) ≡ pos 2 }
    ensures sum { meaning (element_value (λ area place. pos (100 * area + place))) (assigned (2 ∷ 5 ∷ []))
        (Fold op.Add 2 1 4 (Index (Plus 2 (pos 10)))) ≡ pos 36 }
    ensures turn { meaning (element_value (λ area place. pos (100 * area + place))) (assigned (2 ∷ 5 ∷ []))
        (Let 2 (Turn (variable 1) 3 7) (Un unary.Neg (Index (variable 2)))) ≡ negsuc 0 }
    ensures flat { meaning (element_value (λ area place. pos (100 * area + place))) (assigned (2 ∷ 5 ∷ []))
        (Let 2 (Flat (variable 0 ∷ variable 1 ∷ []) (4 ∷ 7 ∷ [])) (Index (variable 2))) ≡ pos 19 }
    ensures digit { meaning (element_value (λ area place. pos (100 * area + place))) (assigned (19 ∷ []))
        (Let 2 (Digit (variable 0) 7 4) (Index (variable 2))) ≡ pos 2 }
{}

/// A pool of terms stands for the form of its last term.
pub fn pools()
    ensures none { form_in [] ≡ None }
    ensures last { form_in (term.Lit (pos 7) ∷ term.Index (variable 0) ∷ term.Bin op.Sub 1 0 ∷ term.Un unary.Neg 2 ∷ [])
        ≡ Some (Un unary.Neg (Bin op.Sub (Index (variable 0)) (Lit (pos 7)))) }
    ensures each { form_in (term.Lit (pos 7) ∷ term.Index (variable 0) ∷ term.Case (variable 0) (pos 1) 0 1 ∷ term.Fold op.Add 1 0 3 2
        ∷ term.Let 2 (Digit (variable 0) 1 2) 3 ∷ [])
        ≡ Some (Let 2 (Digit (variable 0) 1 2) (Fold op.Add 1 0 3 (Case (variable 0) (pos 1) (Lit (pos 7)) (Index (variable 0))))) }
{}
