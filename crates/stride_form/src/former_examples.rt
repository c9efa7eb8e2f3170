// Operational forms that formers make, computed.
ghost use Rattle.std.specs.Prelude.{◌≡◌, pos, negsuc, [], ◌∷◌};
ghost use Rattle.moa_tree.specs.declared.operator.Op.TheVariants as op;
ghost use Rattle.normal_form.specs.declared.term.Bind.TheVariants.{Turn, Flat};
ghost use Rattle.normal_form.specs.Formers.{just, reshaping};
ghost use Rattle.normal_form.specs.Forms.{Case, Fold, Get, Let};
ghost use Rattle.normal_form.specs.Moves.{behind_entry, variable, variables};
ghost use Rattle.stride_form.specs.Facts.{starting};
ghost use Rattle.stride_form.specs.OpFormers.{op_flattening, op_folding, op_joining, op_loading, op_reshaping, op_turning};
ghost use Rattle.stride_form.specs.Rules.{needed, operational_on};

/// A reshape of what is stored is one access, and needs no variable.
pub fn reshapes()
    ensures once { needed (op_reshaping (3 ∷ 2 ∷ []) (2 ∷ 3 ∷ []) (variables 2) (op_loading 0 (2 ∷ 3 ∷ [])) (starting ((0, 3) ∷ (0, 2) ∷ [])) 2).0
        ≡ Get (record { area = 0; start = pos 0; strides = (0, pos 2) ∷ (1, pos 1) ∷ [] }) }
    ensures there_and_back { needed (op_reshaping (2 ∷ 3 ∷ []) (3 ∷ 2 ∷ []) (variables 2)
        (λ entries. op_reshaping (3 ∷ 2 ∷ []) (2 ∷ 3 ∷ []) entries (op_loading 0 (2 ∷ 3 ∷ [])))
        (starting ((0, 2) ∷ (0, 3) ∷ [])) 2).0
        ≡ Get (record { area = 0; start = pos 0; strides = (0, pos 3) ∷ (1, pos 1) ∷ [] }) }
    ensures as_the_rules_do { operational_on ((0, 2) ∷ (0, 3) ∷ []) (reshaping (2 ∷ 3 ∷ []) (3 ∷ 2 ∷ []) (variables 2)
        (λ entries. reshaping (3 ∷ 2 ∷ []) (2 ∷ 3 ∷ []) entries
        (λ others. just (Get (record { area = 0; shape = 2 ∷ 3 ∷ []; at = others })))) 2).0
        ≡ Get (record { area = 0; start = pos 0; strides = (0, pos 3) ∷ (1, pos 1) ∷ [] }) }
    ensures next { (op_reshaping (2 ∷ 3 ∷ []) (3 ∷ 2 ∷ []) (variables 2)
        (λ entries. op_reshaping (3 ∷ 2 ∷ []) (2 ∷ 3 ∷ []) entries (op_loading 0 (2 ∷ 3 ∷ [])))
        (starting ((0, 2) ∷ (0, 3) ∷ [])) 2).1 ≡ 8 }
{}

/// A turn stays, and an offset that is turned does too; a choice and a fold are over accesses.
pub fn bindings()
    ensures turn { op_turning 1 4 (variable 0) (λ entry. op_loading 0 (4 ∷ []) (entry ∷ [])) (starting ((0, 4) ∷ [])) 1
        ≡ (Let 1 (Turn (variable 0) 1 4) (Get (record { area = 0; start = pos 0; strides = (1, pos 1) ∷ [] })), 2) }
    ensures turned_offset { needed (op_flattening (2 ∷ 3 ∷ []) (variables 2) (λ flat. op_turning 1 6 flat (λ entry. op_loading 0 (6 ∷ []) (entry ∷ [])))
        (starting ((0, 2) ∷ (0, 3) ∷ [])) 2).0
        ≡ Let 2 (Flat (variable 0 ∷ variable 1 ∷ []) (2 ∷ 3 ∷ []))
        (Let 3 (Turn (variable 2) 1 6) (Get (record { area = 0; start = pos 0; strides = (3, pos 1) ∷ [] }))) }
    ensures choice { op_joining 2 3 (variable 0) (op_loading 0 (2 ∷ []) (variables 1)) (op_loading 1 (3 ∷ []) (behind_entry 2 (variable 0) ∷ []))
        (starting ((0, 5) ∷ [])) 1
        ≡ (
          Case (variable 0) (pos 2) (Get (record { area = 0; start = pos 0; strides = (0, pos 1) ∷ [] }))
              (Get (record { area = 1; start = negsuc 1; strides = (0, pos 1) ∷ [] })),
          1,
        ) }
    ensures fold { op_folding op.Add 3 (λ k. op_loading 0 (3 ∷ 4 ∷ []) (k ∷ variable 0 ∷ [])) (starting ((0, 4) ∷ [])) 1
        ≡ (Fold op.Add 1 0 3 (Get (record { area = 0; start = pos 0; strides = (0, pos 1) ∷ (1, pos 4) ∷ [] })), 2) }
{}
