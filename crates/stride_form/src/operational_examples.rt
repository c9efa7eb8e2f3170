// Operational forms that are computed: what each rule takes out, and each condition without which it does not.
ghost use Rattle.std.specs.Prelude.{◌≡◌, pos, negsuc, None, Some, [], ◌∷◌};
ghost use Rattle.moa_tree.specs.declared.operator.Op.TheVariants.{Add};
ghost use Rattle.normal_form.specs.declared.entry.Entry.TheVariants.{At, Plus, Minus};
ghost use Rattle.normal_form.specs.declared.term.Bind.TheVariants.{Turn, Flat, Digit};
ghost use Rattle.normal_form.specs.Assignments.{assigned};
ghost use Rattle.normal_form.specs.Forms.{Lit, Index, Bin, Fold, Let};
ghost use Rattle.normal_form.specs.Meaning.{element_value, meaning};
ghost use Rattle.normal_form.specs.Moves.{variable};
ghost use Rattle.stride_form.specs.Accesses.{access_value};
ghost use Rattle.stride_form.specs.RuleExamples.{access, in_digits, load, offset_of, reshaped, reshaped_twice, taken, whole};
ghost use Rattle.stride_form.specs.Rules.{operational_on};

/// Digits of an offset in the shape of a load are the offset, and an offset of digits is their number; what is then bound for
/// nothing is left out.
pub fn rules()
    ensures digits_of_an_offset { operational_on (whole (2 ∷ 3 ∷ [])) reshaped ≡ access 0 ((0, pos 3) ∷ (1, pos 1) ∷ []) }
    ensures an_offset_of_digits { operational_on (whole (4 ∷ [])) reshaped_twice ≡ access 0 ((0, pos 1) ∷ []) }
    ensures a_number_and_its_digits { operational_on (whole (6 ∷ [])) (in_digits (variable 0) (offset_of (variable 5) (variable 6)))
        ≡ access 0 ((0, pos 1) ∷ []) }
    ensures a_number_with_a_constant { operational_on (whole (4 ∷ []))
        (in_digits (Plus 0 (pos 2)) (offset_of (variable 5) (variable 6))) ≡ access 2 ((0, pos 1) ∷ []) }
    ensures a_number_that_falls { operational_on (whole (6 ∷ []))
        (in_digits (Minus 0 (pos 5)) (offset_of (variable 5) (variable 6))) ≡ access 5 ((0, negsuc 0) ∷ []) }
    ensures signs_are_multiplied { operational_on (whole (6 ∷ []))
        (in_digits (Minus 0 (pos 5)) (Let 7 (Flat (variable 5 ∷ variable 6 ∷ []) (2 ∷ 3 ∷ [])) (Index (Minus 7 (pos 1)))))
        ≡ Index (Plus 0 (negsuc 3)) }
    ensures an_axis_of_one { operational_on (whole (6 ∷ []))
        (in_digits (variable 0) (Let 7 (Flat (variable 5 ∷ At (pos 0) ∷ variable 6 ∷ []) (2 ∷ 1 ∷ 3 ∷ [])) (Index (variable 7))))
        ≡ Index (variable 0) }
{}

/// An offset that is kept is the offset of a load at it alone.
pub fn offsets()
    ensures alone { operational_on (whole (2 ∷ 3 ∷ [])) (offset_of (variable 1) (variable 0))
        ≡ access 0 ((0, pos 1) ∷ (1, pos 3) ∷ []) }
    ensures beside_a_constant { operational_on (whole (2 ∷ 3 ∷ []))
        (Let 7 (Flat (variable 1 ∷ variable 0 ∷ []) (2 ∷ 3 ∷ [])) (load (7 ∷ []) (Plus 7 (pos 1) ∷ [])))
        ≡ Let 7 (Flat (variable 1 ∷ variable 0 ∷ []) (2 ∷ 3 ∷ [])) (access 1 ((7, pos 1) ∷ [])) }
    ensures of_a_fold { operational_on (whole (2 ∷ []))
        (Fold Add 1 0 3 (offset_of (variable 0) (variable 1))) ≡ Fold Add 1 0 3 (access 0 ((0, pos 3) ∷ (1, pos 1) ∷ [])) }
    ensures of_a_turn { operational_on (whole (2 ∷ 3 ∷ []))
        (Let 2 (Turn (variable 1) 1 3) (offset_of (variable 0) (variable 2)))
        ≡ Let 2 (Turn (variable 1) 1 3) (access 0 ((0, pos 3) ∷ (2, pos 1) ∷ [])) }
    ensures of_a_digit { operational_on (whole (2 ∷ 9 ∷ []))
        (Let 2 (Digit (variable 1) 3 3) (offset_of (variable 0) (variable 2)))
        ≡ Let 2 (Digit (variable 1) 3 3) (access 0 ((0, pos 3) ∷ (2, pos 1) ∷ [])) }
{}

/// Where one condition fails, entries are the digits of no number.
pub fn conditions()
    ensures all_extents_are_one { operational_on [] (Let 7 (Flat (At (pos 0) ∷ At (pos 0) ∷ []) (1 ∷ 1 ∷ [])) (Index (variable 7)))
        ≡ Let 7 (Flat (At (pos 0) ∷ At (pos 0) ∷ []) (1 ∷ 1 ∷ [])) (Index (variable 7)) }
    ensures no_constant_on_an_axis_of_one { operational_on (whole (6 ∷ 1 ∷ []))
        (Let 5 (Digit (variable 0) 1 6) (Let 7 (Flat (variable 1 ∷ variable 5 ∷ []) (1 ∷ 6 ∷ [])) (Index (variable 7))))
        ≡ Let 5 (Digit (variable 0) 1 6) (Let 7 (Flat (variable 1 ∷ variable 5 ∷ []) (1 ∷ 6 ∷ [])) (Index (variable 7))) }
    ensures two_numbers { operational_on (whole (6 ∷ 6 ∷ []))
        (Let 5 (Digit (variable 0) 3 2) (Let 6 (Digit (variable 1) 1 3) (load (2 ∷ 3 ∷ []) (variable 5 ∷ variable 6 ∷ []))))
        ≡ Let 5 (Digit (variable 0) 3 2) (Let 6 (Digit (variable 1) 1 3) (access 0 ((5, pos 3) ∷ (6, pos 1) ∷ []))) }
    ensures another_weight { operational_on (whole (6 ∷ []))
        (Let 5 (Digit (variable 0) 2 2) (Let 6 (Digit (variable 0) 1 3) (load (2 ∷ 3 ∷ []) (variable 5 ∷ variable 6 ∷ []))))
        ≡ Let 5 (Digit (variable 0) 2 2) (Let 6 (Digit (variable 0) 1 3) (access 0 ((5, pos 3) ∷ (6, pos 1) ∷ []))) }
    ensures below_zero { operational_on (whole (6 ∷ []))
        (in_digits (Plus 0 (negsuc 0)) (load (2 ∷ 3 ∷ []) (variable 5 ∷ variable 6 ∷ [])))
        ≡ Let 5 (Digit (Plus 0 (negsuc 0)) 3 2) (Let 6 (Digit (Plus 0 (negsuc 0)) 1 3) (access 0 ((5, pos 3) ∷ (6, pos 1) ∷ []))) }
    ensures past_the_shape { operational_on (whole (7 ∷ [])) taken
        ≡ Let 5 (Digit (variable 0) 3 2) (Let 6 (Digit (variable 0) 1 3) (access 0 ((5, pos 3) ∷ (6, pos 1) ∷ []))) }
    ensures a_digit_that_falls { operational_on (whole (6 ∷ []))
        (in_digits (variable 0) (load (2 ∷ 3 ∷ []) (Minus 5 (pos 1) ∷ variable 6 ∷ [])))
        ≡ Let 5 (Digit (variable 0) 3 2) (Let 6 (Digit (variable 0) 1 3) (access 3 ((5, negsuc 2) ∷ (6, pos 1) ∷ []))) }
    ensures a_constant { operational_on [] (in_digits (At (pos 4)) (load (2 ∷ 3 ∷ []) (variable 5 ∷ variable 6 ∷ [])))
        ≡ Let 5 (Digit (At (pos 4)) 3 2) (Let 6 (Digit (At (pos 4)) 1 3) (access 0 ((5, pos 3) ∷ (6, pos 1) ∷ []))) }
    ensures no_element { operational_on (whole (6 ∷ []))
        (Let 5 (Digit (variable 0) 3 0) (Let 6 (Digit (variable 0) 1 3) (load (0 ∷ 3 ∷ []) (variable 5 ∷ variable 6 ∷ []))))
        ≡ Let 5 (Digit (variable 0) 3 0) (Let 6 (Digit (variable 0) 1 3) (access 0 ((5, pos 3) ∷ (6, pos 1) ∷ []))) }
{}

/// A number is taken for its digits on a region that lies in the shape. On a larger one this would load another element: the
/// digits of 6 in the shape `2 3` are 0 and 0.
pub fn numbers_lie_in_the_shape()
    ensures inside { operational_on (whole (6 ∷ [])) taken ≡ access 0 ((0, pos 1) ∷ []) }
    ensures digits { meaning (element_value (λ area place. pos place)) (assigned (6 ∷ [])) taken ≡ pos 0 }
    ensures number { meaning (access_value (λ area place. pos place)) (assigned (6 ∷ [])) (access 0 ((0, pos 1) ∷ [])) ≡ pos 6 }
    ensures kept { meaning (access_value (λ area place. pos place)) (assigned (6 ∷ [])) (operational_on (whole (7 ∷ [])) taken) ≡ pos 0 }
{}

/// A binding is left out where nothing is over its variable, and so is one over which only such a binding is.
pub fn bindings()
    ensures one { operational_on (whole (6 ∷ [])) (Let 1 (Turn (variable 0) 1 6) (Lit (pos 7))) ≡ Lit (pos 7) }
    ensures one_below_another { operational_on (whole (6 ∷ []))
        (Let 1 (Turn (variable 0) 1 6) (Let 2 (Turn (variable 1) 1 6) (Index (variable 0)))) ≡ Index (variable 0) }
    ensures one_that_is_needed { operational_on (whole (6 ∷ []))
        (Let 1 (Turn (variable 0) 1 6) (Let 2 (Turn (variable 1) 1 6) (Bin Add (Index (variable 0)) (Index (variable 1)))))
        ≡ Let 1 (Turn (variable 0) 1 6) (Bin Add (Index (variable 0)) (Index (variable 1))) }
{}
