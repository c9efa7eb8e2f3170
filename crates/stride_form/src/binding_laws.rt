// The law of forms without bindings, as a clause of a function that does nothing: the four rules are about bindings alone.
ghost use Rattle.std.specs.Prelude.{◌≡◌, ℕ, List, true};
ghost use Rattle.normal_form.specs.Forms.{Normal as NormalForm};
ghost use Rattle.stride_form.specs.Bindings.{has_no_binding};
ghost use Rattle.stride_form.specs.Operational.{operational};
ghost use Rattle.stride_form.specs.Rules.{operational_on};

/// The rules change nothing in a form without a binding, whatever its region is: each load is the access that it is by itself.
pub fn rules_are_about_bindings()
    ensures { (region : List (ℕ × ℕ)) (form : NormalForm) → has_no_binding form ≡ true
        → operational_on region form ≡ operational form }
{}
