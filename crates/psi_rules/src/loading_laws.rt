// From where the forms of the rules load, as the clause of a function that does nothing.
ghost use Rattle.std.specs.Prelude.{◌≡◌, ℕ, List, Some, map, slice_get};
ghost use Rattle.moa_tree.specs.Expr.{Item};
ghost use Rattle.shape_check.specs.Layout.{areas};
ghost use Rattle.normal_form.specs.Forms.{Normal};
ghost use Rattle.psi_rules.specs.Jobs.{forms};
ghost use Rattle.psi_rules.specs.Loads.{LoadsFrom};

/// Each load of each job's form, also one that is never reached, is from an area of the program's
/// block, and has the shape of the array that stands there.
pub fn forms_load()
    ensures { (items : List Item) (number : ℕ) (form : Normal)
        → slice_get (forms items) number ≡ Some (Some form)
        → LoadsFrom (map (λ area. area.shape) (areas items)) form }
{}
