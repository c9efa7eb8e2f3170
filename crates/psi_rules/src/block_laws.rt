// How the areas of a program's block stand, and the shapes of names, as clauses of functions that do
// nothing.
ghost use Rattle.std.specs.List.{flat_map};
ghost use Rattle.std.specs.Prelude.{◌≡◌, ◌+◌, ◌∷◌, [], List, length, map};
ghost use Rattle.moa_tree.specs.Denotation.{Store as Lists, denote_from, denote_scans_from};
ghost use Rattle.moa_tree.specs.Expr.{Item};
ghost use Rattle.shape_check.specs.Layout.{areas, gathered, scan_shapes, shapes_after};
ghost use Rattle.psi_rules.specs.Areas.{area_lists, input_list};
ghost use Rattle.psi_rules.specs.Blocks.{StandInOrder, input_shapes, lists_of, output_shapes};
ghost use Rattle.psi_rules.specs.Jobs.{Next, first, named};
ghost use Rattle.psi_rules.specs.Rules.{Names, shapes_of};

/// The shapes of the areas of a program's block, and the lists that the areas hold, stand in the
/// order of the block: those of the inputs, then those of the outputs, and then those of the scans.
pub fn areas_stand_in_order()
    ensures shapes { (items : List Item)
        → StandInOrder (map (λ area. area.shape) (areas items)) (first items) (gathered input_shapes [] items)
        (gathered output_shapes [] items) (gathered scan_shapes [] items) }
    ensures lists { (inputs : Lists) (items : List Item)
        → StandInOrder (area_lists inputs items) (first items) (flat_map (input_list inputs) items)
        (lists_of (denote_from inputs [] items)) (denote_scans_from inputs [] items) }
    ensures inputs { (inputs : Lists) (items : List Item)
        → length (flat_map (input_list inputs) items) ≡ (first items).output }
    ensures all { (items : List Item)
        → length (areas items) ≡ (first items).scan + length (gathered scan_shapes [] items) }
{}

/// The shapes of names go on from statement to statement as those of the statements do.
pub fn names_have_shapes()
    ensures { (names : Names) (next : Next) (item : Item)
        → shapes_of (named names next item ∷ names) ≡ shapes_after (shapes_of names) item }
{}
