// Plain programs and what their nests do, computed.
ghost use Rattle.std.specs.Prelude.{◌≡◌, pos, negsuc, [], ◌∷◌, Some, false, length, map, slice_get, true};
ghost use Rattle.shape_check.specs.Examples.{costs, statements};
ghost use Rattle.loop_ir.specs.Steps.{End};
ghost use Rattle.nest_jobs.specs.LeadExamples.{areas_after, empty_between, empty_words, plain_in, sizes_in, squares, squares_words, state_after};
ghost use Rattle.nest_jobs.specs.Leads.{nests};

/// Numbers, names, counts, operators on elements, views and outer products are plain; turns, joins,
/// other shapes, folds and scans are not, also below a plain operator.
pub fn plain_programs()
    ensures plain { map plain_in ("in A 4 2 let b = psi <1> A out C = add neg b 3"
        ∷ "in A 4 out D = outer sub take <1> A drop <1> iota 5"
        ∷ "in A 4 2 out E = transpose reverse permute <1 0> A" ∷ []) ≡ true ∷ true ∷ true ∷ [] }
    ensures bent { map plain_in ("in A 4 out C = rotate 1 A" ∷ "in A 4 out C = cat A A"
        ∷ "in A 4 out C = reshape <2 2> A"
        ∷ "in A 4 out C = ravel A" ∷ "in A 4 out C = inner add mul A A"
        ∷ "in A 4 out C = reduce add A" ∷ "in A 4 out C = scan add A" ∷ [])
        ≡ false ∷ false ∷ false ∷ false ∷ false ∷ false ∷ false ∷ [] }
    ensures below { plain_in "in A 4 let b = add 1 reduce add A out C = add A b" ≡ false }
{}

/// Forms have a term for each number, name, count and operator on elements, and none for a view; a
/// job without an element has no form.
pub fn sizes_of_forms()
    ensures squares { (sizes_in squares ≡ (14, 48)) × (costs squares ≡ (15, 52, 9)) }
    ensures empty { (sizes_in empty_between ≡ (10, 34)) × (costs empty_between ≡ (15, 42, 8)) }
{}

/// The nests of a program leave in each area its list: an input stays, and an output that is used is
/// stored before.
pub fn programs_lead_to_lists()
    ensures squares { areas_after squares squares_words
        ≡ (pos 4 ∷ pos 5 ∷ pos 6 ∷ []) ∷ (pos 9 ∷ pos 16 ∷ pos 25 ∷ [])
        ∷ (pos 15 ∷ pos 21 ∷ pos 29 ∷ []) ∷ [] }
    ensures accesses { length (state_after squares squares_words).trace ≡ 18 }
    ensures empty { areas_after empty_between empty_words
        ≡ (pos 1 ∷ pos 5 ∷ []) ∷ [] ∷ (negsuc 0 ∷ negsuc 4 ∷ []) ∷ []
        ∷ (pos 0 ∷ pos 4 ∷ negsuc 3 ∷ pos 0 ∷ []) ∷ [] }
    ensures none { slice_get (nests (statements empty_between)) 1 ≡ Some End }
{}
