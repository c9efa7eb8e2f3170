// Verdicts that are worked out from the definitions: no body runs.
ghost use Rattle.std.specs.Prelude.{◌≡◌, [], ◌∷◌, None};
ghost use Rattle.shape_check.specs.Examples.{at_name, at_node, beyond, beyond_at_name, beyond_in_all, failure_in, shapes_in};

/// Rules of names, of inputs and of pointwise operators.
pub fn name_rules()
    ensures first_use { failure_in "in A 3 in A 3 out C = A" ≡ at_name 1 1 }
    ensures output_twice { failure_in "in A 3 out C = A out C = A" ≡ at_name 2 1 }
    ensures name_before_expression { failure_in "in A 3 let A = add B B out C = A" ≡ at_name 1 1 }
    ensures undeclared { failure_in "in A 3 out C = add A B" ≡ at_node 2 2 }
    ensures own_name { failure_in "in A 3 out C = add C A" ≡ at_node 1 2 }
    ensures later_name { failure_in "out C = A in A 3" ≡ at_node 0 2 }
    ensures second_statement { failure_in "in A 3 let P = neg neg A out C = add A B" ≡ at_node 5 2 }
    ensures negative_extent { failure_in "in B in A 3 -1 out C = A" ≡ at_name 1 3 }
    ensures extent_0 { failure_in "in A 0 3 out C = A" ≡ None }
    ensures negative_length { failure_in "out C = iota -1" ≡ at_node 0 4 }
    ensures length_0 { failure_in "out C = iota 0" ≡ None }
    ensures shapes_differ { failure_in "in A 3 in B 3 1 out C = add A B" ≡ at_node 0 5 }
    ensures same_total { failure_in "in A 2 3 in B 3 2 out C = add A B" ≡ at_node 0 5 }
    ensures scalars_fit { failure_in "in A 3 in B out C = sub add A B add 1 A" ≡ None }
    ensures left_first { failure_in "out C = add add A 1 B" ≡ at_node 2 2 }
    ensures right_before_its_operator { failure_in "in A 2 in B 3 out C = add add A B D" ≡ at_node 1 5 }
{}

/// Rules of parts of an array, and of its axes.
pub fn view_rules()
    ensures index_too_long { failure_in "in A 2 3 out C = psi <1 1 0> A" ≡ at_node 0 6 }
    ensures index_as_long { failure_in "in A 2 3 out C = psi <1 2> A" ≡ None }
    ensures index_at_the_extent { failure_in "in A 2 3 out C = psi <1 3> A" ≡ at_node 0 7 }
    ensures index_negative { failure_in "in A 2 3 out C = psi <-1> A" ≡ at_node 0 7 }
    ensures take_too_long { failure_in "in A 2 out C = take <1 1> A" ≡ at_node 0 8 }
    ensures take_too_much { failure_in "in A 2 3 out C = take <2 -4> A" ≡ at_node 0 9 }
    ensures take_all { failure_in "in A 2 3 out C = take <2 -3> A" ≡ None }
    ensures take_of_a_scalar { failure_in "out C = take <> 1" ≡ None }
    ensures drop_too_long { failure_in "in A 2 out C = drop <1 1> A" ≡ at_node 0 10 }
    ensures drop_too_much { failure_in "in A 2 3 out C = drop <0 -4> A" ≡ at_node 0 11 }
    ensures drop_all { failure_in "in A 2 3 out C = drop <-2 3> A" ≡ None }
    ensures reverse_of_a_scalar { failure_in "out C = reverse 1" ≡ at_node 0 12 }
    ensures reverse_of_a_vector { failure_in "out C = reverse iota 0" ≡ None }
    ensures rotate_of_a_scalar { failure_in "out C = rotate 0 1" ≡ at_node 0 13 }
    ensures rotate_of_a_vector { failure_in "out C = rotate -7 iota 3" ≡ None }
    ensures permute_too_short { failure_in "in A 2 3 out C = permute <0> A" ≡ at_node 0 14 }
    ensures permute_too_long { failure_in "in A 2 out C = permute <0 1> A" ≡ at_node 0 14 }
    ensures permute_twice_the_same { failure_in "in A 2 3 out C = permute <0 0> A" ≡ at_node 0 15 }
    ensures permute_from_1 { failure_in "in A 2 3 out C = permute <1 2> A" ≡ at_node 0 15 }
    ensures permuted { failure_in "in A 2 3 4 out C = permute <2 0 1> A" ≡ None }
{}

/// Rules of joins, reshapes, products and folds.
pub fn join_rules()
    ensures join_of_other_dimensions { failure_in "in A 2 3 in B 3 out C = cat A B" ≡ at_node 0 16 }
    ensures join_of_scalars { failure_in "out C = cat 1 2" ≡ at_node 0 17 }
    ensures join_of_other_rows { failure_in "in A 2 3 in B 2 4 out C = cat A B" ≡ at_node 0 18 }
    ensures join { failure_in "in A 2 3 in B 0 3 out C = cat A B" ≡ None }
    ensures reshape_negative { failure_in "in A 6 out C = reshape <-2 -3> A" ≡ at_node 0 19 }
    ensures reshape_to_another_total { failure_in "in A 6 out C = reshape <2 4> A" ≡ at_node 0 20 }
    ensures reshape_beyond_64_bits { failure_in "in A 0 out C = reshape <4294967296 4294967296> A" ≡ at_node 0 20 }
    ensures reshape { failure_in "in A 6 out C = reshape <2 3> A" ≡ None }
    ensures reshape_of_nothing { failure_in "in A 0 out C = reshape <5 0> A" ≡ None }
    ensures inner_of_a_scalar { failure_in "in A 2 out C = inner add mul A 1" ≡ at_node 0 21 }
    ensures inner_of_other_extents { failure_in "in A 2 3 in B 2 3 out C = inner add mul A B" ≡ at_node 0 22 }
    ensures inner { failure_in "in A 2 3 in B 3 4 out C = inner add mul A B" ≡ None }
    ensures reduce_of_a_scalar { failure_in "out C = reduce add 1" ≡ at_node 0 23 }
    ensures reduce { failure_in "in A 0 3 out C = reduce add A" ≡ None }
    ensures scan_of_a_scalar { failure_in "out C = scan add 1" ≡ at_node 0 24 }
    ensures scan { failure_in "in A 0 out C = scan add A" ≡ None }
{}

/// The limits of a shape, each after the rules of its operator.
pub fn shape_limits()
    ensures seven_axes { failure_in "in A 1 1 1 1 in B 1 1 1 out C = outer mul A B" ≡ beyond 0 2 7 }
    ensures six_axes { failure_in "in A 1 1 1 in B 1 1 1 out C = outer mul A B" ≡ None }
    ensures input_of_seven { failure_in "in A 1 1 1 1 1 1 1 out C = A" ≡ beyond_at_name 0 2 7 }
    ensures axes_first { failure_in "in A 1 1 1 1 1 1 16777217 out C = A" ≡ beyond_at_name 0 2 7 }
    ensures extent { failure_in "out C = iota 16777217" ≡ beyond 0 3 16777217 }
    ensures greatest_extent { failure_in "out C = iota 16777216" ≡ None }
    ensures first_extent { failure_in "in A 2 16777218 16777217 out C = A" ≡ beyond_at_name 0 3 16777218 }
    ensures extent_beside_0 { failure_in "in A 0 out C = reshape <0 16777217> A" ≡ beyond 0 3 16777217 }
    ensures span { failure_in "in A 4097 out C = outer add A A" ≡ beyond 0 4 16785409 }
    ensures greatest_span { failure_in "in A 4096 out C = outer add A A" ≡ None }
    ensures span_beside_0 { failure_in "in A 4097 0 4096 out C = A" ≡ beyond_at_name 0 4 16781312 }
    ensures span_beyond_64_bits { failure_in "in A 16777216 16777216 16777216 out C = A" ≡ beyond_at_name 0 4 18446744073709551615 }
    ensures rule_before_limit { failure_in "in A 0 out C = cat reshape <0 5> A reshape <0 16777217> A" ≡ beyond 3 3 16777217 }
{}

/// The limits of a whole program, after all its statements.
pub fn program_limits()
    ensures eight_doublings { failure_in "in A let b = add A A let c = add b b let d = add c c let e = add d d let f = add e e let g = add f f let h = add g g let i = add h h out C = i" ≡ None }
    ensures nine_doublings { failure_in "in A let b = add A A let c = add b b let d = add c c let e = add d d let f = add e e let g = add f f let h = add g g let i = add h h let j = add i i out C = j" ≡ beyond_in_all 5 1025 }
    ensures work { failure_in "in A 4096 4096 in B 4096 4096 out C = inner add mul (inner add mul A B) B" ≡ beyond_in_all 6 1126174885429250 }
    ensures words { failure_in "in A 16777216 in B 16777216 in C 16777216 in D 16777216 in E 16777216 in F 16777216 in G 16777216 in H 16777216 out X = 1" ≡ beyond_in_all 7 134217729 }
    ensures most_words { failure_in "in A 16777216 in B 16777216 in C 16777216 in D 16777216 in E 16777216 in F 16777216 in G 16777216 in H 16777215 out X = 1" ≡ None }
    ensures name_after_them { failure_in "in A 16777216 in B 16777216 in C 16777216 in D 16777216 in E 16777216 in F 16777216 in G 16777216 in H 16777216 out X = 1 out X = 1" ≡ at_name 9 1 }
{}

/// The shape of each statement.
pub fn shapes()
    ensures parts { shapes_in "in A 2 3 4 let P = psi <1> A let T = take <-1> A let D = drop <1 -1> A out C = reverse P"
        ≡ (2 ∷ 3 ∷ 4 ∷ []) ∷ (3 ∷ 4 ∷ []) ∷ (1 ∷ 3 ∷ 4 ∷ []) ∷ (1 ∷ 2 ∷ 4 ∷ []) ∷ (3 ∷ 4 ∷ []) ∷ [] }
    ensures axes { shapes_in "in A 2 3 4 let T = transpose A let P = permute <2 0 1> A let R = ravel A out C = reshape <4 6> A"
        ≡ (2 ∷ 3 ∷ 4 ∷ []) ∷ (4 ∷ 3 ∷ 2 ∷ []) ∷ (4 ∷ 2 ∷ 3 ∷ []) ∷ (24 ∷ []) ∷ (4 ∷ 6 ∷ []) ∷ [] }
    ensures products { shapes_in "in A 2 3 in B 3 4 let P = inner add mul A B let O = outer add A P let R = reduce add O out C = scan add R"
        ≡ (2 ∷ 3 ∷ []) ∷ (3 ∷ 4 ∷ []) ∷ (2 ∷ 4 ∷ []) ∷ (2 ∷ 3 ∷ 2 ∷ 4 ∷ []) ∷ (3 ∷ 2 ∷ 4 ∷ []) ∷ (3 ∷ 2 ∷ 4 ∷ []) ∷ [] }
{}
