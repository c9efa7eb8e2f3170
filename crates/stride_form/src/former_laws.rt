// The laws of operational formers, as clauses of functions that do nothing: each makes what the first three rules make of what
// its former does.
ghost use Rattle.std.specs.Prelude.{◌≡◌, ◌++◌, ℕ, ℤ, pos, List, [], ◌∷◌, drop, map, reverse, slice_index_or, take};
ghost use Rattle.std.specs.List.{insert};
ghost use Rattle.moa_tree.specs.declared.operator.Op.{Op as Operator};
ghost use Rattle.moa_tree.specs.declared.operator.Unary.{Unary as UnaryOperator};
ghost use Rattle.moa_tree.specs.Axes.{each_place, on_axis, own_index, restored};
ghost use Rattle.normal_form.specs.declared.entry.Entry.{Entry as AnEntry};
ghost use Rattle.normal_form.specs.declared.entry.Entry.TheVariants.{At};
ghost use Rattle.normal_form.specs.declared.term.Bind.{Bind as ABinding};
ghost use Rattle.normal_form.specs.Formers.{Former, Making, binding, by_offset, digiting, flattening, folding, joining, just, on_both, on_one};
ghost use Rattle.normal_form.specs.Formers.{reshaping, spreading, turning, unflattening};
ghost use Rattle.normal_form.specs.Forms.{Lit, Index, Get, Un, Bin};
ghost use Rattle.normal_form.specs.Moves.{behind_entry, minus_entry, mirrored_entry, raised, remaining_entry, taken_entry, variables};
ghost use Rattle.stride_form.specs.declared.facts.Fact.{Fact as AFact};
ghost use Rattle.stride_form.specs.Facts.{Facts, fact_of, knowing, resolved, starting};
ghost use Rattle.stride_form.specs.Follows.{AreVaried, Commutes, CommutesAt, CommutesTo, CommutesWith, Follows, FollowsWith, IsVaried};
ghost use Rattle.stride_form.specs.OpFormers.{OpFormer, OpMaking, op_binding, op_both, op_by_offset, op_digiting, op_flattening, op_folding};
ghost use Rattle.stride_form.specs.OpFormers.{op_joining, op_just, op_loading, op_one, op_reshaping, op_spreading, op_turning, op_unflattening};
ghost use Rattle.stride_form.specs.Rules.{needed, operational_on, resolved_bind};

/// What is known may be put in the place of variables before a move of entries or behind it.
pub fn moves_commute()
    ensures add { (by : ℤ) → CommutesAt (raised by) }
    ensures subtracted { (from : ℤ) → CommutesAt (minus_entry from) }
    ensures taken { (k : ℤ) (n : ℕ) → CommutesAt (taken_entry k n) }
    ensures remaining { (k : ℤ) (n : ℕ) → CommutesAt (remaining_entry k n) }
    ensures mirrored { (n : ℕ) → CommutesAt (mirrored_entry n) }
    ensures behind { (n : ℕ) → CommutesAt (behind_entry n) }
    ensures one { (place : ℕ) → CommutesTo (λ entries. slice_index_or entries place (At (pos 0))) }
    ensures all { Commutes (λ entries. entries) }
    ensures none { Commutes (λ entries. []) }
    ensures front { (n : ℕ) → Commutes (take n) }
    ensures back { (n : ℕ) → Commutes (drop n) }
    ensures own { (shape : List ℕ) → Commutes (own_index shape) }
    ensures turned_round { Commutes (λ entries. reverse entries) }
    ensures constants { (list : List ℤ) → Commutes (λ entries. map At list) }
    ensures appended { (first second : List AnEntry → List AnEntry) → Commutes first → Commutes second
        → Commutes (λ entries. first entries ++ second entries) }
    ensures selected { (list : List ℤ) → Commutes (λ entries. map At list ++ entries) }
    ensures permuted { (permutation : List ℕ) → Commutes (restored (At (pos 0)) permutation) }
    ensures in_a_row { (first second : List AnEntry → List AnEntry) → Commutes first → Commutes second
        → Commutes (λ entries. second (first entries)) }
    ensures each { (f : ℤ → ℕ → AnEntry → AnEntry) (list : List ℤ) (shape : List ℕ) → ((k : ℤ) (n : ℕ) → CommutesAt (f k n))
        → Commutes (each_place f list shape) }
    ensures axis { (f : ℕ → AnEntry → AnEntry) (axis : ℕ) (shape : List ℕ) → ((n : ℕ) → CommutesAt (f n))
        → Commutes (on_axis axis f shape) }
    ensures put { (axis : ℕ) (shape : List ℕ) → CommutesWith (λ entries entry. on_axis axis (λ extent old. entry) shape entries) }
    ensures inserted { (axis : ℕ) → CommutesWith (λ entries entry. insert entries axis entry) }
    ensures behind_all { (axes : ℕ) → CommutesWith (λ entries entry. take axes entries ++ entry ∷ []) }
    ensures before_all { (axes : ℕ) → CommutesWith (λ entries entry. entry ∷ drop axes entries) }
    ensures between { (first second : List AnEntry → List AnEntry) → Commutes first → Commutes second
        → CommutesWith (λ entries entry. first entries ++ entry ∷ second entries) }
{}

/// Facts of which none leads to a constant stay so where a variable is bound or runs over a range, and those of a job are so.
pub fn jobs_keep_varied()
    ensures job { (region : List (ℕ × ℕ)) → AreVaried (starting region) }
    ensures binding { (facts : Facts) (var : ℕ) (bind : ABinding) → AreVaried facts → AreVaried (knowing facts var (fact_of facts bind)) }
    ensures more { (facts : Facts) (var : ℕ) (fact : AFact) → AreVaried facts → IsVaried fact → AreVaried (knowing facts var fact) }
    ensures variables { (region : List (ℕ × ℕ)) (axes : ℕ) → map (resolved (starting region)) (variables axes) ≡ variables axes }
{}

/// Constants, index numbers, stored arrays, and operators on operands whose entries are moved.
pub fn operators_follow()
    ensures constant { (value : ℤ) → Follows (λ entries. just (Lit value)) (λ entries. op_just (Lit value)) }
    ensures numbers { (pick : List AnEntry → AnEntry) → CommutesTo pick
        → Follows (λ entries. just (Index (pick entries))) (λ entries. op_just (Index (pick entries))) }
    ensures stored { (area : ℕ) (shape : List ℕ)
        → Follows (λ entries. just (Get (record { area = area; shape = shape; at = entries }))) (op_loading area shape) }
    ensures one { (op : UnaryOperator) (of : Former) (op_of : OpFormer) → Follows of op_of
        → Follows (λ entries. on_one (Un op) (of entries)) (λ entries. op_one (Un op) (op_of entries)) }
    ensures two { (op : Operator) (left right : Former) (op_left op_right : OpFormer) → Follows left op_left → Follows right op_right
        → Follows (λ entries. on_both (Bin op) (left entries) (right entries))
        (λ entries. op_both (Bin op) (op_left entries) (op_right entries)) }
    ensures moved { (of : Former) (op_of : OpFormer) (move : List AnEntry → List AnEntry) → Commutes move → Follows of op_of
        → Follows (λ entries. of (move entries)) (λ entries. op_of (move entries)) }
{}

/// The same with one entry more, as of a variable that is bound: what does not look at it, operators, and a move that brings it in.
pub fn items_follow()
    ensures alone { (of : Former) (op_of : OpFormer) → Follows of op_of
        → FollowsWith (λ entries entry. of entries) (λ entries entry. op_of entries) }
    ensures one { (op : UnaryOperator) (item : List AnEntry → AnEntry → Making) (op_item : List AnEntry → AnEntry → OpMaking)
        → FollowsWith item op_item
        → FollowsWith (λ entries entry. on_one (Un op) (item entries entry)) (λ entries entry. op_one (Un op) (op_item entries entry)) }
    ensures two { (op : Operator) (left right : List AnEntry → AnEntry → Making) (op_left op_right : List AnEntry → AnEntry → OpMaking)
        → FollowsWith left op_left → FollowsWith right op_right
        → FollowsWith (λ entries entry. on_both (Bin op) (left entries entry) (right entries entry))
        (λ entries entry. op_both (Bin op) (op_left entries entry) (op_right entries entry)) }
    ensures moved { (of : Former) (op_of : OpFormer) (move : List AnEntry → AnEntry → List AnEntry) → CommutesWith move → Follows of op_of
        → FollowsWith (λ entries entry. of (move entries entry)) (λ entries entry. op_of (move entries entry)) }
{}

/// A binding of entries that is resolved as they are.
pub fn bindings_follow()
    ensures { (bind : List AnEntry → ABinding) (item : List AnEntry → AnEntry → Making) (op_item : List AnEntry → AnEntry → OpMaking)
        → ((facts : Facts) (entries : List AnEntry) → resolved_bind facts (bind entries) ≡ bind (map (resolved facts) entries))
        → FollowsWith item op_item
        → Follows (λ entries. binding (bind entries) (item entries)) (λ entries. op_binding (bind entries) (op_item entries)) }
{}

/// A turn of any axis, by the entry on it and what is made with another entry in its place.
pub fn turns_follow()
    ensures any { (by n : ℕ) (pick : List AnEntry → AnEntry) (item : List AnEntry → AnEntry → Making) (op_item : List AnEntry → AnEntry → OpMaking)
        → CommutesTo pick → FollowsWith item op_item
        → Follows (λ entries. turning by n (pick entries) (item entries)) (λ entries. op_turning by n (pick entries) (op_item entries)) }
    ensures axis { (by n axis : ℕ) (shape : List ℕ) (of : Former) (op_of : OpFormer) → Follows of op_of
        → Follows
        (λ entries. turning by n (slice_index_or entries axis (At (pos 0))) (λ entry. of (on_axis axis (λ extent old. entry) shape entries)))
        (λ entries. op_turning by n (slice_index_or entries axis (At (pos 0)))
        (λ entry. op_of (on_axis axis (λ extent old. entry) shape entries))) }
{}

/// A join on any axis, by the entry on it and the two parts.
pub fn joins_follow()
    ensures any { (n m : ℕ) (pick : List AnEntry → AnEntry) (left right : Former) (op_left op_right : OpFormer)
        → CommutesTo pick → Follows left op_left → Follows right op_right
        → Follows (λ entries. joining n m (pick entries) (left entries) (right entries))
        (λ entries. op_joining n m (pick entries) (op_left entries) (op_right entries)) }
    ensures axis { (n m axis : ℕ) (shape : List ℕ) (left right : Former) (op_left op_right : OpFormer)
        → Follows left op_left → Follows right op_right
        → Follows
        (λ entries. joining n m (slice_index_or entries axis (At (pos 0))) (left entries) (right (on_axis axis behind_entry shape entries)))
        (λ entries. op_joining n m (slice_index_or entries axis (At (pos 0)))
        (op_left entries) (op_right (on_axis axis behind_entry shape entries))) }
{}

/// A fold over n items, by what is made of each.
pub fn folds_follow()
    ensures any { (op : Operator) (n : ℕ) (item : List AnEntry → AnEntry → Making) (op_item : List AnEntry → AnEntry → OpMaking)
        → FollowsWith item op_item
        → Follows (λ entries. folding op n (item entries)) (λ entries. op_folding op n (op_item entries)) }
    ensures axis { (op : Operator) (n axis : ℕ) (of : Former) (op_of : OpFormer) → Follows of op_of
        → Follows (λ entries. folding op n (λ entry. of (insert entries axis entry)))
        (λ entries. op_folding op n (λ entry. op_of (insert entries axis entry))) }
{}

/// Another shape, and the steps to it: the offset of entries, a digit of an offset, and the entries of an offset.
pub fn reshapes_follow()
    ensures flat { (shape : List ℕ) (item : List AnEntry → AnEntry → Making) (op_item : List AnEntry → AnEntry → OpMaking)
        → FollowsWith item op_item
        → Follows (λ entries. flattening shape entries (item entries)) (λ entries. op_flattening shape entries (op_item entries)) }
    ensures digit { (weight n : ℕ) (pick : List AnEntry → AnEntry)
        (item : List AnEntry → AnEntry → Making) (op_item : List AnEntry → AnEntry → OpMaking)
        → CommutesTo pick → FollowsWith item op_item
        → Follows (λ entries. digiting (pick entries) weight n (item entries))
        (λ entries. op_digiting (pick entries) weight n (op_item entries)) }
    ensures spread { (shape : List ℕ) (of : Former) (op_of : OpFormer) → Follows of op_of
        → FollowsWith (λ entries flat. spreading shape flat of) (λ entries flat. op_spreading shape flat op_of) }
    ensures found { (shape : List ℕ) (of : Former) (op_of : OpFormer) → Follows of op_of
        → FollowsWith (λ entries flat. unflattening shape flat of) (λ entries flat. op_unflattening shape flat op_of) }
    ensures by_offset { (shape operand : List ℕ) (of : Former) (op_of : OpFormer) → Follows of op_of
        → Follows (λ entries. by_offset shape operand entries of) (λ entries. op_by_offset shape operand entries op_of) }
    ensures whole { (shape operand : List ℕ) (of : Former) (op_of : OpFormer) → Follows of op_of
        → Follows (λ entries. reshaping shape operand entries of) (λ entries. op_reshaping shape operand entries op_of) }
{}

/// The operational form of a job is what its operational former makes at the job's variables, without what is not needed.
pub fn jobs_follow()
    ensures same { (former : Former) (op_former : OpFormer) (region : List (ℕ × ℕ)) (axes : ℕ) → Follows former op_former
        → operational_on region (former (variables axes) axes).0 ≡ needed (op_former (variables axes) (starting region) axes).0 }
    ensures ends { (former : Former) (op_former : OpFormer) (region : List (ℕ × ℕ)) (axes : ℕ) → Follows former op_former
        → (former (variables axes) axes).1 ≡ (op_former (variables axes) (starting region) axes).1 }
{}
