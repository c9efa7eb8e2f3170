// Laws over the trees for which pools stand: no body runs.
ghost use Rattle.std.specs.Prelude.{◌≡◌, ◌<◌, ℕ, ℤ, List, ◌∷◌, ◌==◌, length, map, slice_index_or};
ghost use Rattle.std.specs.List.{AllByRecursion, count_by, flat_map};
ghost use Rattle.moa_tree.specs.declared.tree.Node.{Node as PoolNode};
ghost use Rattle.moa_tree.specs.Pool.{IsOrdered, expr_of, operands, tree_at, trees, walk_of};
ghost use Rattle.moa_tree.specs.Pools.{IsProgram, Pools, tree_of, walk};
ghost use Rattle.moa_tree.specs.Subexpressions.{subexpressions, subexpressions_of};

/// The tree of a node is its operator over the trees of its operands.
pub fn node_trees()
    ensures { (pool : List ℤ) (nodes : List PoolNode) → IsOrdered nodes
        → (number : ℕ) (other : PoolNode) → number < length nodes
        → tree_at (trees pool nodes) number
        ≡ expr_of pool (trees pool nodes) (slice_index_or nodes number other) }
{}

/// The walk of a node goes on with the walks of its operands, and goes over the expressions in its tree in prefix order.
/// That of a program has each of its nodes once, and goes over the expressions of its tree.
pub fn walks_in_order()
    ensures step { (nodes : List PoolNode) → IsOrdered nodes
        → (number : ℕ) (other : PoolNode) → number < length nodes
        → walk_of nodes number ≡ number ∷ flat_map (walk_of nodes) (operands (slice_index_or nodes number other)) }
    ensures once { (pools : Pools) → IsProgram pools → (number : ℕ) → number < length pools.nodes
        → count_by (λ other. other == number) (walk pools) ≡ 1 }
    ensures within { (pools : Pools) → IsProgram pools
        → AllByRecursion (λ number. number < length pools.nodes) (walk pools) }
    ensures expressions { (pools : Pools) → IsProgram pools
        → map (tree_at (trees pools.numbers pools.nodes)) (walk pools) ≡ flat_map subexpressions_of (tree_of pools).statements }
    ensures each { (pools : Pools) → IsProgram pools → (number : ℕ) → number < length pools.nodes
        → map (tree_at (trees pools.numbers pools.nodes)) (walk_of pools.nodes number)
        ≡ subexpressions (tree_at (trees pools.numbers pools.nodes) number) }
{}
