// Laws of the pools of a program: no body runs.
ghost use Rattle.std.specs.List.{AllByRecursion, flat_map};
ghost use Rattle.std.specs.Prelude.{◌≡◌, ◌<◌, ℕ, ℤ, List, Some, [], ◌∷◌, ◌++◌, All, length, slice_get};
ghost use Rattle.text_tokens.specs.declared.token.Position.{Position};
ghost use Rattle.moa_tree.specs.declared.tree.Node.{Node as PoolNode};
ghost use Rattle.moa_tree.specs.declared.tree.Numbers.{Numbers as PoolNumbers};
ghost use Rattle.moa_tree.specs.declared.tree.Statement.{Statement as PoolStatement};
ghost use Rattle.moa_tree.specs.Expr.{Expr};
ghost use Rattle.moa_tree.specs.Pool.{IsOrdered, expr_of, item_of, items_of, list_at, operands, tree_at, trees, walk_of};
ghost use Rattle.moa_tree.specs.Pools.{AreThere, IsProgram, Pools, extents_of, lists_of, nodes_of};
ghost use Rattle.moa_tree.specs.Positions.{positions_at};

/// What a node or a statement of a program names may be asked for: each of its lists lies in the pool, and each of
/// its nodes is there, the operands of a node before it.
pub fn parts_are_there()
    ensures lists { (pools : Pools) (number : ℕ) (node : PoolNode) → IsProgram pools
        → slice_get pools.nodes number ≡ Some node
        → AllByRecursion (AreThere pools.numbers) (lists_of node) }
    ensures operands { (pools : Pools) (number : ℕ) (node : PoolNode) → IsProgram pools
        → slice_get pools.nodes number ≡ Some node
        → AllByRecursion (λ operand. (operand < number) × (operand < length pools.nodes)) (operands node) }
    ensures extents { (pools : Pools) (place : ℕ) (statement : PoolStatement) → IsProgram pools
        → slice_get pools.statements place ≡ Some statement
        → AllByRecursion (AreThere pools.numbers) (extents_of statement) }
    ensures nodes { (pools : Pools) (place : ℕ) (statement : PoolStatement) → IsProgram pools
        → slice_get pools.statements place ≡ Some statement
        → AllByRecursion (λ number. number < length pools.nodes) (nodes_of statement) }
{}

/// What a node or a statement names is all that it reads: over other pools that have the same lists and the same
/// trees there, it is the same expression or statement.
pub fn nodes_are_local()
    ensures node { (pool other : List ℤ) (these those : List Expr) (node : PoolNode)
        → AllByRecursion (λ list. list_at pool list ≡ list_at other list) (lists_of node)
        → AllByRecursion (λ operand. tree_at these operand ≡ tree_at those operand) (operands node)
        → expr_of pool these node ≡ expr_of other those node }
    ensures statement { (pool other : List ℤ) (these those : List Expr) (statement : PoolStatement)
        → AllByRecursion (λ list. list_at pool list ≡ list_at other list) (extents_of statement)
        → AllByRecursion (λ number. tree_at these number ≡ tree_at those number) (nodes_of statement)
        → item_of pool these statement ≡ item_of other those statement }
{}

/// Pools grow at their ends. What is added has its meaning by what was there.
pub fn what_is_added()
    ensures list { (numbers values : List ℤ)
        → list_at (numbers ++ values) (record { start = length numbers; count = length values }) ≡ values }
    ensures tree { (numbers : List ℤ) (nodes : List PoolNode) (node : PoolNode)
        → tree_at (trees numbers (nodes ++ node ∷ [])) (length nodes) ≡ expr_of numbers (trees numbers nodes) node }
    ensures walk { (nodes : List PoolNode) (node : PoolNode)
        → walk_of (nodes ++ node ∷ []) (length nodes) ≡ length nodes ∷ flat_map (walk_of nodes) (operands node) }
    ensures position { (positions : List Position) (at : Position) (nodes : List PoolNode) (node : PoolNode)
        → length positions ≡ length nodes → IsOrdered nodes
        → AllByRecursion (λ operand. operand < length nodes) (operands node)
        → positions_at (positions ++ at ∷ []) (walk_of (nodes ++ node ∷ []) (length nodes))
        ≡ at ∷ flat_map (λ operand. positions_at positions (walk_of nodes operand)) (operands node) }
{}

/// While pools grow, what was there keeps its meaning.
pub fn pools_grow()
    ensures list { (numbers more : List ℤ) (list : PoolNumbers)
        → AreThere numbers list → list_at (numbers ++ more) list ≡ list_at numbers list }
    ensures trees { (numbers more : List ℤ) (nodes : List PoolNode)
        → All (λ node. AllByRecursion (AreThere numbers) (lists_of node)) nodes
        → trees (numbers ++ more) nodes ≡ trees numbers nodes }
    ensures behind { (numbers : List ℤ) (nodes others : List PoolNode)
        → (number : ℕ) → number < length nodes
        → tree_at (trees numbers (nodes ++ others)) number ≡ tree_at (trees numbers nodes) number }
    ensures tree { (numbers more : List ℤ) (nodes others : List PoolNode)
        → All (λ node. AllByRecursion (AreThere numbers) (lists_of node)) nodes
        → (number : ℕ) → number < length nodes
        → tree_at (trees (numbers ++ more) (nodes ++ others)) number ≡ tree_at (trees numbers nodes) number }
    ensures walk { (nodes others : List PoolNode) (number : ℕ) → number < length nodes
        → walk_of (nodes ++ others) number ≡ walk_of nodes number }
    ensures position { (positions more : List Position) (nodes others : List PoolNode)
        → length positions ≡ length nodes → IsOrdered nodes
        → (number : ℕ) → number < length nodes
        → positions_at (positions ++ more) (walk_of (nodes ++ others) number)
        ≡ positions_at positions (walk_of nodes number) }
    ensures positions { (positions more : List Position) (nodes others : List PoolNode)
        → length positions ≡ length nodes → IsOrdered nodes
        → (numbers : List ℕ) → AllByRecursion (λ number. number < length nodes) numbers
        → positions_at (positions ++ more) (flat_map (walk_of (nodes ++ others)) numbers)
        ≡ positions_at positions (flat_map (walk_of nodes) numbers) }
    ensures statement { (numbers more : List ℤ) (nodes others : List PoolNode) (statement : PoolStatement)
        → All (λ node. AllByRecursion (AreThere numbers) (lists_of node)) nodes
        → AllByRecursion (AreThere numbers) (extents_of statement)
        → AllByRecursion (λ number. number < length nodes) (nodes_of statement)
        → item_of (numbers ++ more) (trees (numbers ++ more) (nodes ++ others)) statement
        ≡ item_of numbers (trees numbers nodes) statement }
    ensures statements { (numbers more : List ℤ) (nodes others : List PoolNode) (statements : List PoolStatement)
        → All (λ node. AllByRecursion (AreThere numbers) (lists_of node)) nodes
        → All (λ statement. AllByRecursion (AreThere numbers) (extents_of statement)) statements
        → All (λ statement. AllByRecursion (λ number. number < length nodes) (nodes_of statement)) statements
        → items_of (numbers ++ more) (nodes ++ others) statements ≡ items_of numbers nodes statements }
{}
