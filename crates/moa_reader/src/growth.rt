// Laws of pools in the making: no body runs.
ghost use Rattle.std.specs.Prelude.{◌≡◌, ℕ, ℤ, List, ◌∷◌, ◌++◌, length};
ghost use Rattle.std.specs.List.{flat_map};
ghost use Rattle.text_tokens.specs.declared.token.Position.{Position};
ghost use Rattle.moa_tree.specs.declared.tree.Node.{Node};
ghost use Rattle.moa_tree.specs.declared.tree.Numbers.{Numbers};
ghost use Rattle.moa_tree.specs.Pool.{operands};
ghost use Rattle.moa_tree.specs.Pools.{Pools};
ghost use Rattle.moa_reader.specs.Build.{IsOpen, Keeps, with_node, with_numbers};
ghost use Rattle.moa_reader.specs.Frames.{places_in};

use moa_tree::{pools_grow, what_is_added};

/// What is added leaves what was there as it is. The position of a node that is added comes before those of its operands.
pub(crate) fn pools_keep()
    ensures node { (roots : List ℕ) (lists : List Numbers) (pools : Pools) (node : Node) (at : Position)
        → IsOpen roots lists pools → Keeps pools (with_node pools node at) }
    ensures numbers { (roots : List ℕ) (lists : List Numbers) (pools : Pools) (values : List ℤ)
        → IsOpen roots lists pools → Keeps pools (with_numbers pools values) }
    ensures places { (roots : List ℕ) (lists : List Numbers) (pools : Pools) (node : Node) (at : Position)
        → IsOpen (operands node ++ roots) lists pools
        → places_in (with_node pools node at) (length pools.nodes) ≡ at ∷ flat_map (places_in pools) (operands node) }
{
    pools_grow();
    what_is_added();
}
