// Laws of the lines between homes and registers, as clauses of functions that do nothing.
ghost use Rattle.rv_emit.specs.Handling.{Fetching, Putting, Repaying};
ghost use Rattle.rv_emit.specs.Simulating.{Settling};

use crate::machine::machine_is_known;

/// A home is fetched into a register, x28 to x30 for a spill word.
pub fn homes_are_fetched()
    ensures { Fetching }
{
    machine_is_known();
}

/// A home is put from its own register, or from x30 for a spill word. That register holds a word,
/// and no other home changes.
pub fn homes_are_put()
    ensures { Putting }
{
    machine_is_known();
}

/// A home adds the words that it owes.
pub fn homes_repay()
    ensures { Repaying }
{
    machine_is_known();
}

/// All that is owed is brought to its homes: the same state is shown, and nothing is owed.
pub fn debts_are_settled()
    ensures { Settling }
{
    machine_is_known();
}
