// Of what form the lines of nests are, as clauses of functions that do nothing.
ghost use Rattle.loop_ir.specs.Steps.{Steps};
ghost use Rattle.register_map.specs.Homes.{Given};
ghost use Rattle.rv_emit.specs.Emitting.{program};
ghost use Rattle.rv_emit.specs.Pricing.{are_base};
ghost use Rattle.rv_emit.specs.Simulating.{AreHomed};
ghost use Rattle.rv_line.specs.Fits.{FitLines};
ghost use Rattle.rv_steps.specs.Kinds.{is_base, is_free};
ghost use Rattle.std.specs.List.{list_all};
ghost use Rattle.std.specs.Prelude.{IsTrue, List, length, ℕ, ◌≤◌};

use rv_steps::{constant_laws, run_laws};

/// The lines fit their forms where they are so few that each jump reaches.
pub fn lines_fit()
    ensures { (nests : List (Steps × Given)) (spill : ℕ) → AreHomed spill nests
        → length (program spill nests 0).lines ≤ 262143
        → FitLines (length (program spill nests 0).lines) 0 (program spill nests 0).lines }
{
    constant_laws::constants_fit();
    run_laws::pieces_fit();
}

/// They write no register that is given back.
pub fn lines_are_free()
    ensures { (nests : List (Steps × Given)) (spill : ℕ) → AreHomed spill nests
        → IsTrue (list_all is_free (program spill nests 0).lines) }
{
    constant_laws::constants_fit();
}

/// Those of the M extension come only of products, quotients and remainders.
pub fn lines_are_base()
    ensures { (nests : List (Steps × Given)) (spill : ℕ)
        → IsTrue (list_all (λ nest. are_base nest.0) nests)
        → IsTrue (list_all is_base (program spill nests 0).lines) }
{
    constant_laws::constants_fit();
}
