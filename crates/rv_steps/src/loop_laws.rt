// The laws of loops: turns that each keep an invariant are one chain. The functions do nothing: their clauses are
// the laws.

ghost use Rattle.rv_steps.specs.Accesses.{Leads, LeadsWithin};
ghost use Rattle.rv_steps.specs.Frames.{Spares};
ghost use Rattle.rv_steps.specs.Machine.{Access, Config};
ghost use Rattle.rv_line.specs.declared.line.Line.{Line};
ghost use Rattle.std.specs.List.{flat_map, range_with_len};
ghost use Rattle.std.specs.Prelude.{All, Bool, IsTrue, List, [], ℕ, ◌*◌, ◌+◌, ◌++◌, ◌<◌, ◌≡◌};

/// What holds between the turns of a loop: of what is given, the number of turns that were made, the
/// configuration, and the loads and stores so far.
pub trait Invariant {
    ghost Given: { Type 0 };

    ghost holds: { Given → ℕ → Config → List Access → Type 0 };
}

/// Turns of so many steps each, or of at most so many, that keep an invariant are one chain that keeps it.
pub fn turns_lead<I: Invariant>()
    ensures exact { (given : I.Given) (lines : List Line) (base size turns : ℕ) (c : Config)
        → ((k : ℕ) (d : Config) (before : List Access) → k < turns → I.holds given k d before
        → (e : Config) × (made : List Access) × Leads lines base size d e made
        × I.holds given (k + 1) e (before ++ made)) → I.holds given 0 c []
        → (d : Config) × (accesses : List Access) × Leads lines base (turns * size) c d accesses
        × I.holds given turns d accesses }
    ensures within { (given : I.Given) (lines : List Line) (base most turns : ℕ) (c : Config)
        → ((k : ℕ) (d : Config) (before : List Access) → k < turns → I.holds given k d before
        → (e : Config) × (made : List Access) × LeadsWithin lines base most d e made
        × I.holds given (k + 1) e (before ++ made)) → I.holds given 0 c []
        → (d : Config) × (accesses : List Access) × LeadsWithin lines base (turns * most) c d accesses
        × I.holds given turns d accesses }
{}

/// The loads and stores of turns, in order. Where each turn's configuration and its own are known, so are those
/// of the loop.
pub fn turns_are_in_order()
    ensures tour { (lines : List Line) (base size turns : ℕ) (at : ℕ → Config) (made : ℕ → List Access)
        → ((k : ℕ) → k < turns → Leads lines base size (at k) (at (k + 1)) (made k))
        → Leads lines base (turns * size) (at 0) (at turns) (flat_map made (range_with_len 0 turns)) }
    ensures more { (made : ℕ → List Access) (turns : ℕ) → flat_map made (range_with_len 0 (turns + 1))
        ≡ flat_map made (range_with_len 0 turns) ++ made turns }
    ensures all { (test : Access → Bool) (made : ℕ → List Access) (turns : ℕ)
        → ((k : ℕ) → k < turns → All (λ a. IsTrue (test a)) (made k))
        → All (λ a. IsTrue (test a)) (flat_map made (range_with_len 0 turns)) }
    ensures spared { (base place : ℕ) (made : ℕ → List Access) (turns : ℕ)
        → ((k : ℕ) → k < turns → All (Spares base place) (made k))
        → All (Spares base place) (flat_map made (range_with_len 0 turns)) }
{}
