// The laws of the loads and stores of a run. The functions do nothing: their clauses are the laws.

ghost use Rattle.rv_steps.specs.Accesses.{Leads, LeadsWithin, accesses_of, touched};
ghost use Rattle.rv_steps.specs.Good.{Serves, is_fine_access};
ghost use Rattle.rv_steps.specs.Machine.{Access, Config, Goes, IsAt, access_at, access_of, next_step};
ghost use Rattle.rv_steps.specs.Stops.{Reaches};
ghost use Rattle.rv_line.specs.declared.assembly.Header.{Header};
ghost use Rattle.rv_line.specs.declared.line.Line.{Line};
ghost use Rattle.shapes_core.specs.declared.area.Area.{Area};
ghost use Rattle.std.specs.Prelude.{All, Bool, IsTrue, List, [], ℕ, ℤ, ◌+◌, ◌++◌, ◌<◌, ◌≡◌, ◌≤◌};

/// The loads and stores of chains that follow one another stand in that order, and what is said of all of them
/// is said of those of each chain.
pub fn runs_lead()
    ensures none { (lines : List Line) (base : ℕ) (c : Config) → Leads lines base 0 c c [] }
    ensures first { (lines : List Line) (base n : ℕ) (c d e : Config) (rest : List Access) → next_step lines base c ≡ Goes d
        → Leads lines base n d e rest
        → Leads lines base (n + 1) c e (touched (access_at lines c) ++ rest) }
    ensures line { (lines : List Line) (base k n : ℕ) (line : Line) (c d e : Config) (rest : List Access) → IsAt lines k line c
        → next_step lines base c ≡ Goes d → Leads lines base n d e rest
        → Leads lines base (n + 1) c e (touched (access_of line c.registers) ++ rest) }
    ensures steps { (lines : List Line) (base m n : ℕ) (c d e : Config) (one two : List Access) → Leads lines base m c d one
        → Leads lines base n d e two → Leads lines base (m + n) c e (one ++ two) }
    ensures add { (lines : List Line) (base m n : ℕ) (c d : Config) → Reaches lines base m c d
        → accesses_of lines base (m + n) c ≡ accesses_of lines base m c ++ accesses_of lines base n d }
    ensures front { (lines : List Line) (base m n : ℕ) (test : Access → Bool) (c d : Config) → Reaches lines base m c d
        → All (λ a. IsTrue (test a)) (accesses_of lines base (m + n) c)
        → All (λ a. IsTrue (test a)) (accesses_of lines base m c) }
    ensures back { (lines : List Line) (base m n : ℕ) (test : Access → Bool) (c d : Config) → Reaches lines base m c d
        → All (λ a. IsTrue (test a)) (accesses_of lines base (m + n) c)
        → All (λ a. IsTrue (test a)) (accesses_of lines base n d) }
    ensures each { (lines : List Line) (base k n : ℕ) (test : Access → Bool) (c d e : Config) → k < n
        → Reaches lines base k c d → Reaches lines base n c e
        → All (λ a. IsTrue (test a)) (accesses_of lines base n c)
        → All (λ a. IsTrue (test a)) (touched (access_at lines d)) }
{}

/// The same where there are at most so many steps.
pub fn runs_lead_within()
    ensures none { (lines : List Line) (base : ℕ) (c : Config) → LeadsWithin lines base 0 c c [] }
    ensures first { (lines : List Line) (base n : ℕ) (c d e : Config) (rest : List Access) → next_step lines base c ≡ Goes d
        → LeadsWithin lines base n d e rest
        → LeadsWithin lines base (n + 1) c e (touched (access_at lines c) ++ rest) }
    ensures line { (lines : List Line) (base k n : ℕ) (line : Line) (c d e : Config) (rest : List Access) → IsAt lines k line c
        → next_step lines base c ≡ Goes d → LeadsWithin lines base n d e rest
        → LeadsWithin lines base (n + 1) c e (touched (access_of line c.registers) ++ rest) }
    ensures steps { (lines : List Line) (base m n : ℕ) (c d e : Config) (one two : List Access) → LeadsWithin lines base m c d one
        → LeadsWithin lines base n d e two → LeadsWithin lines base (m + n) c e (one ++ two) }
    ensures exact { (lines : List Line) (base n : ℕ) (c d : Config) (accesses : List Access) → Leads lines base n c d accesses
        → LeadsWithin lines base n c d accesses }
    ensures more { (lines : List Line) (base m n : ℕ) (c d : Config) (accesses : List Access) → m ≤ n
        → LeadsWithin lines base m c d accesses → LeadsWithin lines base n c d accesses }
{}

/// A run that serves its caller loads and stores only where it may, at each of its steps.
pub fn serving_runs_are_fine()
    ensures each { (header : Header) (areas : List Area) (lines : List Line) (demand : List (List ℤ) → List (List ℤ))
        (base : ℕ) (c : Config) (run : Serves header areas lines demand base c) (k : ℕ) (d : Config)
        → k < run.steps → Reaches lines base k c d
        → IsTrue (is_fine_access header areas base (access_at lines d)) }
{}
