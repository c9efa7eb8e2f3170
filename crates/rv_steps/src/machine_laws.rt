// The laws of the machine, for every proof that stands on it. The functions do nothing: their clauses
// are the laws.

ghost use Rattle.rv_steps.specs.Machine.{AccessAllowed, AtEnd, Config, IsAllowed, Goes, IsAt, IsValid, access_at, access_of, address, address_of, effect, is_allowed, next_step, line_step, with_result, register_at, value_at, with_value, with_register};
ghost use Rattle.rv_steps.specs.Effects.{immediate_value, three_value, upper_value, is_taken, load_width, load_value, store_width};
ghost use Rattle.rv_steps.specs.Stops.{Budget, End, Ends, Reaches, Stops, run};
ghost use Rattle.rv_line.specs.declared.line.Branch.{Branch};
ghost use Rattle.rv_line.specs.declared.line.Imm.{Imm};
ghost use Rattle.rv_line.specs.declared.line.Line.{Line};
ghost use Rattle.rv_line.specs.declared.line.Load.{Load};
ghost use Rattle.rv_line.specs.declared.line.Store.{Store};
ghost use Rattle.rv_line.specs.declared.line.Three.{Three};
ghost use Rattle.std.specs.Int.{Width, byte_len, w32, w64};
ghost use Rattle.std.specs.Prelude.{All, FitsSigned, List, Some, false, if◌then◌else◌, length, nat_lt, slice_get, slice_index, true, ℕ, ℤ, ◌*◌, ◌+◌, ◌<◌, ◌^◌, ◌≡◌, ◌≢◌, ◌==◌, ◌&&◌, ◌≤◌, ◌↔◌, ◌⊎◌};

/// Chains of steps compose, and their steps add up.
pub fn chains_compose()
    ensures steps { (lines : List Line) (base m n : ℕ) (c d e : Config) → Reaches lines base m c d
        → Reaches lines base n d e → Reaches lines base (m + n) c e }
{}

/// From one configuration there is one way on, and one end.
pub fn runs_are_determined()
    ensures steps { (lines : List Line) (base n : ℕ) (c d e : Config) → Reaches lines base n c d
        → Reaches lines base n c e → d ≡ e }
    ensures ends { (lines : List Line) (base m n : ℕ) (c d e : Config) → Ends lines base m c d
        → Ends lines base n c e → (m ≡ n) × (d ≡ e) }
    ensures stops { (lines : List Line) (base budget : ℕ) (c : Config) (e f : End) (d g : Config)
        → Stops lines base budget c e d → Stops lines base budget c f g → (e ≡ f) × (d ≡ g) }
{}

/// Each run stops, at what `run` computes, and a budget that is enough stays enough.
pub fn runs_stop()
    ensures computed { (lines : List Line) (base budget : ℕ) (c : Config)
        → Stops lines base budget c (run lines base budget c).end (run lines base budget c).last }
    ensures only { (lines : List Line) (base budget : ℕ) (c : Config) (end : End) (d : Config)
        → Stops lines base budget c end d
        → run lines base budget c ≡ record { end = end; last = d } }
    ensures enough { (lines : List Line) (base budget more : ℕ) (c : Config) (end : End) (d : Config)
        → budget ≤ more → end ≢ Budget → Stops lines base budget c end d
        → Stops lines base more c end d }
{}

/// A register holds what was last written to it, and register 0 is always 0. Clause `any` computes
/// where the numbers are numerals.
pub fn registers_are_kept()
    ensures zero { (registers : List ℕ) → register_at registers 0 ≡ 0 }
    ensures same { (registers : List ℕ) (r value : ℕ) → 0 < r → r < length registers
        → register_at (with_register registers r value) r ≡ value }
    ensures other { (registers : List ℕ) (r value other : ℕ) → other ≢ r
        → register_at (with_register registers r value) other ≡ register_at registers other }
    ensures any { (registers : List ℕ) (r value other : ℕ) → register_at (with_register registers r value) other
        ≡ (if nat_lt 0 r && (nat_lt r (length registers) && (other == r)) then value
        else register_at registers other) }
    ensures len { (registers : List ℕ) (r value : ℕ) → length (with_register registers r value)
        ≡ length registers }
{}

/// A word that was written is read back, and every other value and byte is as it was.
pub fn memory_is_kept()
    ensures same { (block : List ℕ) (place value : ℕ) → place + 8 ≤ length block → value < 2 ^ 64
        → value_at w64 (with_value w64 block place value) place ≡ value }
    ensures other_word { (block : List ℕ) (i j value : ℕ) → 8 * i + 8 ≤ length block → i ≢ j
        → value_at w64 (with_value w64 block (8 * i) value) (8 * j) ≡ value_at w64 block (8 * j) }
    ensures other { (w u : Width) (block : List ℕ) (place value other : ℕ) → place + byte_len w ≤ length block
        → (other + byte_len u ≤ place) ⊎ (place + byte_len w ≤ other)
        → value_at u (with_value w block place value) other ≡ value_at u block other }
    ensures byte { (w : Width) (block : List ℕ) (place value k : ℕ) → place + byte_len w ≤ length block
        → (k < place) ⊎ (place + byte_len w ≤ k)
        → slice_index (with_value w block place value) k ≡ slice_index block k }
    ensures len { (w : Width) (block : List ℕ) (place value : ℕ) → place + byte_len w ≤ length block
        → length (with_value w block place value) ≡ length block }
{}

/// A block of bytes stays one, and the words in it are below 2^64.
pub fn bytes_are_kept()
    ensures bytes { (w : Width) (block : List ℕ) (place value : ℕ) → All (λ b. b < 256) block
        → All (λ b. b < 256) (with_value w block place value) }
    ensures word { (block : List ℕ) (place : ℕ) → All (λ b. b < 256) block → value_at w64 block place < 2 ^ 64 }
{}

/// The tests before a step: where the end is, and which accesses fit.
pub fn tests_are_facts()
    ensures end { (lines : List Line) (base : ℕ) (c : Config)
        → (next_step lines base c ≡ AtEnd) ↔ (c.pc ≡ address_of (length lines)) }
    ensures access { (base extent at size : ℕ) → (is_allowed base extent at size
        ≡ true) ↔ IsAllowed base extent at size }
{}

/// A step at line k. At every form but loads, stores and branches `line_step` computes to the next
/// configuration.
pub fn lines_take_steps()
    ensures line { (lines : List Line) (base k : ℕ) (c : Config) (line : Line) → IsAt lines k line c
        → next_step lines base c ≡ line_step base k (Some line) c }
    ensures access { (lines : List Line) (base k : ℕ) (c : Config) (line : Line) → IsAt lines k line c
        → access_at lines c ≡ access_of line c.registers }
    ensures load { (lines : List Line) (base k : ℕ) (c : Config) (code : Load) (to : ℕ) (imm : ℤ) (pointer place : ℕ)
        → IsAt lines k (Line.Load code to imm pointer) c → address c.registers pointer imm ≡ base + place
        → IsAllowed base (length c.block) (base + place) (byte_len (load_width code))
        → next_step lines base c ≡ Goes (with_result c to (load_value code (value_at (load_width code) c.block place))) }
    ensures store { (lines : List Line) (base k : ℕ) (c : Config) (code : Store) (from : ℕ) (imm : ℤ) (pointer place : ℕ)
        → IsAt lines k (Line.Store code from imm pointer) c → address c.registers pointer imm ≡ base + place
        → IsAllowed base (length c.block) (base + place) (byte_len (store_width code))
        → next_step lines base c ≡ Goes (record c {
          pc = c.pc + 4;
          block = with_value (store_width code) c.block place (register_at c.registers from);
        }) }
    ensures taken { (lines : List Line) (base k : ℕ) (c : Config) (code : Branch) (left right target : ℕ)
        → IsAt lines k (Line.Branch code left right target) c
        → is_taken code (register_at c.registers left) (register_at c.registers right) ≡ true
        → next_step lines base c ≡ Goes (record c { pc = address_of target }) }
    ensures not_taken { (lines : List Line) (base k : ℕ) (c : Config) (code : Branch) (left right target : ℕ)
        → IsAt lines k (Line.Branch code left right target) c
        → is_taken code (register_at c.registers left) (register_at c.registers right) ≡ false
        → next_step lines base c ≡ Goes (record c { pc = c.pc + 4 }) }
{}

/// Every step is the effect of the line at the pc.
pub fn steps_are_effects()
    ensures line { (lines : List Line) (base : ℕ) (c d : Config) → next_step lines base c ≡ Goes d
        → (k : ℕ) × (line : Line) × IsAt lines k line c
        × AccessAllowed base (length c.block) (access_of line c.registers)
        × (d ≡ effect base line c) }
{}

/// Each mnemonic gives a word, from words.
pub fn words_give_words()
    ensures three { (code : Three) (a b : ℕ) → a < 2 ^ 64 → b < 2 ^ 64 → three_value code a b < 2 ^ 64 }
    ensures immediate { (code : Imm) (a : ℕ) (imm : ℤ) → a < 2 ^ 64 → FitsSigned w32 imm
        → immediate_value code a imm < 2 ^ 64 }
    ensures upper { (imm : ℕ) → upper_value imm < 2 ^ 64 }
    ensures load { (code : Load) (block : List ℕ) (place : ℕ) → All (λ b. b < 256) block
        → load_value code (value_at (load_width code) block place) < 2 ^ 64 }
{}

/// Steps keep how many registers and bytes there are, and that they hold words and bytes.
pub fn steps_keep_configurations()
    ensures step { (lines : List Line) (base : ℕ) (c d : Config) → next_step lines base c ≡ Goes d
        → (length d.registers ≡ length c.registers) × (length d.block ≡ length c.block) }
    ensures chain { (lines : List Line) (base n : ℕ) (c d : Config) → Reaches lines base n c d
        → (length d.registers ≡ length c.registers) × (length d.block ≡ length c.block) }
    ensures valid { (lines : List Line) (base : ℕ) (c d : Config) → length lines < 2 ^ 32
        → ((k : ℕ) (code : Imm) (to from : ℕ) (imm : ℤ)
        → slice_get lines k ≡ Some (Line.Imm code to from imm) → FitsSigned w32 imm)
        → next_step lines base c ≡ Goes d → IsValid c → IsValid d }
{}
