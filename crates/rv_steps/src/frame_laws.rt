// The laws of what steps and runs leave as it was, and of what a step depends on. The functions do nothing: their
// clauses are the laws.

ghost use Rattle.rv_steps.specs.Accesses.{accesses_of};
ghost use Rattle.rv_steps.specs.Frames.{AgreeOn, Spares, block_after};
ghost use Rattle.rv_steps.specs.Good.{is_kept, values_at};
ghost use Rattle.rv_steps.specs.Kinds.{is_free, written};
ghost use Rattle.rv_steps.specs.Machine.{Config, Goes, IsAt, access_at, next_step, register_at, value_at, with_register};
ghost use Rattle.rv_steps.specs.Registers.{AgreeBut, is_among};
ghost use Rattle.rv_steps.specs.Stops.{Reaches};
ghost use Rattle.rv_line.specs.declared.line.Line.{Line};
ghost use Rattle.std.specs.Int.{Width, byte_len};
ghost use Rattle.std.specs.List.{list_all};
ghost use Rattle.std.specs.Prelude.{All, IsTrue, List, [], length, map, not, slice_index, ℕ, ◌*◌, ◌+◌, ◌++◌, ◌<◌, ◌∷◌, ◌≡◌, ◌≤◌};

/// Registers agree but at those that were written.
pub fn registers_agree()
    ensures none { (changed registers : List ℕ) → AgreeBut changed registers registers }
    ensures one { (registers : List ℕ) (r value : ℕ) → AgreeBut (r ∷ []) registers (with_register registers r value) }
    ensures then { (one two before between after : List ℕ) → AgreeBut one before between → AgreeBut two between after
        → AgreeBut (one ++ two) before after }
    ensures again { (changed before between after : List ℕ) → AgreeBut changed before between
        → AgreeBut changed between after → AgreeBut changed before after }
    ensures more { (one two before after : List ℕ) → AgreeBut one before after
        → IsTrue (list_all (λ r. is_among r two) one) → AgreeBut two before after }
    ensures kept { (changed before after : List ℕ) (r : ℕ) → AgreeBut changed before after
        → IsTrue (list_all (λ s. not (is_kept s)) changed) → IsTrue (is_kept r)
        → register_at after r ≡ register_at before r }
{}

/// A step writes no register but the line's, and no byte but those of its store.
pub fn steps_keep_the_rest()
    ensures registers { (lines : List Line) (base k : ℕ) (c d : Config) (line : Line) → IsAt lines k line c
        → next_step lines base c ≡ Goes d → AgreeBut (written line ∷ []) c.registers d.registers }
    ensures block { (lines : List Line) (base k : ℕ) (c d : Config) (line : Line) → IsAt lines k line c
        → next_step lines base c ≡ Goes d → d.block ≡ block_after base line c.registers c.block }
    ensures byte { (lines : List Line) (base k : ℕ) (c d : Config) (line : Line) → IsAt lines k line c
        → next_step lines base c ≡ Goes d → (place : ℕ) → Spares base place (access_at lines c)
        → slice_index d.block place ≡ slice_index c.block place }
{}

/// A run writes no register but those of its lines, and no byte but those of its stores.
pub fn runs_keep_the_rest()
    ensures registers { (lines : List Line) (base n : ℕ) (c d : Config) → Reaches lines base n c d
        → AgreeBut (map written lines) c.registers d.registers }
    ensures byte { (lines : List Line) (base n : ℕ) (c d : Config) (place : ℕ) → Reaches lines base n c d
        → All (Spares base place) (accesses_of lines base n c)
        → slice_index d.block place ≡ slice_index c.block place }
    ensures value { (lines : List Line) (base n : ℕ) (c d : Config) (w : Width) (place : ℕ) → Reaches lines base n c d
        → ((k : ℕ) → place ≤ k → k < place + byte_len w → All (Spares base k) (accesses_of lines base n c))
        → value_at w d.block place ≡ value_at w c.block place }
    ensures values { (lines : List Line) (base n : ℕ) (c d : Config) (word count : ℕ) → Reaches lines base n c d
        → ((k : ℕ) → 8 * word ≤ k → k < 8 * (word + count) → All (Spares base k) (accesses_of lines base n c))
        → values_at d.block word count ≡ values_at c.block word count }
{}

/// Lines that write no register that is given back leave each of those as they found it.
pub fn free_lines_keep()
    ensures kept { (lines : List Line) (base n : ℕ) (c d : Config) (r : ℕ) → IsTrue (list_all is_free lines)
        → Reaches lines base n c d → IsTrue (is_kept r) → register_at d.registers r ≡ register_at c.registers r }
{}

/// A step depends on no byte of the block but those that it loads.
pub fn steps_are_local()
    ensures local { (lines : List Line) (base k : ℕ) (c d : Config) (line : Line) (block : List ℕ) → IsAt lines k line c
        → next_step lines base c ≡ Goes d → length block ≡ length c.block
        → AgreeOn base (access_at lines c) c.block block
        → next_step lines base (record c { block = block }) ≡ Goes (record {
          registers = d.registers;
          pc = d.pc;
          block = block_after base line c.registers block;
        }) }
{}
