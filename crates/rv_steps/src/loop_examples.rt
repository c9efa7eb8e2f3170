// Worked examples of loops, each with its invariant at a marker type.
ghost use Rattle.rv_steps.specs.Accesses.{Leads, LeadsWithin, accesses_of};
ghost use Rattle.rv_steps.specs.Good.{IsStart, Serves};
ghost use Rattle.rv_steps.specs.LoopExamples.{IsCounting, IsPositive, Numbers, countdown, positive_accesses, positive_areas, positive_at, positive_header, positive_lines, positive_parts, positive_turn};
ghost use Rattle.rv_steps.specs.Machine.{Access, Config, Stores, address_of, register_at};
ghost use Rattle.std.specs.Prelude.{All, List, [], length, ℕ, ◌%◌, ◌*◌, ◌+◌, ◌++◌, ◌<◌, ◌^◌, ◌∷◌, ◌≡◌, ◌≤◌};

use crate::loop_laws::{Invariant, turns_are_in_order, turns_lead};
use crate::{access_laws, frame_laws, machine_laws, run_laws};

struct Countdown;

impl Invariant for Countdown {
    ghost Given = { ℕ };

    ghost holds = { IsCounting };
}

/// Counting down from n takes two steps for each, and touches no memory.
pub fn countdowns_end()
    ensures end { (base n : ℕ) (c : Config) → 0 < n → n < 2 ^ 64 → length c.registers ≡ 32 → c.pc ≡ address_of 0
        → register_at c.registers 5 ≡ n
        → (d : Config) × Leads countdown base (n * 2) c d [] × (d.pc ≡ address_of 2) }
{
    machine_laws::lines_take_steps();
    machine_laws::registers_are_kept();
    access_laws::runs_lead();
    turns_lead::<Countdown>();
}

struct Positive;

impl Invariant for Positive {
    ghost Given = { Numbers };

    ghost holds = { IsPositive };
}

/// The end of a turn, from the store on: four steps, on either way to it.
fn positive_store()
    ensures store { (given : Numbers) (k : ℕ) (c d : Config) (before : List Access) → given.base % 8 ≡ 0
        → given.base + 8 * (2 * given.count) ≤ 2 ^ 64 → k < given.count → IsPositive given k c before
        → d.pc ≡ address_of 6 → length d.registers ≡ 32 → d.block ≡ c.block
        → register_at d.registers 5 ≡ register_at c.registers 5
        → register_at d.registers 6 ≡ register_at c.registers 6
        → register_at d.registers 7 ≡ register_at c.registers 7
        → register_at d.registers 11 ≡ positive_at given.block k → positive_at given.block k < 2 ^ 64
        → (e : Config)
        × Leads (positive_lines given.count) given.base 4 d e (Stores (given.base + 8 * (given.count + k)) 8 ∷ [])
        × IsPositive given (k + 1) e (before ++ positive_turn given.count given.base k) }
{
    machine_laws::lines_take_steps();
    machine_laws::registers_are_kept();
    access_laws::runs_lead();
    run_laws::pointers_walk();
    run_laws::words_are_written();
    turns_are_in_order();
}

/// A turn takes six steps where the word is not negative, and else seven.
fn positive_turns()
    ensures turn { (given : Numbers) (k : ℕ) (c : Config) (before : List Access) → given.base % 8 ≡ 0
        → given.base + 8 * (2 * given.count) ≤ 2 ^ 64 → All (λ b. b < 256) given.block
        → k < given.count → IsPositive given k c before
        → (e : Config)
        × LeadsWithin (positive_lines given.count) given.base 7 c e (positive_turn given.count given.base k)
        × IsPositive given (k + 1) e (before ++ positive_turn given.count given.base k) }
{
    machine_laws::lines_take_steps();
    machine_laws::registers_are_kept();
    machine_laws::bytes_are_kept();
    access_laws::runs_lead_within();
    positive_store();
}

/// The loop of turns of different length serves its caller, and its loads and stores take turns.
pub fn positive_parts_are_served()
    ensures serves { (n base : ℕ) (c : Config) → 1 ≤ n → n ≤ 255
        → IsStart (positive_header n) (positive_areas n) (positive_lines n) base c
        → (run : Serves (positive_header n) (positive_areas n) (positive_lines n) positive_parts base c)
        × (accesses_of (positive_lines n) base run.steps c ≡ positive_accesses n base n) }
{
    machine_laws::lines_take_steps();
    machine_laws::registers_are_kept();
    access_laws::runs_lead_within();
    frame_laws::free_lines_keep();
    turns_lead::<Positive>();
    turns_are_in_order();
    run_laws::area_words_are_fine();
    run_laws::words_are_written();
    positive_turns();
}
