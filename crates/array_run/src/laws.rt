// The laws of runs on arrays, as clauses of functions that do nothing.
ghost use Rattle.std.specs.Prelude.{◌≡◌, ◌≤◌, ℕ, ℤ, List, length};
ghost use Rattle.shapes_core.specs.Limits.{most_items, most_words};
ghost use Rattle.shapes_core.specs.declared.area.Area.{Area};
ghost use Rattle.rv_line.specs.Parts.{Parts, block_words};
ghost use Rattle.rv_line.specs.Spells.{Spells};
ghost use Rattle.rv_machine.specs.Views.{end_of};
ghost use Rattle.rv_machine.specs.declared.machine.End.{End};
ghost use Rattle.rv_steps.specs.Good.{IsStart, input_values, output_values};
ghost use Rattle.rv_steps.specs.GoodText.{IsGood};
ghost use Rattle.rv_steps.specs.Machine.{Config};
ghost use Rattle.rv_steps.specs.Stops.{Stops};
ghost use Rattle.array_text.specs.Outcome.{Outcome, outcome_of};
ghost use Rattle.array_run.specs.Ran.{Prints, printed_all, ran};
ghost use Rattle.array_run.specs.Starts.{inputs, outputs};

use array_text::laws::{accepted_arrays_are_whole, accepted_values_fit, grammar};
use rv_steps::machine_laws;

/// A text that is good for a demand gives what is demanded of the arrays of a file.
pub fn good_texts_give_what_is_demanded()
    ensures { (text file : List ℕ) (areas : List Area) (demand : List (List ℤ) → List (List ℤ))
        (program : Parts) (arrays : List (List ℤ))
        → IsGood text areas demand → Spells text program → length program.lines ≤ most_items
        → block_words program.header program.areas ≤ most_words
        → outcome_of (inputs program.areas) file ≡ Outcome.Accepted arrays
        → ran program file ≡ Prints (printed_all (outputs program.areas) (demand arrays)) }
{
    grammar();
    accepted_arrays_are_whole();
    accepted_values_fit();
    machine_laws::bytes_are_kept();
    machine_laws::runs_stop();
}

/// The interpreter answers that it is done, within the printed steps, on the program of a text that is good for a
/// demand, from any start of it, where the printed steps are its budget: the clause `stops` of `rv_machine::run`, with
/// the configuration `last` that it leaves, says no less. The outputs then hold what is demanded of the inputs.
pub fn good_texts_run_to_their_end()
    ensures { (text : List ℕ) (areas : List Area) (demand : List (List ℤ) → List (List ℤ))
        (program : Parts) (base : ℕ) (c last : Config) (end : End)
        → IsGood text areas demand → Spells text program
        → IsStart program.header program.areas program.lines base c
        → Stops program.lines base program.header.steps c (end_of end) last
        → (steps : ℕ) × (end ≡ End.Done steps) × (steps ≤ program.header.steps)
        × (output_values program.header program.areas last.block
        ≡ demand (input_values program.header program.areas c.block)) }
{
    machine_laws::runs_are_determined();
}
