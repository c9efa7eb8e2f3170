// The laws of the definitions, as clauses of functions that do nothing.
ghost use Rattle.std.specs.Prelude.{◌≡◌, ◌≤◌, ℕ, List, None};
ghost use Rattle.moa_tree.specs.Expr.{Tree};
ghost use Rattle.psi_edges.specs.Files.{Files};
ghost use Rattle.shape_check.specs.Layout.{areas};
ghost use Rattle.rv_line.specs.Parts.{Parts};
ghost use Rattle.rv_line.specs.Spells.{Spells};
ghost use Rattle.rv_machine.specs.Views.{end_of};
ghost use Rattle.rv_machine.specs.declared.machine.End.{End};
ghost use Rattle.rv_reader.specs.Refusals.{parts_of, refusal};
ghost use Rattle.rv_steps.specs.Good.{IsStart, input_values, output_values};
ghost use Rattle.rv_steps.specs.Machine.{Config};
ghost use Rattle.rv_steps.specs.Stops.{Stops};
ghost use Rattle.psi_compile.specs.Compiled.{IsCompiled};
ghost use Rattle.psi_compile.specs.Demands.{denoted};
ghost use Rattle.psi_top.specs.Answer.{IsFaithful};
ghost use Rattle.psi_top.specs.Outcome.{IsOutcome, Outcome};

use array_run::laws::{good_texts_give_what_is_demanded, good_texts_run_to_their_end};
use moa_tree::{never_both, one_reading, one_refusal};
use rv_reader::laws::{other_texts_spell_their_parts, spelled_texts_are_not_refused};

/// Words come to one outcome over files, and these where a second one is read, after so many bytes were read.
pub fn one_outcome()
    ensures { (words : List (List ℕ)) (files later : Files) (one other : Outcome) (read other_read : ℕ)
        → IsOutcome words files later one read → IsOutcome words files later other other_read
        → (one ≡ other) × (read ≡ other_read) }
{
    one_reading();
    one_refusal();
    never_both();
}

/// Texts that are not refused spell their parts, and those that sources are compiled to run as the sources denote.
pub(crate) fn texts_run()
    ensures spelled { (text : List ℕ) → refusal text ≡ None → Spells text (parts_of text) }
    ensures faithful { (tree : Tree) (text : List ℕ) → IsCompiled tree text → IsFaithful tree text }
{
    spelled_texts_are_not_refused();
    other_texts_spell_their_parts();
    good_texts_give_what_is_demanded();
}

/// The interpreter answers that it is done, within the printed steps, on the program of a text that a source is
/// compiled to, from any start of it, where the printed steps are its budget: what the clause `stops` of
/// `rv_machine::run` says of its answer and of the configuration `last` that it leaves is the last premise. The areas are
/// those of the source's program, and the outputs hold what it denotes of what the inputs held.
pub fn compiled_texts_run_to_their_end()
    ensures { (tree : Tree) (text : List ℕ) (program : Parts) (base : ℕ) (c last : Config) (end : End)
        → IsCompiled tree text → Spells text program
        → IsStart program.header program.areas program.lines base c
        → Stops program.lines base program.header.steps c (end_of end) last
        → (steps : ℕ) × (end ≡ End.Done steps) × (steps ≤ program.header.steps)
        × (program.areas ≡ areas tree.statements)
        × (output_values program.header program.areas last.block
        ≡ denoted tree (input_values program.header program.areas c.block)) }
{
    good_texts_run_to_their_end();
}
