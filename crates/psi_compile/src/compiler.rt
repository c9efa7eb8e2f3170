// From a source to the text that it is compiled to.
ghost use Rattle.std.specs.Prelude.{◌≤◌, IfErr, IfOk, length};
ghost use Rattle.moa_reader.specs.Limits.{longest_source};
ghost use Rattle.moa_tree.specs.Expr.{Tree};
ghost use Rattle.moa_tree.specs.Pools.{tree_of};
ghost use Rattle.moa_tree.specs.Readings.{Reads};
ghost use Rattle.nest_jobs.specs.Plain.{ArePlain};
ghost use Rattle.psi_compile.specs.Assembled.{IsAssembled};
ghost use Rattle.psi_compile.specs.Compiled.{IsCompiled};
ghost use Rattle.psi_compile.specs.Errors.{IsBuiltFirst, IsCause};

use crate::built::built_program;
use crate::error::CompileError;
use crate::nest_laws::{nests_are_ready, nests_are_small};
use crate::nests::{homes_of, nests_of};
use crate::serve_laws::programs_serve;
use rv_emit::emit;
use rv_emit::form_laws::lines_are_free;
use rv_emit::size_laws::programs_cost;
use rv_line::spelling_laws::texts_spell_one;
use rv_line::{Assembly, text};
use shape_check::{Checked, layout_of};
use shapes_core::NoMemory;
use std::alloc::Global;

/// The program of the machine for a checked program of which each expression is built.
fn assembly_of(alloc: Global, checked: &Checked) -> Result<Assembly, NoMemory>
    requires { ArePlain (tree_of checked.now.pools).statements }
    ensures { IfOk result (λ made. IsAssembled (tree_of checked.now.pools) made) }
{
    nests_are_ready();
    nests_are_small();
    programs_cost();
    lines_are_free();
    programs_serve();
    let _statements = checked.program().statements();
    let nests = nests_of(alloc, checked)?;
    let homes = homes_of(alloc, &nests)?;
    emit(alloc, &nests, &homes, layout_of(checked))
}

/// The text for the program that a source reads as: it spells that program's areas in the order of
/// declaration, and lines of which every run from a start leaves in the outputs what the program
/// denotes. A source is refused where the reader refuses it, and else where it has an expression
/// that is not built, at the first one, and else where the check refuses it.
pub fn compile(alloc: Global, source: &[u8]) -> Result<Vec<u8>, CompileError>
    requires { length source.now ≤ longest_source }
    ensures compiled { IfOk result (λ text.
        (tree : Tree) × Reads source.now tree × IsCompiled tree text.items) }
    ensures causes { IfErr result (λ error. IsCause source.now error) }
    ensures built { IfErr result (λ error. IsBuiltFirst source.now error) }
{
    texts_spell_one();
    let checked = built_program(alloc, source)?;
    let assembly = assembly_of(alloc, &checked)?;
    let written = text(alloc, &assembly)?;
    Ok(written)
}
