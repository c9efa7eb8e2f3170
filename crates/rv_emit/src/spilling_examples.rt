// More registers at one point than the machine gives.
ghost use Rattle.loop_ir.specs.Needed.{needed, none};
ghost use Rattle.loop_ir.specs.Pool.{tree};
ghost use Rattle.loop_ir.specs.Running.{Register};
ghost use Rattle.loop_ir.specs.Steps.{Place, Then};
ghost use Rattle.rv_emit.specs.SpillExamples.{set_and_written, writings};
ghost use Rattle.std.specs.List.{list_all, range_with_len};
ghost use Rattle.std.specs.Prelude.{IfOk, pos, true, ◌≡◌, ◌≤◌};

use crate::emit;
use loop_ir::Nest;
use register_map::assign;
use rv_line::Assembly;
use rv_steps::constant_laws::constants_are_short;
use shape_check::Layout;
use shapes_core::NoMemory;
use std::alloc::Global;

/// Behind the steps that set forty registers each of them is needed.
pub fn forty_registers_are_needed_together()
    ensures { list_all (λ number. needed (Then (Place 0 (pos 0)) (writings 40)) none
        (Register number)) (range_with_len 0 40) ≡ true }
{}

/// The lines of the nest that sets forty registers and then writes each. It gets homes that fit, so
/// most of the registers have spill words, and it is within the bounds of `emit`.
///
/// # Errors
/// `NoMemory` where memory is wanted and cannot be had.
pub fn emit_forty(alloc: Global, nest: Nest, layout: &Layout) -> Result<Assembly, NoMemory>
    requires { tree nest ≡ set_and_written 40 }
    ensures { IfOk result (λ made. made.header.spill ≤ 81) }
{
    constants_are_short();
    let given = assign(alloc, &nest)?;
    let _spill = given.spill();
    let homes = vec![in alloc; given]?;
    let nests = vec![in alloc; nest]?;
    emit(alloc, &nests, &homes, layout)
}
