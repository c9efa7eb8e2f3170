// The nests of a checked program, and the homes of their registers and places.
ghost use Rattle.std.specs.Prelude.{◌≡◌, ◌<◌, IfOk, Some, length, map, slice_get};
ghost use Rattle.loop_ir.specs.Pool.{tree};
ghost use Rattle.nest_jobs.specs.Leads.{nests};
ghost use Rattle.psi_compile.specs.Assigned.{AreAssigned, IsAssigned};
ghost use Rattle.psi_rules.specs.Tables.{AreTables};
ghost use Rattle.register_map.specs.Fits.{NamesFew};
ghost use Rattle.shape_check.specs.Judged.{items_in};
ghost use Rattle.std.specs.List.{AllByRecursion};

use loop_ir::Nest;
use nest_build::build;
use psi_rules::{Tables, reduce_among, tables_of};
use register_map::{Homes, assign};
use shape_check::{Checked, layout_of};
use shapes_core::NoMemory;
use std::alloc::Global;
use stride_form::to_operational;

/// The nest of the job of this number.
fn nest_of(alloc: Global, checked: &Checked, tables: &Tables, job: u32) -> Result<Nest, NoMemory>
    requires tables { AreTables checked.now tables.now }
    requires job { job < length checked.now.jobs }
    ensures { IfOk result (λ nest.
        slice_get (nests (items_in checked.now.pools)) job ≡ Some (tree nest)) }
{
    let _program = checked.program();
    let normal = reduce_among(alloc, checked, tables, job)?;
    let form = to_operational(alloc, &normal)?;
    build(alloc, &form, layout_of(checked))
}

/// The nests of a checked program, one for each job, in order.
pub fn nests_of(alloc: Global, checked: &Checked) -> Result<Vec<Nest>, NoMemory>
    ensures { IfOk result (λ made. map tree made.items ≡ nests (items_in checked.now.pools)) }
{
    let mut made = Vec::new(alloc);
    let _program = checked.program();
    let tables = tables_of(alloc, checked)?;
    let count = checked.job_count();
    for job in 0..count {
        made.push(nest_of(alloc, checked, &tables, job)?)?;
    }
    Ok(made)
}

/// Homes for the registers and places of a nest.
fn homes_for(alloc: Global, nest: &Nest) -> Result<Homes, NoMemory>
    requires { NamesFew (tree nest.now) }
    ensures { IfOk result (λ homes. IsAssigned (tree nest.now) homes) }
{
    let homes = assign(alloc, nest)?;
    let _spill = homes.spill();
    Ok(homes)
}

/// Homes for the registers and places of each of these nests, in order.
pub(crate) fn homes_of(alloc: Global, nests: &[Nest]) -> Result<Vec<Homes>, NoMemory>
    requires { AllByRecursion NamesFew (map tree nests.now) }
    ensures { IfOk result (λ made. AreAssigned (map tree nests.now) made.items) }
{
    let mut made = Vec::new(alloc);
    for nest in nests {
        made.push(homes_for(alloc, nest)?)?;
    }
    Ok(made)
}
