// The program of nests: their lines one after another, and the return.
ghost use Rattle.std.specs.Prelude.{◌≡◌, ◌<◌, ◌≤◌, ◌^◌, [], IfOk, length};
ghost use Rattle.std.specs.List.{AllByRecursion};
ghost use Rattle.shapes_core.specs.Limits.{most_items};
ghost use Rattle.loop_ir.specs.Pool.{tree};
ghost use Rattle.register_map.specs.Fits.{IsFit};
ghost use Rattle.register_map.specs.Homes.{IsGiven};
ghost use Rattle.rv_emit.specs.Emitting.{emitted, plan_of, program};
ghost use Rattle.rv_emit.specs.Pricing.{total_cost, total_time};
ghost use Rattle.rv_emit.specs.Programs.{Emits, MayCome, most_spill, pairs};
ghost use Rattle.rv_line.specs.Fits.{AreAreas, IsArea};

use crate::computing::ZERO;
use crate::counters::registers_read;
use crate::form_laws::lines_fit;
use crate::site::Emission;
use crate::size_laws::programs_cost;
use crate::steps::emit_list;
use loop_ir::Nest;
use register_map::Homes;
use rv_line::{Assembly, Header, Line};
use shape_check::Layout;
use shapes_core::{Area, AreaKind, NoMemory};
use std::alloc::Global;

/// The register that holds where a program returns to.
const RETURN: u8 = 1;

/// The lines of nests one after another, and the return, over the areas of a block. The header has
/// the most steps that a run through the lines makes, and the most spill words of the nests' homes,
/// which all nests share.
///
/// # Errors
/// `NoMemory` where memory is wanted and cannot be had.
pub fn emit(
    alloc: Global,
    nests: &[Nest],
    homes: &[Homes],
    layout: &Layout,
) -> Result<Assembly, NoMemory>
    requires counted { length nests.now ≡ length homes.now }
    requires fit { AllByRecursion (λ nest. IsFit nest.0 nest.1) (pairs nests.now homes.now) }
    requires lines { total_cost (pairs nests.now homes.now) ≤ 245760 }
    requires spill { most_spill homes.now ≤ 8192 }
    requires steps { total_time (pairs nests.now homes.now) ≤ 2 ^ 50 }
    ensures lines { IfOk result (λ made. made.lines
        ≡ (program (most_spill homes.now) (pairs nests.now homes.now) 0).lines) }
    ensures header { IfOk result (λ made. made.header ≡ record {
      steps = (program (most_spill homes.now) (pairs nests.now homes.now) 0).steps;
      spill = most_spill homes.now;
    }) }
    ensures areas { IfOk result (λ made. made.areas ≡ layout.now) }
{
    lines_fit();
    programs_cost();
    let spill = most_spill(homes);
    let areas = areas_of(alloc, layout)?;
    let mut lines = Vec::new(alloc);
    let steps = emit_nests(alloc, &mut lines, nests, homes, spill)?;
    let header = Header {
        steps,
        spill: u64::from(spill),
    };
    Assembly::new(alloc, header, areas, lines)
}

/// The most spill words of some homes.
fn most_spill(homes: &[Homes]) -> u32
    ensures most { result ≡ most_spill homes.now }
    ensures given { AllByRecursion IsGiven homes.now }
{
    let mut most = 0u32;
    for given in homes {
        most = most.max(given.spill());
    }
    most
}

/// The lines of nests one after another, and the return.
fn emit_nests(
    alloc: Global,
    lines: &mut Vec<Line>,
    nests: &[Nest],
    homes: &[Homes],
    spill: u32,
) -> Result<u64, NoMemory>
    requires counted { length nests.now ≡ length homes.now }
    requires fit { AllByRecursion (λ nest. IsFit nest.0 nest.1) (pairs nests.now homes.now) }
    requires room { MayCome (program spill (pairs nests.now homes.now)) lines.old.items }
    ensures { IfOk result (Emits (program spill (pairs nests.now homes.now))
        lines.old.items lines.new.items) }
{
    let mut steps = 0u64;
    for place in 0..nests.len() {
        let more = emit_nest(alloc, lines, &nests[place], &homes[place], spill)?;
        steps += more;
    }
    lines.push(Line::Jalr {
        to: ZERO,
        imm: 0,
        base: RETURN,
    })?;
    Ok(steps + 1)
}

/// The lines of a nest.
fn emit_nest(
    alloc: Global,
    lines: &mut Vec<Line>,
    nest: &Nest,
    homes: &Homes,
    spill: u32,
) -> Result<u64, NoMemory>
    requires fit { IsFit (tree nest.now) homes.now }
    requires room { MayCome (emitted (plan_of spill (tree nest.now, homes.now)) []
        (tree nest.now)) lines.old.items }
    ensures { IfOk result (Emits (emitted (plan_of spill (tree nest.now, homes.now)) []
        (tree nest.now)) lines.old.items lines.new.items) }
{
    let reads = registers_read(alloc, nest)?;
    prove!(nest.lists() > 0);
    let site = Emission::new(spill, nest, homes, reads);
    let mut owed = Vec::new(alloc);
    emit_list(&site, lines, &mut owed, 0)
}

/// The areas of a block.
fn areas_of(alloc: Global, layout: &Layout) -> Result<Vec<Area>, NoMemory>
    ensures same { IfOk result (λ areas. areas.items ≡ layout.now) }
    ensures few { IfOk result (λ areas. length areas.items ≤ most_items) }
    ensures fit { IfOk result (λ areas. AreAreas areas.items) }
{
    let areas = layout.areas();
    let mut copies = Vec::new(alloc);
    for area in areas {
        area_holds(area);
        copies.push(*area)?;
    }
    Ok(copies)
}

/// An area has a name and a shape. The function does nothing: its clause is what `Name` and `Shape`
/// keep.
fn area_holds(area: &Area)
    ensures { IsArea area.now }
{
    let _extents = area.shape.extents();
    match area.kind {
        AreaKind::In(name) => {
            let _name = name.bytes();
        }
        AreaKind::Out(name) => {
            let _name = name.bytes();
        }
        AreaKind::Scan(_) => {}
    }
}
