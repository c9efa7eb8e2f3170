// The text of a program.
ghost use Rattle.std.specs.Prelude.{◌≡◌, ◌+◌, ◌≤◌, ◌<◌, ◌++◌, ◌^◌, IfOk, OnOk, length};
ghost use Rattle.shapes_core.specs.Limits.{most_items, most_words};
ghost use Rattle.rv_line.specs.Emitted.{
  emitted,
  header_text,
  areas_text,
  area_text,
  kind_text,
  extents_text,
  lines_text,
  is_labelled,
  as_emitted,
  emitted_places,
};
ghost use Rattle.rv_line.specs.Labels.{AreLabels};
ghost use Rattle.rv_line.specs.Spells.{Spells};
ghost use Rattle.rv_line.specs.Fits.{ArePacked};

use crate::assembly::{Assembly, Header};
use crate::instruction::{push_instruction, push_number, push_text};
use crate::label::{labels, push_label};
use crate::line::Line;
use shapes_core::{Area, AreaKind, NoMemory, Shape, total};
use std::alloc::Global;

/// Writes the program in the spelling that is emitted: the header, the rows of the areas, and a line
/// for each instruction and each label.
pub fn text(alloc: Global, program: &Assembly) -> Result<Vec<u8>, NoMemory>
    ensures exact { IfOk result (λ bytes. bytes.items ≡ emitted program.now) }
    ensures spells { IfOk result (λ bytes. Spells bytes.items (as_emitted program.now)) }
    ensures placed { program.now.places ≡ emitted_places program.now.areas program.now.lines
        → IfOk result (λ bytes. Spells bytes.items program.now) }
{
    let lines = program.lines();
    let labelled = labels(alloc, lines)?;
    let header = program.header();
    let mut out = vec![in alloc]?;
    push_header(&mut out, header)?;
    push_areas(&mut out, header.spill, program.areas())?;
    push_text(&mut out, ".text\n.globl psi_main\npsi_main:\n")?;
    push_lines(&mut out, lines, &labelled)?;
    Ok(out)
}

fn push_header(out: &mut Vec<u8>, header: Header) -> Result<(), NoMemory>
    ensures { OnOk result (out.new.items ≡ out.old.items ++ header_text header) }
{
    push_text(out, "# psi 1\n# steps ")?;
    push_number(out, header.steps)?;
    push_text(out, "\n# spill ")?;
    push_number(out, header.spill)?;
    push_text(out, "\n")
}

fn push_areas(out: &mut Vec<u8>, spill: u64, areas: &[Area]) -> Result<(), NoMemory>
    requires packed { ArePacked 0 areas.now }
    requires count { length areas.now ≤ most_items }
    requires spill { spill ≤ most_words }
    ensures { OnOk result (out.new.items ≡ out.old.items ++ areas_text spill areas.now) }
{
    let mut offset = spill;
    for area in areas {
        push_area(out, offset, area)?;
        offset += total(&area.shape);
    }
    Ok(())
}

fn push_area(out: &mut Vec<u8>, offset: u64, area: &Area) -> Result<(), NoMemory>
    ensures { OnOk result (out.new.items ≡ out.old.items ++ area_text offset area.now) }
{
    push_kind(out, &area.kind)?;
    push_text(out, " ")?;
    push_number(out, offset)?;
    push_extents(out, &area.shape)?;
    push_text(out, "\n")
}

fn push_kind(out: &mut Vec<u8>, kind: &AreaKind) -> Result<(), NoMemory>
    ensures { OnOk result (out.new.items ≡ out.old.items ++ kind_text kind.now) }
{
    match kind {
        AreaKind::In(name) => {
            push_text(out, "# in ")?;
            out.extend_from_slice(name.bytes())?;
        }
        AreaKind::Out(name) => {
            push_text(out, "# out ")?;
            out.extend_from_slice(name.bytes())?;
        }
        AreaKind::Scan(number) => {
            push_text(out, "# scan ")?;
            push_number(out, *number as u64)?;
        }
    }
    Ok(())
}

fn push_extents(out: &mut Vec<u8>, shape: &Shape) -> Result<(), NoMemory>
    ensures { OnOk result (out.new.items ≡ out.old.items ++ extents_text shape.now) }
{
    for extent in shape.extents() {
        push_text(out, " ")?;
        push_number(out, *extent)?;
    }
    Ok(())
}

/// The instructions, each on a line behind that of its label, and the label of the end.
fn push_lines(out: &mut Vec<u8>, lines: &[Line], labelled: &[bool]) -> Result<(), NoMemory>
    requires labels { AreLabels lines.now labelled.now }
    requires count { length lines.now ≤ most_items }
    ensures { OnOk result (
        out.new.items ≡ out.old.items ++ lines_text (is_labelled lines.now) 0 lines.now
        ) }
{
    for (at, line) in lines.iter().enumerate() {
        push_label(out, labelled[at], at as u32)?;
        push_text(out, "    ")?;
        push_instruction(out, line)?;
        push_text(out, "\n")?;
    }
    push_label(out, labelled[lines.len()], lines.len() as u32)
}
