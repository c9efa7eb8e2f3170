// The output arrays of a run.
ghost use Rattle.std.specs.Prelude.{◌≡◌, ◌≤◌, ◌+◌, ◌*◌, ◌++◌, All, IfOk, OnOk, length};
ghost use Rattle.std.specs.Int.{w64};
ghost use Rattle.shapes_core.specs.Shape.{total};
ghost use Rattle.rv_steps.specs.Effects.{signed_value};
ghost use Rattle.rv_steps.specs.Good.{values_at};
ghost use Rattle.rv_steps.specs.Machine.{value_at};
ghost use Rattle.array_run.specs.Ran.{printed_area, printed_outputs};

use array_text::print_array;
use shapes_core::{Area, AreaKind, Declared, NoMemory, total};
use std::alloc::Global;

/// The printed output arrays, in the order of the areas, of a block with so many spill words.
pub fn print_outputs(
    alloc: Global,
    spill: u64,
    areas: &[Area],
    block: &[u8],
) -> Result<Vec<u8>, NoMemory>
    requires within { All (λ area. 8 * (spill + area.start + total area.shape) ≤ length block.now)
        areas.now }
    ensures { IfOk result (λ text. text.items ≡ printed_outputs spill areas.now block.now) }
{
    let mut out = Vec::new(alloc);
    for area in areas {
        push_output(alloc, &mut out, spill, area, block)?;
    }
    Ok(out)
}

fn push_output(
    alloc: Global,
    out: &mut Vec<u8>,
    spill: u64,
    area: &Area,
    block: &[u8],
) -> Result<(), NoMemory>
    requires within { 8 * (spill + area.now.start + total area.now.shape) ≤ length block.now }
    ensures { OnOk result (out.new.items ≡ out.old.items ++ printed_area spill block.now area.now) }
{
    if let AreaKind::Out(name) = area.kind {
        let shape = area.shape;
        let values = values_at(alloc, block, spill + area.start, total(&shape))?;
        let text = print_array(alloc, &Declared { name, shape }, &values)?;
        out.extend_from_slice(&text)?;
    }
    Ok(())
}

/// The values of so many words of a block from one of them on.
fn values_at(alloc: Global, block: &[u8], word: u64, count: u64) -> Result<Vec<i64>, NoMemory>
    requires within { 8 * (word + count) ≤ length block.now }
    ensures values { IfOk result (λ values. values.items ≡ values_at block.now word count) }
    ensures count { IfOk result (λ values. length values.items ≡ count) }
{
    let mut values = Vec::with_capacity(alloc, count as usize)?;
    for k in 0..count {
        values.push(value_at(block, word + k))?;
    }
    Ok(values)
}

/// The value of a word of a block.
#[tactic(auto, unfolding(rv_steps::specs::Machine::value_at))]
fn value_at(block: &[u8], word: u64) -> i64
    requires within { 8 * word + 8 ≤ length block.now }
    ensures { result ≡ signed_value (value_at w64 block.now (8 * word)) }
{
    let place = 8 * word as usize;
    u64::from_le_bytes(*block[place..place + 8].as_array::<8>().unwrap()).cast_signed()
}
