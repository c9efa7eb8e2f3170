// How the block of a program is laid out.
ghost use Rattle.std.specs.Prelude.{◌≡◌, ◌≤◌, length, IfOk};
ghost use Rattle.shapes_core.specs.Limits.{most_words};
ghost use Rattle.shape_check.specs.Blocks.{IsLayout, array_words, words_of};
ghost use Rattle.shape_check.specs.Judged.{capped};
ghost use Rattle.shape_check.specs.Layout.{placed};

use shapes_core::{Area, AreaKind, NoMemory, Shape, total};
use std::alloc::Global;
use std::marker::Model;

/// The areas of a block: inputs, outputs and scans, each in the order of declaration and one behind the other. Names
/// differ, scans are numbered from 0, and there are at most `MOST_WORDS` words.
#[derive(Drop)]
pub struct Layout {
    areas: Vec<Area>,
}

impl Model for Layout {
    ghost use Rattle.std.specs.Prelude.{List};
    ghost use Rattle.shapes_core.specs.declared.area.Area.{Area as BlockArea};
    ghost use Rattle.shape_check.specs.Blocks.{IsLayout};

    ghost Value = { List BlockArea };

    ghost view = { λ l. l.areas.items };

    ghost invariant = { λ l. IsLayout l.areas.items };
}

impl Layout {
    /// The layout of these areas. It takes no memory.
    pub fn new(areas: Vec<Area>) -> Layout
        requires { IsLayout areas.items }
        ensures { result ≡ areas.items }
    {
        Layout { areas }
    }

    /// The areas, in order.
    pub fn areas(&self) -> &[Area]
        ensures value { result.now ≡ self.now }
        ensures laid_out { IsLayout self.now }
    {
        &self.areas
    }

    /// The words of all areas, each of 8 bytes.
    pub fn words(&self) -> u64
        ensures value { result ≡ words_of self.now }
        ensures small { result ≤ most_words }
    {
        words_of(self.areas())
    }
}

/// The words of areas.
fn words_of(areas: &[Area]) -> u64
    requires { words_of areas.now ≤ most_words }
    ensures { result ≡ words_of areas.now }
{
    let mut words = 0u64;
    for area in areas {
        words = words.saturating_add(total(&area.shape));
    }
    words
}

/// The words of arrays, or the greatest number of 64 bits where they are more.
pub(crate) fn array_words(arrays: &[(AreaKind, Shape)]) -> u64
    ensures { result ≡ capped (array_words arrays.now) }
{
    let mut words = 0u64;
    for array in arrays {
        words = words.saturating_add(total(&array.1));
    }
    words
}

/// The areas of arrays, one behind the other from word 0 on.
pub(crate) fn place(alloc: Global, arrays: &[(AreaKind, Shape)]) -> Result<Vec<Area>, NoMemory>
    requires { array_words arrays.now ≤ most_words }
    ensures { IfOk result (λ areas. areas.items ≡ placed 0 arrays.now) }
{
    let mut areas = Vec::new(alloc);
    let mut start = 0u64;
    for array in arrays {
        areas.push(Area {
            kind: array.0,
            shape: array.1,
            start,
        })?;
        start = start.saturating_add(total(&array.1));
    }
    Ok(areas)
}
