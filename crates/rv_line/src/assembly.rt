// Programs with the areas that they work on.
ghost use Rattle.std.specs.Prelude.{◌≡◌, ◌<◌, ◌≤◌, ◌*◌, ◌^◌, IfOk, length, slice_get, sum_by};
ghost use Rattle.shapes_core.specs.Limits.{greatest_extent, most_items};
ghost use Rattle.shapes_core.specs.Shape.{total};
ghost use Rattle.rv_line.specs.Emitted.{emitted_places};
ghost use Rattle.rv_line.specs.Fits.{Fits};
ghost use Rattle.rv_line.specs.Parts.{block_words};

use crate::label::{labels, places};
use crate::line::Line;
use shapes_core::{Area, NoMemory, total};
use std::alloc::Global;
use std::marker::Model;

/// What a text says of itself: the greatest number of steps, and how many words of the block stand
/// before the areas.
#[derive(Clone, Copy)]
pub struct Header {
    pub steps: u64,
    pub spill: u64,
}

/// A program: its header, the areas of its block, its instructions, and the line of a text where each of these
/// stands, counted from 1. Contracts see these as `Parts`.
#[derive(Drop)]
pub struct Assembly {
    header: Header,
    areas: Vec<Area>,
    lines: Vec<Line>,
    places: Vec<u32>,
}

impl Model for Assembly {
    ghost use Rattle.rv_line.specs.Fits.{IsAssembly};
    ghost use Rattle.rv_line.specs.Parts.{Parts};

    ghost Value = { Parts };

    ghost view = { λ a. record {
      header = a.header;
      areas = a.areas.items;
      lines = a.lines.items;
      places = a.places.items;
    } };

    ghost invariant = { λ a. IsAssembly (record {
      header = a.header;
      areas = a.areas.items;
      lines = a.lines.items;
      places = a.places.items;
    }) };
}

impl Assembly {
    /// A program that is to be written by `text`: its instructions stand where that text has them.
    /// The condition is that this text is one of the format. Takes memory for the places.
    pub fn new(
        alloc: Global,
        header: Header,
        areas: Vec<Area>,
        lines: Vec<Line>,
    ) -> Result<Assembly, NoMemory>
        requires fits { Fits header areas.items lines.items }
        ensures header { IfOk result (λ assembly. assembly.header ≡ header) }
        ensures areas { IfOk result (λ assembly. assembly.areas ≡ areas.items) }
        ensures lines { IfOk result (λ assembly. assembly.lines ≡ lines.items) }
        ensures places { IfOk result (λ assembly.
            assembly.places ≡ emitted_places areas.items lines.items) }
    {
        let labelled = labels(alloc, &lines)?;
        let places = places(alloc, areas.len() as u32 + 7, &lines, &labelled)?;
        Ok(Assembly {
            header,
            areas,
            lines,
            places,
        })
    }

    /// A program that stands in a text: `places` has the line of that text, counted from 1, where each of its
    /// instructions stands. The condition is that the program is one of the format. Takes no memory.
    pub fn at_lines(
        header: Header,
        areas: Vec<Area>,
        lines: Vec<Line>,
        places: Vec<u32>,
    ) -> Assembly
        requires fits { Fits header areas.items lines.items }
        requires placed { length places.items ≡ length lines.items }
        ensures { result ≡ record { header = header; areas = areas.items; lines = lines.items; places = places.items } }
    {
        Assembly {
            header,
            areas,
            lines,
            places,
        }
    }

    /// The header.
    pub fn header(&self) -> Header
        ensures { result ≡ self.now.header }
    {
        self.header
    }

    /// The areas, in the order of the block.
    pub fn areas(&self) -> &[Area]
        ensures value { result.now ≡ self.now.areas }
        ensures fits { Fits self.now.header self.now.areas self.now.lines }
    {
        &self.areas
    }

    /// The instructions, in order.
    pub fn lines(&self) -> &[Line]
        ensures value { result.now ≡ self.now.lines }
        ensures fits { Fits self.now.header self.now.areas self.now.lines }
    {
        &self.lines
    }

    /// The words of the block: the spill words, and those of the areas.
    pub fn block_words(&self) -> u64
        ensures { result ≡ block_words self.now.header self.now.areas }
    {
        self.header.spill + area_words(&self.areas)
    }

    /// The line of the text, counted from 1, where the instruction of this number stands.
    pub fn text_line(&self, line: u32) -> u32
        requires { line < length self.now.lines }
        ensures { slice_get self.now.places line ≡ Some result }
    {
        self.places[line as usize]
    }
}

/// The words of all areas.
fn area_words(areas: &[Area]) -> u64
    requires { length areas.now ≤ most_items }
    ensures value { result ≡ sum_by (λ area. total area.shape) areas.now }
    ensures small { result ≤ greatest_extent * length areas.now }
{
    let mut words = 0;
    for area in areas {
        words += total(&area.shape);
    }
    words
}
