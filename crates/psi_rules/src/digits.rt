// Offsets and their digits.
ghost use Rattle.std.specs.Prelude.{◌≡◌, ℕ, List, ◌<◌, ◌≤◌, IfSome, drop, length};
ghost use Rattle.std.specs.Option.{option_map};
ghost use Rattle.shapes_core.specs.Gamma.{gamma};
ghost use Rattle.shapes_core.specs.Limits.{greatest_extent};
ghost use Rattle.shapes_core.specs.Shape.{IsShape, span, total};
ghost use Rattle.normal_form.specs.declared.entry.Entry.{Entry as AnEntry};
ghost use Rattle.normal_form.specs.Formers.{Making, constants, digiting, flattening};
ghost use Rattle.normal_form.specs.Cutting.{Scope};
ghost use Rattle.normal_form.specs.Keeps.{AreWithin};
ghost use Rattle.psi_rules.specs.Building.{digit_by, flat_by};
ghost use Rattle.psi_rules.specs.Fitting.{ArePlaces, IsDigitWithin};

use crate::moves::{entry_on, signed};
use normal_form::{Entries, Entry};
use shapes_core::laws::span_laws;
use shapes_core::{Shape, digit, weight};

/// An offset or a digit of one: one that is found, or the variable that is bound next.
#[derive(Clone, Copy)]
pub(crate) enum Digited {
    Found(Entry),
    Bound,
}

/// The entry of an axis of this weight and extent, at an offset.
pub(crate) fn digit_entry(flat: Entry, weight: u64, n: u64) -> Digited
    requires weight { 0 < weight }
    requires some { 0 < n }
    requires small { n ≤ greatest_extent }
    ensures digits { (rest : AnEntry → Making) → digiting flat weight n rest ≡ digit_by result flat weight n rest }
    ensures within { (room : ℕ) (known : Scope) → IsDigitWithin result room known n }
{
    if n == 1 {
        return Digited::Found(Entry::At(0));
    }
    match flat {
        Entry::At(constant) => {
            let place = digit(constant.unsigned_abs(), weight, n);
            Digited::Found(Entry::At(signed(place)))
        }
        Entry::Plus { .. } | Entry::Minus { .. } => Digited::Bound,
    }
}

/// The offset of entries of the axes of a shape from one on, if all are constants.
fn constant_offset(shape: &Shape, axis: usize, list: &[Entry]) -> Option<u64>
    requires shape { IsShape shape.now }
    requires within { axis ≤ length shape.now }
    requires places { ArePlaces list.now (drop axis shape.now) }
    ensures offset { result ≡ option_map (λ index. gamma index (drop axis shape.now)) (constants list.now) }
    ensures small { IfSome result (λ offset. offset < span (drop axis shape.now)) }
{
    let Some((entry, entries)) = list.split_first() else {
        return Some(0);
    };
    let Entry::At(constant) = entry else {
        return None;
    };
    let offset = constant_offset(shape, axis + 1, entries)?;
    span_laws();
    Some(constant.unsigned_abs() * weight(shape, axis) + offset)
}

/// The offset of entries of a shape.
pub(crate) fn offset_entry(shape: &Shape, entries: &Entries) -> Digited
    requires { ArePlaces entries.now shape.now }
    ensures offset { (rest : AnEntry → Making) → flattening shape.now entries.now rest ≡ flat_by result shape.now entries.now rest }
    ensures within { (room : ℕ) (known : Scope) → AreWithin room known entries.now shape.now
        → IsDigitWithin result room known (total shape.now) }
{
    if shape.extents().len() == 1 {
        return Digited::Found(entry_on(0, entries));
    }
    span_laws();
    match constant_offset(shape, 0, entries.list()) {
        Some(offset) => Digited::Found(Entry::At(signed(offset))),
        None => Digited::Bound,
    }
}
