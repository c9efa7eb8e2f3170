// The arrays of a file.
ghost use Rattle.std.specs.Prelude.{◌≡◌, ◌≢◌, ◌<◌, ◌≤◌, ◌+◌, ◌-◌, ℕ, ℤ, List, [], ◌∷◌, ◌++◌};
ghost use Rattle.std.specs.Prelude.{length, map, Some, Err, AllPairs, IfErr, IfOk, OnOk, slice_set};
ghost use Rattle.array_text.specs.Limits.{longest_arrays};
ghost use Rattle.shapes_core.specs.declared.area.Declared.{Declared as Announced};
ghost use Rattle.array_text.specs.Files.{IsAccepted};
ghost use Rattle.array_text.specs.Index.{IsIndex};
ghost use Rattle.array_text.specs.Outcome.{Came, IsRefused, Outcome, Want, filled, outcome_of};
ghost use Rattle.array_text.specs.Sources.{BeginsArray, Explains, Fills, IsRefusedWith};
ghost use Rattle.array_text.specs.Sources.{Passes, all};

use crate::arrays::{Arrays, Slots};
use crate::error::DataError;
use crate::head::{begin, name, read_extents};
use crate::index::{Index, index_of};
use crate::laws::grammar;
use crate::source::Source;
use crate::values::append;
use shapes_core::Declared;
use std::alloc::Global;

/// Passes over a value and over those behind it, which are appended, as long as there are fewer
/// than this many.
fn some_values(
    source: &mut Source<'_>,
    values: &mut Vec<i64>,
    count: usize,
) -> Result<(), DataError>
    requires { length values.old.items < count }
    ensures fills { OnOk result
        (Fills count values.old.items (all source.old) values.new.items (all source.new)) }
    ensures more { OnOk result (length values.old.items < length values.new.items) }
    ensures refused { IfErr result (λ error. (declared : List Announced) (came : Came) (place : ℕ)
        → IsRefusedWith declared
        (filled came place values.old.items (count - length values.old.items)) source.old error) }
{
    let value = source.value()?;
    append(values, value)?;
    source.take_values(values, count)
}

/// Passes over this many values of an array.
fn values(alloc: Global, source: &mut Source<'_>, count: usize) -> Result<Vec<i64>, DataError>
    ensures passes { IfOk result (λ values. (declared : List Announced) (came : Came) (place : ℕ)
        → Passes declared (filled came place [] count) source.old
        (Outcome.Goes (slice_set came place (Some values.items)) Want.AnArray) source.new) }
    ensures fewer { OnOk result (length source.new.behind ≤ length source.old.behind) }
    ensures refused { IfErr result (λ error. (declared : List Announced) (came : Came) (place : ℕ)
        → IsRefusedWith declared (filled came place [] count) source.old error) }
{
    let mut values = Vec::with_capacity(alloc, count)?;
    'values: while values.len() < count {
        some_values(source, &mut values, count)?;
    }
    Ok(values)
}

/// Passes over an array, whose first word comes next.
fn array(
    alloc: Global,
    source: &mut Source<'_>,
    declared: &[Declared],
    index: &Index<'_>,
    slots: &mut Slots,
) -> Result<(), DataError>
    requires begins { BeginsArray source.old }
    requires places { length slots.old ≡ length declared.now }
    requires index { IsIndex declared.now index.now }
    ensures passes { OnOk result (Passes declared.now
        (Outcome.Goes slots.old Want.AnArray) source.old
        (Outcome.Goes slots.new Want.AnArray) source.new) }
    ensures same { OnOk result (length slots.new ≡ length declared.now) }
    ensures fewer { OnOk result (length source.new.behind < length source.old.behind) }
    ensures refused { IfErr result (λ error. IsRefusedWith declared.now
        (Outcome.Goes slots.old Want.AnArray) source.old error) }
{
    let first = source.line();
    source.advance();
    let name = name(source, first)?;
    let extents = read_extents(alloc, source, first)?;
    let (place, count) = begin(source, declared, index, slots, first, &name, &extents)?;
    let list = values(alloc, source, count as usize)?;
    slots.fill(place, list);
    Ok(())
}

/// The values of the declared arrays that the file gives, or the one line and cause for which it is
/// refused: only memory may be wanting. The line counts from 1. The causes, by this project's own
/// rules, are 1 no token, 2 a number out of range, 3 `array` or a name is wanted, 4 an extent is
/// malformed, 5 the array is not declared, 6 the array is repeated, 7 the shape differs, 8 a value
/// is wanted, 9 an input is missing. The bytes are read once, in time linear in them, and a name's
/// place is looked up in a hash map.
pub fn read_arrays(alloc: Global, text: &[u8], declared: &[Declared]) -> Result<Arrays, DataError>
    requires short { length text.now ≤ longest_arrays }
    requires differ { AllPairs (λ one other. one ≢ other) (map (λ array. array.name) declared.now) }
    ensures read { IfOk result (λ arrays. IsAccepted declared.now arrays text.now) }
    ensures each { IfOk result (λ arrays. length arrays ≡ length declared.now) }
    ensures refused { (line cause : ℕ) → result ≡ Err (DataError.Text line cause)
        → IsRefused declared.now text.now line cause }
    ensures accepted { (arrays : List (List ℤ)) → IsAccepted declared.now arrays text.now
        → IfOk result (λ given. given ≡ arrays) }
    ensures never_refused { (arrays : List (List ℤ)) (line cause : ℕ)
        → IsAccepted declared.now arrays text.now
        → result ≢ Err (DataError.Text line cause) }
    ensures refusal { (line other cause why : ℕ) → IsRefused declared.now text.now line cause
        → result ≡ Err (DataError.Text other why) → (other ≡ line) × (why ≡ cause) }
    ensures never_read { (line cause : ℕ) → IsRefused declared.now text.now line cause
        → IfOk result (λ arrays. ⊥) }
{
    grammar();
    read_once(alloc, text, declared)
}

/// What becomes of a file: the arrays, or its refusal.
fn read_once(alloc: Global, text: &[u8], declared: &[Declared]) -> Result<Arrays, DataError>
    requires short { length text.now ≤ longest_arrays }
    requires differ { AllPairs (λ one other. one ≢ other) (map (λ array. array.name) declared.now) }
    ensures read { IfOk result (λ arrays. outcome_of declared.now text.now
        ≡ Outcome.Accepted arrays) }
    ensures each { IfOk result (λ arrays. length arrays ≡ length declared.now) }
    ensures refused { IfErr result (λ error. Explains (outcome_of declared.now text.now) error) }
{
    let mut source = Source::new(text);
    let index = index_of(alloc, declared)?;
    let mut slots = Slots::new(alloc, declared.len())?;
    'arrays: while source.begins_array()? {
        array(alloc, &mut source, declared, &index, &mut slots)?;
    }
    match slots.all() {
        Some(arrays) => Ok(arrays),
        None => Err(source.refusal(9)),
    }
}
