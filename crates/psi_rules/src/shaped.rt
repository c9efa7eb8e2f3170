// What needs the shape of a node and keeps none: the functions of the cycle in arms pass the node's number, so that no level of
// it holds a shape.
ghost use Rattle.std.specs.Prelude.{◌≡◌, ◌==◌, ◌+◌, ◌-◌, ◌++◌, ◌∷◌, ℕ, List, IfOk, suc, ◌<◌, ◌≤◌, drop, length, slice_index, slice_index_or, take, []};
ghost use Rattle.std.specs.List.{AllByRecursion};
ghost use Rattle.std.specs.Str.{bytes_eq};
ghost use Rattle.shapes_core.specs.Limits.{greatest_extent, most_axes, most_items};
ghost use Rattle.shapes_core.specs.Shape.{total};
ghost use Rattle.normal_form.specs.declared.entry.Entry.{Entry as AnEntry};
ghost use Rattle.normal_form.specs.Formers.{Making, flattening};
ghost use Rattle.normal_form.specs.Forms.{Let, Normal};
ghost use Rattle.normal_form.specs.declared.term.Bind.TheVariants.{Flat};
ghost use Rattle.moa_tree.specs.Axes.{on_axis, own_index};
ghost use Rattle.normal_form.specs.Moves.{behind_entry};
ghost use Rattle.normal_form.specs.Cutting.{Scope, terms_in};
ghost use Rattle.normal_form.specs.Keeps.{AreWithin};
ghost use Rattle.psi_rules.specs.Building.{Adds, Builds, IsThere, Stands, flat_by, used};
ghost use Rattle.psi_rules.specs.Fitting.{ArePlaces, IsDigitWithin, IsFit};
ghost use Rattle.psi_rules.specs.Rules.{loading};

use crate::digits::{Digited, offset_entry};
use crate::moves::{own, past, replaced, with_first, with_last};
use crate::pool::Pool;
use crate::shapes::{first_extent, last_extent};
use normal_form::{Entries, Entry};
use shape_check::Checked;
use shapes_core::NoMemory;

/// Whether two nodes have one shape.
#[inline(never)]
pub(crate) fn same_shapes(checked: &Checked, number: u32, other: u32) -> bool
    requires first { number < length checked.now.pools.nodes }
    requires second { other < length checked.now.pools.nodes }
    ensures { result ≡ bytes_eq (slice_index_or checked.now.shapes number []) (slice_index_or checked.now.shapes other []) }
{
    checked.shape_of(number).extents() == checked.shape_of(other).extents()
}

/// Whether a node has no axis.
#[inline(never)]
pub(crate) fn is_scalar(checked: &Checked, number: u32) -> bool
    requires { number < length checked.now.pools.nodes }
    ensures { result ≡ (length (slice_index_or checked.now.shapes number []) == 0) }
{
    checked.shape_of(number).extents().is_empty()
}

/// The offset of entries of the shape of a node.
#[inline(never)]
pub(crate) fn offset_in(checked: &Checked, number: u32, entries: &Entries) -> Digited
    requires there { number < length checked.now.pools.nodes }
    requires places { ArePlaces entries.now (slice_index_or checked.now.shapes number []) }
    ensures offset { (rest : AnEntry → Making) → flattening (slice_index_or checked.now.shapes number []) entries.now rest
        ≡ flat_by result (slice_index_or checked.now.shapes number []) entries.now rest }
    ensures within { (room : ℕ) (known : Scope) → AreWithin room known entries.now (slice_index_or checked.now.shapes number [])
        → IsDigitWithin result room known (total (slice_index_or checked.now.shapes number [])) }
{
    offset_entry(&checked.shape_of(number), entries)
}

/// Adds a term under a variable that is the offset of entries of the shape of a node.
#[inline(never)]
pub(crate) fn push_offset(
    checked: &Checked,
    pool: &mut Pool,
    var: u32,
    entries: &Entries,
    number: u32,
    of: u32,
) -> Result<u32, NoMemory>
    requires shaped { number < length checked.now.pools.nodes }
    requires there { of < length pool.old.terms }
    requires room { used pool.old < most_items }
    ensures adds { (operand : Normal) → Stands pool.old.terms of operand
        → IfOk result (Adds (terms_in operand) (Let var (Flat entries.now (slice_index_or checked.now.shapes number [])) operand)
        pool.old pool.new) }
    ensures there { IfOk result (IsThere pool.old pool.new) }
    ensures one { IfOk result (λ term. used pool.new ≡ suc (used pool.old)) }
{
    pool.offset(var, entries, &checked.shape_of(number), of)
}

/// Adds an element of an area with the shape of a node.
#[inline(never)]
pub(crate) fn load_in(
    checked: &Checked,
    pool: &mut Pool,
    area: u32,
    number: u32,
    entries: &Entries,
) -> Result<u32, NoMemory>
    requires there { number < length checked.now.pools.nodes }
    requires room { used pool.old < most_items }
    ensures builds { IfOk result (Builds (loading area (slice_index_or checked.now.shapes number []) entries.now) pool.old pool.new) }
    ensures there { IfOk result (IsThere pool.old pool.new) }
    ensures one { IfOk result (λ term. used pool.new ≡ suc (used pool.old)) }
{
    pool.load(area, checked.shape_of(number), *entries)
}

/// How many axes a node has.
#[inline(never)]
pub(crate) fn axes_in(checked: &Checked, number: u32) -> usize
    requires { number < length checked.now.pools.nodes }
    ensures { result ≡ length (slice_index_or checked.now.shapes number []) }
{
    checked.shape_of(number).extents().len()
}

/// The first extent of a node, or 0.
#[inline(never)]
pub(crate) fn first_extent_in(checked: &Checked, number: u32) -> u64
    requires { number < length checked.now.pools.nodes }
    ensures value { result ≡ slice_index (slice_index_or checked.now.shapes number []) 0 }
    ensures small { result ≤ greatest_extent }
{
    first_extent(&checked.shape_of(number))
}

/// The last extent of a node, or 0.
#[inline(never)]
pub(crate) fn last_extent_in(checked: &Checked, number: u32) -> u64
    requires { number < length checked.now.pools.nodes }
    ensures { result ≡ slice_index (slice_index_or checked.now.shapes number []) (length (slice_index_or checked.now.shapes number []) - 1) }
{
    last_extent(&checked.shape_of(number))
}

/// The last entries, one for each axis of a node.
#[inline(never)]
pub(crate) fn own_in(checked: &Checked, number: u32, entries: &Entries) -> Entries
    requires { number < length checked.now.pools.nodes }
    ensures { result ≡ own_index (slice_index_or checked.now.shapes number []) entries.now }
{
    own(&checked.shape_of(number), entries)
}

/// The entries of a node with another one on the first axis.
#[inline(never)]
pub(crate) fn replaced_in(
    checked: &Checked,
    number: u32,
    entry: Entry,
    entries: &Entries,
) -> Entries
    requires { number < length checked.now.pools.nodes }
    ensures { result ≡ on_axis 0 (λ extent old. entry) (slice_index_or checked.now.shapes number []) entries.now }
{
    replaced(&checked.shape_of(number), entry, entries)
}

/// The entries behind a node that is the first part of a join.
#[inline(never)]
pub(crate) fn past_in(checked: &Checked, number: u32, entries: &Entries) -> Entries
    requires there { number < length checked.now.pools.nodes }
    requires fits { AllByRecursion IsFit (on_axis 0 behind_entry (slice_index_or checked.now.shapes number []) entries.now) }
    ensures { result ≡ on_axis 0 behind_entry (slice_index_or checked.now.shapes number []) entries.now }
{
    past(&checked.shape_of(number), entries)
}

/// The entries for all axes of a node but its last one, and an entry for that one.
#[inline(never)]
pub(crate) fn with_last_in(
    checked: &Checked,
    number: u32,
    entries: &Entries,
    entry: Entry,
) -> Entries
    requires { number < length checked.now.pools.nodes }
    ensures { result ≡ take (length (slice_index_or checked.now.shapes number []) - 1) entries.now ++ entry ∷ [] }
{
    with_last(&checked.shape_of(number), entries, entry)
}

/// An entry for the first axis of an operand, and those behind the axes of a node but its last.
#[inline(never)]
pub(crate) fn with_first_in(
    checked: &Checked,
    number: u32,
    entries: &Entries,
    entry: Entry,
) -> Entries
    requires there { number < length checked.now.pools.nodes }
    requires few { length entries.now < most_axes + (length (slice_index_or checked.now.shapes number []) - 1) }
    ensures { result ≡ entry ∷ drop (length (slice_index_or checked.now.shapes number []) - 1) entries.now }
{
    with_first(&checked.shape_of(number), entries, entry)
}
