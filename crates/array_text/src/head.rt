// The head of an array.
ghost use Rattle.std.specs.Prelude.{◌≡◌, ◌<◌, ◌≤◌, ℕ, List, [], length, true, false, Some, None};
ghost use Rattle.std.specs.Prelude.{is_some, position, slice_index_or};
ghost use Rattle.std.specs.Prelude.{IfErr, IfOk, IfSome, OnOk, MatchResult};
ghost use Rattle.std.specs.Str.{bytes_eq};
ghost use Rattle.shapes_core.specs.Limits.{greatest_extent};
ghost use Rattle.shapes_core.specs.declared.area.Declared.{Declared as Announced};
ghost use Rattle.array_text.specs.Index.{IsIndex};
ghost use Rattle.array_text.specs.Outcome.{Came, Head, Outcome, Want, filled, head_of, is_on};
ghost use Rattle.array_text.specs.Outcome.{place_of, with_extent};
ghost use Rattle.array_text.specs.Sources.{IsRefusedWith, Passes};

use crate::arrays::Slots;
use crate::error::DataError;
use crate::index::{Index, place_of};
use crate::source::Source;
use shapes_core::{Declared, Name, NoMemory, Shape, total};
use std::alloc::Global;
use std::marker::Model;
use text_tokens::Token;

/// The extents of a head, if each so far is one. Contracts see their list, if so.
#[derive(Drop)]
pub(crate) struct Extents {
    extents: Vec<u64>,
    are_extents: bool,
}

impl Model for Extents {
    ghost use Rattle.std.specs.Prelude.{if◌then◌else◌, ℕ, List, Some, None};
    ghost use Rattle.std.specs.declared.option.Option.{Option};

    ghost Value = { Option (List ℕ) };

    ghost view = { λ e. if e.are_extents then Some e.extents.items else None };
}

impl Extents {
    fn new(alloc: Global) -> Extents
        ensures { result ≡ Some [] }
    {
        Extents {
            extents: Vec::new(alloc),
            are_extents: true,
        }
    }

    fn refuse(&mut self)
        ensures { self.new ≡ None }
    {
        self.are_extents = false;
    }

    /// Adds the extent that a token is.
    fn add(&mut self, token: Token) -> Result<(), NoMemory>
        ensures { OnOk result (self.new ≡ with_extent self.old token) }
    {
        match token {
            Token::Number(number) => match u64::try_from(number) {
                Ok(extent) => self.extents.push(extent)?,
                Err(_) => self.refuse(),
            },
            _ => self.refuse(),
        }
        Ok(())
    }

    /// Whether each is an extent.
    fn are_extents(&self) -> bool
        ensures { result ≡ is_some self.now }
    {
        self.are_extents
    }

    /// Whether they are those of the shape.
    fn are_of(&self, shape: &Shape) -> bool
        ensures { IfSome self.now (λ extents. result ≡ bytes_eq extents shape.now) }
    {
        self.extents.as_slice() == shape.extents()
    }
}

/// Passes over a name, which is wanted on this line.
#[tactic(auto, using(crate::proofs::PassLemmas::refused_along))]
pub(crate) fn name(source: &mut Source<'_>, first: u32) -> Result<Name, DataError>
    ensures passes { IfOk result (λ name. (declared : List Announced) (came : Came)
        → Passes declared (Outcome.Goes came (Want.AName first)) source.old
        (Outcome.Goes came (Want.AnExtent first name (Some []))) source.new) }
    ensures fewer { OnOk result (length source.new.behind < length source.old.behind) }
    ensures refused { IfErr result (λ error. (declared : List Announced) (came : Came)
        → IsRefusedWith declared (Outcome.Goes came (Want.AName first)) source.old error) }
{
    let name = source.name_on(first)?;
    source.advance();
    Ok(name)
}

/// Passes over a token on the line of a head, behind its name.
#[tactic(auto, using(crate::proofs::PassLemmas::on_the_line))]
fn extent(source: &mut Source<'_>, first: u32, extents: &mut Extents) -> Result<(), DataError>
    requires { is_on first source.old.token source.old.line ≡ true }
    ensures passes { OnOk result ((declared : List Announced) (came : Came) (name : List ℕ)
        → Passes declared (Outcome.Goes came (Want.AnExtent first name extents.old)) source.old
        (Outcome.Goes came (Want.AnExtent first name extents.new)) source.new) }
    ensures fewer { OnOk result (length source.new.behind < length source.old.behind) }
    ensures refused { IfErr result
        (λ error. (declared : List Announced) (came : Came) (name : List ℕ)
        → IsRefusedWith declared (Outcome.Goes came (Want.AnExtent first name extents.old))
        source.old error) }
{
    let token = source.on_heads_line(first)?;
    extents.add(token)?;
    source.advance();
    Ok(())
}

/// Passes over what is left of the line of a head, behind its name.
pub(crate) fn read_extents(
    alloc: Global,
    source: &mut Source<'_>,
    first: u32,
) -> Result<Extents, DataError>
    ensures passes { IfOk result
        (λ extents. (declared : List Announced) (came : Came) (name : List ℕ)
        → Passes declared (Outcome.Goes came (Want.AnExtent first name (Some []))) source.old
        (Outcome.Goes came (Want.AnExtent first name extents)) source.new) }
    ensures ends { OnOk result (is_on first source.new.token source.new.line ≡ false) }
    ensures fewer { OnOk result (length source.new.behind ≤ length source.old.behind) }
    ensures refused { IfErr result
        (λ error. (declared : List Announced) (came : Came) (name : List ℕ)
        → IsRefusedWith declared (Outcome.Goes came (Want.AnExtent first name (Some [])))
        source.old error) }
{
    let mut extents = Extents::new(alloc);
    'line: while source.is_on(first) {
        extent(source, first, &mut extents)?;
    }
    Ok(extents)
}

/// Where the array of a head stands, and how many values it has, or the cause for which the head is
/// refused.
fn verdict(
    declared: &[Declared],
    index: &Index<'_>,
    slots: &Slots,
    name: &Name,
    extents: &Extents,
) -> Result<(usize, u64), u8>
    requires places { length slots.now ≡ length declared.now }
    requires index { IsIndex declared.now index.now }
    ensures head { MatchResult result
        (λ begun. head_of declared.now slots.now name.now extents.now ≡ Head.Begins begun.0 begun.1)
        (λ cause. head_of declared.now slots.now name.now extents.now ≡ Head.Fails cause) }
    ensures within { IfOk result (λ begun. begun.0 < length declared.now) }
    ensures small { IfOk result (λ begun. begun.1 ≤ greatest_extent) }
{
    if !extents.are_extents() {
        return Err(4);
    }
    let Some(place) = place_of(index, name) else {
        return Err(5);
    };
    if slots.has(place) {
        return Err(6);
    }
    let shape = &declared[place].shape;
    if !extents.are_of(shape) {
        return Err(7);
    }
    Ok((place, total(shape)))
}

/// Where the array of a head stands whose line ends here, and how many values it has.
pub(crate) fn begin(
    source: &Source<'_>,
    declared: &[Declared],
    index: &Index<'_>,
    slots: &Slots,
    first: u32,
    name: &Name,
    extents: &Extents,
) -> Result<(usize, u64), DataError>
    requires places { length slots.now ≡ length declared.now }
    requires index { IsIndex declared.now index.now }
    requires ends { is_on first source.now.token source.now.line ≡ false }
    ensures passes { IfOk result (λ begun. Passes declared.now
        (Outcome.Goes slots.now (Want.AnExtent first name.now extents.now)) source.now
        (filled slots.now begun.0 [] begun.1) source.now) }
    ensures within { IfOk result (λ begun. begun.0 < length declared.now) }
    ensures small { IfOk result (λ begun. begun.1 ≤ greatest_extent) }
    ensures refused { IfErr result (λ error. IsRefusedWith declared.now
        (Outcome.Goes slots.now (Want.AnExtent first name.now extents.now)) source.now error) }
{
    match verdict(declared, index, slots, name, extents) {
        Ok(begun) => Ok(begun),
        Err(cause) => Err(DataError::Text { line: first, cause }),
    }
}
