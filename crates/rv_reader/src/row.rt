// One row of an area.
ghost use Rattle.std.specs.Prelude.{◌≡◌, ◌==◌, ◌+◌, ◌^◌, ◌<◌, ◌∷◌, ℕ, List, MatchOption, None, Some, length};
ghost use Rattle.std.specs.Option.{option_map};
ghost use Rattle.rv_line.specs.Fits.{area_names};
ghost use Rattle.std.specs.List.{last_or, slice_split};
ghost use Rattle.shapes_core.specs.declared.area.AreaKind.TheVariants as area;
ghost use Rattle.rv_reader.specs.AreaRows.{area_from, checked, is_repeated, kinds, may_follow};
ghost use Rattle.rv_reader.specs.Parts.{parts_left};

use crate::names::Names;
use crate::parts::next_part;
use shapes_core::{Area, AreaKind, Shape};

/// The causes of a row.
pub(crate) const MALFORMED_ROW: u8 = 4;

pub(crate) const REPEATED_AREA: u8 = 5;

pub(crate) const TOO_LARGE: u8 = 12;

/// The parts of a row: those up to its offset, and what is left.
#[derive(Clone, Copy)]
pub(crate) struct RowParts<'a> {
    pub(crate) mark: &'a [u8],
    pub(crate) tag: &'a [u8],
    pub(crate) word: &'a [u8],
    pub(crate) offset: &'a [u8],
    pub(crate) rest: Option<&'a [u8]>,
}

pub(crate) fn row_parts<'a>(row: &'a [u8]) -> Option<RowParts<'a>>
    ensures { MatchOption result (length (slice_split (λ byte. byte == 32) row.now) < 4)
        (λ p. slice_split (λ byte. byte == 32) row.now
        ≡ p.mark.now ∷ p.tag.now ∷ p.word.now ∷ p.offset.now ∷ parts_left p.rest) }
{
    let (mark, rest) = next_part(row);
    let Some(rest) = rest else {
        return None;
    };
    let (tag, rest) = next_part(rest);
    let Some(rest) = rest else {
        return None;
    };
    let (word, rest) = next_part(rest);
    let Some(rest) = rest else {
        return None;
    };
    let (offset, rest) = next_part(rest);
    Some(RowParts {
        mark,
        tag,
        word,
        offset,
        rest,
    })
}

fn may_be_first(kind: &AreaKind) -> bool
    ensures { result ≡ may_follow None kind.now }
{
    match kind {
        AreaKind::In(_) => true,
        AreaKind::Out(_) => true,
        AreaKind::Scan(number) => *number == 0,
    }
}

fn may_follow_input(kind: &AreaKind) -> bool
    ensures { (last : List ℕ) → result ≡ may_follow (Some (area.In last)) kind.now }
{
    may_be_first(kind)
}

fn may_follow_output(kind: &AreaKind) -> bool
    ensures { (last : List ℕ) → result ≡ may_follow (Some (area.Out last)) kind.now }
{
    match kind {
        AreaKind::In(_) => false,
        AreaKind::Out(_) => true,
        AreaKind::Scan(number) => *number == 0,
    }
}

fn may_follow_scan(last: u32, kind: &AreaKind) -> bool
    ensures { result ≡ may_follow (Some (area.Scan last)) kind.now }
{
    match kind {
        AreaKind::In(_) => false,
        AreaKind::Out(_) => false,
        AreaKind::Scan(number) => u64::from(*number) == u64::from(last) + 1,
    }
}

/// Whether an area of this kind may stand behind the last of these.
#[tactic(auto, using(crate::proofs::KindLemmas::last_kind, crate::proofs::KindLemmas::no_last))]
fn may_follow(areas: &[Area], next: &AreaKind) -> bool
    ensures { result ≡ may_follow (last_or None (kinds areas.now)) next.now }
{
    if areas.is_empty() {
        return may_be_first(next);
    }
    match &areas[areas.len() - 1].kind {
        AreaKind::In(_) => may_follow_input(next),
        AreaKind::Out(_) => may_follow_output(next),
        AreaKind::Scan(last) => may_follow_scan(*last, next),
    }
}

fn is_repeated(names: &Names, kind: &AreaKind) -> bool
    ensures { result ≡ is_repeated names.now kind.now }
{
    match kind {
        AreaKind::In(name) => names.contains(name.bytes()),
        AreaKind::Out(name) => names.contains(name.bytes()),
        AreaKind::Scan(_) => false,
    }
}

/// The area of what is read of a row, if it may stand behind these areas, or the cause with which it is refused.
pub(crate) fn checked(
    areas: &[Area],
    words: u64,
    known: &Names,
    spill: u64,
    kind: Option<AreaKind>,
    offset: Option<u64>,
    extents: &Option<Vec<u64>>,
) -> Result<Area, u8>
    requires names { known.now ≡ area_names (kinds areas.now) }
    requires small { spill + words < 2 ^ 64 }
    ensures { result ≡ checked areas.now (area_from spill words kind offset (option_map (λ v. v.items) extents.now)) }
{
    let Some(kind) = kind else {
        return Err(MALFORMED_ROW);
    };
    let Some(offset) = offset else {
        return Err(MALFORMED_ROW);
    };
    let Some(extents) = extents else {
        return Err(MALFORMED_ROW);
    };
    if offset != spill + words || !may_follow(areas, &kind) {
        return Err(MALFORMED_ROW);
    }
    let Some(shape) = Shape::new(extents) else {
        return Err(TOO_LARGE);
    };
    if is_repeated(known, &kind) {
        return Err(REPEATED_AREA);
    }
    Ok(Area {
        kind,
        shape,
        start: words,
    })
}
