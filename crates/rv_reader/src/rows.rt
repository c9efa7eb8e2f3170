// The rows of the areas.
ghost use Rattle.std.specs.Prelude.{◌≡◌, ◌+◌, ◌-◌, ◌<◌, ◌≤◌, ◌^◌, ◌++◌, [], ◌∷◌, IfErr, IfOk, IfSome, MatchOption, None, Ok, OnOk, false, length, true};
ghost use Rattle.std.specs.List.{last_or};
ghost use Rattle.std.specs.Str.Lines.{lines};
ghost use Rattle.rv_reader.specs.Limits.{longest_assembly};
ghost use Rattle.shapes_core.specs.Limits.{most_words};
ghost use Rattle.rv_line.specs.Fits.{area_names};
ghost use Rattle.rv_line.specs.Rows.{is_row};
ghost use Rattle.rv_reader.specs.AreaRows.{is_repeated, kinds, may_follow, row_of};
ghost use Rattle.rv_reader.specs.Bodies.{IsLineRefusal};
ghost use Rattle.rv_reader.specs.Errors.{IsRefusal};
ghost use Rattle.rv_reader.specs.Refusals.{area_in, cause_in, rows_refusal};
ghost use Rattle.rv_reader.specs.RowsSoFar.{AreRowsOf, IsNoRow, front_rows};
ghost use Rattle.rv_reader.specs.Tracked.{IsTracked, name_in, next_behind};
ghost use Rattle.rv_reader.specs.declared.error.AsmError.TheVariants as asm;

use crate::error::AsmError;
use crate::kind::kind_of;
use crate::lines::split_line;
use crate::names::Names;
use crate::operands::number;
use crate::parts::numbers;
use crate::row::{MALFORMED_ROW, checked, row_parts};
use shapes_core::{Area, AreaKind, total};
use std::alloc::Global;

/// The areas so far, with their names, their words, and the number that the next scan has.
#[derive(Drop)]
pub(crate) struct Areas {
    pub(crate) areas: Vec<Area>,
    known: Names,
    words: u64,
    next: u32,
}

/// Reads the row of an area that stands behind these.
fn read_row(
    alloc: Global,
    spill: u64,
    before: &Areas,
    place: u32,
    row: &[u8],
) -> Result<Area, AsmError>
    requires tracked { IsTracked before.now.areas.items before.now.known before.now.words before.now.next }
    requires small { spill + before.now.words < 2 ^ 64 - 1 }
    ensures fine { IfOk result (λ area. row_of spill before.now.areas.items row.now ≡ Ok area) }
    ensures refused { IfErr result (λ e.
        IsLineRefusal e place (cause_in (row_of spill before.now.areas.items row.now))) }
{
    let Some(parts) = row_parts(row) else {
        return Err(AsmError::at(place, MALFORMED_ROW));
    };
    if parts.mark != b"#".as_slice() {
        return Err(AsmError::at(place, MALFORMED_ROW));
    }
    let kind = kind_of(parts.tag, parts.word, before.next);
    let offset = number(parts.offset);
    let extents = numbers(alloc, parts.rest)?;
    match checked(
        &before.areas,
        before.words,
        &before.known,
        spill,
        kind,
        offset,
        &extents,
    ) {
        Ok(area) => Ok(area),
        Err(cause) => Err(AsmError::at(place, cause)),
    }
}

/// The number of the scan behind an area of this kind.
fn next_behind(next: u32, kind: &AreaKind) -> u32
    requires { next < 2 ^ 31 }
    ensures { result ≡ next_behind next kind.now }
{
    match kind {
        AreaKind::In(_) => 0,
        AreaKind::Out(_) => 0,
        AreaKind::Scan(_) => next + 1,
    }
}

/// Adds the name of an area, if it has one.
#[tactic(auto, using(crate::proofs::TrackLemmas::no_name))]
fn note_name(alloc: Global, known: &mut Names, kind: &AreaKind) -> Result<(), AsmError>
    requires { is_repeated known.old kind.now ≡ false }
    ensures noted { OnOk result (known.new ≡ known.old ++ name_in kind.now) }
    ensures memory { IfErr result (λ e. e ≡ asm.Memory) }
{
    match kind {
        AreaKind::In(name) => known.insert(alloc, name.bytes())?,
        AreaKind::Out(name) => known.insert(alloc, name.bytes())?,
        AreaKind::Scan(_) => {}
    }
    Ok(())
}

impl Areas {
    pub(crate) fn new(alloc: Global) -> Areas
        ensures areas { result.areas.items ≡ [] }
        ensures tracked { IsTracked result.areas.items result.known result.words result.next }
    {
        Areas {
            areas: Vec::new(alloc),
            known: Names::new(alloc),
            words: 0,
            next: 0,
        }
    }

    /// Adds an area that may stand behind these.
    fn add(&mut self, alloc: Global, area: Area) -> Result<(), AsmError>
        requires tracked { IsTracked self.old.areas.items self.old.known self.old.words self.old.next }
        requires follows { may_follow (last_or None (kinds self.old.areas.items)) area.kind ≡ true }
        requires new { is_repeated (area_names (kinds self.old.areas.items)) area.kind ≡ false }
        requires count { length self.old.areas.items < 2 ^ 26 }
        ensures areas { OnOk result (self.new.areas.items ≡ self.old.areas.items ++ area ∷ []) }
        ensures tracked { OnOk result (IsTracked self.new.areas.items self.new.known self.new.words self.new.next) }
        ensures memory { IfErr result (λ e. e ≡ asm.Memory) }
    {
        note_name(alloc, &mut self.known, &area.kind)?;
        self.next = next_behind(self.next, &area.kind);
        self.words += total(&area.shape);
        self.areas.push(area)?;
        Ok(())
    }

    /// Reads the row of an area that stands behind these, and adds the area.
    #[tactic(auto, using(crate::proofs::RowStepLemmas::row_cause, crate::proofs::RowStepLemmas::row_area))]
    fn add_row(&mut self, alloc: Global, spill: u64, place: u32, row: &[u8]) -> Result<(), AsmError>
        requires tracked { IsTracked self.old.areas.items self.old.known self.old.words self.old.next }
        requires small { spill + self.old.words < 2 ^ 64 - 1 }
        requires count { length self.old.areas.items < 2 ^ 26 }
        ensures fine { OnOk result (cause_in (row_of spill self.old.areas.items row.now) ≡ None) }
        ensures areas { OnOk result (self.new.areas.items
            ≡ self.old.areas.items ++ area_in (row_of spill self.old.areas.items row.now)) }
        ensures tracked { OnOk result (IsTracked self.new.areas.items self.new.known self.new.words self.new.next) }
        ensures refused { IfErr result (λ e.
            IsLineRefusal e place (cause_in (row_of spill self.old.areas.items row.now))) }
    {
        match read_row(alloc, spill, self, place, row) {
            Ok(area) => self.add(alloc, area),
            Err(error) => Err(error),
        }
    }
}

fn is_row(line: &[u8]) -> bool
    ensures { result ≡ is_row line.now }
{
    line.starts_with(b"# in ") || line.starts_with(b"# out ") || line.starts_with(b"# scan ")
}

/// The row with which a text begins, and what stands behind it, or `None` where it begins with none.
#[tactic(auto, using(crate::proofs::RowStepLemmas::no_row_left, crate::proofs::RowStepLemmas::no_row_next))]
fn next_row<'a>(text: &'a [u8]) -> Option<(&'a [u8], &'a [u8])>
    ensures split { MatchOption result (IsNoRow (lines text.now)) (λ p. lines text.now ≡ p.0.now ∷ lines p.1.now) }
    ensures row { IfSome result (λ p. is_row p.0.now ≡ true) }
    ensures shorter { IfSome result (λ p. length p.1.now < length text.now) }
{
    let (line, behind) = split_line(text)?;
    if is_row(line) {
        Some((line, behind))
    } else {
        None
    }
}

/// The areas of a text, what stands behind their rows, and the number of its first line in the whole text.
#[derive(Drop)]
pub(crate) struct Rows<'a> {
    pub(crate) areas: Vec<Area>,
    pub(crate) rest: &'a [u8],
    pub(crate) place: u32,
}

/// Reads the rows with which a text begins, the first of which is line 4 of the whole text.
pub(crate) fn read_rows<'a>(alloc: Global, spill: u64, text: &'a [u8]) -> Result<Rows<'a>, AsmError>
    requires spill { spill ≤ most_words }
    requires count { length text.now ≤ longest_assembly }
    ensures read { IfOk result (λ rows.
        AreRowsOf spill (lines text.now) rows.place rows.areas.items (lines rows.rest.now)) }
    ensures count { IfOk result (λ rows. length rows.areas.items + length rows.rest.now ≤ length text.now) }
    ensures place { IfOk result (λ rows. rows.place + length rows.rest.now ≤ 4 + length text.now) }
    ensures refused { IfErr result (λ e. IsRefusal e (rows_refusal spill 4 [] (front_rows (lines text.now)))) }
{
    let mut areas = Areas::new(alloc);
    let mut rest = text;
    let mut place = 4;
    while let Some((row, behind)) = next_row(rest) {
        areas.add_row(alloc, spill, place, row)?;
        rest = behind;
        place += 1;
    }
    Ok(Rows {
        areas: areas.areas,
        rest,
        place,
    })
}
