// The body of a text: its labels, its instructions, and the lines where they stand.
ghost use Rattle.std.specs.Prelude.{◌≡◌, ◌+◌, ◌<◌, ◌≤◌, ◌^◌, ◌++◌, [], ◌∷◌, IfErr, IfOk, None, Ok, OnOk, length, map};
ghost use Rattle.std.specs.Str.Lines.{lines};
ghost use Rattle.rv_reader.specs.Bodies.{IsBodyOf, IsLineRefusal, names_of};
ghost use Rattle.rv_reader.specs.BodyLines.{reading_of};
ghost use Rattle.rv_reader.specs.BodyLines.Reading.{Defines as DefinesLabel};
ghost use Rattle.rv_reader.specs.Errors.{IsRefusal};
ghost use Rattle.rv_reader.specs.Refusals.{body_refusal, draft_in, drafts_of, label_in, labels_of, line_cause, places_of};
ghost use Rattle.rv_reader.specs.Views.{drafted};
ghost use Rattle.rv_reader.specs.declared.error.AsmError.TheVariants as asm;

use crate::draft::Draft;
use crate::error::{AsmError, REPEATED};
use crate::labels::Labels;
use crate::lines::split_line;
use crate::reading::{Reading, reading_of};
use std::alloc::Global;

/// What is read of a body: the instructions with the lines where they stand, counted from 1, and the labels.
#[derive(Drop)]
pub(crate) struct Body<'a> {
    pub(crate) labels: Labels<'a>,
    pub(crate) drafts: Vec<Draft<'a>>,
    pub(crate) places: Vec<u32>,
}

impl<'a> Body<'a> {
    fn new(alloc: Global) -> Body<'a>
        ensures labels { result.labels ≡ [] }
        ensures drafts { result.drafts.items ≡ [] }
        ensures places { result.places.items ≡ [] }
    {
        Body {
            labels: Labels::new(alloc),
            drafts: Vec::new(alloc),
            places: Vec::new(alloc),
        }
    }

    /// Adds the label that a line defines.
    #[tactic(auto, using(crate::proofs::StepLemmas::known_label))]
    fn define(&mut self, place: u32, label: &'a [u8]) -> Result<(), AsmError>
        requires { length self.old.drafts.items < 2 ^ 32 }
        ensures labels { OnOk result (self.new.labels
            ≡ self.old.labels ++ (label.now, length self.old.drafts.items) ∷ []) }
        ensures drafts { self.new.drafts.items ≡ self.old.drafts.items }
        ensures places { self.new.places.items ≡ self.old.places.items }
        ensures fine { OnOk result (line_cause (names_of self.old.labels) (Ok (DefinesLabel label.now)) ≡ None) }
        ensures refused { IfErr result (λ e.
            IsLineRefusal e place (line_cause (names_of self.old.labels) (Ok (DefinesLabel label.now)))) }
    {
        if self.labels.find(label).is_some() {
            return Err(AsmError::at(place, REPEATED));
        }
        self.labels.insert(label, self.drafts.len() as u32)?;
        Ok(())
    }

    /// Adds the instruction of a line.
    fn push(&mut self, place: u32, draft: Draft<'a>) -> Result<(), AsmError>
        ensures labels { self.new.labels ≡ self.old.labels }
        ensures drafts { OnOk result (self.new.drafts.items ≡ self.old.drafts.items ++ draft.entry ∷ []) }
        ensures places { OnOk result (self.new.places.items ≡ self.old.places.items ++ place ∷ []) }
        ensures memory { IfErr result (λ e. e ≡ asm.Memory) }
    {
        self.drafts.push(draft)?;
        self.places.push(place)?;
        Ok(())
    }

    /// Adds what a line says, or gives the cause with which it is refused.
    #[tactic(auto, using(crate::proofs::StepLemmas::same_labels, crate::proofs::StepLemmas::same_drafts, crate::proofs::StepLemmas::same_places, crate::proofs::StepLemmas::drafts_push))]
    fn note(&mut self, place: u32, line: &'a [u8]) -> Result<(), AsmError>
        requires { length self.old.drafts.items < 2 ^ 32 }
        ensures labels { OnOk result (self.new.labels
            ≡ self.old.labels ++ map (λ l. (l, length self.old.drafts.items)) (label_in (reading_of line.now))) }
        ensures drafts { OnOk result (map drafted self.new.drafts.items
            ≡ map drafted self.old.drafts.items ++ draft_in (reading_of line.now)) }
        ensures places { OnOk result (self.new.places.items
            ≡ self.old.places.items ++ map (λ draft. place) (draft_in (reading_of line.now))) }
        ensures fine { OnOk result (line_cause (names_of self.old.labels) (reading_of line.now) ≡ None) }
        ensures refused { IfErr result (λ e. IsLineRefusal e place (line_cause (names_of self.old.labels) (reading_of line.now))) }
    {
        match reading_of(line) {
            Ok(Reading::Nothing) => Ok(()),
            Ok(Reading::Defines(label)) => self.define(place, label),
            Ok(Reading::Codes(draft)) => self.push(place, draft),
            Err(cause) => Err(AsmError::at(place, cause)),
        }
    }
}

/// Reads the lines of a body, of which the first has this number in the whole text.
pub(crate) fn read_body<'a>(alloc: Global, text: &'a [u8], first: u32) -> Result<Body<'a>, AsmError>
    requires { first + length text.now < 2 ^ 32 }
    ensures read { IfOk result (λ body.
        IsBodyOf first (lines text.now) body.labels (map drafted body.drafts.items) body.places.items) }
    ensures count { IfOk result (λ body. length body.drafts.items ≤ length text.now) }
    ensures refused { IfErr result (λ e. IsRefusal e (body_refusal first [] (lines text.now))) }
{
    let mut body = Body::new(alloc);
    let mut rest = text;
    let mut place = first;
    while let Some((line, behind)) = split_line(rest) {
        body.note(place, line)?;
        rest = behind;
        place += 1;
    }
    Ok(body)
}
