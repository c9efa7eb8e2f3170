// Laws of the definitions: no body runs.
ghost use Rattle.std.specs.Prelude.{◌≡◌, ◌≢◌, ◌↔◌, ◌⊎◌, ◌++◌, ℕ, ℤ, map, AllPairs, List, [], ◌∷◌};
ghost use Rattle.std.specs.Prelude.{length, FitsSigned};
ghost use Rattle.std.specs.Int.{w64};
ghost use Rattle.std.specs.List.{All, AllZip};
ghost use Rattle.shapes_core.specs.declared.area.Declared.{Declared as Announced};
ghost use Rattle.shapes_core.specs.Name.{IsName};
ghost use Rattle.shapes_core.specs.Shape.{IsShape, total};
ghost use Rattle.array_text.specs.Files.{IsAccepted};
ghost use Rattle.array_text.specs.Lines.{Lined};
ghost use Rattle.array_text.specs.Outcome.{Came, IsBetweenHeads, IsRefused, Outcome, Want};
ghost use Rattle.array_text.specs.Outcome.{at_start, outcome_along, outcome_of};
ghost use Rattle.array_text.specs.Printed.{printed};

use text_tokens::laws::{printed_names, printed_numbers, values_fit};

/// The printed form of an array is a file that gives this array alone its values.
pub fn printed_arrays_read_back()
    ensures { (array : Announced) (values : List ℤ) → IsName array.name → IsShape array.shape
        → All (FitsSigned w64) values → length values ≡ total array.shape
        → outcome_of (array ∷ []) (printed array values) ≡ Outcome.Accepted (values ∷ []) }
{
    printed_names();
    printed_numbers();
}

/// A file gives the declared arrays their values exactly where it is a file of the grammar in which
/// each of them stands once.
pub fn grammar()
    ensures { (declared : List Announced) (arrays : List (List ℤ)) (text : List ℕ)
        → AllPairs (λ one other. one ≢ other) (map (λ array. array.name) declared)
        → (outcome_of declared text ≡ Outcome.Accepted arrays) ↔ IsAccepted declared arrays text }
{}

/// Each file is accepted or refused, and never both. A file gives one list of values at most, and
/// is refused at one line with one cause at most.
pub fn accepted_or_refused()
    ensures either { (declared : List Announced) (text : List ℕ)
        → AllPairs (λ one other. one ≢ other) (map (λ array. array.name) declared)
        → ((arrays : List (List ℤ)) × IsAccepted declared arrays text)
        ⊎ ((line : ℕ) × (cause : ℕ) × IsRefused declared text line cause) }
    ensures not_both { (declared : List Announced) (arrays : List (List ℤ)) (text : List ℕ) (line cause : ℕ)
        → AllPairs (λ one other. one ≢ other) (map (λ array. array.name) declared)
        → IsAccepted declared arrays text → IsRefused declared text line cause → ⊥ }
    ensures one { (declared : List Announced) (first second : List (List ℤ)) (text : List ℕ)
        → AllPairs (λ one other. one ≢ other) (map (λ array. array.name) declared)
        → IsAccepted declared first text → IsAccepted declared second text → first ≡ second }
    ensures one_refusal { (declared : List Announced) (text : List ℕ) (line other cause why : ℕ)
        → IsRefused declared text line cause → IsRefused declared text other why
        → (line ≡ other) × (cause ≡ why) }
{
    grammar();
}

/// Where tokens are refused, whatever stands behind them is refused so: no accepted file begins
/// with them.
pub fn refusals_stay()
    ensures { (declared : List Announced) (front behind : List Lined) (line cause : ℕ)
        → outcome_along declared (at_start declared) front ≡ Outcome.Refused line cause
        → outcome_along declared (at_start declared) (front ++ behind)
        ≡ Outcome.Refused line cause }
{}

/// Where an array or a value is wanted behind tokens that are not refused, some accepted file goes
/// on from there. So a file is refused at its first token that no accepted file could have there,
/// or at a head's line.
pub fn fronts_go_on()
    ensures { (declared : List Announced) (front : List Lined) (came : Came) (want : Want) (line : ℕ)
        → AllPairs (λ one other. one ≢ other) (map (λ array. array.name) declared)
        → outcome_along declared (at_start declared) front ≡ Outcome.Goes came want
        → IsBetweenHeads want
        → (behind : List Lined) × (arrays : List (List ℤ))
        × (outcome_along declared (at_start declared) (front ++ behind) ≡ Outcome.Accepted arrays) }
{}

/// Where a file gives declared arrays their values, there is a list of values for each of them, as
/// long as its total.
pub fn accepted_arrays_are_whole()
    ensures { (declared : List Announced) (arrays : List (List ℤ)) (text : List ℕ)
        → IsAccepted declared arrays text
        → AllZip (λ array values. length values ≡ total array.shape) declared arrays }
{}

/// Each value that a file gives has 64 bits.
pub fn accepted_values_fit()
    ensures { (declared : List Announced) (arrays : List (List ℤ)) (text : List ℕ)
        → IsAccepted declared arrays text → All (All (FitsSigned w64)) arrays }
{
    values_fit();
}
