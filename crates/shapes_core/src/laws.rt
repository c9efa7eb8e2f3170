// Laws of the definitions, for every proof that stands on them: no body runs.
ghost use Rattle.std.specs.Prelude.{◌≡◌, ◌↔◌, IsTrue, ℕ, ◌+◌, ◌*◌, ◌<◌, ◌≤◌, List, [], ◌∷◌, ◌++◌, drop, length, replicate, slice_index_or};
ghost use Rattle.std.specs.List.{AllByRecursion};
ghost use Rattle.std.specs.Str.{bytes_eq};
ghost use Rattle.shapes_core.specs.Gamma.{IsIndex, digit, digits, gamma, rows, ungamma, weight};
ghost use Rattle.shapes_core.specs.Name.{IsName};
ghost use Rattle.shapes_core.specs.Padded.{IsPadded};
ghost use Rattle.shapes_core.specs.Shape.{span, total};

/// Gamma goes by the last axis, as Mullin defines it, and numbers the elements of an array: each index
/// vector has an offset below the total, each such offset one index vector, and `rows` has them in this order.
pub fn gamma_laws()
    ensures total_last { (shape : List ℕ) (n : ℕ) → total (shape ++ n ∷ []) ≡ total shape * n }
    ensures last { (index shape : List ℕ) (k n : ℕ) → length index ≡ length shape
        → gamma (index ++ k ∷ []) (shape ++ n ∷ []) ≡ gamma index shape * n + k }
    ensures below { (index shape : List ℕ) → IsIndex index shape → gamma index shape < total shape }
    ensures is_index { (shape : List ℕ) (offset : ℕ) → offset < total shape
        → IsIndex (ungamma shape offset) shape }
    ensures of_ungamma { (shape : List ℕ) (offset : ℕ) → offset < total shape
        → gamma (ungamma shape offset) shape ≡ offset }
    ensures undone { (index shape : List ℕ) → IsIndex index shape
        → ungamma shape (gamma index shape) ≡ index }
    ensures rows_len { (shape : List ℕ) → length (rows shape) ≡ total shape }
    ensures row_at { (index shape other : List ℕ) → IsIndex index shape
        → slice_index_or (rows shape) (gamma index shape) other ≡ index }
{}

/// The digits of an offset are its index vector, and each is found by itself, from its axis' weight and extent.
pub fn digit_laws()
    ensures len { (shape : List ℕ) (offset : ℕ) → length (digits shape offset) ≡ length shape }
    ensures digit_at { (shape : List ℕ) (offset axis : ℕ) → axis < length shape
        → slice_index_or (digits shape offset) axis 0 ≡ digit offset (weight shape axis) (slice_index_or shape axis 0) }
    ensures is_index { (shape : List ℕ) (offset : ℕ) → offset < total shape
        → IsIndex (digits shape offset) shape }
    ensures of_digits { (shape : List ℕ) (offset : ℕ) → offset < total shape
        → gamma (digits shape offset) shape ≡ offset }
    ensures undone { (index shape : List ℕ) → IsIndex index shape
        → digits shape (gamma index shape) ≡ index }
    ensures same { (shape : List ℕ) (offset : ℕ) → offset < total shape
        → digits shape offset ≡ ungamma shape offset }
    ensures again { (shape : List ℕ) (q r : ℕ) → 0 < total shape
        → digits shape (q * total shape + r) ≡ digits shape r }
{}

/// No span is 0, and where no extent is 0 the span is the total.
pub fn span_laws()
    ensures positive { (shape : List ℕ) → 0 < span shape }
    ensures no_extent_0 { (shape : List ℕ) → (0 < total shape) ↔ AllByRecursion (λ n. 0 < n) shape }
    ensures is_total { (shape : List ℕ) → 0 < total shape → span shape ≡ total shape }
    ensures of_index { (index shape : List ℕ) → IsIndex index shape → span shape ≡ total shape }
{}

/// The test by which two names, or two shapes, are equal decides that the lists are.
pub fn equality_is_exact()
    ensures { (left right : List ℕ) → IsTrue (bytes_eq left right) ↔ (left ≡ right) }
{}

/// A name has at most 64 bytes.
pub fn names_are_short()
    ensures { (name : List ℕ) → IsName name → length name ≤ 64 }
{}

/// A list that is copied to the front of an array of one item is padded with this item.
pub fn copies_are_padded<T>()
    ensures { (other : T) (size : ℕ) (list copied : List T) → copied ≡ list → length list ≤ size
        → IsPadded other size (copied ++ drop (length list) (replicate size other)) (length list) }
{}
