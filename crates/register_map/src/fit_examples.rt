// Homes that fit a nest, and near misses.
ghost use Rattle.register_map.specs.FitExamples.{one_in, one_set, two_copied, two_in};
ghost use Rattle.register_map.specs.Fits.{IsFit};
ghost use Rattle.register_map.specs.Homes.{is_given};
ghost use Rattle.std.specs.Prelude.{false, true, ◌≡◌};

/// The machine registers that are given are x5 to x7 and x11 to x17.
pub fn registers_are_given()
    ensures x4 { is_given 4 ≡ false }
    ensures x5 { is_given 5 ≡ true }
    ensures x7 { is_given 7 ≡ true }
    ensures x8 { is_given 8 ≡ false }
    ensures x10 { is_given 10 ≡ false }
    ensures x11 { is_given 11 ≡ true }
    ensures x17 { is_given 17 ≡ true }
    ensures x18 { is_given 18 ≡ false }
    ensures x28 { is_given 28 ≡ false }
{}

/// A register may lie in x5, but not in x8 or x28; and two that are needed together may not share
/// one.
pub fn fits_are_told_apart()
    ensures given { IsFit one_set (one_in 5) }
    ensures kept { IsFit one_set (one_in 8) → ⊥ }
    ensures scratch { IsFit one_set (one_in 28) → ⊥ }
    ensures shared { IsFit two_copied (two_in 5 5) → ⊥ }
{}
