// Worked rows of the definitions on counts and on calls.
ghost use Rattle.std.specs.Prelude.{ℕ, ◌≡◌, ◌-◌, ◌^◌, ◌<◌, ◌∷◌, [], Ok, Err};
ghost use Rattle.psi_edges.specs.Calls.{AreOffered, IsAsked};
ghost use Rattle.psi_edges.specs.Causes.{HasCause, Rose, raised};

/// A count that stands still did not rise, except at its last value, at which it stays. A call fails only where
/// the count rose, and succeeds only where it stood still.
pub fn cause_examples()
    ensures rose { Rose 0 1 }
    ensures rose_by_more { Rose 0 7 }
    ensures stood_still { (n : ℕ) → n < 2 ^ 64 - 1 → Rose n n → ⊥ }
    ensures stood_at_the_last { Rose (2 ^ 64 - 1) (2 ^ 64 - 1) }
    ensures raised_by_three { raised 4 3 ≡ 7 }
    ensures raised_to_the_last { raised (2 ^ 64 - 3) 2 ≡ 2 ^ 64 - 1 }
    ensures raised_past_the_last { raised (2 ^ 64 - 1) 5 ≡ 2 ^ 64 - 1 }
    ensures failed { HasCause {T = ℕ} {E = ℕ} 3 4 (Err 0) }
    ensures succeeded { HasCause {T = ℕ} {E = ℕ} 3 3 (Ok 0) }
    ensures failed_without_cause { HasCause {T = ℕ} {E = ℕ} 3 3 (Err 0) → ⊥ }
    ensures succeeded_after_a_failure { HasCause {T = ℕ} {E = ℕ} 3 4 (Ok 0) → ⊥ }
{}

/// A call of a shelf has room for 4096 bytes, or for all up to the one past the limit. A call of a sink is handed the
/// whole rest.
pub fn call_examples()
    ensures piece { IsAsked {T = ℕ} (λ _ _ _ room _. room ≡ 4096) 65537 0 7 4096 8 }
    ensures short_piece { IsAsked {T = ℕ} (λ _ _ _ room _. room ≡ 4095) 65537 0 7 4095 8 → ⊥ }
    ensures left { IsAsked {T = ℕ} (λ _ _ _ room _. room ≡ 1) 65537 65536 7 1 8 }
    ensures less_than_left { IsAsked {T = ℕ} (λ _ _ _ room _. room ≡ 1) 65537 65535 7 1 8 → ⊥ }
    ensures rest { AreOffered {T = ℕ} (λ _ _ piece _. piece ≡ 1 ∷ 2 ∷ []) (1 ∷ 2 ∷ []) 7 1 8 }
    ensures front { AreOffered {T = ℕ} (λ _ _ piece _. piece ≡ 1 ∷ []) (1 ∷ 2 ∷ []) 7 1 8 → ⊥ }
{}
