// Strides of variables.
ghost use Rattle.std.specs.Prelude.{◌≡◌, ◌↔◌, ◌≤◌, IsSome, IfSome, length};

use shapes_core::MOST_AXES;
use shapes_core::laws::copies_are_padded;
use std::marker::Model;

/// At most 6 pairs, a variable and its stride.
#[derive(Clone, Copy)]
pub struct Strides {
    list: [(u32, i64); MOST_AXES],
    count: usize,
}

impl Model for Strides {
    ghost use Rattle.std.specs.Prelude.{ℕ, ℤ, pos, List, length, take};
    ghost use Rattle.shapes_core.specs.Padded.{IsPadded, padded};

    ghost Value = { List (ℕ × ℤ) };

    ghost view = { λ s. take s.count s.list };

    ghost invariant = { λ s. IsPadded (0, pos 0) 6 s.list s.count };

    ghost inverse = { λ list. record { list = padded (0, pos 0) 6 list; count = length list } };

    ghost inverse_ok = { λ n h i. record { list = h.filled i; count = h.counted i } };
}

impl Strides {
    /// The list of these strides, or `None` where they are more than 6.
    pub fn new(list: &[(u32, i64)]) -> Option<Strides>
        ensures within { IsSome result ↔ length list.now ≤ 6 }
        ensures same { IfSome result (λ strides. strides ≡ list.now) }
    {
        if list.len() > MOST_AXES {
            return None;
        }
        copies_are_padded::<(u32, i64)>();
        let mut filled = [(0, 0); MOST_AXES];
        filled[..list.len()].copy_from_slice(list);
        Some(Strides {
            list: filled,
            count: list.len(),
        })
    }

    /// The strides, by rising variable.
    pub fn list(&self) -> &[(u32, i64)]
        ensures value { result.now ≡ self.now }
        ensures few { length self.now ≤ 6 }
    {
        &self.list[..self.count]
    }
}
