// Boxes of index vectors.
ghost use Rattle.std.specs.Prelude.{◌≡◌, ◌↔◌, ◌<◌, ◌≤◌, ◌∷◌, [], IsSome, IfSome, length, map};

use shapes_core::laws::copies_are_padded;
use shapes_core::{MOST_AXES, Shape};
use std::marker::Model;

/// A box of index vectors: at most 6 pairs, one an axis, each from a low place to below a high one.
#[derive(Clone, Copy)]
pub struct Region {
    list: [(u64, u64); MOST_AXES],
    count: usize,
}

impl Model for Region {
    ghost use Rattle.std.specs.Prelude.{ℕ, List, length, take};
    ghost use Rattle.shapes_core.specs.Padded.{IsPadded, padded};

    ghost Value = { List (ℕ × ℕ) };

    ghost view = { λ r. take r.count r.list };

    ghost invariant = { λ r. IsPadded (0, 0) 6 r.list r.count };

    ghost inverse = { λ list. record { list = padded (0, 0) 6 list; count = length list } };

    ghost inverse_ok = { λ n h i. record { list = h.filled i; count = h.counted i } };
}

/// The box of an axis before those of others.
fn in_front(extent: u64, others: &Region) -> Region
    requires { length others.now < 6 }
    ensures { result ≡ (0, extent) ∷ others.now }
{
    let list = others.list();
    let mut pairs = [(0, extent); MOST_AXES];
    pairs[1..=list.len()].copy_from_slice(list);
    Region::new(&pairs[..=list.len()]).unwrap()
}

/// The box of all index vectors of these extents.
fn whole_of(extents: &[u64]) -> Region
    requires { length extents.now ≤ 6 }
    ensures { result ≡ map (λ n. (0, n)) extents.now }
{
    match extents {
        [] => Region::new(&[]).unwrap(),
        [extent, others @ ..] => in_front(*extent, &whole_of(others)),
    }
}

impl Region {
    /// The box of these pairs, or `None` where they are more than 6.
    pub fn new(list: &[(u64, u64)]) -> Option<Region>
        ensures within { IsSome result ↔ length list.now ≤ 6 }
        ensures same { IfSome result (λ region. region ≡ list.now) }
    {
        if list.len() > MOST_AXES {
            return None;
        }
        copies_are_padded::<(u64, u64)>();
        let mut filled = [(0, 0); MOST_AXES];
        filled[..list.len()].copy_from_slice(list);
        Some(Region {
            list: filled,
            count: list.len(),
        })
    }

    /// The box of all index vectors of a shape.
    pub fn whole(shape: &Shape) -> Region
        ensures { result ≡ map (λ n. (0, n)) shape.now }
    {
        whole_of(shape.extents())
    }

    /// The pairs, one an axis.
    pub fn list(&self) -> &[(u64, u64)]
        ensures value { result.now ≡ self.now }
        ensures few { length self.now ≤ 6 }
    {
        &self.list[..self.count]
    }
}
