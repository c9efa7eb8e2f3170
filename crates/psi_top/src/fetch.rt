// A whole file of a shelf, for a command.
ghost use Rattle.std.specs.Prelude.{◌≡◌, ◌+◌, ◌^◌, ◌<◌, ◌≤◌, length, IfErr, IfOk};
ghost use Rattle.psi_edges.specs.Limits.{longest_name};
ghost use Rattle.psi_top.specs.Answer.{IsRead, IsUnread, outcome_of};
ghost use Rattle.psi_top.specs.Views.{shelf_view};

use crate::refusal::Refusal;
use psi_edges::{Fetch, Shelf, read_whole};
use std::alloc::Global;

/// The whole file of this name, or why it cannot be had: it may have `most` bytes, by the limit of this number.
pub(crate) fn fetch<'a, F: Shelf>(
    alloc: Global,
    shelf: &mut F,
    name: &'a str,
    which: u8,
    most: u64,
) -> Result<Vec<u8>, Refusal<'a>>
    requires short_name { length name.now ≤ longest_name }
    requires small { most < 2 ^ 32 }
    ensures read { IfOk result (λ bytes. IsRead (shelf_view F.Shelf shelf.old) (shelf_view F.Shelf shelf.new) name.now most bytes.items) }
    ensures unread { IfErr result (λ refusal.
        IsUnread (shelf_view F.Shelf shelf.old) (shelf_view F.Shelf shelf.new) name.now which most (outcome_of refusal)) }
    ensures unchanged { F.files shelf.new ≡ F.files shelf.old }
    ensures later { F.faults shelf.old ≤ F.faults shelf.new }
    ensures more_given { F.given shelf.old ≤ F.given shelf.new }
    ensures most_given { F.given shelf.new ≤ F.given shelf.old + (most + 1) }
{
    match read_whole(alloc, shelf, name, most) {
        Ok(bytes) => Ok(bytes),
        Err(Fetch::Fault) => Err(Refusal::CannotRead(name)),
        Err(Fetch::TooLong) => Err(Refusal::TooLong { name, which, most }),
        Err(Fetch::Memory) => Err(Refusal::Memory),
    }
}
