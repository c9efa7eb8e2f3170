// What the row of an area says that it is.
ghost use Rattle.std.specs.Prelude.{◌≡◌};
ghost use Rattle.shapes_core.specs.declared.area.AreaKind.TheVariants as kind;
ghost use Rattle.rv_reader.specs.AreaRows.{kind_of, named, numbered};
ghost use Rattle.rv_reader.specs.Kinds.{allowed};
ghost use Rattle.rv_reader.specs.Operands.{number_of};

use crate::operands::number;
use shapes_core::{AreaKind, Name};

fn input(word: &[u8]) -> Option<AreaKind>
    ensures { result ≡ named (λ name. kind.In name) word.now }
{
    match Name::new(word) {
        None => None,
        Some(name) => Some(AreaKind::In(name)),
    }
}

fn output(word: &[u8]) -> Option<AreaKind>
    ensures { result ≡ named (λ name. kind.Out name) word.now }
{
    match Name::new(word) {
        None => None,
        Some(name) => Some(AreaKind::Out(name)),
    }
}

/// The scan of this number, if the word is that number.
#[tactic(auto, using(crate::proofs::KindLemmas::scan_same))]
fn scan(word: &[u8], next: u32) -> Option<AreaKind>
    ensures { result ≡ allowed next (numbered (number_of word.now)) }
{
    let Some(number) = number(word) else {
        return None;
    };
    if number == u64::from(next) {
        Some(AreaKind::Scan(next))
    } else {
        None
    }
}

/// What a row says, where a scan has this number.
pub(crate) fn kind_of(tag: &[u8], word: &[u8], next: u32) -> Option<AreaKind>
    ensures { result ≡ allowed next (kind_of tag.now word.now) }
{
    if tag == b"in".as_slice() {
        return input(word);
    }
    if tag == b"out".as_slice() {
        return output(word);
    }
    if tag == b"scan".as_slice() {
        return scan(word, next);
    }
    None
}
