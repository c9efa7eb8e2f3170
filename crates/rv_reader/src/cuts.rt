// How the bytes of a line are cut into parts.
ghost use Rattle.std.specs.Prelude.{◌≡◌, ◌≤◌, drop, length};
ghost use Rattle.std.specs.List.{position_or_len};
ghost use Rattle.rv_line.specs.Instructions.{is_space_or_tab};
ghost use Rattle.rv_reader.specs.Cuts.{core_of, first_word, behind_word, since, trimmed, until, without_lead, without_trail};
ghost use Rattle.rv_reader.specs.Marks.{stops};

/// A byte at which a text is cut.
#[derive(Clone, Copy)]
pub(crate) enum Mark {
    Blank,
    Solid,
    LineFeed,
    Space,
    Hash,
    Open,
    Close,
    Comma,
    Colon,
}

fn is_space_or_tab(byte: u8) -> bool
    ensures { result ≡ is_space_or_tab byte }
{
    byte == b' ' || byte == b'\t'
}

fn stops(mark: Mark, byte: u8) -> bool
    ensures { result ≡ stops mark byte }
{
    match mark {
        Mark::Blank => is_space_or_tab(byte),
        Mark::Solid => !is_space_or_tab(byte),
        Mark::LineFeed => byte == b'\n',
        Mark::Space => byte == b' ',
        Mark::Hash => byte == b'#',
        Mark::Open => byte == b'(',
        Mark::Close => byte == b')',
        Mark::Comma => byte == b',',
        Mark::Colon => byte == b':',
    }
}

/// How many bytes stand before the first mark.
pub(crate) fn front_len(text: &[u8], mark: Mark) -> usize
    ensures value { result ≡ position_or_len (stops mark) text.now }
    ensures within { result ≤ length text.now }
{
    for (place, byte) in text.iter().enumerate() {
        if stops(mark, *byte) {
            return place;
        }
    }
    text.len()
}

/// What stands before the first mark, and from there on.
#[tactic(auto, using(crate::proofs::MarkLemmas::until_len, crate::proofs::MarkLemmas::since_len))]
pub(crate) fn cut<'a>(text: &'a [u8], mark: Mark) -> (&'a [u8], &'a [u8])
    ensures front { result.0.now ≡ until (stops mark) text.now }
    ensures behind { result.1.now ≡ since (stops mark) text.now }
{
    text.split_at(front_len(text, mark))
}

pub(crate) fn without_lead<'a>(text: &'a [u8]) -> &'a [u8]
    ensures { result.now ≡ without_lead text.now }
{
    cut(text, Mark::Solid).1
}

#[tactic(auto, using(crate::proofs::MarkLemmas::trail_blank, crate::proofs::MarkLemmas::trail_solid))]
fn without_trail<'a>(text: &'a [u8]) -> &'a [u8]
    ensures { result.now ≡ without_trail text.now }
{
    let mut len = 0;
    for (place, byte) in text.iter().enumerate() {
        if !is_space_or_tab(*byte) {
            len = place + 1;
        }
    }
    &text[..len]
}

/// Without the blanks at both ends.
pub(crate) fn trimmed<'a>(text: &'a [u8]) -> &'a [u8]
    ensures { result.now ≡ trimmed text.now }
{
    without_trail(without_lead(text))
}

/// What a line says, without its comment and the blanks at both ends.
pub(crate) fn core_of<'a>(text: &'a [u8]) -> &'a [u8]
    ensures { result.now ≡ core_of text.now }
{
    trimmed(cut(text, Mark::Hash).0)
}

/// What stands behind the first byte.
pub(crate) fn behind_first<'a>(text: &'a [u8]) -> &'a [u8]
    ensures { result.now ≡ drop 1 text.now }
{
    if text.is_empty() { text } else { &text[1..] }
}
