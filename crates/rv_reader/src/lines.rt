// The lines of a text, one after the other.
ghost use Rattle.std.specs.Prelude.{◌≡◌, ◌<◌, [], ◌∷◌, IfSome, MatchOption, length};
ghost use Rattle.std.specs.Str.Lines.{lines, strip_carriage_return};

use crate::cuts::{Mark, behind_first, cut};

fn without_return<'a>(line: &'a [u8]) -> &'a [u8]
    ensures { result.now ≡ strip_carriage_return line.now }
{
    if !line.is_empty() && line[line.len() - 1] == b'\r' {
        &line[..line.len() - 1]
    } else {
        line
    }
}

/// The first line and what stands behind it, or `None` where no line is left.
pub(crate) fn split_line<'a>(text: &'a [u8]) -> Option<(&'a [u8], &'a [u8])>
    ensures split { MatchOption result (lines text.now ≡ []) (λ p. lines text.now ≡ p.0.now ∷ lines p.1.now) }
    ensures shorter { IfSome result (λ p. length p.1.now < length text.now) }
{
    if text.is_empty() {
        return None;
    }
    let (line, rest) = cut(text, Mark::LineFeed);
    if rest.is_empty() {
        return Some((line, rest));
    }
    Some((without_return(line), behind_first(rest)))
}
