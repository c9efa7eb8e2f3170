// The program of a text.
ghost use Rattle.std.specs.Prelude.{◌≡◌, ◌<◌, ◌≤◌, ◌≢◌, ℕ, Err, IfErr, IfOk, length};
ghost use Rattle.moa_reader.specs.Limits.{longest_source};
ghost use Rattle.text_tokens.specs.declared.token.Position.{Position};
ghost use Rattle.moa_tree.specs.Expr.{Tree};
ghost use Rattle.moa_tree.specs.Pools.{tree_of};
ghost use Rattle.moa_tree.specs.Positions.{StandsIn};
ghost use Rattle.moa_tree.specs.Readings.{Reads};
ghost use Rattle.moa_tree.specs.Refusals.{IsRefused};
ghost use Rattle.moa_tree.specs.Vocabulary.{version_named, version_of};
ghost use Rattle.moa_reader.specs.Outcomes.{Explains};

use crate::error::ReadError;
use crate::pools::Builder;
use crate::source::Source;
use crate::statements::{statements, version_line};
use moa_tree::{Program, Version, never_both, one_reading, one_refusal, outcomes, reads_again};
use std::alloc::Global;
use text_tokens::{Scanner, Token};

/// The program that the text is, or the one position and cause for which it is refused. A text that has a reading
/// is never refused, and one that is refused never read: only memory may be wanting. Each node of the program has the
/// position of the word or the number with which its expression begins in the text, and each statement that of its name.
pub fn read(alloc: Global, text: &[u8]) -> Result<Program, ReadError>
    requires { length text.now ≤ longest_source }
    ensures read { IfOk result (λ program. Reads text.now (tree_of program)) }
    ensures refused { (at : Position) (cause : ℕ) → result ≡ Err (ReadError.Text at cause) → IsRefused text.now at cause }
    ensures reading { (tree : Tree) → Reads text.now tree → IfOk result (λ program. tree_of program ≡ tree) }
    ensures never_refused { (tree : Tree) (at : Position) (cause : ℕ) → Reads text.now tree → result ≢ Err (ReadError.Text at cause) }
    ensures refusal { (at other : Position) (cause why : ℕ) → IsRefused text.now at cause → result ≡ Err (ReadError.Text other why)
        → (other ≡ at) × (why ≡ cause) }
    ensures never_read { (at : Position) (cause : ℕ) → IsRefused text.now at cause → IfOk result (λ program. ⊥) }
    ensures placed { IfOk result (λ program. StandsIn text.now program) }
{
    one_reading();
    one_refusal();
    never_both();
    read_once(alloc, text)
}

fn read_once(alloc: Global, text: &[u8]) -> Result<Program, ReadError>
    requires { length text.now ≤ longest_source }
    ensures read { IfOk result (λ program. Reads text.now (tree_of program)) }
    ensures placed { IfOk result (λ program. StandsIn text.now program) }
    ensures refused { IfErr result (λ error. Explains text.now error) }
{
    outcomes();
    reads_again();
    let version = version_of(text);
    let mut source = Source::new(version, text);
    let mut builder = Builder::new(alloc, version);
    version_line(&mut source)?;
    statements(alloc, &mut source, &mut builder)?;
    Ok(builder.finish())
}

/// The version of the text, which its second token names.
fn version_of(text: &[u8]) -> Version
    requires { length text.now < 4294967295 }
    ensures { result ≡ version_of text.now }
{
    let mut scanner = Scanner::new(text);
    let _first = scanner.next_token();
    let (second, _) = scanner.next_token();
    version_named(second)
}

/// The version of which the token is the number, and the first where it is that of none.
fn version_named(token: Token) -> Version
    ensures { result ≡ version_named token }
{
    match token {
        Token::Number(value) => Version::numbered(value).unwrap_or(Version::First),
        _ => Version::First,
    }
}
