// What the words ask for.
ghost use Rattle.std.specs.Prelude.{◌≡◌, ◌≢◌, ◌↔◌, ◌<◌, ◌≤◌, ◌∷◌, ℕ, List, [], codes, length, map, IsTrue, MatchOption, string_bytes};
ghost use Rattle.psi_edges.specs.Limits.{longest_name};
ghost use Rattle.psi_top.specs.Answer.{IsAsked};
ghost use Rattle.psi_top.specs.Command.{IsCommand, IsMisuse, IsRun, words_of};
ghost use Rattle.psi_top.specs.declared.command.Task.{Task as AnyTask};

use psi_edges::LONGEST_NAME;

/// What is made of a source.
#[derive(Clone, Copy)]
pub(crate) enum Task {
    /// The report on its program.
    Check,
    /// Its canonical text.
    ShowSource,
    /// The denotational normal forms of its jobs.
    ShowDnf,
    /// Their operational normal forms.
    ShowOnf,
    /// The nests of its jobs.
    ShowNest,
    /// The text that it is compiled to.
    Compile,
}

/// What the words ask for, with the names of the files that it is done with.
#[derive(Clone, Copy)]
pub(crate) enum Command<'a> {
    /// A task is done with a source.
    OnSource { task: Task, name: &'a str },
    /// An assembly text is run on arrays.
    Run { assembly: &'a str, arrays: &'a str },
}

fn is_check(word: &str) -> bool
    ensures { IsTrue result ↔ (word.now ≡ codes "check") }
{
    word == "check"
}

fn is_compile(word: &str) -> bool
    ensures { IsTrue result ↔ (word.now ≡ codes "compile") }
{
    word == "compile"
}

fn is_show(word: &str) -> bool
    ensures { IsTrue result ↔ (word.now ≡ codes "show") }
{
    word == "show"
}

/// The task that shows what this word says.
fn task_shown(word: &str) -> Option<Task>
    ensures { MatchOption result
        ((task : AnyTask) → codes "show" ∷ word.now ∷ [] ≢ words_of task)
        (λ task. codes "show" ∷ word.now ∷ [] ≡ words_of task) }
{
    match word {
        "source" => Some(Task::ShowSource),
        "dnf" => Some(Task::ShowDnf),
        "onf" => Some(Task::ShowOnf),
        "nest" => Some(Task::ShowNest),
        _ => None,
    }
}

/// The task with these words.
fn task_of(words: &[String]) -> Option<Task>
    ensures { MatchOption result
        ((task : AnyTask) → map string_bytes words.now ≢ words_of task)
        (λ task. map string_bytes words.now ≡ words_of task) }
{
    match words {
        [word] if is_check(word.as_str()) => Some(Task::Check),
        [word] if is_compile(word.as_str()) => Some(Task::Compile),
        [first, second] if is_show(first.as_str()) => task_shown(second.as_str()),
        _ => None,
    }
}

fn is_run(word: &str) -> bool
    ensures { IsTrue result ↔ (word.now ≡ codes "run") }
{
    word == "run"
}

/// The name of a file, where it is not too long.
fn short(name: &String) -> Option<&str>
    ensures { MatchOption result (longest_name < length (string_bytes name.now))
        (λ short. (short.now ≡ string_bytes name.now) × (length short.now ≤ longest_name)) }
{
    if name.len() > LONGEST_NAME {
        return None;
    }
    Some(name.as_str())
}

/// The task on a source that the words ask for, where they ask for one.
fn source_asked(words: &[String]) -> Option<Command<'_>>
    ensures { MatchOption result ((task : AnyTask) (name : List ℕ) → IsCommand (map string_bytes words.now) task name → ⊥)
        (λ command. IsAsked (map string_bytes words.now) command) }
{
    let (name, front) = words.split_last()?;
    let task = task_of(front)?;
    let name = short(name)?;
    Some(Command::OnSource { task, name })
}

/// The run that the words ask for, where they ask for one.
fn run_asked(words: &[String]) -> Option<Command<'_>>
    ensures { MatchOption result ((assembly arrays : List ℕ) → IsRun (map string_bytes words.now) assembly arrays → ⊥)
        (λ command. IsAsked (map string_bytes words.now) command) }
{
    match words {
        [word, assembly, arrays] if is_run(word.as_str()) => {
            let assembly = short(assembly)?;
            let arrays = short(arrays)?;
            Some(Command::Run { assembly, arrays })
        }
        _ => None,
    }
}

/// The command that the words ask for, where they ask for one.
pub(crate) fn command_of(words: &[String]) -> Option<Command<'_>>
    ensures { MatchOption result (IsMisuse (map string_bytes words.now))
        (λ command. IsAsked (map string_bytes words.now) command) }
{
    match source_asked(words) {
        Some(command) => Some(command),
        None => run_asked(words),
    }
}
