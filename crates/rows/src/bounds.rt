// Counts of a text that a source was compiled to.
use shapes_core::NoMemory;
use std::alloc::Global;

/// What a text has: its instructions, those of the M extension among them, its spill words and its steps.
#[derive(Clone, Copy)]
pub struct Counts {
    pub instructions: u64,
    pub multiplying: u64,
    pub spill: u64,
    pub steps: u64,
}

/// Whether a mnemonic is one of the M extension.
fn is_multiplying(line: &str) -> bool {
    line.starts_with("mul") || line.starts_with("div") || line.starts_with("rem")
}

/// The number behind these words.
fn number_behind(line: &str, words: &str) -> Option<u64> {
    let number = line.strip_prefix(words)?;
    number.parse::<u64>().ok()
}

fn count_line(counts: &mut Counts, line: &str) {
    if let Some(steps) = number_behind(line, "# steps ") {
        counts.steps = steps;
    } else if let Some(spill) = number_behind(line, "# spill ") {
        counts.spill = spill;
    } else if let Some(instruction) = line.strip_prefix("    ") {
        counts.instructions = counts.instructions.saturating_add(1);
        if is_multiplying(instruction) {
            counts.multiplying = counts.multiplying.saturating_add(1);
        }
    }
}

/// The counts of a text. What is no text has the greatest.
pub fn counts_of(text: &[u8]) -> Counts {
    let mut counts = Counts {
        instructions: 0,
        multiplying: 0,
        spill: u64::MAX,
        steps: u64::MAX,
    };
    if let Ok(text) = str::from_utf8(text) {
        for line in text.split("\n") {
            count_line(&mut counts, line);
        }
    }
    counts
}

/// A text with another number of steps.
pub fn with_steps(alloc: Global, text: &[u8], steps: &str) -> Result<Vec<u8>, NoMemory> {
    let mut changed = Vec::new(alloc);
    let Ok(text) = str::from_utf8(text) else {
        return Ok(changed);
    };
    let mut is_behind = false;
    for line in text.split("\n") {
        if is_behind {
            changed.push(b'\n')?;
        }
        if line.starts_with("# steps ") {
            changed.extend_from_slice(b"# steps ")?;
            changed.extend_from_slice(steps.as_bytes())?;
        } else {
            changed.extend_from_slice(line.as_bytes())?;
        }
        is_behind = true;
    }
    Ok(changed)
}
