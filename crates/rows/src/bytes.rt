// What the lines of a file of rows stand for.
use itoa::Buffer;
use shapes_core::NoMemory;

/// Appends what a line stands for: its bytes and a line feed, which `\c` at its end leaves out.
pub fn push_line(out: &mut Vec<u8>, line: &str) -> Result<(), NoMemory> {
    match line.strip_suffix("\\c") {
        Some(front) => push_text(out, front),
        None => {
            push_text(out, line)?;
            out.push(b'\n')?;
            Ok(())
        }
    }
}

/// Appends what a text stands for: its bytes, where `\{40 ab}` is `ab` forty times.
pub fn push_text(out: &mut Vec<u8>, text: &str) -> Result<(), NoMemory> {
    let mut is_group = false;
    for part in text.split("\\{") {
        if is_group {
            push_group(out, part)?;
        } else {
            push_plain(out, part, 0)?;
        }
        is_group = true;
    }
    Ok(())
}

/// Appends a repeated text and what stands behind it.
fn push_group(out: &mut Vec<u8>, part: &str) -> Result<(), NoMemory> {
    let Some((group, rest)) = part.split_once("}") else {
        return push_plain(out, part, 0);
    };
    let Some((count, text)) = group.split_once(" ") else {
        return push_plain(out, part, 0);
    };
    for number in 0..count.parse::<u64>().unwrap_or(0) {
        push_plain(out, text, number)?;
    }
    push_plain(out, rest, 0)
}

/// Appends a text in which nothing is repeated, as the turn of this number, from 0, has it.
fn push_plain(out: &mut Vec<u8>, text: &str, number: u64) -> Result<(), NoMemory> {
    let mut is_escape = false;
    for part in text.split("\\") {
        if is_escape {
            push_escape(out, part.as_bytes(), number)?;
        } else {
            out.extend_from_slice(part.as_bytes())?;
        }
        is_escape = true;
    }
    Ok(())
}

/// Appends what stands behind a backslash.
fn push_escape(out: &mut Vec<u8>, part: &[u8], number: u64) -> Result<(), NoMemory> {
    let rest = match part {
        [b'x', high, low, rest @ ..] => {
            out.push(16 * (digit(*high) & 15) + (digit(*low) & 15))?;
            rest
        }
        [b'n', rest @ ..] => {
            out.push(b'\n')?;
            rest
        }
        [b'r', rest @ ..] => {
            out.push(b'\r')?;
            rest
        }
        [b't', rest @ ..] => {
            out.push(b'\t')?;
            rest
        }
        [b'#', rest @ ..] => {
            push_number(out, number)?;
            rest
        }
        [b'+', rest @ ..] => {
            push_number(out, number.saturating_add(1))?;
            rest
        }
        [b'*', rest @ ..] => {
            push_number(out, number.saturating_mul(2))?;
            rest
        }
        _ => part,
    };
    out.extend_from_slice(rest)?;
    Ok(())
}

/// The value of a hexadecimal digit.
fn digit(byte: u8) -> u8 {
    match byte {
        b'0'..=b'9' => byte - b'0',
        b'a'..=b'f' => byte - b'a' + 10,
        _ => 0,
    }
}

/// Appends a number in decimal.
pub fn push_number(out: &mut Vec<u8>, number: u64) -> Result<(), NoMemory> {
    let mut buffer = Buffer::new();
    out.extend_from_slice(buffer.format(number).as_bytes())?;
    Ok(())
}
