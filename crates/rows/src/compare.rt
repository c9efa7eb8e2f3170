// Where what came differs from what was wanted.
use crate::bytes::push_number;
use shapes_core::NoMemory;
use std::alloc::Global;

/// The number of the first line, from 0, that differs.
fn line_of_difference(wanted: &[u8], came: &[u8]) -> u64 {
    let mut line: u64 = 0;
    for (one, other) in wanted.iter().zip(came) {
        if *one != *other {
            return line;
        }
        if *one == b'\n' {
            line = line.saturating_add(1);
        }
    }
    line
}

/// The digit of a value below 16.
fn digit(value: u8) -> u8 {
    match value & 15 {
        small if small < 10 => b'0' + small,
        large => b'a' + (large - 10),
    }
}

/// Appends a byte as a file of rows would spell it.
fn push_shown(shown: &mut Vec<u8>, byte: u8) -> Result<(), NoMemory> {
    match byte {
        b'\n' => shown.extend_from_slice(b"\\n")?,
        32..=91 | 93..=126 => shown.push(byte)?,
        _ => {
            shown.extend_from_slice(b"\\x")?;
            shown.push(digit(byte / 16))?;
            shown.push(digit(byte))?;
        }
    }
    Ok(())
}

/// Appends the line of this number, from 0, and the end of it.
fn push_line_of(shown: &mut Vec<u8>, bytes: &[u8], number: u64) -> Result<(), NoMemory> {
    let mut line: u64 = 0;
    shown.push(b'"')?;
    for byte in bytes {
        if line == number {
            push_shown(shown, *byte)?;
        }
        if *byte == b'\n' {
            line = line.saturating_add(1);
        }
    }
    shown.push(b'"')?;
    Ok(())
}

/// Says how these bytes differ, or nothing where they do not.
pub fn difference(
    alloc: Global,
    what: &str,
    wanted: &[u8],
    came: &[u8],
) -> Result<Option<Vec<u8>>, NoMemory> {
    if wanted == came {
        return Ok(None);
    }
    let line = line_of_difference(wanted, came);
    let mut said = Vec::from_slice(alloc, what.as_bytes())?;
    said.extend_from_slice(b" line ")?;
    push_number(&mut said, line.saturating_add(1))?;
    said.extend_from_slice(b": wanted ")?;
    push_line_of(&mut said, wanted, line)?;
    said.extend_from_slice(b", came ")?;
    push_line_of(&mut said, came, line)?;
    Ok(Some(said))
}

/// Says how these numbers differ, or nothing where they do not.
pub fn number_difference(
    alloc: Global,
    what: &str,
    wanted: u64,
    came: u64,
) -> Result<Option<Vec<u8>>, NoMemory> {
    if wanted == came {
        return Ok(None);
    }
    let mut said = Vec::from_slice(alloc, what.as_bytes())?;
    said.extend_from_slice(b": wanted ")?;
    push_number(&mut said, wanted)?;
    said.extend_from_slice(b", came ")?;
    push_number(&mut said, came)?;
    Ok(Some(said))
}

/// The front of these bytes that is as long as that.
pub fn front<'a>(bytes: &'a [u8], like: &[u8]) -> &'a [u8] {
    let len = bytes.len().min(like.len());
    &bytes[..len]
}

/// The end of these bytes that is as long as that.
pub fn end<'a>(bytes: &'a [u8], like: &[u8]) -> &'a [u8] {
    let skipped = bytes.len().saturating_sub(like.len());
    &bytes[skipped..]
}
