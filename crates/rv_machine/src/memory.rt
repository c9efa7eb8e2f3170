// Loads and stores, where they are aligned and lie in the block.
ghost use Rattle.std.specs.Prelude.{◌≡◌, ◌+◌, ◌-◌, ◌%◌, ◌^◌, ◌≤◌, ◌⊎◌, MatchOption, false, length, true};
ghost use Rattle.std.specs.Int.{Width, byte_len, w16, w32, w64, w8};
ghost use Rattle.rv_steps.specs.Effects.{load_value, load_width, sign_extension, store_width};
ghost use Rattle.rv_steps.specs.Machine.{is_allowed, value_at, with_value};

use crate::arithmetic::extended;
use rv_line::{Load, Store};

fn extended_byte(a: u8) -> u64
    ensures { result ≡ sign_extension w8 a }
{
    (a.cast_signed() as i64).cast_unsigned()
}

fn extended_half(a: u16) -> u64
    ensures { result ≡ sign_extension w16 a }
{
    (a.cast_signed() as i64).cast_unsigned()
}

/// The place in the block of `size` bytes at an address, if they are aligned and lie in it.
#[inline]
#[tactic(auto, unfolding(rv_steps::specs::Machine::is_allowed))]
fn place(base: u64, extent: usize, at: u64, size: u64) -> Option<usize>
    requires aligned { base % 8 ≡ 0 }
    requires room { base + extent ≤ 2 ^ 64 }
    requires size { (size ≡ 1) ⊎ ((size ≡ 2) ⊎ ((size ≡ 4) ⊎ (size ≡ 8))) }
    ensures { MatchOption result (is_allowed base extent at size ≡ false) (λ place.
        (is_allowed base extent at size ≡ true) × (place ≡ at - base) × (place + size ≤ extent)) }
{
    let offset = at.wrapping_sub(base);
    if offset % size == 0 && offset + (size - 1) < extent as u64 {
        Some(offset as usize)
    } else {
        None
    }
}

#[inline]
#[tactic(auto, unfolding(rv_steps::specs::Machine::value_at))]
fn byte_at(block: &[u8], place: usize) -> u8
    requires { place + 1 ≤ length block.now }
    ensures { result ≡ value_at w8 block.now place }
{
    block[place]
}

#[inline]
#[tactic(auto, unfolding(rv_steps::specs::Machine::value_at))]
fn half_at(block: &[u8], place: usize) -> u16
    requires { place + 2 ≤ length block.now }
    ensures { result ≡ value_at w16 block.now place }
{
    u16::from_le_bytes(*block[place..place + 2].as_array::<2>().unwrap())
}

#[inline]
#[tactic(auto, unfolding(rv_steps::specs::Machine::value_at))]
fn word_at(block: &[u8], place: usize) -> u32
    requires { place + 4 ≤ length block.now }
    ensures { result ≡ value_at w32 block.now place }
{
    u32::from_le_bytes(*block[place..place + 4].as_array::<4>().unwrap())
}

#[inline]
#[tactic(auto, unfolding(rv_steps::specs::Machine::value_at))]
fn double_at(block: &[u8], place: usize) -> u64
    requires { place + 8 ≤ length block.now }
    ensures { result ≡ value_at w64 block.now place }
{
    u64::from_le_bytes(*block[place..place + 8].as_array::<8>().unwrap())
}

#[inline]
#[tactic(auto, unfolding(rv_steps::specs::Machine::with_value))]
fn put_byte(block: &mut [u8], place: usize, value: u64)
    requires { place + 1 ≤ length block.old }
    ensures { block.new ≡ with_value w8 block.old place value }
{
    let low = (value & 0xff) as u8;
    block[place..place + 1].copy_from_slice(&low.to_le_bytes());
}

#[inline]
#[tactic(auto, unfolding(rv_steps::specs::Machine::with_value))]
fn put_half(block: &mut [u8], place: usize, value: u64)
    requires { place + 2 ≤ length block.old }
    ensures { block.new ≡ with_value w16 block.old place value }
{
    let low = (value & 0xffff) as u16;
    block[place..place + 2].copy_from_slice(&low.to_le_bytes());
}

#[inline]
#[tactic(auto, unfolding(rv_steps::specs::Machine::with_value))]
fn put_word(block: &mut [u8], place: usize, value: u64)
    requires { place + 4 ≤ length block.old }
    ensures { block.new ≡ with_value w32 block.old place value }
{
    let low = (value & 0xffff_ffff) as u32;
    block[place..place + 4].copy_from_slice(&low.to_le_bytes());
}

#[inline]
#[tactic(auto, unfolding(rv_steps::specs::Machine::with_value))]
fn put_double(block: &mut [u8], place: usize, value: u64)
    requires { place + 8 ≤ length block.old }
    ensures { block.new ≡ with_value w64 block.old place value }
{
    block[place..place + 8].copy_from_slice(&value.to_le_bytes());
}

/// The value that a load writes, or nothing where its access is not allowed.
pub fn load(code: Load, base: u64, block: &[u8], at: u64) -> Option<u64>
    requires aligned { base % 8 ≡ 0 }
    requires room { base + length block.now ≤ 2 ^ 64 }
    ensures { MatchOption result
        (is_allowed base (length block.now) at (byte_len (load_width code)) ≡ false)
        (λ value. (is_allowed base (length block.now) at (byte_len (load_width code)) ≡ true)
        × (value ≡ load_value code (value_at (load_width code) block.now (at - base)))) }
{
    let extent = block.len();
    match code {
        Load::Lb => Some(extended_byte(byte_at(block, place(base, extent, at, 1)?))),
        Load::Lh => Some(extended_half(half_at(block, place(base, extent, at, 2)?))),
        Load::Lw => Some(extended(word_at(block, place(base, extent, at, 4)?))),
        Load::Ld => Some(double_at(block, place(base, extent, at, 8)?)),
        Load::Lbu => Some(byte_at(block, place(base, extent, at, 1)?) as u64),
        Load::Lhu => Some(half_at(block, place(base, extent, at, 2)?) as u64),
        Load::Lwu => Some(word_at(block, place(base, extent, at, 4)?) as u64),
    }
}

/// Stores the low bits of a value, where the access is allowed, and says whether it is.
pub fn store(code: Store, base: u64, block: &mut [u8], at: u64, value: u64) -> Option<()>
    requires aligned { base % 8 ≡ 0 }
    requires room { base + length block.old ≤ 2 ^ 64 }
    ensures { MatchOption result
        ((is_allowed base (length block.old) at (byte_len (store_width code)) ≡ false)
        × (block.new ≡ block.old))
        (λ done. (is_allowed base (length block.old) at (byte_len (store_width code)) ≡ true)
        × (block.new ≡ with_value (store_width code) block.old (at - base) value)) }
{
    let extent = block.len();
    match code {
        Store::Sb => put_byte(block, place(base, extent, at, 1)?, value),
        Store::Sh => put_half(block, place(base, extent, at, 2)?, value),
        Store::Sw => put_word(block, place(base, extent, at, 4)?, value),
        Store::Sd => put_double(block, place(base, extent, at, 8)?, value),
    }
    Some(())
}
