// The registers: register 0 is always 0.
ghost use Rattle.std.specs.Prelude.{◌≡◌, ◌<◌, slice_index};
ghost use Rattle.rv_steps.specs.Machine.{register_at, with_register};

/// The value of a register.
#[inline]
#[tactic(auto, unfolding(rv_steps::specs::Machine::register_at))]
pub fn read(x: &[u64; 32], register: u8) -> u64
    requires register { register < 32 }
    requires zero { slice_index x.now 0 ≡ 0 }
    ensures { result ≡ register_at x.now register }
{
    x[register as usize]
}

/// Writes a register, and drops a write to register 0.
#[inline]
#[tactic(auto, unfolding(rv_steps::specs::Machine::with_register))]
pub fn write(x: &mut [u64; 32], register: u8, value: u64)
    requires register { register < 32 }
    requires zero { slice_index x.old 0 ≡ 0 }
    ensures value { x.new ≡ with_register x.old register value }
    ensures zero { slice_index x.new 0 ≡ 0 }
{
    x[register as usize] = value;
    x[0] = 0;
}
