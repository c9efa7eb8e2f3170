// Registers and places as numbers in one order.
ghost use Rattle.std.specs.Prelude.{◌≡◌};
ghost use Rattle.loop_ir.specs.Running.{Register, Pointer};
ghost use Rattle.register_map.specs.Homes.{code};

pub(crate) fn register_code(number: u32) -> u64
    ensures { result ≡ code (Register number) }
{
    2 * u64::from(number)
}

pub(crate) fn place_code(number: u32) -> u64
    ensures { result ≡ code (Pointer number) }
{
    2 * u64::from(number) + 1
}
