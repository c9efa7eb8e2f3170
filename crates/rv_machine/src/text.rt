// The addresses of lines.
ghost use Rattle.std.specs.Prelude.{◌≡◌, ◌^◌, ◌≤◌, MatchOption};
ghost use Rattle.shapes_core.specs.Limits.{most_items};
ghost use Rattle.rv_steps.specs.Machine.{address_of};
ghost use Rattle.rv_machine.specs.Flows.{IsOff};

/// The address of a line, or of the end.
#[inline]
pub fn address_of(line: usize) -> u64
    requires { line ≤ most_items }
    ensures { result ≡ address_of line }
{
    65536 + 4 * line as u64
}

/// The number of the line at an address, or of the end.
#[inline]
pub fn line_at(address: u64, count: usize) -> Option<usize>
    requires { count ≤ most_items }
    ensures { MatchOption result (IsOff count address) (λ line. (line ≤ count) × (address ≡ address_of line)) }
{
    if address < 65536 || address % 4 != 0 {
        return None;
    }
    let line = (address - 65536) / 4;
    if line > count as u64 {
        return None;
    }
    Some(line as usize)
}
