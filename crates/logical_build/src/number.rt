//! Counts as 32-bit numbers.

ghost use Rattle.std.specs.Prelude.{◌≡◌, IfOk};

use dfx_value::NoMemory;

/// The number, where it fits; that many columns fill more memory than there is.
pub fn as_u32(count: usize) -> Result<u32, NoMemory>
    ensures { IfOk result (λ n. n ≡ count) }
{
    match u32::try_from(count) {
        Ok(number) => Ok(number),
        Err(_) => Err(NoMemory),
    }
}
