//! Numbers of 32 bits. Where a count passes them, that is out of memory.
ghost use Rattle.std.specs.Prelude.{◌≡◌, suc, IfOk};

use std::alloc::AllocError;

/// The number after another one.
pub fn next_number(n: u32) -> Result<u32, AllocError>
    ensures { IfOk result (λ m. m ≡ suc n) }
{
    match n.checked_add(1) {
        None => Err(AllocError),
        Some(m) => Ok(m),
    }
}

/// A count as a number of 32 bits. One that is greater is out of memory.
pub fn as_number(count: usize) -> Result<u32, AllocError>
    ensures { IfOk result (λ n. n ≡ count) }
{
    match u32::try_from(count) {
        Ok(n) => Ok(n),
        Err(_) => Err(AllocError),
    }
}
