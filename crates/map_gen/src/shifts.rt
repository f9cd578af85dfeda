//! How far the inner positions of the arcs are off the sides of the cells.
ghost use Rattle.std.specs.Prelude.{◌≡◌, ◌%◌, ◌<◌, ◌-ℤ◌, pos, IfOk, vec_len};
ghost use Rattle.map_gen.specs.Shifts.{next_number, AreShifts};

use std::alloc::{AllocError, Global};

/// The shifts from the first on, for this seed: each from -7 to 7. The only error is want of
/// memory.
pub fn shifts(alloc: Global, seed: u32, count: usize) -> Result<Vec<i64>, AllocError>
    requires { seed < 65537 }
    ensures count { IfOk result (λ shifts. vec_len shifts ≡ count) }
    ensures value { IfOk result (λ made. AreShifts seed made.items) }
{
    let mut shifts = Vec::with_capacity(alloc, count)?;
    let mut number = seed;
    while shifts.len() < count {
        number = next(number);
        shifts.push(shift(number))?;
    }
    Ok(shifts)
}

// The number that is drawn after this one.
fn next(number: u32) -> u32
    requires { number < 65537 }
    ensures value { result ≡ next_number number }
    ensures small { result < 65537 }
{
    (75 * number + 74) % 65537
}

// The shift that is taken from the number.
fn shift(number: u32) -> i64
    ensures { result ≡ pos (number % 15) -ℤ pos 7 }
{
    i64::from(number % 15) - 7
}
