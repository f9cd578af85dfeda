//! The square root of a whole number, rounded down, by Newton's steps from above.
ghost use Rattle.std.specs.Prelude.{◌+◌, ◌*◌, ◌^◌, ◌<◌, ◌≤◌};

/// The greatest number whose square is at most n.
pub(crate) fn root_of(n: u128) -> u128
    requires { n ≤ 2 ^ 121 }
    ensures square { result * result ≤ n }
    ensures next_square { n < (result + 1) * (result + 1) }
    ensures bounded { result < 2 ^ 61 }
{
    let mut root = above_root(n);
    while root * root > n {
        root = (root + n / root) / 2;
    }
    root
}

// A number that is not below the root of n, and above it by an eighth or so. Where n is p * p times
// a number m from 1 to 4, with a power of 2 as p, the root is p times that of m, and (6 + 3 * m) /
// 8 is close above the root of m.
fn above_root(n: u128) -> u128
    requires { n ≤ 2 ^ 121 }
    ensures above { n < (result + 1) * (result + 1) }
    ensures low { result ≤ 2 ^ 62 }
{
    if n == 0 {
        return 0;
    }
    let half = n.ilog2() / 2;
    3 * ((2 << half) + (n >> half)) / 8 + 1
}
