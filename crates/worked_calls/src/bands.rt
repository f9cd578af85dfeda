//! Worked runs.

use error_band::first_far;
use grid_exact::Bound;
use std::process::Abort;

fn bound(rt: &impl Abort, e: u64) -> Bound {
    Bound::new(e).expect(rt, "a bound")
}

#[test]
fn finds_the_first_that_is_far(rt: HostRuntime) {
    let (bump_x, bump_y) = ([0, 1, 2, 3], [0, 1, 0, 0]);
    assert_eq!(rt; first_far(&bump_x, &bump_y, 0, 3, bound(&rt, 1)), None);
    assert_eq!(rt; first_far(&bump_x, &bump_y, 0, 3, bound(&rt, 0)), Some(1));
    assert_eq!(rt; first_far(&bump_x, &bump_y, 0, 1, bound(&rt, 0)), None);
    assert_eq!(rt; first_far(&bump_x, &bump_y, 1, 3, bound(&rt, 1)), None);
    let (past_x, past_y) = ([0, 1, 2], [0, 10, 1]);
    assert_eq!(rt; first_far(&past_x, &past_y, 0, 2, bound(&rt, 9)), Some(1));
    assert_eq!(rt; first_far(&past_x, &past_y, 0, 2, bound(&rt, 10)), None);
}
