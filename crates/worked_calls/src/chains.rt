//! Worked sides.

use chain_side::{Side, side};
use grid_exact::{Frame, Point, precedes};
use std::process::Abort;

fn at(rt: &impl Abort, (x, y): (i64, i64)) -> Point {
    Point::new(x, y).expect(rt, "a point of the grid")
}

// The side of a chain of three vertices, each before the next in the frame's order, read both ways.
fn sides_of_three(
    rt: &impl Abort,
    frame: Frame,
    a: Point,
    b: Point,
    c: Point,
    p: Point,
) -> (Side, Side) {
    assert!(rt; precedes(frame, a, b));
    assert!(rt; precedes(frame, b, c));
    (side(&[a, b, c], frame, p), side(&[c, b, a], frame, p))
}

#[test]
fn tells_sides(rt: HostRuntime) {
    let bump = [(0, 0), (2, 2), (4, 0)];
    let turn = [(4, 0), (5, 2), (3, 4)];
    let rows = [
        (Frame::Plain, bump, (2, 1), Side::Below),
        (Frame::Plain, bump, (2, 3), Side::Above),
        (Frame::Plain, bump, (1, 1), Side::On),
        (Frame::Plain, bump, (5, 0), Side::Outside),
        (Frame::Plain, bump, (0, 1), Side::Above),
        (Frame::Plain, bump, (4, 1), Side::Outside),
        (Frame::Turned, turn, (3, 2), Side::Below),
        (Frame::Turned, turn, (7, 2), Side::Above),
        (Frame::Turned, turn, (5, 2), Side::On),
    ];
    for (frame, [a, b, c], p, want) in rows {
        let (rising, falling) = sides_of_three(
            &rt,
            frame,
            at(&rt, a),
            at(&rt, b),
            at(&rt, c),
            at(&rt, p),
        );
        assert_eq!(rt; rising, want, "the side of {p:?}");
        assert_eq!(rt;
            falling,
            want,
            "the side of {p:?} of the chain read backwards"
        );
    }
}
