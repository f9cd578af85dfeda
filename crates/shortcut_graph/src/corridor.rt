//! The ways from a vertex of a chain that keep within the bound of vertices before it.
//!
//! At each vertex that it passes, such a way is at most the bound above or below it. Of all these
//! limits only the lowest from above and the highest from below are kept, so that one vertex more,
//! and one way more, takes the same time however many were passed.
ghost use Rattle.std.specs.Prelude.{◌≡◌, ◌↔◌, ◌+◌, ◌<◌, ℕ, IsTrue, IsNone, true, false, length};
ghost use Rattle.std.specs.Prelude.{pos, ◌+ℤ◌, ◌-ℤ◌, ◌≤ℤ◌, ◌<ℤ◌};
ghost use Rattle.grid_exact.specs.Geometry.{Place, turned, IsGridNumber, IsWithin};
ghost use Rattle.lane_kernels.specs.Places.{AreCoordinates, place_at};
ghost use Rattle.shortcut_graph.specs.Corridor.{laid_across, mirrored, seen_along};
ghost use Rattle.shortcut_graph.specs.Corridor.{IsLowerLimit, IsUpperLimit};

use crate::ruler::Ruler;
use grid_exact::{Bound, Direction, Frame, MAX_COORDINATE, Point, area, within};
use lane_kernels::point_at;

// A place that no way may pass on its far side, and the vertex that it stands for.
#[derive(Clone, Copy)]
pub(crate) struct Limit {
    pub(crate) place: Point,
    pub(crate) vertex: usize,
}

/// The ways from an origin that keep within the bound of the vertices taken so far. All places are
/// as seen along the direction.
#[derive(Clone, Copy)]
pub(crate) struct Corridor {
    pub(crate) direction: Direction,
    /// the vertex where all ways start
    pub(crate) origin: Point,
    /// the lowest place that ways must not pass above
    pub(crate) ceiling: Limit,
    /// the highest place that ways must not pass below
    pub(crate) floor: Limit,
    /// how far ways must go, so that they pass each vertex
    pub(crate) reach: i64,
    /// whether some way may be left
    pub(crate) is_passable: bool,
}

// The place in an upright mirror.
fn mirror(place: Point) -> Point
    ensures { result ≡ mirrored place }
{
    match Point::new(-place.x(), place.y()) {
        Some(image) => image,
        None => unreachable!(),
    }
}

// The place with its axes exchanged.
fn turn(place: Point) -> Point
    ensures { result ≡ turned place }
{
    match Point::new(place.y(), place.x()) {
        Some(image) => image,
        None => unreachable!(),
    }
}

// The place with the axis of the frame for the way across.
fn lay_across(frame: Frame, place: Point) -> Point
    ensures { result ≡ laid_across frame place }
{
    match frame {
        Frame::Plain => place,
        Frame::Turned => turn(place),
    }
}

// The place as it is seen where the direction is taken for the way across.
fn look(direction: Direction, place: Point) -> Point
    ensures { result ≡ seen_along direction place }
{
    let across = lay_across(direction.frame, place);
    if direction.rising {
        across
    } else {
        mirror(across)
    }
}

/// The direction back along a chain: the axis along which it gets on farther, and against the way
/// that it runs there. A corridor is right along any direction, but lets more ways along this one.
pub(crate) fn direction_back(ruler: &Ruler<'_>) -> Direction {
    if progress(ruler.xs) < progress(ruler.ys) {
        Direction {
            frame: Frame::Turned,
            rising: !is_rising(ruler.ys),
        }
    } else {
        Direction {
            frame: Frame::Plain,
            rising: !is_rising(ruler.xs),
        }
    }
}

// How far the last number is from the first, less all steps back; 0 where these are more.
fn progress(numbers: &[i64]) -> u64 {
    match numbers {
        [first, .., last] => {
            let gain = first.abs_diff(*last);
            gain.saturating_sub(way_along(numbers).saturating_sub(gain))
        }
        _ => 0,
    }
}

// How far it is from each number to the next, in all.
fn way_along(numbers: &[i64]) -> u64 {
    let mut way: u64 = 0;
    for k in 1..numbers.len() {
        way = way.saturating_add(numbers[k].abs_diff(numbers[k - 1]));
    }
    way
}

// Whether the last number is not below the first.
fn is_rising(numbers: &[i64]) -> bool {
    match numbers {
        [first, .., last] => first <= last,
        _ => true,
    }
}

// The point with these coordinates.
fn grid_point(x: i64, y: i64) -> Point
    requires across { IsGridNumber x }
    requires up { IsGridNumber y }
    ensures across { result.x ≡ x }
    ensures up { result.y ≡ y }
{
    match Point::new(x, y) {
        Some(point) => point,
        None => unreachable!(),
    }
}

// The place straight above, as far as the bound and the grid go.
fn raised(place: Point, bound: Bound) -> Point
    ensures across { result.x ≡ place.x }
    ensures up { result.y ≤ℤ (place.y +ℤ bound) }
{
    match Point::new(place.x(), (place.y() + bound.value()).min(MAX_COORDINATE)) {
        Some(high) => high,
        None => unreachable!(),
    }
}

// The place straight below, as far as the bound and the grid go.
fn lowered(place: Point, bound: Bound) -> Point
    ensures across { result.x ≡ place.x }
    ensures up { (place.y -ℤ bound) ≤ℤ result.y }
{
    match Point::new(place.x(), (place.y() - bound.value()).max(-MAX_COORDINATE)) {
        Some(low) => low,
        None => unreachable!(),
    }
}

// Of two limits from above, the one that leaves fewer ways.
fn lower_of(origin: Point, a: Limit, b: Limit) -> Limit
    requires first { origin.x <ℤ a.place.x }
    requires second { origin.x <ℤ b.place.x }
    ensures { IsLowerLimit origin a.place b.place result.place }
{
    if area(origin, a.place, b.place) < 0 {
        b
    } else {
        a
    }
}

// Of two limits from below, the one that leaves fewer ways.
fn upper_of(origin: Point, a: Limit, b: Limit) -> Limit
    requires first { origin.x <ℤ a.place.x }
    requires second { origin.x <ℤ b.place.x }
    ensures { IsUpperLimit origin a.place b.place result.place }
{
    if area(origin, a.place, b.place) < 0 {
        a
    } else {
        b
    }
}

impl Corridor {
    ghost use Rattle.shortcut_graph.specs.Corridor.{IsPastOrigin, KeepsTo, IsCorridor};

    /// The corridor from the vertex `start` along the direction. It stands for no vertex yet.
    pub(crate) fn start(ruler: &Ruler<'_>, direction: Direction, start: usize) -> Corridor
        requires coordinates { AreCoordinates ruler.now.xs.now ruler.now.ys.now }
        requires in_lists { start < length ruler.now.xs.now }
        ensures { IsCorridor result ruler.now.xs.now ruler.now.ys.now ruler.now.bound start start }
    {
        let from = point_at(ruler.xs, ruler.ys, start);
        Corridor::wide(direction, look(direction, from), start)
    }

    // The corridor of all ways from an origin, the place of this vertex. Its limits are those of
    // the grid.
    fn wide(direction: Direction, origin: Point, vertex: usize) -> Corridor
        ensures direction { result.direction ≡ direction }
        ensures origin { result.origin ≡ origin }
        ensures past { result.is_passable ≡ true → IsPastOrigin result }
    {
        let ahead = (origin.x() + 1).min(MAX_COORDINATE);
        Corridor {
            direction,
            origin,
            ceiling: Limit {
                place: grid_point(ahead, MAX_COORDINATE),
                vertex,
            },
            floor: Limit {
                place: grid_point(ahead, -MAX_COORDINATE),
                vertex,
            },
            reach: ahead,
            is_passable: origin.x() < ahead,
        }
    }

    // The corridor from an origin that stands for one vertex at this place.
    fn past(
        direction: Direction,
        origin: Point,
        place: Point,
        vertex: usize,
        bound: Bound,
    ) -> Corridor
        ensures direction { result.direction ≡ direction }
        ensures origin { result.origin ≡ origin }
        ensures past { result.is_passable ≡ true → IsPastOrigin result }
        ensures near { (v : Place) → KeepsTo result v → IsWithin origin v place bound }
    {
        Corridor {
            direction,
            origin,
            ceiling: Limit {
                place: raised(place, bound),
                vertex,
            },
            floor: Limit {
                place: lowered(place, bound),
                vertex,
            },
            reach: place.x(),
            is_passable: origin.x() < place.x(),
        }
    }

    /// Takes one vertex more, the one before those taken so far. Where no way is left, nothing is
    /// taken any more.
    pub(crate) fn take(&mut self, ruler: &Ruler<'_>, vertex: usize)
        requires coordinates { AreCoordinates ruler.now.xs.now ruler.now.ys.now }
        requires in_lists { vertex < length ruler.now.xs.now }
        requires past { self.old.is_passable ≡ true → IsPastOrigin self.old }
        ensures { (j : ℕ) → IsCorridor self.old ruler.now.xs.now ruler.now.ys.now ruler.now.bound
            (vertex + 1) j
            → IsCorridor self.new ruler.now.xs.now ruler.now.ys.now ruler.now.bound vertex j }
    {
        if !self.is_passable {
            return;
        }
        let place = look(self.direction, point_at(ruler.xs, ruler.ys, vertex));
        let more = Corridor::past(self.direction, self.origin, place, vertex, ruler.bound);
        if !more.is_passable {
            // A vertex beside the origin or behind it stands against no way where it is within the
            // bound of the origin.
            if !within(self.origin, self.origin, place, ruler.bound) {
                self.close(vertex);
            }
            return;
        }
        *self = self.narrowed(more);
    }

    // No way is left, and this vertex stands against each.
    fn close(&mut self, vertex: usize)
        ensures direction { self.new.direction ≡ self.old.direction }
        ensures origin { self.new.origin ≡ self.old.origin }
        ensures shut { self.new.is_passable ≡ false }
    {
        self.ceiling.vertex = vertex;
        self.floor.vertex = vertex;
        self.is_passable = false;
    }

    // The ways of both corridors, which have one origin and one direction. There may be none.
    fn narrowed(self, other: Corridor) -> Corridor
        requires origin { other.origin ≡ self.origin }
        requires passable { self.is_passable ≡ true }
        requires other_passable { other.is_passable ≡ true }
        requires past { IsPastOrigin self }
        requires other_past { IsPastOrigin other }
        ensures direction { result.direction ≡ self.direction }
        ensures origin { result.origin ≡ self.origin }
        ensures past { IsPastOrigin result }
        ensures near { (v : Place) → KeepsTo result v → KeepsTo self v × KeepsTo other v }
    {
        let ceiling = lower_of(self.origin, self.ceiling, other.ceiling);
        let floor = upper_of(self.origin, self.floor, other.floor);
        Corridor {
            direction: self.direction,
            origin: self.origin,
            ceiling,
            floor,
            reach: self.reach.max(other.reach),
            is_passable: area(self.origin, floor.place, ceiling.place) >= 0,
        }
    }

    // Whether the way to v keeps to the corridor.
    fn lets(&self, v: Point) -> bool
        ensures { IsTrue result ↔ KeepsTo self.now v }
    {
        if !self.is_passable {
            return false;
        }
        if v.x() < self.reach {
            return false;
        }
        if area(self.origin, v, self.ceiling.place) < 0 {
            return false;
        }
        area(self.origin, self.floor.place, v) >= 0
    }

    /// None where the straight way to this place keeps to the corridor, and else the vertex that is
    /// most likely too far from it. That one may be any number, and may be near.
    pub(crate) fn culprit(&self, place: Point) -> Option<usize>
        ensures { IsNone result → KeepsTo self.now (seen_along self.now.direction place) }
    {
        let v = look(self.direction, place);
        if self.lets(v) {
            return None;
        }
        if area(self.origin, v, self.ceiling.place) < 0 {
            Some(self.ceiling.vertex)
        } else {
            Some(self.floor.vertex)
        }
    }
}
