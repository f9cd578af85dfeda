//! The weights of the two axes, and what they do to points.
ghost use Rattle.std.specs.Prelude.{◌≡◌, ◌^◌, ◌≤◌, ◌↔◌, IsSome, IfSome, MatchOption, All, length};
ghost use Rattle.std.specs.Prelude.{pos};
ghost use Rattle.grid_exact.specs.Geometry.{IsOnGrid};
ghost use Rattle.grid_exact.specs.Near.{weighted};
ghost use Rattle.grid_exact.specs.Weights.{IsWeight, StaysOnGrid, IsFirstOff};

use crate::point::Point;
use std::marker::Model;

// The greatest weight of an axis.
const GREATEST_WEIGHT: u64 = 65536;

/// How many units one grid unit counts for, across and up: each a whole number from 1 to 65536.
#[derive(Clone, Copy, PartialEq, Eq)]
pub struct Weights {
    x: i64,
    y: i64,
}

impl Model for Weights {
    ghost use Rattle.grid_exact.specs.Weights.{Scales, IsWeight};

    ghost Value = { Scales };

    ghost view = { λ w. record { x = w.x; y = w.y } };

    ghost invariant = { λ w. IsWeight w.x × IsWeight w.y };

    ghost inverse = { λ w. record { x = w.x; y = w.y } };
}

impl Weights {
    /// The weights wx across and wy up, or None where one of them is 0 or above 65536.
    pub fn new(wx: u64, wy: u64) -> Option<Weights>
        ensures in_range { IsSome result ↔ (IsWeight (pos wx) × IsWeight (pos wy)) }
        ensures value { IfSome result (λ w. w ≡ record { x = pos wx; y = pos wy }) }
    {
        if wx < 1 || wx > GREATEST_WEIGHT || wy < 1 || wy > GREATEST_WEIGHT {
            None
        } else {
            Some(Weights {
                x: wx as i64,
                y: wy as i64,
            })
        }
    }

    /// The weight across.
    pub fn x(self) -> i64
        ensures value { result ≡ self.x }
        ensures in_range { IsWeight result }
    {
        self.x
    }

    /// The weight up.
    pub fn y(self) -> i64
        ensures value { result ≡ self.y }
        ensures in_range { IsWeight result }
    {
        self.y
    }

    /// The point with x times the weight across and y times the weight up, or None where that is
    /// off the grid.
    pub fn apply(self, p: Point) -> Option<Point>
        ensures on_grid { IsSome result ↔ IsOnGrid (weighted self.x self.y p) }
        ensures value { IfSome result (λ q. q ≡ weighted self.x self.y p) }
        // What is multiplied by weights lies in the same order, since they are above 0.
        ensures in_range { IsWeight self.x × IsWeight self.y }
    {
        Point::new(self.x() * p.x(), self.y() * p.y())
    }

    /// The place in the list, from 0, of the first point that `apply` refuses, or None where it
    /// refuses none.
    pub fn first_off(self, list: &[Point]) -> Option<u32>
        requires { length list.now ≤ 2 ^ 20 }
        ensures { MatchOption result (All (StaysOnGrid self) list.now) (IsFirstOff self list.now) }
    {
        for (k, p) in list.iter().enumerate() {
            if self.apply(*p).is_none() {
                return Some(k as u32);
            }
        }
        None
    }
}
