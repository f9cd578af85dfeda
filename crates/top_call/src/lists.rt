//! Lists in a word: numbers in decimal with commas between them.
ghost use Rattle.std.specs.Prelude.{◌≡◌, ◌<◌, ◌≤◌, ◌^◌, ◌∷◌, ◌++◌, ℕ, pos, All, List, IfOk, IfSome};
ghost use Rattle.std.specs.Prelude.{OnOk, length, map};
ghost use Rattle.top_call.specs.Words.{number_between, number_then, words_between, words_left};
ghost use Rattle.top_call.specs.Words.{is_list, is_polygon_list, is_bound_list};
ghost use Rattle.top_call.specs.Words.{numbers_of, polygons_in, bounds_in};

use crate::words::{MOST_BOUND, parse_between};
use grid_exact::Bound;
use std::alloc::{AllocError, Global};

// The greatest number of a polygon.
const MOST_POLYGON: u32 = 1048575;

// The most polygons of a list.
const MOST_CHOSEN: u32 = 1000;

// The most bounds of a list.
const MOST_LEVELS: u32 = 16;

// What stands before the first comma, and what stands behind it if there is one.
fn cut(list: &str) -> (&str, Option<&str>)
    ensures shorter { IfSome result.1 (λ rest. length rest.now < length list.now) }
    ensures split { words_between list.now ≡ result.0.now ∷ words_left result.1 }
{
    match list.split_once(',') {
        Some((word, rest)) => (word, Some(rest)),
        None => (list, None),
    }
}

// Whether a word is a list of rising numbers, each at most `most`: one, and no more than there is
// room for.
fn is_list(list: &str, most: u32, room: u32) -> bool
    requires { most < 2 ^ 31 }
    ensures { result ≡ is_list most room list.now }
{
    let mut least = 0;
    let mut free = room;
    let mut rest = Some(list);
    'words: while let Some(left) = rest {
        let (word, behind) = cut(left);
        let Some(number) = parse_between(word, least, most) else {
            return false;
        };
        if free == 0 {
            return false;
        }
        least = number + 1;
        free -= 1;
        rest = behind;
    }
    true
}

// Adds the number that a word spells, if it spells one that is at most `most`.
fn push_number(numbers: &mut Vec<u32>, word: &str, most: u32) -> Result<(), AllocError>
    ensures { OnOk result ((more : List ℕ) → numbers.new.items ++ more
        ≡ numbers.old.items ++ number_then (number_between 0 most word.now) more) }
{
    let Some(number) = parse_between(word, 0, most) else {
        return Ok(());
    };
    numbers.push(number)?;
    Ok(())
}

// The numbers that the words of a list spell, in order, but those above `most`.
fn numbers_of(alloc: Global, list: &str, most: u32) -> Result<Vec<u32>, AllocError>
    ensures { IfOk result (λ numbers. numbers.items ≡ numbers_of most list.now) }
{
    let mut numbers = Vec::new(alloc);
    let mut rest = Some(list);
    'words: while let Some(left) = rest {
        let (word, behind) = cut(left);
        push_number(&mut numbers, word, most)?;
        rest = behind;
    }
    Ok(numbers)
}

/// Whether a word is a list of 1 to 1,000 rising numbers of polygons.
pub fn is_polygon_list(list: &str) -> bool
    ensures { result ≡ is_polygon_list list.now }
{
    is_list(list, MOST_POLYGON, MOST_CHOSEN)
}

/// The numbers of polygons that a list has, in order. The only error is want of memory.
pub fn polygons_in(alloc: Global, list: &str) -> Result<Vec<u32>, AllocError>
    ensures { IfOk result (λ numbers. numbers.items ≡ polygons_in list.now) }
{
    numbers_of(alloc, list, MOST_POLYGON)
}

/// Whether a word is a list of 1 to 16 rising bounds.
pub fn is_bound_list(list: &str) -> bool
    ensures { result ≡ is_bound_list list.now }
{
    is_list(list, MOST_BOUND, MOST_LEVELS)
}

// The bounds of so many units.
fn as_bounds(alloc: Global, numbers: &[u32]) -> Result<Vec<Bound>, AllocError>
    requires { All (λ n. n ≤ 2 ^ 30) numbers.now }
    ensures { IfOk result (λ bounds. bounds.items ≡ map pos numbers.now) }
{
    let mut bounds = Vec::new(alloc);
    for number in numbers {
        bounds.push(Bound::new(u64::from(*number)).unwrap())?;
    }
    Ok(bounds)
}

/// The bounds that a list has, in order. The only error is want of memory.
pub fn bounds_in(alloc: Global, list: &str) -> Result<Vec<Bound>, AllocError>
    ensures bounds { IfOk result (λ bounds. bounds.items ≡ map pos (bounds_in list.now)) }
    ensures count { IfOk result (λ bounds. length bounds.items ≡ length (bounds_in list.now)) }
{
    let numbers = numbers_of(alloc, list, MOST_BOUND)?;
    as_bounds(alloc, &numbers)
}
