//! What the words of a command line ask for.
ghost use Rattle.std.specs.Prelude.{◌≡◌, ◌≤◌, [], ◌∷◌, IfSome};
ghost use Rattle.std.specs.Option.{option_map};
ghost use Rattle.top_call.specs.Words.{number_between, bound_of, weights_of, is_name, is_standard};
ghost use Rattle.top_call.specs.Words.{are_names, named_form, bounded_form, weighed_form};
ghost use Rattle.top_call.specs.Words.{held_form, task_form, faces_form, make_form, demo_form};
ghost use Rattle.top_call.specs.Words.{dissolve_form, build_form, pyramid_form, command_form};
ghost use Rattle.top_call.specs.Words.{form_of};
ghost use Rattle.top_call.specs.Requests.{bytes_of, form, Spells};

use crate::forms::{Options, Request};
use crate::lists::{is_bound_list, is_polygon_list};
use grid_exact::{Bound, Weights};

// The most rows and the most columns of cells.
const MOST_CELLS: u32 = 100;

const MOST_SEED: u32 = 65536;

/// The greatest bound, in grid units.
pub const MOST_BOUND: u32 = 1 << 30;

const MOST_WEIGHT: u32 = 65536;

// The commands that take options, a bound and texts.
#[derive(Clone, Copy)]
enum Task {
    Simplify,
    Layers,
    Check,
}

/// The number from `least` to `most` that a word spells in decimal digits, with no sign and no
/// leading zero. `None` where it spells no such number.
pub fn parse_between(word: &str, least: u32, most: u32) -> Option<u32>
    ensures value { result ≡ number_between least most word.now }
    ensures least { IfSome result (λ number. least ≤ number) }
    ensures most { IfSome result (λ number. number ≤ most) }
{
    let bytes = word.as_bytes();
    if bytes.is_empty() || (bytes.len() > 1 && bytes[0] == b'0') {
        return None;
    }
    let mut number = 0;
    for digit in bytes {
        if !digit.is_ascii_digit() {
            return None;
        }
        number = 10 * number + u64::from(*digit - b'0');
        if number > u64::from(most) {
            return None;
        }
    }
    if number < u64::from(least) {
        return None;
    }
    Some(number as u32)
}

// The bound that a word spells.
fn parse_bound(word: &str) -> Option<Bound>
    ensures { result ≡ bound_of word.now }
{
    Bound::new(u64::from(parse_between(word, 0, MOST_BOUND)?))
}

// The weights that two words spell.
fn parse_weights(wx: &str, wy: &str) -> Option<Weights>
    ensures { result ≡ weights_of wx.now wy.now }
{
    let wx = parse_between(wx, 1, MOST_WEIGHT)?;
    let wy = parse_between(wy, 1, MOST_WEIGHT)?;
    Weights::new(u64::from(wx), u64::from(wy))
}

// Whether the name is that of standard input.
fn is_standard(name: &str) -> bool
    ensures { result ≡ is_standard name.now }
{
    name == "-"
}

// Whether these are names, of which at most one is that of standard input.
fn are_names(file: &str, out: &str, cert: &str) -> bool
    ensures { result ≡ are_names file.now out.now cert.now }
{
    !file.is_empty()
        && !out.is_empty()
        && !cert.is_empty()
        && !(is_standard(file) && is_standard(out))
        && !(is_standard(file) && is_standard(cert))
        && !(is_standard(out) && is_standard(cert))
}

// What the names behind a bound ask for.
fn named<'a>(task: Task, options: Options, bound: Bound, names: &'a [String]) -> Option<Request<'a>>
    ensures { option_map form result ≡ named_form task options bound (bytes_of names.now) }
{
    match names {
        [file] => one_named(task, options, bound, file.as_str()),
        [file, out, cert] => three_named(
            task,
            options,
            bound,
            file.as_str(),
            out.as_str(),
            cert.as_str(),
        ),
        _ => None,
    }
}

// What a bound and names ask for.
fn bounded<'a>(task: Task, options: Options, words: &'a [String]) -> Option<Request<'a>>
    ensures { option_map form result ≡ bounded_form task options (bytes_of words.now) }
{
    match words {
        [bound, names @ ..] => named(task, options, parse_bound(bound.as_str())?, names),
        [] => None,
    }
}

// What weights, a bound and names ask for.
fn weighed<'a>(task: Task, hold: bool, words: &'a [String]) -> Option<Request<'a>>
    ensures { option_map form result ≡ weighed_form task hold (bytes_of words.now) }
{
    match words {
        [wx, wy, words @ ..] => {
            let weights = parse_weights(wx.as_str(), wy.as_str())?;
            let options = Options {
                hold,
                weights: Some(weights),
            };
            bounded(task, options, words)
        }
        _ => None,
    }
}

// What the words behind `--hold`, or behind the command, ask for.
fn held<'a>(task: Task, hold: bool, words: &'a [String]) -> Option<Request<'a>>
    ensures { option_map form result ≡ held_form task hold (bytes_of words.now) }
{
    match words {
        [word, rest @ ..] if word.as_str() == "--weights" => weighed(task, hold, rest),
        _ => {
            let options = Options {
                hold,
                weights: None,
            };
            bounded(task, options, words)
        }
    }
}

// What the words behind a command with options ask for.
fn tasked<'a>(task: Task, words: &'a [String]) -> Option<Request<'a>>
    ensures { option_map form result ≡ task_form task (bytes_of words.now) }
{
    match words {
        [word, rest @ ..] if word.as_str() == "--hold" => held(task, true, rest),
        _ => held(task, false, words),
    }
}

// What one name behind a bound asks for.
fn one_named<'a>(task: Task, options: Options, bound: Bound, file: &'a str) -> Option<Request<'a>>
    ensures { option_map form result ≡ named_form task options bound (file.entry.now ∷ []) }
{
    if file.is_empty() {
        return None;
    }
    match task {
        Task::Simplify => Some(Request::Simplify(options, bound, file)),
        Task::Layers => Some(Request::Layers(options, bound, file)),
        Task::Check => None,
    }
}

// What three names behind a bound ask for.
fn three_named<'a>(
    task: Task,
    options: Options,
    bound: Bound,
    file: &'a str,
    out: &'a str,
    cert: &'a str,
) -> Option<Request<'a>>
    ensures { option_map form result ≡ named_form task options bound
        (file.entry.now ∷ out.entry.now ∷ cert.entry.now ∷ []) }
{
    match task {
        Task::Check if are_names(file, out, cert) => {
            Some(Request::Check(options, bound, file, out, cert))
        }
        _ => None,
    }
}

// The request of `faces FILE`.
fn faces_request(words: &[String]) -> Option<Request<'_>>
    ensures { option_map form result ≡ faces_form (bytes_of words.now) }
{
    match words {
        [file] if !file.is_empty() => Some(Request::Faces(file.as_str())),
        _ => None,
    }
}

// The request of `make R C SEED`.
fn make_request(words: &[String]) -> Option<Request<'_>>
    ensures { option_map form result ≡ make_form (bytes_of words.now) }
{
    match words {
        [rows, cols, seed] => {
            let rows = parse_between(rows.as_str(), 1, MOST_CELLS)?;
            let cols = parse_between(cols.as_str(), 1, MOST_CELLS)?;
            let seed = parse_between(seed.as_str(), 0, MOST_SEED)?;
            Some(Request::Make(rows, cols, seed))
        }
        _ => None,
    }
}

// The request of `demo R C SEED E`.
fn demo_request(words: &[String]) -> Option<Request<'_>>
    ensures { option_map form result ≡ demo_form (bytes_of words.now) }
{
    match words {
        [rows, cols, seed, bound] => {
            let rows = parse_between(rows.as_str(), 1, MOST_CELLS)?;
            let cols = parse_between(cols.as_str(), 1, MOST_CELLS)?;
            let seed = parse_between(seed.as_str(), 0, MOST_SEED)?;
            let bound = parse_bound(bound.as_str())?;
            Some(Request::Demo(rows, cols, seed, bound))
        }
        _ => None,
    }
}

// The request of `dissolve LIST FILE`.
fn dissolve_request(words: &[String]) -> Option<Request<'_>>
    ensures { option_map form result ≡ dissolve_form (bytes_of words.now) }
{
    match words {
        [list, file] => border_request(list.as_str(), file.as_str()),
        _ => None,
    }
}

// What a list and a name behind `dissolve` ask for.
fn border_request<'a>(list: &'a str, file: &'a str) -> Option<Request<'a>>
    ensures { option_map form result ≡ dissolve_form (list.entry.now ∷ file.entry.now ∷ []) }
{
    if file.is_empty() {
        return None;
    }
    if is_polygon_list(list) {
        Some(Request::Dissolve(list, file))
    } else {
        None
    }
}

// The request of `build FILE`.
fn build_request(words: &[String]) -> Option<Request<'_>>
    ensures { option_map form result ≡ build_form (bytes_of words.now) }
{
    match words {
        [file] if !file.is_empty() => Some(Request::Build(file.as_str())),
        _ => None,
    }
}

// The request of `pyramid BOUNDS FILE`.
fn pyramid_request(words: &[String]) -> Option<Request<'_>>
    ensures { option_map form result ≡ pyramid_form (bytes_of words.now) }
{
    match words {
        [bounds, file] => levels_request(bounds.as_str(), file.as_str()),
        _ => None,
    }
}

// What bounds and a name behind `pyramid` ask for.
fn levels_request<'a>(bounds: &'a str, file: &'a str) -> Option<Request<'a>>
    ensures { option_map form result ≡ pyramid_form (bounds.entry.now ∷ file.entry.now ∷ []) }
{
    if file.is_empty() {
        return None;
    }
    if is_bound_list(bounds) {
        Some(Request::Pyramid(bounds, file))
    } else {
        None
    }
}

// What the words behind a command ask for.
fn commanded<'a>(command: &str, words: &'a [String]) -> Option<Request<'a>>
    ensures { option_map form result ≡ command_form command.now (bytes_of words.now) }
{
    match command {
        "simplify" => tasked(Task::Simplify, words),
        "layers" => tasked(Task::Layers, words),
        "check" => tasked(Task::Check, words),
        "faces" => faces_request(words),
        "make" => make_request(words),
        "demo" => demo_request(words),
        "dissolve" => dissolve_request(words),
        "build" => build_request(words),
        "pyramid" => pyramid_request(words),
        _ => None,
    }
}

/// The request that the words spell, with its numbers in decimal and within their limits. `None`
/// exactly where they spell no such request. It takes no memory.

pub fn request(words: &[String]) -> Option<Request<'_>>
    ensures value { option_map form result ≡ form_of (bytes_of words.now) }
    ensures spelled { Spells (bytes_of words.now) (option_map form result) }
{
    match words {
        [command, words @ ..] => commanded(command.as_str(), words),
        [] => None,
    }
}
