//! The runs of a map by the cells of the plane that they reach.
ghost use Rattle.std.specs.Prelude.{◌≡◌, ◌<◌, ◌≤◌, ◌+◌, ◌-◌, ◌*◌, ◌/◌, ◌^◌, ◌++◌, IfOk, OnOk, All};
ghost use Rattle.std.specs.Prelude.{Some, length, slice_get};
ghost use Rattle.std.specs.List.Sorted.{IsNonDecreasingBy};
ghost use Rattle.sweep_index.specs.Gathered.{made_over};
ghost use Rattle.face_parity.specs.Celled.{AreCelled, AreCelledBefore, AreWideTo, HasBox, cell_at};
ghost use Rattle.face_parity.specs.Celled.{cell_in, in_cell, is_wide};

use crate::bounds::Offset;
use crate::floors::Floors;
use crate::runs::{Run, runs_of};
use arc_map::{ArcMap, NoMemory};
use std::alloc::{AllocError, Global};

// A run, by its number, in a cell of a row. The box of the run, down to its floor, reaches the
// cell.
#[derive(Clone, Copy)]
pub(crate) struct Celled {
    pub cell: u64,
    pub row: u32,
    pub run: u32,
}

// The width and the height past which the box of a run counts as wide.
#[derive(Clone, Copy)]
pub(crate) struct Limits {
    pub across: u32,
    pub up: u32,
}

impl Limits {
    // Those that no box passes.
    fn none() -> Limits {
        Limits {
            across: u32::MAX,
            up: u32::MAX,
        }
    }

    // Those that few of the runs of these sizes pass.
    fn of(sizes: Sizes) -> Limits {
        Limits {
            across: limit(sizes.across, sizes.count),
            up: limit(sizes.up, sizes.count),
        }
    }

    // Whether the box of the run, down to its floor, is wider or higher than that.
    fn are_passed_by(&self, run: Run) -> bool
        ensures { result ≡ is_wide self.now run }
    {
        run.bounds.east.saturating_sub(run.bounds.west) > self.across
            || run.bounds.north.saturating_sub(run.floor) > self.up
    }
}

// A number that at most one of 64 numbers passes, where there are so many, with this sum.
fn limit(sum: u64, count: u64) -> u32 {
    let mean = (sum / count.max(1)).saturating_add(1);
    mean.saturating_mul(64).min(u64::from(u32::MAX)) as u32
}

// The runs of a map, those in each cell, in order of the cells, those that are too wide for cells,
// and the floors to which they reach. A cell is so wide and so high.
#[derive(Drop)]
pub(crate) struct Cells {
    pub floors: Floors,
    runs: Vec<Run>,
    wide: Vec<u32>,
    celled: Vec<Celled>,
    limits: Limits,
    width: u32,
    height: u32,
    ghost some_width: { 0 < width },
    ghost some_height: { 0 < height },
    ghost sorted: { IsNonDecreasingBy (λ c. c.cell) celled.items },
}

impl Cells {
    ghost use Rattle.face_parity.specs.Cells.{AreCellsOf};
    ghost use Rattle.face_parity.specs.Floors.{AreFloorsOf};

    // The runs of the map, with these floors, in the cells that they reach.
    pub fn build(alloc: Global, map: &ArcMap, floors: Floors) -> Result<Cells, NoMemory>
        requires { AreFloorsOf map.now floors }
        ensures cells { IfOk result (AreCellsOf map.now) }
        ensures floors { IfOk result (λ cells. cells.floors ≡ floors) }
    {
        let runs = runs_of(alloc, map, &floors)?;
        let limits = Limits::of(Sizes::of(&runs, Limits::none()));
        let sizes = Sizes::of(&runs, limits);
        let width = sizes.width();
        let height = high_enough(&runs, limits, width, sizes.height(width));
        let wide = wide_of(alloc, &runs, limits)?;
        let mut celled = celled_of(alloc, &runs, limits, width, height)?;
        celled.sort_unstable_by_key(|celled| celled.cell);
        Ok(Cells {
            floors,
            runs,
            wide,
            celled,
            limits,
            width,
            height,
        })
    }

    // The runs that are too wide for cells, by their numbers.
    pub fn wide(&self) -> &[u32]
        ensures { result.now ≡ self.now.wide.items }
    {
        self.wide.as_slice()
    }

    // The runs in the cell of a place.
    pub fn at(&self, at: Offset) -> &[Celled]
        ensures { result.now ≡ in_cell (cell_at self.now.width self.now.height at)
            self.now.celled.items }
    {
        let cell = cell(at.y / self.height, at.x / self.width);
        in_one(self.celled.as_slice(), cell)
    }

    // The run with this number.
    pub fn run(&self, number: u32) -> Run
        requires { number < length self.now.runs.items }
        ensures { slice_get self.now.runs.items number ≡ Some result }
    {
        self.runs[number as usize]
    }
}

// The number of the cell in this row and column.
fn cell(row: u32, column: u32) -> u64
    ensures { result ≡ cell_in row column }
{
    u64::from(row) * (1 << 32) + u64::from(column)
}

// The runs of one cell.
fn in_one(celled: &[Celled], cell: u64) -> &[Celled]
    requires { IsNonDecreasingBy (λ c. c.cell) celled.now }
    ensures { result.now ≡ in_cell cell celled.now }
{
    let start = celled.partition_point(|celled| celled.cell < cell);
    let behind = &celled[start..];
    let count = behind.partition_point(|celled| celled.cell == cell);
    &behind[..count]
}

// The runs that are too wide for cells, by their numbers.
fn wide_of(alloc: Global, runs: &[Run], limits: Limits) -> Result<Vec<u32>, AllocError>
    requires { length runs.now ≤ 2 ^ 20 }
    ensures { IfOk result (λ wide. AreWideTo runs.now limits (length runs.now) wide.items) }
{
    let mut wide = Vec::new(alloc);
    for number in 0..runs.len() {
        push_wide(&mut wide, runs, limits, number as u32)?;
    }
    Ok(wide)
}

// Adds the run if it is too wide for cells.
fn push_wide(
    wide: &mut Vec<u32>,
    runs: &[Run],
    limits: Limits,
    number: u32,
) -> Result<(), AllocError>
    requires number { number < length runs.now }
    requires so_far { AreWideTo runs.now limits number wide.old.items }
    ensures { OnOk result (AreWideTo runs.now limits (number + 1) wide.new.items) }
{
    if !limits.are_passed_by(runs[number as usize]) {
        return Ok(());
    }
    wide.push(number)?;
    Ok(())
}

// The other runs in cells of this width and height, in order of the runs.
fn celled_of(
    alloc: Global,
    runs: &[Run],
    limits: Limits,
    width: u32,
    height: u32,
) -> Result<Vec<Celled>, AllocError>
    requires runs { All HasBox runs.now }
    requires few { length runs.now ≤ 2 ^ 20 }
    requires wide { 0 < width }
    requires high { 0 < height }
    ensures { IfOk result (λ celled. AreCelled runs.now limits width height celled.items) }
{
    let mut celled = Vec::new(alloc);
    for number in 0..runs.len() {
        push_run(&mut celled, runs, limits, number as u32, width, height)?;
    }
    Ok(celled)
}

// Adds the run in each cell that it reaches, if it is not too wide.
fn push_run(
    celled: &mut Vec<Celled>,
    runs: &[Run],
    limits: Limits,
    number: u32,
    width: u32,
    height: u32,
) -> Result<(), AllocError>
    requires runs { All HasBox runs.now }
    requires number { number < length runs.now }
    requires wide { 0 < width }
    requires high { 0 < height }
    requires so_far { AreCelledBefore runs.now limits width height number 0 celled.old.items }
    ensures { OnOk result (AreCelledBefore runs.now limits width height (number + 1) 0
        celled.new.items) }
{
    let run = runs[number as usize];
    if limits.are_passed_by(run) {
        return Ok(());
    }
    let west = run.bounds.west / width;
    let east = run.bounds.east / width;
    for row in run.floor / height..run.bounds.north / height + 1 {
        push_row(celled, number, row, west, east)?;
    }
    Ok(())
}

// Adds the run in the cells of a row from one column to another one.
fn push_row(
    celled: &mut Vec<Celled>,
    run: u32,
    row: u32,
    west: u32,
    east: u32,
) -> Result<(), AllocError>
    requires row { row ≤ 2 ^ 30 }
    requires columns { west ≤ east }
    ensures { OnOk result (celled.new.items ≡ celled.old.items
        ++ made_over (λ cell. record { cell = cell; row = row; run = run }) (cell_in row west)
        (cell_in row east + 1 - cell_in row west)) }
{
    for cell in cell(row, west)..cell(row, east) + 1 {
        celled.push(Celled { cell, row, run })?;
    }
    Ok(())
}

// A height of cells, from this one on, for which the runs that are not too wide reach not more than
// four cells of this width on average; where there is none, the greatest.
fn high_enough(runs: &[Run], limits: Limits, width: u32, least: u32) -> u32
    requires wide { 0 < width }
    requires high { 0 < least }
    requires small { least < 2 ^ 31 }
    ensures { 0 < result }
{
    let most = (runs.len() as u64).saturating_mul(4);
    let mut height = least;
    while height < 1 << 30 && reached(runs, limits, width, height) > most {
        height *= 2;
    }
    height
}

// How many cells of this width and height the runs reach that are not too wide, each cell as often
// as runs reach it.
fn reached(runs: &[Run], limits: Limits, width: u32, height: u32) -> u64
    requires wide { 0 < width }
    requires high { 0 < height }
{
    let mut cells: u64 = 0;
    for run in runs {
        if !limits.are_passed_by(*run) {
            cells = cells.saturating_add(reached_by(*run, width, height));
        }
    }
    cells
}

// How many cells of this width and height the run reaches.
fn reached_by(run: Run, width: u32, height: u32) -> u64
    requires wide { 0 < width }
    requires high { 0 < height }
{
    let columns = (run.bounds.east / width).abs_diff(run.bounds.west / width);
    let rows = (run.bounds.north / height).abs_diff(run.floor / height);
    (u64::from(columns) + 1).saturating_mul(u64::from(rows) + 1)
}

// How many runs there are, and how far their boxes go across, and up from their floors, in sum.
#[derive(Clone, Copy)]
struct Sizes {
    count: u64,
    across: u64,
    up: u64,
}

impl Sizes {
    // Those of the runs that do not pass the limits.
    fn of(runs: &[Run], limits: Limits) -> Sizes {
        let mut sizes = Sizes {
            count: 0,
            across: 0,
            up: 0,
        };
        for run in runs {
            if !limits.are_passed_by(*run) {
                sizes = sizes.with(run);
            }
        }
        sizes
    }

    // The sizes with one more run.
    fn with(self, run: &Run) -> Sizes {
        let across = run.bounds.east.abs_diff(run.bounds.west);
        let up = run.bounds.north.abs_diff(run.floor);
        Sizes {
            count: self.count.saturating_add(1),
            across: self.across.saturating_add(u64::from(across)),
            up: self.up.saturating_add(u64::from(up)),
        }
    }

    // A width of cells for which a run reaches one and a half columns on average.
    fn width(&self) -> u32
        ensures { 0 < result }
    {
        let mut width: u32 = 1;
        while width < 1 << 30 && self.across / u64::from(width) > self.count / 2 {
            width *= 2;
        }
        width
    }

    // A height of cells of this width for which a run reaches two cells on average, where boxes are
    // much alike.
    fn height(&self, width: u32) -> u32
        requires { 0 < width }
        ensures high { 0 < result }
        ensures small { result < 2 ^ 31 }
    {
        let columns = (self.across / u64::from(width)).saturating_add(self.count);
        let mut height: u32 = 1;
        while height < 1 << 30 && self.is_too_low(columns, height) {
            height *= 2;
        }
        height
    }

    // Whether the runs, which reach so many columns in sum, reach more than two cells on average
    // where cells are so high.
    fn is_too_low(&self, columns: u64, height: u32) -> bool
        requires { 0 < height }
    {
        let rows = (self.up / u64::from(height)).saturating_add(self.count);
        columns.saturating_mul(rows) > self.count.saturating_mul(self.count).saturating_mul(2)
    }
}
