//! Square cells over the plane, by which points are found.
ghost use Rattle.std.specs.Prelude.{◌≡◌, ◌+◌, ◌*◌, ◌<◌, ◌≤◌, ◌^◌};
ghost use Rattle.grid_exact.specs.Geometry.{IsGridNumber};
ghost use Rattle.sweep_index.specs.Offsets.{offset_of};

use grid_exact::{MAX_COORDINATE, Point};

// How many cells there are at most.
const MOST_CELLS: u32 = 1 << 22;

// How many columns and how many rows are not too many, whatever the other number is.
const MOST_EACH: u32 = 1 << 11;

/// How far a coordinate is above the least one, in grid units.
pub fn offset(z: i64) -> u32
    requires { IsGridNumber z }
    ensures value { result ≡ offset_of z }
    ensures small { result ≤ 2 ^ 30 }
{
    (z + MAX_COORDINATE) as u32
}

// Rows and columns of square cells, with the corner of the first one. A side is 2^shift grid units
// long. What lies outside counts to the cells at the rim.
#[derive(Clone, Copy)]
pub struct Grid {
    west: u32,
    south: u32,
    shift: u32,
    pub columns: u32,
    pub rows: u32,
    pub ghost short: { shift < 32 },
    pub ghost some_columns: { 0 < columns },
    pub ghost some_rows: { 0 < rows },
    pub ghost few: { rows * columns ≤ 2 ^ 22 },
}

impl Grid {
    ghost use Rattle.sweep_index.specs.Cells.{column_of, row_of, cell_of};

    // At most about `count` cells over the box.
    pub fn over(bounds: Bounds, count: usize) -> Grid {
        let width = bounds.width();
        let height = bounds.height();
        let shift = shift_for(width, height, (count as u64).min(u64::from(MOST_CELLS)));
        let (rows, columns) = few(cells_along(height, shift), cells_along(width, shift));
        Grid {
            west: bounds.west,
            south: bounds.south,
            shift,
            columns,
            rows,
        }
    }

    // The column of an x.
    pub fn column(&self, x: i64) -> u32
        requires { IsGridNumber x }
        ensures value { result ≡ column_of self.now x }
        ensures within { result < self.now.columns }
    {
        (offset(x).saturating_sub(self.west) >> self.shift).min(self.columns - 1)
    }

    // The row of a y.
    pub fn row(&self, y: i64) -> u32
        requires { IsGridNumber y }
        ensures value { result ≡ row_of self.now y }
        ensures within { result < self.now.rows }
    {
        (offset(y).saturating_sub(self.south) >> self.shift).min(self.rows - 1)
    }

    // The number of the cell in this row and column.
    pub fn cell_in(&self, row: u32, column: u32) -> u32
        requires row { row < self.now.rows }
        requires column { column < self.now.columns }
        ensures value { result ≡ row * self.now.columns + column }
        ensures within { result < self.now.rows * self.now.columns }
    {
        row * self.columns + column
    }

    // The number of the cell of a point.
    pub fn cell(&self, p: Point) -> u32
        ensures { result ≡ cell_of self.now p }
    {
        self.cell_in(self.row(p.y()), self.column(p.x()))
    }

    // How many cells there are.
    pub fn cells(&self) -> u32
        ensures value { result ≡ self.now.rows * self.now.columns }
        ensures few { result ≤ 2 ^ 22 }
    {
        self.rows * self.columns
    }
}

// How many cells with a side of 2^shift lie along a length.
fn cells_along(length: u32, shift: u32) -> u32
    requires { shift < 32 }
    ensures { 0 < result }
{
    (length >> shift).saturating_add(1)
}

// These rows and columns, or fewer of both where they make too many cells.
fn few(rows: u32, columns: u32) -> (u32, u32)
    requires rows { 0 < rows }
    requires columns { 0 < columns }
    ensures some_rows { 0 < result.0 }
    ensures some_columns { 0 < result.1 }
    ensures cells { result.0 * result.1 ≤ 2 ^ 22 }
{
    if rows.saturating_mul(columns) <= MOST_CELLS {
        return (rows, columns);
    }
    (rows.min(MOST_EACH), columns.min(MOST_EACH))
}

// A shift for which square cells with a side of 2^shift over this width and height are not more
// than `count`.
fn shift_for(width: u32, height: u32, count: u64) -> u32
    ensures { result < 32 }
{
    let mut shift = 0;
    while shift < 30 && cells_of(width, height, shift) > count {
        shift += 1;
    }
    shift
}

// How many cells with a side of 2^shift cover the width and the height.
fn cells_of(width: u32, height: u32, shift: u32) -> u64
    requires { shift < 32 }
{
    (u64::from(width >> shift) + 1).saturating_mul(u64::from(height >> shift) + 1)
}

// A box round points, as offsets. West is past east where there is no point.
#[derive(Clone, Copy)]
pub struct Bounds {
    pub west: u32,
    pub south: u32,
    pub east: u32,
    pub north: u32,
}

impl Bounds {
    // The box round no point.
    pub fn empty() -> Bounds {
        Bounds {
            west: u32::MAX,
            south: u32::MAX,
            east: 0,
            north: 0,
        }
    }

    // How far it goes up.
    pub fn height(&self) -> u32 {
        self.north.saturating_sub(self.south)
    }

    // How far it goes across.
    pub fn width(&self) -> u32 {
        self.east.saturating_sub(self.west)
    }

    // The least box round this one and a point.
    pub fn with(self, p: Point) -> Bounds {
        let (x, y) = (offset(p.x()), offset(p.y()));
        Bounds {
            west: self.west.min(x),
            south: self.south.min(y),
            east: self.east.max(x),
            north: self.north.max(y),
        }
    }
}
