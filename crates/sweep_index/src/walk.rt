//! The walk over the items of an index that stand in a box: row by row of its cells.
ghost use Rattle.std.specs.Prelude.{◌≡◌, [], ◌∷◌, ◌+◌, ◌<◌, ◌≤◌, ℕ, length, IfSome, IfNone};
ghost use Rattle.sweep_index.specs.Area.{lowest, highest};
ghost use Rattle.sweep_index.specs.Cells.{row_of};
ghost use Rattle.sweep_index.specs.Items.{is_found};
ghost use Rattle.sweep_index.specs.Search.{IsByCells, IsNumbered, IsFoundAt, IsPassed, IsAhead};
ghost use Rattle.sweep_index.specs.Search.{IsCursor, items_from, numbered_of};

use crate::area::Area;
use crate::entries::Entry;
use crate::grid::Grid;
use crate::index::Item;

// The entries from `at` on are still to be looked at, of them those below `end` in this row of
// cells.
#[derive(Clone, Copy)]
struct Cursor {
    row: u32,
    at: usize,
    end: usize,
}

// A box, and the items of an index, of which those in the box are looked for.
#[derive(Clone, Copy)]
pub struct Search<'a> {
    pub grid: Grid,
    pub entries: &'a [Entry],
    pub starts: &'a [u32],
    pub live: &'a [bool],
    pub area: Area,
    pub ghost by_cells: { IsByCells grid entries.now starts.now },
    pub ghost numbered: { IsNumbered live.now entries.now },
}

impl<'a> Search<'a> {
    // Where the walk over the box begins.
    fn first_cursor(&self) -> Cursor
        ensures start { items_from self.now.entries.now self.now.live.now (lowest self.now.area)
            (highest self.now.area) result.at
            ≡ items_from self.now.entries.now self.now.live.now (lowest self.now.area)
            (highest self.now.area) 0 }
        ensures valid { IsCursor self.now.grid self.now.entries.now self.now.live.now
            (lowest self.now.area) (highest self.now.area) result.row result.end }
    {
        let row = self.grid.row(self.area.south);
        let (at, end) = self.places_in(row);
        Cursor { row, at, end }
    }

    // The first item from the cursor on, with the cursor after it.
    fn next_from(&self, cursor: Cursor) -> Option<((u32, Item), Cursor)>
        requires { IsCursor self.now.grid self.now.entries.now self.now.live.now
            (lowest self.now.area) (highest self.now.area) cursor.row cursor.end }
        ensures steps { IfSome result (λ r. items_from self.now.entries.now self.now.live.now
            (lowest self.now.area) (highest self.now.area) cursor.at ≡ r.0
            ∷ items_from self.now.entries.now self.now.live.now (lowest self.now.area)
            (highest self.now.area) r.1.at) }
        ensures valid { IfSome result (λ r. IsCursor self.now.grid self.now.entries.now
            self.now.live.now (lowest self.now.area) (highest self.now.area) r.1.row r.1.end) }
        ensures none { IfNone result (items_from self.now.entries.now self.now.live.now
            (lowest self.now.area) (highest self.now.area) cursor.at ≡ []) }
    {
        let Cursor {
            mut row,
            mut at,
            mut end,
        } = cursor;
        let last_row = self.grid.row(self.area.north);
        loop {
            if let Some(k) = self.first_found(at, end) {
                let entry = &self.entries[k];
                let next = Cursor {
                    row,
                    at: k + 1,
                    end,
                };
                return Some(((entry.number, entry.item), next));
            }
            if row >= last_row {
                return None;
            }
            row += 1;
            let (begin, row_end) = self.places_in(row);
            at = at.max(begin);
            end = row_end;
        }
    }

    // The places of the entries in the row's cells between the columns of the box.
    fn places_in(&self, row: u32) -> (usize, usize)
        requires { row < self.now.grid.rows }
        ensures ahead { IsAhead self.now.grid self.now.entries.now self.now.live.now
            (lowest self.now.area) (highest self.now.area) result.0 row }
        ensures passed { IsPassed self.now.grid self.now.entries.now self.now.live.now
            (lowest self.now.area) (highest self.now.area) result.1 row }
        ensures begin { result.0 ≤ length self.now.entries.now }
        ensures end { result.1 ≤ length self.now.entries.now }
    {
        let first = self.grid.cell_in(row, self.grid.column(self.area.west));
        let last = self.grid.cell_in(row, self.grid.column(self.area.east));
        (
            self.starts[first as usize] as usize,
            self.starts[last as usize + 1] as usize,
        )
    }

    // The first place from `at` on, and below `end`, whose entry is live and in the box.
    fn first_found(&self, at: usize, end: usize) -> Option<usize>
        requires { end ≤ length self.now.entries.now }
        ensures found { IfSome result (λ k. (at ≤ k) × (k < end)
            × IsFoundAt self.now.entries.now self.now.live.now (lowest self.now.area)
            (highest self.now.area) k) }
        ensures none_before { IfSome result (λ n. (k : ℕ) → at ≤ k → k < n
            → ¬ (IsFoundAt self.now.entries.now self.now.live.now (lowest self.now.area)
            (highest self.now.area) k)) }
        ensures none { IfNone result ((k : ℕ) → at ≤ k → k < end
            → ¬ (IsFoundAt self.now.entries.now self.now.live.now (lowest self.now.area)
            (highest self.now.area) k)) }
    {
        for k in at..end {
            if self.finds(&self.entries[k]) {
                return Some(k);
            }
        }
        None
    }

    // Whether the entry's item is live and in the box.
    fn finds(&self, entry: &Entry) -> bool
        requires { entry.now.number < length self.now.live.now }
        ensures { result ≡ is_found self.now.live.now (lowest self.now.area) (highest self.now.area)
            (numbered_of entry.now) }
    {
        self.area.holds(entry.item.at) && self.live[entry.number as usize]
    }
}

/// The live items in a box, each with its number.
#[derive(Clone, Copy)]
pub struct Walk<'a> {
    search: Search<'a>,
    cursor: Cursor,
    ghost valid: { IsCursor search.grid search.entries.now search.live.now (lowest search.area)
        (highest search.area) cursor.row cursor.end },
}

impl<'a> Walk<'a> {
    ghost use Rattle.sweep_index.specs.Walk.{items_left, all_found};

    // The walk from the box's first row on.
    pub fn over(search: Search<'a>) -> Walk<'a>
        ensures { items_left result ≡ all_found search.entry }
    {
        let cursor = search.first_cursor();
        Walk { search, cursor }
    }
}

impl<'a> Iterator for Walk<'a> {
    ghost use Rattle.std.specs.Iterator.{YieldsFirst, item_count};
    ghost use Rattle.sweep_index.specs.Walk.{items_left};

    type Item = (u32, Item);

    ghost next_gives = { YieldsFirst items_left };

    ghost remaining = { item_count items_left };

    fn next(&mut self) -> Option<(u32, Item)> {
        let (found, cursor) = self.search.next_from(self.cursor)?;
        self.cursor = cursor;
        Some(found)
    }
}
