// The forecast: what the latest inserts noted, newest first.
#![tactic(auto)]

ghost use Rattle.std.specs.Prelude.{◌≡◌, [], ◌∷◌, ◌+◌, ◌≤◌, ◌<◌, ◌==◌, length, take, get_or, position};
ghost use Rattle.lists.specs.Lists.{without};
ghost use Rattle.slots.specs.Segments.{Segments};
ghost use Rattle.slots.specs.Keys.{Listed, segment_of};
ghost use Rattle.cells.specs.Cells.{cell, zero_cell, weight};
ghost use Rattle.cells.specs.Steps.{raised, tailed, noted, dropped, retargeted};
ghost use Rattle.seats.specs.Bounds.{Bounded};
ghost use Rattle.forecast.specs.Cells.{cells, used_cells};
ghost use Rattle.forecast.specs.Tidy.{Tidy, Became, Marker, Live, Outside, Elsewhere};

use cells::Cell;

// Room for 12 cells, with the number used: a row of markers, one of segments and one of counts. Three rows, and no array of cells: C sees them so.
#[repr(C)]
#[derive(Clone, Copy)]
pub struct Forecast {
    pub markers: [u64; 12],
    pub segments: [u8; 12],
    pub counts: [u8; 12],
    pub used: usize,
}

// What is wrong with a forecast: too many cells in use, or the first cell that is bad, and why.
#[derive(Clone, Copy, PartialEq, Eq, Debug)]
pub enum Fault {
    TooMany,
    NotZero(usize),
    Count(usize),
    Repeated(usize),
    NotLive(usize),
    Misplaced(usize),
}

impl Forecast {
    pub fn empty() -> Forecast
        ensures { Became [] result }
    {
        Forecast {
            markers: [0; 12],
            segments: [0; 12],
            counts: [0; 12],
            used: 0,
        }
    }

    // Cell `i`, used or not.
    pub fn cell(&self, i: usize) -> Cell
        requires { i < 12 }
        ensures { result ≡ get_or (cells self.now) i zero_cell }
    {
        Cell {
            marker: self.markers[i],
            segment: usize::from(self.segments[i]),
            count: usize::from(self.counts[i]),
        }
    }

    // The place of the used cell with this marker, if there is one.
    fn place_of(&self, marker: u64) -> Option<usize>
        requires { self.now.used ≤ 12 }
        ensures { result ≡ position (λ m. m == marker) (take self.now.used self.now.markers) }
    {
        let at = first_of(&self.markers, marker)?;
        if at < self.used { Some(at) } else { None }
    }

    // One more for cell `at`, and it changes places with its neighbour toward the head.
    fn raise(&mut self, at: usize)
        requires { Tidy self.old × (at < self.old.used) × (get_or self.old.counts at 0 < 12) }
        ensures { Became (raised at (used_cells self.old)) self.new }
    {
        self.counts[at] += 1;
        if at == 0 {
            return;
        }
        self.segments.swap(at, at - 1);
        self.counts.swap(at, at - 1);
        self.markers.swap(at, at - 1);
    }

    // A new cell at the head, and the last place out.
    fn put_first(&mut self, marker: u64, segment: u8)
        requires { Tidy self.old × (self.old.used < 12) }
        ensures { Became (cell marker segment 1 ∷ used_cells self.old) self.new }
    {
        self.segments.copy_within(..11, 1);
        self.segments[0] = segment;
        self.counts.copy_within(..11, 1);
        self.counts[0] = 1;
        self.markers.copy_within(..11, 1);
        self.markers[0] = marker;
        self.used += 1;
    }

    // One less for the tail, which goes when its count is spent.
    fn lower_tail(&mut self)
        requires { Tidy self.old × (0 < self.old.used) }
        ensures { Became (tailed (used_cells self.old)) self.new }
    {
        let tail = self.used - 1;
        let count = self.counts[tail];
        if 1 < count {
            self.counts[tail] = count - 1;
            return;
        }
        self.counts[tail] = 0;
        self.segments[tail] = 0;
        self.markers[tail] = 0;
        self.used = tail;
    }

    // An insert notes its predecessor: a live key, or 0 for the front.
    pub fn note_insert(mut self, p: usize, marker: u64, segment: usize) -> Forecast
        requires tidy { Tidy self }
        requires p_nonzero { 0 < p }
        requires p_bound { p ≤ 12 }
        requires segment_bound { segment < 64 }
        ensures { Became (noted p marker segment (used_cells self)) result }
    {
        match self.place_of(marker) {
            Some(at) => {
                if usize::from(self.counts[at]) < p {
                    self.raise(at);
                    return self;
                }
            }
            None => {
                if self.used < p {
                    self.put_first(marker, segment as u8);
                    return self;
                }
            }
        }
        self.lower_tail();
        self
    }

    // Cell `at` goes, and those after it close up.
    fn close_up(&mut self, at: usize)
        requires { Tidy self.old × (at < self.old.used) }
        ensures { Became (without at (used_cells self.old)) self.new }
    {
        let used = self.used;
        let tail = used - 1;
        self.segments.copy_within(at + 1..used, at);
        self.segments[tail] = 0;
        self.counts.copy_within(at + 1..used, at);
        self.counts[tail] = 0;
        self.markers.copy_within(at + 1..used, at);
        self.markers[tail] = 0;
        self.used = tail;
    }

    // A deleted marker loses its cell.
    pub fn drop_marker(mut self, marker: u64) -> Forecast
        requires { Tidy self }
        ensures { Became (dropped marker (used_cells self)) result }
    {
        if let Some(at) = self.place_of(marker) {
            self.close_up(at);
        }
        self
    }

    // The weight of a key, or of the front: its cell's count, else 0.
    pub fn weight_of(self, marker: u64) -> usize
        requires { Tidy self }
        ensures { result ≡ weight (used_cells self) marker }
    {
        match self.place_of(marker) {
            Some(at) => usize::from(self.counts[at]),
            None => 0,
        }
    }

    // Every cell of the `n` segments from `first` on names its marker's actual segment, by the bounds of segments; the others do as they are.
    pub fn retarget(mut self, bounds: &[u64], first: usize, n: usize) -> Forecast
        requires tidy { Tidy self }
        requires bounds_len { (length bounds.now ≡ 64) × (first + n ≤ 64) }
        ensures { (Tidy result) × ((ss : Segments) → Listed ss → 0 < length ss → length ss ≤ 64 → Bounded 1 ss bounds.now → Live ss self → Elsewhere ss first n self → Became (retargeted (segment_of ss) (used_cells self)) result) }
    {
        for i in 0..self.used {
            self.segments[i] = aim(self.segments[i], self.markers[i], bounds, first, n);
        }
        self
    }
}

// The place of a marker among all 12, unused ones too: a run of tests of one length, which costs less than a loop over those used.
fn first_of(markers: &[u64; 12], marker: u64) -> Option<usize>
    ensures { result ≡ position (λ m. m == marker) markers.now }
{
    markers.iter().position(|m| *m == marker)
}

// The segment of a cell that named `segment`: its marker's, by the bounds, where that was one of the `n` from `first` on; else the same.
fn aim(segment: u8, marker: u64, bounds: &[u64], first: usize, n: usize) -> u8
    requires { (length bounds.now ≡ 64) × (first + n ≤ 64) }
    ensures { (ss : Segments) → Listed ss → length ss ≤ 64 → Bounded 1 ss bounds.now → Marker ss marker → (Outside first n segment → segment ≡ segment_of ss marker) → result ≡ segment_of ss marker }
{
    if (first..first + n).contains(&usize::from(segment)) {
        return seats::seat_of(bounds, marker) as u8;
    }
    segment
}
