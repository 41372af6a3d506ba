// The relative event queue of document 01: a row of cells, each with the gap to the cell before it. Below, in this order: the types and limits, the
// calls, and the private functions. steps.rt has the total steps for a scheduler that has checked its state.
#![tactic(auto)]

pub mod steps;

ghost use Rattle.std.specs.Prelude.{◌≡◌, [], true, false, ◌+◌, ◌-◌, ◌*◌, ◌≤◌, ◌<◌, leb, ltb, eqb, drop, get_or, length, min, replicate};
ghost use Rattle.std.proofs.lemmas.List.Edits.{sets};
ghost use Rattle.small.specs.Small.{pick, both};
ghost use Rattle.queue.specs.Limits.{max_gap, cell_count, longest, filler};
ghost use Rattle.queue.specs.Row.{cell, cells_of, queue_of};
ghost use Rattle.queue.specs.Sound.{soundb};
ghost use Rattle.queue.specs.Holds.{in_ticks, holdsb};
ghost use Rattle.queue.specs.Calls.{changed_by, taken_by, left_by, insert_of, remove_of, time_left_of, clock_of, take_of, push_back_of};
ghost use Rattle.queue.specs.Steps.{first_cell};
ghost use Rattle.queue.specs.Moves.{seenb, spacedb, gaps_of, sum_of, pass_of, Passed, Sought, Regrouped};
ghost use Rattle.queue.specs.Moves.{chain_for, links_of, queue_with, spliced, push_cells};

use refusal::Reason;

// An event (id 0 to 254) or a filler (id 255), with its gap to the cell before it. The first gap counts from now. The id tells a filler, and no enum does:
// a queue of C and of the port's words may hold any byte (`clock_in` of queue_c, `queue_in` of port), and the calls refuse what is not sound.
#[repr(C)]
#[derive(Clone, Copy)]
pub struct Cell {
    pub id: u8,
    pub gap: u16,
}

impl Cell {
    const ZERO: Cell = Cell { id: 0, gap: 0 };

    fn is_filler(self) -> bool
        ensures { result ≡ eqb self.id filler }
    {
        self.id == Queue::FILLER
    }

    // Whether the gap is one that the normal form has there.
    fn is_spaced(self, behind_filler: bool) -> bool
        ensures { result ≡ spacedb max_gap behind_filler self }
    {
        if behind_filler {
            self.gap == Queue::FULL
        } else {
            !self.is_filler() || 0 < self.gap
        }
    }
}

// The first `len` cells are the queue; those past them are zero. An array and its length, and no Vec: no heap, and C holds this very struct (`clock_in`).
#[repr(C)]
#[derive(Clone, Copy)]
pub struct Queue {
    pub cells: [Cell; Queue::CELLS],
    pub len: usize,
}

// A distance in clock ticks.
#[derive(Clone, Copy, PartialEq, Eq, PartialOrd, Ord)]
pub struct Distance(pub u32);

impl Queue {
    pub const MAX_GAP: u32 = 65_535;

    // The same as a cell has it.
    const FULL: u16 = Queue::MAX_GAP as u16;

    pub const CELLS: usize = 32;

    pub const LONGEST: u32 = 1_000_000;

    // The document's id, in a byte of a struct that C holds (`clock_in`): no enum.
    pub const FILLER: u8 = 255;

    // How many ids `holds` looks for: a table's places.
    pub const HELD: usize = 8;

    // How many ids there are, the filler's included.
    const IDS: usize = 256;

    #[tactic(auto, unfolding(crate::specs::Row::queue_of))]
    pub fn empty() -> Queue
        ensures { result ≡ queue_of [] }
    {
        Queue {
            cells: [Cell::ZERO; Queue::CELLS],
            len: 0,
        }
    }

    // The cells in use; where the length is none of a row, all that there are.
    #[tactic(auto, using(std::proofs::lemmas::List::take_min), unfolding(crate::specs::Row::cells_of))]
    fn row(&self) -> &[Cell]
        ensures cells { result.now ≡ cells_of self.now }
        ensures len { length result.now ≡ min self.now.len cell_count }
    {
        &self.cells[..self.len.min(Queue::CELLS)]
    }
}

// THE CALLS

impl Queue {
    pub fn is_sound(&self) -> bool
        ensures { result ≡ soundb max_gap longest self.now }
    {
        if Queue::CELLS < self.len {
            return false;
        }
        let mut seen = [false; Queue::IDS];
        let mut filler = false;
        let mut at: u32 = 0;
        let mut ids: u32 = 0;
        for c in self.row() {
            let id = usize::from(c.id);
            if !c.is_spaced(filler) || seen[id] {
                return false;
            }
            filler = c.is_filler();
            seen[id] = !filler;
            at += u32::from(c.gap);
            ids += u32::from(c.id);
        }
        if filler || Queue::LONGEST < at {
            return false;
        }
        self.total() == at + ids
    }

    // The sum of all ids and gaps, those past the last too: it is that of the cells in use where the others are zero.
    fn total(&self) -> u32
        ensures { result ≡ sum_of self.now.cells }
    {
        let mut sum: u32 = 0;
        for c in &self.cells {
            sum += u32::from(c.id) + u32::from(c.gap);
        }
        sum
    }

    // The distance of the last cell.
    fn end(&self) -> u32
        ensures { result ≡ gaps_of (cells_of self.now) }
    {
        let mut at: u32 = 0;
        for c in self.row() {
            at += u32::from(c.gap);
        }
        at
    }

    // The event stands at that distance, behind all that are due at the same time.
    #[tactic(auto, using(crate::proofs::Same::insert_step, crate::proofs::Walking::sought_there), unfolding(crate::specs::Calls::insert_of))]
    pub fn insert(&mut self, id: u8, delay: Distance) -> Result<(), Reason>
        ensures { changed_by result self.new ≡ insert_of max_gap longest self.old id delay.0 }
    {
        if !self.is_sound() {
            return Err(Reason::Unsound);
        }
        if id == Queue::FILLER {
            return Err(Reason::IdOfFiller);
        }
        if self.find(id).is_some() {
            return Err(Reason::IdThere);
        }
        if Queue::LONGEST < delay.0 {
            return Err(Reason::DelayTooLong);
        }
        self.place(id, delay)
    }

    // The event is taken out, and its gap goes to the next.
    pub fn remove(&mut self, id: u8) -> Result<(), Reason>
        ensures { changed_by result self.new ≡ remove_of max_gap longest self.old id }
    {
        if !self.is_sound() {
            return Err(Reason::Unsound);
        }
        let Some(f) = self.find(id) else {
            return Err(Reason::NoSuchEvent);
        };
        let end = self.len;
        let rest = self.regroup(f.behind, f.at, f.last);
        self.splice(f.start, Chain::NONE, rest);
        self.clear(end);
        Ok(())
    }

    #[tactic(auto, unfolding(crate::specs::Calls::time_left_of))]
    pub fn time_left(&self, id: u8) -> Result<Distance, Reason>
        ensures { left_by result ≡ time_left_of max_gap longest self.now id }
    {
        if !self.is_sound() {
            return Err(Reason::Unsound);
        }
        match self.find(id) {
            Some(f) => Ok(Distance(f.at)),
            None => Err(Reason::NoSuchEvent),
        }
    }

    // Every distance falls by 1.
    #[tactic(auto, using(crate::proofs::Same::clock_step, crate::proofs::Same::clock_due), unfolding(crate::specs::Calls::clock_of))]
    pub fn clock(&mut self) -> Result<(), Reason>
        ensures { changed_by result self.new ≡ clock_of max_gap longest self.old }
    {
        if !self.is_sound() {
            return Err(Reason::Unsound);
        }
        if self.is_due() {
            return Err(Reason::EventDue);
        }
        self.tick();
        Ok(())
    }

    // The first event at distance 0 is taken out.
    #[tactic(auto, using(crate::proofs::Same::take_step, crate::proofs::Same::take_none), unfolding(crate::specs::Calls::take_of))]
    pub fn take(&mut self) -> Result<u8, Reason>
        ensures { taken_by result self.new ≡ take_of max_gap longest self.old }
    {
        if !self.is_sound() {
            return Err(Reason::Unsound);
        }
        if !self.is_due() {
            return Err(Reason::NothingDue);
        }
        let id = self.first_id();
        self.without_first();
        Ok(id)
    }

    // Every distance grows by 1.
    #[tactic(auto, using(crate::proofs::Pushing::pushing), unfolding(crate::specs::Calls::push_back_of))]
    pub fn push_back(&mut self) -> Result<(), Reason>
        ensures { changed_by result self.new ≡ push_back_of max_gap longest self.old }
    {
        if !self.is_sound() {
            return Err(Reason::Unsound);
        }
        if self.is_stuck() {
            return Err(Reason::NoRoom);
        }
        if self.end() == Queue::LONGEST {
            return Err(Reason::AtLongest);
        }
        self.later();
        Ok(())
    }

    // A test for a scheduler, which is no call of document 01: whether the queue is sound and holds exactly what it is to hold: for each id below 8 an event
    // 1 to its reach away, and none where the reach is 0.
    pub fn holds(&self, reach: &[Distance; Queue::HELD]) -> bool
        ensures { result ≡ holdsb max_gap longest (in_ticks reach.now) self.now }
    {
        if !self.is_sound() {
            return false;
        }
        let mut seen = [false; Queue::IDS];
        let mut at: u32 = 0;
        for c in self.row() {
            at += u32::from(c.gap);
            if !in_reach(c.id, at, reach) {
                return false;
            }
            seen[usize::from(c.id)] = true;
        }
        all_seen(&seen, reach)
    }
}

// A filler, or an event that is 1 to its reach away.
#[tactic(auto, using(crate::proofs::Holding::ticks_at, crate::proofs::Holding::ticks_length))]
fn in_reach(id: u8, at: u32, reach: &[Distance; Queue::HELD]) -> bool
    ensures { result ≡ pick (eqb id filler) true (both (ltb 0 at) (leb at (get_or (in_ticks reach.now) id 0))) }
{
    if id == Queue::FILLER {
        return true;
    }
    match reach.get(usize::from(id)) {
        Some(most) => 0 < at && at <= most.0,
        None => false,
    }
}

// Each reach above 0 has been seen.
fn all_seen(seen: &[bool; Queue::IDS], reach: &[Distance; Queue::HELD]) -> bool
    ensures { result ≡ seenb (in_ticks reach.now) 0 seen.now }
{
    for (i, most) in reach.iter().enumerate() {
        if 0 < most.0 && !seen[i] {
            return false;
        }
    }
    true
}

// WALKING

// How far a walk has come: the cells passed, the place behind the last event among them, that event's distance, and the last cell's.
// `next` is how many cells are passed, which the callers go on from: the rest as a slice would be no place to store at.
#[derive(Clone, Copy)]
struct Walk {
    next: usize,
    start: usize,
    last: u32,
    at: u32,
}

impl Walk {
    const START: Walk = Walk {
        next: 0,
        start: 0,
        last: 0,
        at: 0,
    };

    // The walk past every cell of a row that is at most d away.
    #[tactic(auto, using(crate::proofs::Walking::walking))]
    fn within(row: &[Cell], d: u32) -> Walk
        requires { length row.now ≤ cell_count }
        ensures { Passed row.now d result }
    {
        let mut w = Walk::START;
        for c in row {
            if d < w.at + u32::from(c.gap) {
                return w;
            }
            w = w.past(*c);
        }
        w
    }

    // The walk past one cell more.
    #[tactic(auto, unfolding(crate::specs::Moves::pass_of))]
    fn past(self, c: Cell) -> Walk
        requires { (self.next < cell_count) × (self.at ≤ max_gap * cell_count) }
        ensures { result ≡ pass_of self c }
    {
        let next = self.next + 1;
        let at = self.at + u32::from(c.gap);
        if c.is_filler() {
            Walk {
                next,
                start: self.start,
                last: self.last,
                at,
            }
        } else {
            Walk {
                next,
                start: next,
                last: at,
                at,
            }
        }
    }
}

// Where an event stands: the place behind the event before it, that one's distance, the place behind it, and its own distance.
#[derive(Clone, Copy)]
struct Found {
    start: usize,
    last: u32,
    behind: usize,
    at: u32,
}

impl Queue {
    // Where the event with this id stands; no event has a filler's.
    fn find(&self, id: u8) -> Option<Found>
        ensures { Sought (cells_of self.now) id result }
    {
        if id == Queue::FILLER {
            return None;
        }
        let mut w = Walk::START;
        for c in self.row() {
            let at = w.at + u32::from(c.gap);
            if c.id == id {
                return Some(Found {
                    start: w.start,
                    last: w.last,
                    behind: w.next + 1,
                    at,
                });
            }
            w = w.past(*c);
        }
        None
    }

    // What is left of the cells from a place on, which are counted from t, when they are counted from u.
    fn regroup(&self, from: usize, t: u32, u: u32) -> Rest
        requires { (from ≤ length (cells_of self.now)) × (t ≤ max_gap * cell_count) }
        ensures { Regrouped (cells_of self.now) from t u result }
    {
        let row = self.row();
        let mut at = t;
        for (i, c) in row[from..].iter().enumerate() {
            at += u32::from(c.gap);
            if !c.is_filler() {
                return Rest {
                    then: Chain::of(at.saturating_sub(u), c.id),
                    behind: from + i + 1,
                };
            }
        }
        Rest {
            then: Chain::NONE,
            behind: row.len(),
        }
    }
}

// MOVING: the cells before a change stay, and each cell behind it is stored once

// The cells of one event: its id, how many they are, and the gap of the first. Each other has the largest gap.
#[derive(Clone, Copy)]
struct Chain {
    id: u8,
    cells: usize,
    gap: u16,
}

// What comes behind a change: the cells of the next event, none where there is no event, and the place of the cells behind those.
#[derive(Clone, Copy)]
struct Rest {
    then: Chain,
    behind: usize,
}

impl Chain {
    // No cells. It is no `None`: whoever stores a chain stores as many cells as it has, and asks nothing.
    const NONE: Chain = Chain {
        id: 0,
        cells: 0,
        gap: 0,
    };

    #[tactic(auto, unfolding(crate::specs::Moves::chain_for))]
    fn of(gap: u32, id: u8) -> Chain
        ensures { result ≡ chain_for max_gap gap id }
    {
        let fillers = gap.saturating_sub(1) / Queue::MAX_GAP;
        Chain {
            id,
            cells: (fillers as usize) + 1,
            gap: (gap - fillers * Queue::MAX_GAP) as u16,
        }
    }
}

impl Queue {
    // In place of the cells from a place up to those behind the rest: a chain, and the rest's.
    #[tactic(auto, using(crate::proofs::Moving::splicing), unfolding(crate::specs::Moves::spliced))]
    fn splice(&mut self, start: usize, own: Chain, rest: Rest)
        requires within { rest.behind ≤ self.old.len }
        requires short { self.old.len ≤ cell_count }
        requires room { start + own.cells + rest.then.cells + (self.old.len - rest.behind) ≤ cell_count }
        ensures { self.new ≡ spliced start own rest self.old }
    {
        let at = start + own.cells;
        let to = at + rest.then.cells;
        let len = to + (self.len - rest.behind);
        self.cells.copy_within(rest.behind..self.len, to);
        self.len = len;
        self.link(at, rest.then);
        self.link(start, own);
    }

    // The cells past the last, cleared up to a place.
    fn clear(&mut self, end: usize)
        requires { (self.old.len ≤ end) × (end ≤ cell_count) }
        ensures { self.new ≡ queue_with (sets self.old.cells self.old.len (replicate (end - self.old.len) (cell 0 0))) self.old.len }
    {
        self.cells[self.len..end].fill(Cell::ZERO);
    }

    // The cells of a chain, stored from a place on: the last is the event, and each other a filler.
    fn link(&mut self, at: usize, chain: Chain)
        requires { at + chain.cells ≤ cell_count }
        ensures { self.new ≡ queue_with (sets self.old.cells at (links_of max_gap chain)) self.old.len }
    {
        let end = at + chain.cells;
        let mut gap = chain.gap;
        for i in at..end {
            let id = if i + 1 == end {
                chain.id
            } else {
                Queue::FILLER
            };
            self.cells[i] = Cell { id, gap };
            gap = Queue::FULL;
        }
    }
}

// PUSHING BACK

impl Queue {
    // The queue is full, and its first gap cannot grow.
    fn is_stuck(&self) -> bool
        ensures { result ≡ both (eqb self.now.len cell_count) (eqb (first_cell self.now).gap max_gap) }
    {
        self.len == Queue::CELLS && self.cells[0].gap == Queue::FULL
    }

    // The first gap grows by 1, or a filler of one tick comes before a gap that is full.
    fn later(&mut self)
        requires made { self.old ≡ queue_of (cells_of self.old) }
        requires short { self.old.len ≤ cell_count }
        requires room { both (eqb self.old.len cell_count) (eqb (first_cell self.old).gap max_gap) ≡ false }
        ensures { self.new ≡ queue_of (push_cells max_gap (cells_of self.old)) }
    {
        if self.len == 0 {
            return;
        }
        if self.cells[0].gap == Queue::FULL {
            self.cells.copy_within(0..self.len, 1);
            self.len += 1;
            self.cells[0] = Cell {
                id: Queue::FILLER,
                gap: 1,
            };
        } else {
            self.cells[0].gap += 1;
        }
    }
}
