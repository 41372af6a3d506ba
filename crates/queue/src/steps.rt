// The total steps on a row, for a scheduler that has checked its state once. They are no calls of document 01: they do not test soundness, have no
// `requires`, and have an outcome for every row. Where a call on a sound queue would not be refused, the step is the call (proofs/Same.antt).
ghost use Rattle.std.specs.Prelude.{◌≡◌};
ghost use Rattle.queue.specs.Limits.{max_gap};
ghost use Rattle.queue.specs.Calls.{changed_by};
ghost use Rattle.queue.specs.Steps.{first_cell, due_step, empty_step, falls_step, nearer_step, rest_step, tick_step, place_step, again_step};
ghost use Rattle.queue.specs.Moves.{fullb, plainb, Placed};

use super::{Cell, Chain, Distance, Queue, Walk};
use refusal::Reason;

impl Queue {
    #[tactic(auto, unfolding(crate::specs::Steps::empty_step))]
    pub fn is_empty(&self) -> bool
        ensures { result ≡ empty_step self.now }
    {
        self.len == 0
    }

    // Whether the first gap falls at a clock tick and stays above 0.
    #[tactic(auto, unfolding(crate::specs::Steps::falls_step))]
    pub fn falls(&self) -> bool
        ensures { result ≡ falls_step self.now }
    {
        1 < self.cells[0].gap
    }

    // Whether an event stands at distance 0.
    #[tactic(auto, unfolding(crate::specs::Steps::due_step))]
    pub fn is_due(&self) -> bool
        ensures { result ≡ due_step self.now }
    {
        self.len != 0 && self.cells[0].gap == 0
    }

    pub fn first_id(&self) -> u8
        ensures { result ≡ (first_cell self.now).id }
    {
        self.cells[0].id
    }

    // The first gap falls by 1, where it is not 0.
    #[tactic(auto, unfolding(crate::specs::Steps::nearer_step))]
    pub fn nearer(&mut self)
        ensures { self.new ≡ nearer_step self.old }
    {
        self.cells[0].gap = self.cells[0].gap.saturating_sub(1);
    }

    // The first cell goes, every other in use moves one place down, and the last one's place is cleared.
    #[tactic(auto, using(crate::proofs::Ticking::going), unfolding(crate::specs::Steps::rest_step))]
    pub fn without_first(&mut self)
        ensures { self.new ≡ rest_step self.old }
    {
        if self.len == 0 || Queue::CELLS < self.len {
            return;
        }
        let last = self.len - 1;
        self.cells.copy_within(1..self.len, 0);
        self.cells[last] = Cell::ZERO;
        self.len = last;
    }

    // The first gap falls by 1, and a filler that reaches 0 goes.
    #[tactic(auto, unfolding(crate::specs::Steps::tick_step))]
    pub fn tick(&mut self)
        ensures { self.new ≡ tick_step self.old }
    {
        if self.len == 0 {
            return;
        }
        let first = self.cells[0];
        if first.is_filler() && first.gap == 1 {
            self.without_first();
        } else {
            self.nearer();
        }
    }

    // An event is put in, with no test but that there is room.
    pub fn place(&mut self, id: u8, delay: Distance) -> Result<(), Reason>
        ensures { changed_by result self.new ≡ place_step max_gap self.old id delay.0 }
    {
        if Queue::CELLS < self.len {
            return Err(Reason::Unsound);
        }
        let d = delay.0;
        let w = Walk::within(self.row(), d);
        let own = Chain::of(d - w.last, id);
        let rest = self.regroup(w.next, w.at, d);
        let len = w.start + own.cells + rest.then.cells + (self.len - rest.behind);
        if Queue::CELLS < len {
            return Err(Reason::NoRoom);
        }
        self.splice(w.start, own, rest);
        Ok(())
    }

    // The first cell goes, and its event is put in again: each cell that it passes moves one place down, and the next gap falls. Where its new place is not
    // plain it is taken out and put in.
    #[tactic(auto, unfolding(crate::specs::Steps::again_step))]
    pub fn again(&mut self, delay: Distance)
        ensures { self.new ≡ again_step max_gap self.old delay.0 }
    {
        let id = self.cells[0].id;
        match self.plain_place(delay.0) {
            Some(p) => {
                self.cells.copy_within(1..p.passed + 1, 0);
                if p.passed + 1 < self.len {
                    self.cells[p.passed + 1].gap -= p.gap;
                }
                self.cells[p.passed] = Cell { id, gap: p.gap };
            }
            None => {
                self.without_first();
                // Where there is no room the event is gone, as `again_step` has it.
                let _ = self.place(id, delay);
            }
        }
    }

    // Where the first event comes to stand when it is put in again d away, if that place is plain: it is one cell there, and changes no other but the next gap.
    fn plain_place(&self, d: u32) -> Option<Place>
        ensures { Placed self.now d result }
    {
        if self.len == 0 || Queue::CELLS < self.len {
            return None;
        }
        let rest = &self.row()[1..];
        let w = Walk::within(rest, d);
        let gap = d - w.at;
        if w.start < w.next || !is_plain(gap, &rest[w.next..]) {
            return None;
        }
        Some(Place {
            passed: w.next,
            gap: gap as u16,
        })
    }
}

// PUTTING IN AGAIN

// How many cells an event passes, and its gap there.
#[derive(Clone, Copy)]
struct Place {
    passed: usize,
    gap: u16,
}

// Whether an event that comes this far before some cells, and behind no filler, is one cell, and changes none of them but the first gap.
fn is_plain(gap: u32, cells: &[Cell]) -> bool
    ensures { result ≡ plainb max_gap gap cells.now }
{
    match cells.split_first() {
        None => gap <= Queue::MAX_GAP,
        Some((c, more)) => !c.is_filler() || is_full(more),
    }
}

// Whether each cell, up to an event, has the largest gap.
fn is_full(cells: &[Cell]) -> bool
    ensures { result ≡ fullb max_gap cells.now }
{
    for c in cells {
        if c.gap != Queue::FULL {
            return false;
        }
        if !c.is_filler() {
            return true;
        }
    }
    false
}
