// Queues, tables and states in words of 32 bits at fixed places: the layout that include/ribascenzo.h declares. Words that are none of a value's are read as a
// value that no sound one has, so that a call on them is refused with 31.
ghost use Rattle.std.specs.Prelude.{◌≡◌, [], ◌∷◌, ◌+◌, ◌*◌, ◌≤◌, ◌<◌, ℕ, List, length, take, drop};
ghost use Rattle.small.specs.Small.{each, All};
ghost use Rattle.queue.specs.Limits.{cell_count};
ghost use Rattle.queue.specs.declared.Cell.{Cell};
ghost use Rattle.queue.specs.declared.Queue.{Queue};
ghost use Rattle.table.specs.declared.Task.{Task};
ghost use Rattle.table.specs.declared.Server.{Server};
ghost use Rattle.table.specs.declared.Table.{Table};
ghost use Rattle.state.specs.declared.Load.{Load};
ghost use Rattle.state.specs.declared.Entry.{Entry};
ghost use Rattle.state.specs.declared.State.{State};
ghost use Rattle.port.specs.Words.{word, many_in, cell_in, cell_word, queue_in, queue_words, load_in, load_words, entry_in, entry_words};
ghost use Rattle.port.specs.Words.{task_in, task_words, server_in, server_words, table_in, table_words, state_in, state_words};
ghost use Rattle.port.specs.Words.{QueueFits, EntryFits, ServerFits, TableFits, StateFits};
ghost use Rattle.port.specs.Layout.{queue_size, load_size, entry_size, task_size, server_size, table_size, state_size};

use queue::{Cell, Distance, Queue};
use state::{Entry, Load, State};
use table::{Release, Served, Server, Table, Task};

// How many words a queue, a table and a state take, as the exports name them.
pub(crate) const QUEUE: usize = <Queue as Words>::SIZE;

pub(crate) const TABLE: usize = <Table as Words>::SIZE;

pub(crate) const STATE: usize = <State as Words>::SIZE;

// Where an entry has its queue of arrivals, and a state its entries.
const ARRIVALS: usize = 1 + <Load as Words>::SIZE * Table::ENTRIES;

const ENTRIES: usize = TABLE + QUEUE;

/// A thing of a fixed number of words: what words hold, whatever stands behind them, and the words that a thing is stored as.
pub(crate) trait Words: Copy {
    // how many words
    ghost SIZE: { ℕ };

    // what words hold
    ghost held: { List ℕ → Self };

    // the words of a thing, and which things have words: those whose counts are below what a word can hold
    ghost words: { Self → List ℕ };

    ghost fits: { Self → Type 0 };

    const SIZE: usize;

    // A thing to read into: any will do.
    fn blank() -> Self;

    // What the words hold, in place: a state that is made part by part is copied part by part.
    fn read(&mut self, w: &[u32])
        requires { SIZE ≤ length w.now }
        ensures { self.new ≡ held w.now };

    fn put(&self, w: &mut [u32])
        requires room { length w.old ≡ SIZE }
        requires fits { fits self.now }
        ensures { w.new ≡ words self.now };
}

// The thing that words hold.
pub(crate) fn held<T: Words>(w: &[u32]) -> T
    requires { T.SIZE ≤ length w.now }
    ensures { result ≡ T.held w.now }
{
    let mut x = T::blank();
    x.read(w);
    x
}

// N things, one behind the other: by index, each from its own words.
fn read_all<T: Words, const N: usize>(all: &mut [T; N], w: &[u32])
    requires { T.SIZE * N ≤ length w.now }
    ensures { all.new ≡ many_in T.SIZE T.held N w.now }
{
    for i in 0..N {
        all[i].read(&w[T::SIZE * i..]);
    }
}

fn put_all<T: Words, const N: usize>(all: &[T; N], w: &mut [u32])
    requires room { length w.old ≡ T.SIZE * N }
    requires fits { All T.fits all.now }
    ensures { w.new ≡ each T.words all.now }
{
    for (i, x) in all.iter().enumerate() {
        let at = T::SIZE * i;
        x.put(&mut w[at..at + T::SIZE]);
    }
}

// The words of an answer, as the exports store them.
impl<const N: usize> Words for [u32; N] {
    ghost SIZE = { N };

    ghost held = { take N };

    ghost words = { λ ws. ws };

    ghost fits = { λ ws. Unit {0} };

    const SIZE: usize = N;

    fn blank() -> [u32; N] {
        [0; N]
    }

    fn read(&mut self, w: &[u32]) {
        self.copy_from_slice(&w[..N]);
    }

    fn put(&self, w: &mut [u32]) {
        w.copy_from_slice(self);
    }
}

// QUEUES: the number of cells, then each cell's id times 65,536 and its gap

#[tactic(auto, unfolding(crate::specs::Words::cell_in))]
fn cell_in(word: u32) -> Cell
    ensures { result ≡ cell_in word }
{
    if 16_777_215 < word {
        return Cell {
            id: Queue::FILLER,
            gap: 0,
        };
    }
    Cell {
        id: (word / 65_536) as u8,
        gap: (word % 65_536) as u16,
    }
}

// By value, as `cell_in` gives it: so a cell is loaded and stored whole.
fn cell_word(c: Cell) -> u32
    ensures { result ≡ cell_word c }
{
    c.id as u32 * 65_536 + c.gap as u32
}

impl Words for Cell {
    ghost SIZE = { 1 };

    ghost held = { λ ws. cell_in (word 0 ws) };

    ghost words = { λ c. cell_word c ∷ [] };

    ghost fits = { λ c. Unit {0} };

    const SIZE: usize = 1;

    fn blank() -> Cell {
        Cell { id: 0, gap: 0 }
    }

    fn read(&mut self, w: &[u32]) {
        *self = cell_in(w[0]);
    }

    fn put(&self, w: &mut [u32]) {
        w[0] = cell_word(*self);
    }
}

// By value: so it is seen that no store of a word changes a cell, and they are stored four at a time.
fn put_cells(cells: [Cell; Queue::CELLS], w: &mut [u32])
    requires { length w.old ≡ cell_count }
    ensures { w.new ≡ each (λ c. cell_word c ∷ []) cells }
{
    for i in 0..Queue::CELLS {
        let c = cells[i];
        w[i] = cell_word(c);
    }
}

#[tactic(auto, unfolding(crate::specs::Words::queue_in, crate::specs::Words::queue_words))]
impl Words for Queue {
    ghost SIZE = { queue_size };

    ghost held = { queue_in };

    ghost words = { queue_words };

    ghost fits = { QueueFits };

    const SIZE: usize = 1 + Cell::SIZE * Queue::CELLS;

    fn blank() -> Queue {
        Queue::empty()
    }

    fn read(&mut self, w: &[u32]) {
        self.len = w[0] as usize;
        read_all(&mut self.cells, &w[1..]);
    }

    fn put(&self, w: &mut [u32]) {
        let (count, cells) = w.split_at_mut(1);
        count[0] = self.len as u32;
        put_cells(self.cells, cells);
    }
}

// ENTRIES: the budget, the loads, the queue of arrivals

#[tactic(auto, unfolding(crate::specs::Words::load_in))]
fn load_in(w: &[u32]) -> Load
    requires { load_size ≤ length w.now }
    ensures { result ≡ load_in w.now }
{
    let Ok(lost) = u16::try_from(w[1]) else {
        return Load {
            pending: Served(u32::MAX),
            lost: 0,
        };
    };
    Load {
        pending: Served(w[0]),
        lost,
    }
}

impl Words for Load {
    ghost SIZE = { load_size };

    ghost held = { load_in };

    ghost words = { load_words };

    ghost fits = { λ l. Unit {0} };

    const SIZE: usize = 2;

    fn blank() -> Load {
        Load {
            pending: Served(0),
            lost: 0,
        }
    }

    fn read(&mut self, w: &[u32]) {
        *self = load_in(w);
    }

    fn put(&self, w: &mut [u32]) {
        w.copy_from_slice(&[self.pending.0, self.lost as u32]);
    }
}

#[tactic(auto, unfolding(crate::specs::Words::entry_in, crate::specs::Words::entry_words))]
impl Words for Entry {
    ghost SIZE = { entry_size };

    ghost held = { entry_in };

    ghost words = { entry_words };

    ghost fits = { EntryFits };

    const SIZE: usize = 1 + Load::SIZE * Table::ENTRIES + Queue::SIZE;

    fn blank() -> Entry {
        Entry {
            loads: [Load::blank(); Table::ENTRIES],
            arrivals: Queue::blank(),
            budget: Served(0),
        }
    }

    fn read(&mut self, w: &[u32]) {
        self.budget = Served(w[0]);
        read_all(&mut self.loads, &w[1..]);
        self.arrivals.read(&w[ARRIVALS..]);
    }

    fn put(&self, w: &mut [u32]) {
        let (front, arrivals) = w.split_at_mut(ARRIVALS);
        let (budget, loads) = front.split_at_mut(1);
        budget[0] = self.budget.0;
        put_all(&self.loads, loads);
        self.arrivals.put(arrivals);
    }
}

// TABLES: the number of servers, then each server: its kind, the number of its tasks, P, C, then each task: its release (0 or 1), E, T, O

#[tactic(auto, unfolding(crate::specs::Words::task_in, crate::specs::Words::release_in))]
fn task_in(w: &[u32]) -> Task
    requires { task_size ≤ length w.now }
    ensures { result ≡ task_in w.now }
{
    Task {
        work: Served(w[1]),
        release: match (w[0], w[2], w[3]) {
            (1, period, offset) => Release::Periodic {
                period: Distance(period),
                offset: Distance(offset),
            },
            (0, 0, 0) => Release::OnArrival,
            _ => Release::Periodic {
                period: Distance(0),
                offset: Distance(0),
            },
        },
    }
}

impl Words for Task {
    ghost SIZE = { task_size };

    ghost held = { task_in };

    ghost words = { task_words };

    ghost fits = { λ t. Unit {0} };

    const SIZE: usize = 4;

    fn blank() -> Task {
        Task::zero()
    }

    fn read(&mut self, w: &[u32]) {
        *self = task_in(w);
    }

    fn put(&self, w: &mut [u32]) {
        let r = self.release;
        w.copy_from_slice(&[r.number() as u32, self.work.0, r.period().0, r.offset().0]);
    }
}

#[tactic(auto, unfolding(crate::specs::Words::server_in, crate::specs::Words::server_words))]
impl Words for Server {
    ghost SIZE = { server_size };

    ghost held = { server_in };

    ghost words = { server_words };

    ghost fits = { ServerFits };

    const SIZE: usize = 4 + Task::SIZE * Table::ENTRIES;

    fn blank() -> Server {
        Server::zero()
    }

    fn read(&mut self, w: &[u32]) {
        self.kind = w[0].min(255) as u8;
        self.count = w[1] as usize;
        self.period = Distance(w[2]);
        self.budget = Served(w[3]);
        read_all(&mut self.tasks, &w[4..]);
    }

    fn put(&self, w: &mut [u32]) {
        let (own, tasks) = w.split_at_mut(4);
        own.copy_from_slice(&[
            self.kind as u32,
            self.count as u32,
            self.period.0,
            self.budget.0,
        ]);
        put_all(&self.tasks, tasks);
    }
}

// As a queue but for the fields' names: what the two could share is one line of each.
#[tactic(auto, unfolding(crate::specs::Words::table_in, crate::specs::Words::table_words))]
impl Words for Table {
    ghost SIZE = { table_size };

    ghost held = { table_in };

    ghost words = { table_words };

    ghost fits = { TableFits };

    const SIZE: usize = 1 + Server::SIZE * Table::ENTRIES;

    fn blank() -> Table {
        Table::zero()
    }

    fn read(&mut self, w: &[u32]) {
        self.count = w[0] as usize;
        read_all(&mut self.servers, &w[1..]);
    }

    fn put(&self, w: &mut [u32]) {
        let (count, servers) = w.split_at_mut(1);
        count[0] = self.count as u32;
        put_all(&self.servers, servers);
    }
}

// STATES: the table, the queue of replenishments, the entries

#[tactic(auto, unfolding(crate::specs::Words::state_in, crate::specs::Words::state_words))]
impl Words for State {
    ghost SIZE = { state_size };

    ghost held = { state_in };

    ghost words = { state_words };

    ghost fits = { StateFits };

    const SIZE: usize = Table::SIZE + Queue::SIZE + Entry::SIZE * Table::ENTRIES;

    fn blank() -> State {
        State {
            entries: [Entry::blank(); Table::ENTRIES],
            table: Table::blank(),
            refills: Queue::blank(),
        }
    }

    fn read(&mut self, w: &[u32]) {
        self.table.read(w);
        self.refills.read(&w[TABLE..]);
        read_all(&mut self.entries, &w[ENTRIES..]);
    }

    fn put(&self, w: &mut [u32]) {
        let (table, rest) = w.split_at_mut(TABLE);
        let (refills, entries) = rest.split_at_mut(QUEUE);
        self.table.put(table);
        self.refills.put(refills);
        put_all(&self.entries, entries);
    }
}
