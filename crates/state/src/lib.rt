// The state of servers and their tasks: its types and limits, its soundness, who is chosen, and the state in which a setup begins. Document 01,
// "Servers and tasks", and the polling servers of document 02, #101.
#![tactic(auto)]

ghost use Rattle.std.specs.Prelude.{◌≡◌, ℕ, map};
ghost use Rattle.queue.specs.Holds.{in_ticks};
ghost use Rattle.state.specs.State.{with_budget};
ghost use Rattle.state.specs.Sound.{task_reach, server_reach, loadb, zero_loadb, entryb, entriesb, all_spentb, stateb};
ghost use Rattle.state.specs.Choice.{place_in, pendingb, first_pending, some_pending, wantsb, readyb, chosen_of};
ghost use Rattle.state.specs.Fresh.{task_away, server_away, fresh_load, fresh_queue, fresh_entry, fresh_of, made_by};
ghost use Rattle.state.specs.Polling.{gives_upb};

use queue::{Distance, Queue};
use refusal::Reason;
use std::array;
use table::{Kind, Part, Served, Server, Table, Task};

/// A task's pending work and its lost count.
#[derive(Clone, Copy, Default, PartialEq, Eq)]
pub struct Load {
    pub pending: Served,
    pub lost: u16,
}

/// What a server has: its tasks' loads, the queue of its periodic tasks' arrivals, and its budget.
#[derive(Clone, Copy)]
pub struct Entry {
    pub loads: [Load; Table::ENTRIES],
    pub arrivals: Queue,
    pub budget: Served,
}

/// An entry stands at the place of its server, and a load at that of its task: apart from the table, which is what a setup gives and never changes. `stateb`
/// and the words of a state in C have both.
#[derive(Clone, Copy)]
pub struct State {
    pub entries: [Entry; Table::ENTRIES],
    pub table: Table,
    pub refills: Queue,
}

/// Whom a tick serves.
#[derive(Clone, Copy)]
pub enum Choice {
    Idle,
    Burning(u8),
    Running(u8, u8),
}

impl State {
    /// The most pending work of a task.
    pub const MOST_PENDING: u32 = 1_000_000;

    /// Where a lost count stops.
    pub const MOST_LOST: u16 = 65_535;

    /// The most ticks of one run.
    pub const BATCH: usize = 64;

    /// The state in which a setup begins.
    pub fn fresh(table: &Table) -> Result<State, Reason>
        ensures { made_by table.now result ≡ fresh_of table.now }
    {
        if !table.is_sound() {
            return Err(Reason::Unsound);
        }
        Ok(State {
            entries: array::from_fn(|i| Entry::fresh(&table.servers[i])),
            table: *table,
            refills: first_events(&table.servers),
        })
    }

    #[tactic(auto, using(crate::proofs::Walks::servers_reached), unfolding(crate::specs::Sound::stateb))]
    pub fn is_sound(&self) -> bool
        ensures { result ≡ stateb self.now }
    {
        self.table.is_sound()
            && self.all_sound()
            && self.refills.holds(&reaches(&self.table.servers))
            && self.all_spent()
    }

    /// The highest server that is ready. This and what an entry is asked are no calls of document 01: a tick asks them.
    pub fn chosen(&self) -> Option<usize>
        ensures { result ≡ place_in (chosen_of self.now) }
    {
        self.table
            .servers
            .iter()
            .zip(&self.entries)
            .position(|(s, e)| e.is_ready(s))
    }

    /// Whether each entry is sound beside its server. This and `all_spent` are one chain each: a function of both would take the test, and be no shorter.
    fn all_sound(&self) -> bool
        ensures { result ≡ entriesb self.now.table.servers self.now.entries }
    {
        self.table
            .servers
            .iter()
            .zip(&self.entries)
            .all(|(s, e)| e.is_sound(s))
    }

    /// Whether no server has budget to give up.
    fn all_spent(&self) -> bool
        ensures { result ≡ all_spentb self.now.table.servers self.now.entries }
    {
        self.table
            .servers
            .iter()
            .zip(&self.entries)
            .all(|(s, e)| !e.gives_up(s))
    }
}

impl Load {
    fn is_pending(&self) -> bool
        ensures { result ≡ pendingb self.now }
    {
        0 < self.pending.0
    }

    fn fresh(task: &Task) -> Load
        ensures { result ≡ fresh_load task.now }
    {
        let begins = task.release.is_periodic() && task.release.offset() == Distance(0);
        Load {
            pending: if begins { task.work } else { Served(0) },
            lost: 0,
        }
    }
}

impl Part for Load {
    ghost in_range = { loadb };

    ghost zero = { zero_loadb };

    fn is_sound(&self) -> bool {
        self.pending.0 <= State::MOST_PENDING && self.lost <= State::MOST_LOST
    }

    fn is_zero(&self) -> bool {
        *self == Load::default()
    }
}

impl Entry {
    fn fresh(server: &Server) -> Entry
        ensures { result ≡ fresh_entry server.now }
    {
        let mut entry = Entry {
            loads: array::from_fn(|j| Load::fresh(&server.tasks[j])),
            arrivals: first_events(&server.tasks),
            budget: server.budget,
        };
        if entry.gives_up(server) {
            entry.give_up();
        }
        entry
    }

    #[tactic(auto, using(crate::proofs::Walks::tasks_reached), unfolding(crate::specs::Sound::entryb))]
    fn is_sound(&self, server: &Server) -> bool
        ensures { result ≡ entryb server.now self.now }
    {
        self.budget <= server.budget
            && table::in_use(&self.loads, server.count)
            && self.arrivals.holds(&reaches(&server.tasks))
    }

    /// The first task with pending work.
    pub fn first_pending(&self) -> Option<usize>
        ensures { result ≡ place_in (first_pending self.now.loads) }
    {
        self.loads.iter().position(|l| l.is_pending())
    }

    /// Whether work is pending in some task.
    #[tactic(auto, using(crate::proofs::Choosing::some_placed))]
    fn has_work(&self) -> bool
        ensures { result ≡ some_pending self.now.loads }
    {
        self.first_pending().is_some()
    }

    /// Whether the server wants a tick.
    #[tactic(auto, using(crate::proofs::Choosing::wants_kind))]
    fn wants(&self, server: &Server) -> bool
        ensures { result ≡ wantsb server.now.kind self.now }
    {
        match server.known_kind() {
            Some(Kind::Idling) => true,
            Some(Kind::Deferrable | Kind::Polling) => self.has_work(),
            None => false,
        }
    }

    /// Whether it wants a tick and has budget.
    fn is_ready(&self, server: &Server) -> bool
        ensures { result ≡ readyb server.now.kind self.now }
    {
        0 < self.budget.0 && self.wants(server)
    }

    /// Whether the server has budget to give up: it is polling, and no work is pending.
    pub fn gives_up(&self, server: &Server) -> bool
        ensures { result ≡ gives_upb server.now.kind self.now }
    {
        0 < self.budget.0 && server.known_kind() == Some(Kind::Polling) && !self.has_work()
    }

    pub fn give_up(&mut self)
        ensures { self.new ≡ with_budget 0 self.old }
    {
        self.budget = Served(0);
    }
}

/// What has an event of its own: a task its next arrival, and a server its next replenishment. The distances are 0 where it has none.
trait Timed {
    ghost reach: { Self → ℕ };

    ghost away: { Self → ℕ };

    /// How far the event may be away.
    fn reach(&self) -> Distance
        ensures { result.0 ≡ reach self.now };

    /// How far the first one is away.
    fn first_away(&self) -> Distance
        ensures { result.0 ≡ away self.now };
}

impl Timed for Task {
    ghost reach = { task_reach };

    ghost away = { task_away };

    fn reach(&self) -> Distance {
        self.release.period().max(self.release.offset())
    }

    fn first_away(&self) -> Distance {
        let offset = self.release.offset();
        if offset == Distance(0) {
            self.release.period()
        } else {
            offset
        }
    }
}

impl Timed for Server {
    ghost reach = { server_reach };

    ghost away = { server_away };

    fn reach(&self) -> Distance {
        self.period
    }

    fn first_away(&self) -> Distance {
        self.reach()
    }
}

// A loop, as in `first_events`: of a closure for `array::from_fn` that reads an entry of type T nothing is learned, and the proof did not close.
fn reaches<T: Timed>(timed: &[T; Table::ENTRIES]) -> [Distance; Table::ENTRIES]
    ensures { in_ticks result ≡ map T.reach timed.now }
{
    let mut out = [Distance(0); Table::ENTRIES];
    for i in 0..Table::ENTRIES {
        out[i] = timed[i].reach();
    }
    out
}

/// The queue of the first events, put in by table order.
fn first_events<T: Timed>(timed: &[T; Table::ENTRIES]) -> Queue
    ensures { result ≡ fresh_queue T.away timed.now }
{
    let mut q = Queue::empty();
    for i in 0..Table::ENTRIES {
        let away = timed[i].first_away();
        if away != Distance(0) {
            // In a sound table none is refused, and a refused one leaves the queue as it was.
            let _ = q.insert(i as u8, away);
        }
    }
    q
}
