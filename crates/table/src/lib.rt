// The table of servers and tasks that a setup gives: document 01, "Servers and tasks"; polling servers are document 02, #101. Rank is the place in the table,
// 0 the highest.
#![tactic(auto)]

ghost use Rattle.std.specs.Prelude.{◌≡◌, Bool, eqb};
ghost use Rattle.small.specs.Small.{usedb};
ghost use Rattle.queue.specs.Limits.{longest};
ghost use Rattle.table.specs.Limits.{most_work};
ghost use Rattle.table.specs.Kinds.{kind_number, kind_of, known_kind};
ghost use Rattle.table.specs.Table.{release_number, period_of, offset_of, zero_task, zero_server, zero_table};
ghost use Rattle.table.specs.Sound.{rangeb, releaseb, taskb, zero_taskb, serverb, zero_serverb, tableb};

use queue::{Distance, Queue};
use refusal::Reason;

/// Ticks that a server is served: budgets and work. A `Distance` counts ticks of the clock, and neither passes for the other.
#[derive(Clone, Copy, Default, PartialEq, Eq, PartialOrd, Ord)]
pub struct Served(pub u32);

/// When a server wants a tick: each kind has the document's number. Polling is of document 02, #101: "Setup code 6 now allows 3."
#[derive(Clone, Copy, PartialEq, Eq)]
pub enum Kind {
    Idling = 1,
    Deferrable = 2,
    Polling = 3,
}

impl Kind {
    pub fn number(self) -> u8
        ensures { result ≡ kind_number self }
    {
        self as u8
    }
}

impl TryFrom<u8> for Kind {
    type Error = Reason;

    ghost try_from_gives = { λ n kind. kind ≡ kind_of n };

    fn try_from(number: u8) -> Result<Kind, Reason> {
        match number {
            1 => Ok(Kind::Idling),
            2 => Ok(Kind::Deferrable),
            3 => Ok(Kind::Polling),
            _ => Err(Reason::ServerKind),
        }
    }
}

/// A task's release: on arrival, or periodic with its period T and its offset O.
#[derive(Clone, Copy, Default, PartialEq, Eq)]
pub enum Release {
    #[default]
    OnArrival,
    Periodic { period: Distance, offset: Distance },
}

// The document's number and values of each. On arrival, the period and the offset are 0.
impl Release {
    pub fn number(self) -> u8
        ensures { result ≡ release_number self }
    {
        match self {
            Release::OnArrival => 0,
            Release::Periodic { .. } => 1,
        }
    }

    pub fn is_periodic(self) -> bool
        ensures { result ≡ eqb (release_number self) 1 }
    {
        matches!(self, Release::Periodic { .. })
    }

    pub fn period(self) -> Distance
        ensures { result.0 ≡ period_of self }
    {
        match self {
            Release::OnArrival => Distance(0),
            Release::Periodic { period, .. } => period,
        }
    }

    // One field beside the other, as `period`: there is no third to be generic over.
    pub fn offset(self) -> Distance
        ensures { result.0 ≡ offset_of self }
    {
        match self {
            Release::OnArrival => Distance(0),
            Release::Periodic { offset, .. } => offset,
        }
    }

    fn is_sound(self) -> bool
        ensures { result ≡ releaseb longest self }
    {
        match self {
            Release::OnArrival => true,
            Release::Periodic { period, offset } => {
                in_range(period.0, 1, Queue::LONGEST) && offset.0 <= Queue::LONGEST
            }
        }
    }
}

#[derive(Clone, Copy, Default, PartialEq, Eq)]
pub struct Task {
    pub work: Served,
    pub release: Release,
}

// The first `count` tasks are in use; the others are zero: a count beside the array, since memory is fixed and `table_sound` (proofs/Soundness.antt) speaks of
// every count. The kind stays the document's number: the port takes any table from C, crate faults writes unsound ones, and `table_sound` has others too.
#[derive(Clone, Copy, PartialEq, Eq)]
pub struct Server {
    pub tasks: [Task; Table::ENTRIES],
    pub count: usize,
    pub kind: u8,
    pub period: Distance,
    pub budget: Served,
}

// The first `count` servers are in use; the others are zero. The count stands beside the array as a server's does.
#[derive(Clone, Copy)]
pub struct Table {
    pub servers: [Server; Table::ENTRIES],
    pub count: usize,
}

// Whether a value is one of the numbers from the least to the most.
pub fn in_range(x: u32, least: u32, most: u32) -> bool
    ensures { result ≡ rangeb least most x }
{
    (least..=most).contains(&x)
}

/// An entry of a table: in use its values are in range, and unused it is zero.
pub trait Part {
    ghost in_range: { Self → Bool };

    ghost zero: { Self → Bool };

    fn is_sound(&self) -> bool
        ensures { result ≡ in_range self.now };

    fn is_zero(&self) -> bool
        ensures { result ≡ zero self.now };
}

/// Whether the first `count` entries are sound and the others zero.
pub fn in_use<T: Part>(entries: &[T], count: usize) -> bool
    ensures { result ≡ usedb T.in_range T.zero entries.now count }
{
    let (used, unused) = entries.split_at(count.min(entries.len()));
    used.iter().all(|x| x.is_sound()) && unused.iter().all(|x| x.is_zero())
}

impl Table {
    // Server entries, and task entries of each.
    pub const ENTRIES: usize = 8;

    pub const MOST_WORK: u32 = 1_000_000;

    // Every entry unused. Written out: of a derived default, over an array of servers, the proof did not close.
    pub fn zero() -> Table
        ensures { result ≡ zero_table }
    {
        Table {
            servers: [Server::zero(); Table::ENTRIES],
            count: 0,
        }
    }

    // Values in range, unused entries zero, 1 to 8 servers.
    #[tactic(auto, unfolding(crate::specs::Sound::tableb))]
    pub fn is_sound(&self) -> bool
        ensures { result ≡ tableb longest most_work self.now }
    {
        (1..=Table::ENTRIES).contains(&self.count) && in_use(&self.servers, self.count)
    }
}

impl Server {
    // `zero_server` value by value: its distances have no default, and a derived one would say no more plainly what is 0.
    pub fn zero() -> Server
        ensures { result ≡ zero_server }
    {
        Server {
            tasks: [Task::zero(); Table::ENTRIES],
            count: 0,
            kind: 0,
            period: Distance(0),
            budget: Served(0),
        }
    }

    /// Its kind, where its number is one.
    pub fn known_kind(&self) -> Option<Kind>
        ensures { result ≡ known_kind self.now.kind }
    {
        Kind::try_from(self.kind).ok()
    }
}

impl Part for Server {
    ghost in_range = { serverb longest most_work };

    ghost zero = { zero_serverb };

    fn is_sound(&self) -> bool {
        self.known_kind().is_some()
            && in_range(self.period.0, 1, Queue::LONGEST)
            && in_range(self.budget.0, 1, self.period.0)
            && self.count <= Table::ENTRIES
            && in_use(&self.tasks, self.count)
    }

    fn is_zero(&self) -> bool {
        *self == Server::zero()
    }
}

impl Task {
    // The derived default, by the name that a table's and a server's zero have (`zero_task_one`).
    pub fn zero() -> Task
        ensures { result ≡ zero_task }
    {
        Task::default()
    }
}

impl Part for Task {
    ghost in_range = { taskb longest most_work };

    ghost zero = { zero_taskb };

    fn is_sound(&self) -> bool {
        in_range(self.work.0, 1, Table::MOST_WORK) && self.release.is_sound()
    }

    fn is_zero(&self) -> bool {
        *self == Task::zero()
    }
}
