// The reader and the writer of the setup file: document 01, "Files and messages".
#![tactic(auto)]

ghost use Rattle.std.specs.Prelude.{◌≡◌, ℕ, List, true, false, ltb, not, ◌+◌, ◌≤◌, ◌<◌, length, drop, ⊤, OnOk, IfOk};
ghost use Rattle.std.specs.Range.{range_inclusive_start, range_inclusive_end, range_inclusive_exhausted};
ghost use Rattle.small.specs.Small.{pick, each, padded, All};
ghost use Rattle.refusal.specs.Numbers.{record_cut};
ghost use Rattle.refusal.specs.Refusal.{none, first_of, refused, Check};
ghost use Rattle.refusal.proofs.Exactly.{Numbered};
ghost use Rattle.refusal.specs.Reason.{number_of, fault_in};
ghost use Rattle.field.specs.Field.{byte_of, field_of, big, over};
ghost use Rattle.field.specs.Write.{written, written_by};
ghost use Rattle.queue.specs.Limits.{longest};
ghost use Rattle.table.specs.Limits.{most_work, entries};
ghost use Rattle.table.specs.Sound.{rangeb, tableb};
ghost use Rattle.setup.specs.Layout.{task_bytes, server_bytes, bytes_of};
ghost use Rattle.setup.specs.Read.{task_size, task_checks, task_of, release_of, head_size, head_checks, server_checks, server_of, server_size, start_checks, reading_by, read_of};
ghost use Rattle.setup.specs.Write.{write_refusal, written_to};
ghost use Rattle.setup.specs.Moves.{head_of, times_checks, all_checks, all_given, all_size, task_numbered, server_numbered};

use field::Field;
use queue::{Distance, Queue};
use refusal::{Fault, Reason};
use std::ops::RangeInclusive;
use table::{Kind, Release, Served, Server, Table, Task};

const VERSION: u8 = 1;

// Bytes before the first server, of a server before its tasks, and of a task.
const START: usize = 4;

const HEAD: usize = 10;

const TASK: usize = 13;

// READING

pub fn read(s: &[u8]) -> Result<Table, Fault>
    ensures { reading_by result ≡ read_of longest most_work s.now }
{
    let mut r = Reader { rest: s, at: 0 };
    let count = r.start()?;
    let servers = r.records(count, Server::zero())?;
    if !r.rest.is_empty() {
        return Err(Reason::BytesLeft.at(r.at));
    }
    Ok(Table { servers, count })
}

/// What is left to read of a setup, and its place: no length of the slice, but what refusals name.
#[derive(Drop)]
struct Reader<'a> {
    rest: &'a [u8],
    at: usize,
    ghost fits: { at + length rest.now < 18446744073709551616 },
}

impl Reader<'_> {
    /// The bytes before the first server: how many servers there are.
    #[tactic(auto, unfolding(crate::specs::Read::start_checks))]
    fn start(&mut self) -> Result<usize, Fault>
        requires { self.old.at ≡ 0 }
        ensures refusal { fault_in result ≡ first_of (start_checks self.old.rest.now) }
        ensures value { IfOk result (λ n. n ≡ byte_of 3 self.old.rest.now) }
        ensures at { OnOk result (self.new.at ≡ 4) }
        ensures rest { OnOk result (self.new.rest.now ≡ drop 4 self.old.rest.now) }
    {
        let length = self.rest.len();
        if length < START {
            return Err(Reason::SetupShort.at(0));
        }
        if usize::from(self.take::<u16>()) != length {
            return Err(Reason::LengthDiffers.at(0));
        }
        if self.take::<u8>() != VERSION {
            return Err(Reason::SetupVersion.at(2));
        }
        let count = self.number::<u8>(1..=Table::ENTRIES as u32, Reason::ServerCount)?;
        Ok(count as usize)
    }

    /// A server before its tasks.
    #[tactic(auto, unfolding(crate::specs::Read::head_checks))]
    fn head(&mut self) -> Result<Server, Fault>
        ensures refusal { fault_in result ≡ first_of (head_checks longest self.old.at self.old.rest.now) }
        ensures value { IfOk result (λ s. s ≡ head_of self.old.rest.now) }
        ensures at { OnOk result (self.new.at ≡ self.old.at + head_size) }
        ensures rest { OnOk result (self.new.rest.now ≡ drop head_size self.old.rest.now) }
    {
        let place = self.at;
        self.whole(HEAD)?;
        let kind = Kind::try_from(self.take::<u8>()).map_err(|reason| reason.at(place))?;
        let count = self.number::<u8>(0..=Table::ENTRIES as u32, Reason::TaskCount)?;
        let period = self.number::<u32>(1..=Queue::LONGEST, Reason::PeriodRange)?;
        let budget = self.number::<u32>(1..=period, Reason::BudgetRange)?;
        Ok(Server {
            tasks: [Task::zero(); Table::ENTRIES],
            count: count as usize,
            kind: kind.number(),
            period: Distance(period),
            budget: Served(budget),
        })
    }

    /// A task's T and O, of the release whose number the file has: on arrival both are 0. This is where the byte becomes a `Release`.
    #[tactic(auto, unfolding(crate::specs::Moves::times_checks))]
    fn release(&mut self, number: u32) -> Result<Release, Fault>
        requires { 8 ≤ length self.old.rest.now }
        ensures refusal { fault_in result ≡ first_of (times_checks longest number self.old.at self.old.rest.now) }
        ensures value { IfOk result (λ r. r ≡ release_of number (field_of 4 self.old.rest.now) (field_of 4 (drop 4 self.old.rest.now))) }
        ensures at { OnOk result (self.new.at ≡ self.old.at + 8) }
        ensures rest { OnOk result (self.new.rest.now ≡ drop 8 self.old.rest.now) }
    {
        if number == 0 {
            self.number::<u32>(0..=0, Reason::ReleaseTimes)?; // T
            self.number::<u32>(0..=0, Reason::ReleaseTimes)?; // O
            return Ok(Release::OnArrival);
        }
        let period = self.number::<u32>(1..=Queue::LONGEST, Reason::ReleaseTimes)?;
        let offset = self.number::<u32>(0..=Queue::LONGEST, Reason::ReleaseTimes)?;
        Ok(Release::Periodic {
            period: Distance(period),
            offset: Distance(offset),
        })
    }

    /// Refused here where fewer bytes are left than a record has.
    fn whole(&self, size: usize) -> Result<(), Fault>
        ensures { fault_in result ≡ pick (ltb (length self.now.rest.now) size) (refused record_cut self.now.at) none }
    {
        if self.rest.len() < size {
            return Err(Reason::RecordCut.at(self.at));
        }
        Ok(())
    }

    /// The next field.
    fn take<T: Field>(&mut self) -> T
        requires { T.WIDTH ≤ length self.old.rest.now }
        ensures value { T.value result ≡ field_of T.WIDTH self.old.rest.now }
        ensures at { self.new.at ≡ self.old.at + T.WIDTH }
        ensures rest { self.new.rest.now ≡ drop T.WIDTH self.old.rest.now }
    {
        let n = field::read(self.rest, 0);
        self.rest = &self.rest[T::WIDTH..];
        self.at += T::WIDTH;
        n
    }

    /// The next field, refused at its place where its number is out of a range.
    fn number<T: Field>(&mut self, range: RangeInclusive<u32>, reason: Reason) -> Result<u32, Fault>
        requires room { T.WIDTH ≤ length self.old.rest.now }
        requires unused { range_inclusive_exhausted range ≡ false }
        ensures refusal { fault_in result ≡ pick (not (rangeb (range_inclusive_start range) (range_inclusive_end range) (field_of T.WIDTH self.old.rest.now))) (refused (number_of reason) self.old.at) none }
        ensures value { IfOk result (λ n. n ≡ field_of T.WIDTH self.old.rest.now) }
        ensures at { self.new.at ≡ self.old.at + T.WIDTH }
        ensures rest { self.new.rest.now ≡ drop T.WIDTH self.old.rest.now }
    {
        let place = self.at;
        let n = self.take::<T>().wide();
        if !range.contains(&n) {
            return Err(reason.at(place));
        }
        Ok(n)
    }
}

/// What a setup has many of, one behind the other: servers, and the tasks of a server.
trait Record: Copy {
    /// Its tests, where it begins at a place.
    ghost checks: { ℕ → List ℕ → List Check };

    /// What its bytes are read as.
    ghost gives: { List ℕ → Self };

    /// How many bytes it takes of those from its first on.
    ghost span: { List ℕ → ℕ };

    /// The bytes that are written, of a record that can be.
    ghost bytes: { Self → List ℕ };

    ghost fit: { Self → Type 0 };

    fn read(r: &mut Reader) -> Result<Self, Fault>
        ensures refusal { fault_in result ≡ first_of (checks r.old.at r.old.rest.now) }
        ensures value { IfOk result (λ x. x ≡ gives r.old.rest.now) }
        ensures at { OnOk result (r.new.at ≡ r.old.at + span r.old.rest.now) }
        ensures rest { OnOk result (r.new.rest.now ≡ drop (span r.old.rest.now) r.old.rest.now) };

    fn write(&self, w: &mut Writer)
        requires fit { fit self.now }
        requires room { w.old.at + length (bytes self.now) ≤ length w.old.out.now }
        ensures same { w.new.out.ghost_name ≡ w.old.out.ghost_name }
        ensures room { length w.new.out.now ≡ length w.old.out.now }
        ensures at { w.new.at ≡ w.old.at + length (bytes self.now) }
        ensures bytes { w.new.out.now ≡ over w.old.at (bytes self.now) w.old.out.now };

    ghost all_numbered: { (k : ℕ) (bs : List ℕ) → Numbered (checks k bs) };
}

impl Reader<'_> {
    /// So many records; the others of the array are zero.
    fn records<R: Record>(&mut self, n: usize, zero: R) -> Result<[R; Table::ENTRIES], Fault>
        requires { n ≤ entries }
        ensures refusal { fault_in result ≡ first_of (all_checks R.checks R.span n self.old.at self.old.rest.now) }
        ensures value { IfOk result (λ xs. xs ≡ padded zero entries (all_given R.gives R.span n self.old.rest.now)) }
        ensures at { OnOk result (self.new.at ≡ self.old.at + all_size R.span n self.old.rest.now) }
        ensures rest { OnOk result (self.new.rest.now ≡ drop (all_size R.span n self.old.rest.now) self.old.rest.now) }
    {
        let mut all = [zero; Table::ENTRIES];
        // by index, since reading may fail on the way: `array::from_fn` hands on no `Err`
        for i in 0..n {
            all[i] = R::read(self)?;
        }
        Ok(all)
    }
}

impl Record for Task {
    ghost checks = { task_checks longest most_work };

    ghost gives = { task_of };

    ghost span = { λ bs. task_size };

    ghost bytes = { task_bytes };

    ghost fit = { λ t. ⊤ };

    ghost all_numbered = { task_numbered longest most_work };

    #[tactic(auto, unfolding(crate::specs::Read::task_of, crate::specs::Read::task_checks, crate::specs::Moves::times_checks))]
    fn read(r: &mut Reader) -> Result<Task, Fault> {
        r.whole(TASK)?;
        let release = r.number::<u8>(0..=1, Reason::ReleaseKind)?;
        let work = r.number::<u32>(1..=Table::MOST_WORK, Reason::WorkRange)?;
        let release = r.release(release)?;
        Ok(Task {
            work: Served(work),
            release,
        })
    }

    #[tactic(auto, unfolding(crate::specs::Layout::task_bytes))]
    fn write(&self, w: &mut Writer) {
        w.put(self.release.number());
        w.put(self.work.0);
        w.put(self.release.period().0);
        w.put(self.release.offset().0);
    }
}

impl Record for Server {
    ghost checks = { server_checks longest most_work };

    ghost gives = { server_of };

    ghost span = { server_size };

    ghost bytes = { server_bytes };

    ghost fit = { λ s. s.count ≤ entries };

    ghost all_numbered = { server_numbered longest most_work };

    fn read(r: &mut Reader) -> Result<Server, Fault> {
        let mut server = r.head()?;
        server.tasks = r.records(server.count, Task::zero())?;
        Ok(server)
    }

    #[tactic(auto, unfolding(crate::specs::Layout::server_bytes, crate::specs::Layout::head_bytes))]
    fn write(&self, w: &mut Writer) {
        w.put(self.kind);
        w.put(self.count as u8);
        w.put(self.period.0);
        w.put(self.budget.0);
        w.records(&self.tasks[..self.count]);
    }
}

// WRITING

/// Writes the table's bytes at the start of a lent buffer.
pub fn write(t: &Table, out: &mut [u8]) -> Result<usize, Reason>
    ensures answer { written_by result ≡ written (write_refusal longest most_work t.now (length out.old)) (bytes_of t.now) }
    ensures buffer { out.new ≡ written_to longest most_work t.now out.old }
{
    if !t.is_sound() {
        return field::refused(Reason::Unsound);
    }
    let size = size_of(t);
    if out.len() < size {
        return field::refused(Reason::BufferShort);
    }
    let mut w = Writer { out, at: 0 };
    w.table(t, size as u16);
    field::whole(size)
}

/// How many bytes the table takes.
fn size_of(t: &Table) -> usize
    requires { tableb longest most_work t.now ≡ true }
    ensures { (result ≡ length (bytes_of t.now)) × (result ≤ 916) }
{
    let mut size = START;
    for s in &t.servers[..t.count] {
        size = size + HEAD + TASK * s.tasks[..s.count].len();
    }
    size
}

/// Where a setup is written, and the place of the next byte: the contracts speak of the whole buffer, which `&mut out[at..]` would no longer be.
#[derive(Drop)]
struct Writer<'a> {
    out: &'a mut [u8],
    at: usize,
}

impl Writer<'_> {
    /// The next field.
    fn put<T: Field>(&mut self, n: T)
        requires { self.old.at + T.WIDTH ≤ length self.old.out.now }
        ensures same { self.new.out.ghost_name ≡ self.old.out.ghost_name }
        ensures room { length self.new.out.now ≡ length self.old.out.now }
        ensures at { self.new.at ≡ self.old.at + T.WIDTH }
        ensures bytes { self.new.out.now ≡ over self.old.at (big T.WIDTH (T.value n)) self.old.out.now }
    {
        field::put(self.out, self.at, n);
        self.at += T::WIDTH;
    }

    /// A table, from its length on.
    fn table(&mut self, t: &Table, size: u16)
        requires sound { tableb longest most_work t.now ≡ true }
        requires size { size ≡ length (bytes_of t.now) }
        requires room { self.old.at + size ≤ length self.old.out.now }
        ensures same { self.new.out.ghost_name ≡ self.old.out.ghost_name }
        ensures bytes { self.new.out.now ≡ over self.old.at (bytes_of t.now) self.old.out.now }
    {
        self.put(size);
        self.put(VERSION);
        self.put(t.count as u8);
        self.records(&t.servers[..t.count]);
    }

    /// Records, one behind the other.
    fn records<R: Record>(&mut self, records: &[R])
        requires fit { All R.fit records.now }
        requires room { self.old.at + length (each R.bytes records.now) ≤ length self.old.out.now }
        ensures same { self.new.out.ghost_name ≡ self.old.out.ghost_name }
        ensures room { length self.new.out.now ≡ length self.old.out.now }
        ensures at { self.new.at ≡ self.old.at + length (each R.bytes records.now) }
        ensures bytes { self.new.out.now ≡ over self.old.at (each R.bytes records.now) self.old.out.now }
    {
        for r in records {
            r.write(self);
        }
    }
}
