// The scheduler over a state: a tick, a run of ticks and an arrival. Document 01, "Servers and tasks", and the polling servers of document 02, #101.
#![tactic(auto)]

ghost use Rattle.std.specs.Prelude.{◌≡◌, ◌<◌, ◌≤◌, length};
ghost use Rattle.table.specs.Limits.{most_work, entries};
ghost use Rattle.state.specs.State.{most_pending};
ghost use Rattle.state.specs.Choice.{place_in, first_pending, choice_of};
ghost use Rattle.state.specs.Meaning.{SizedState};
ghost use Rattle.scheduler.specs.Arrive.{fitsb, load_after, arrival_by, with_entries, arrived_by, arrive_of};
ghost use Rattle.scheduler.specs.Tick.{charge, due_in, state_after, handled_of, ticked_by, tick_of};
ghost use Rattle.scheduler.specs.Run.{answer, batch_by, run_of};
ghost use Rattle.scheduler.specs.Moves.{checked_of, Ticking, Refillable, Handleable, refills_after, turn_by, served_turn, ended_turn, charged_entries};

use refusal::Reason;
use state::{Choice, Entry, Load, State};
use table::{Served, Server, Table};

/// Whether an arrival's work was added to what is pending, or was lost.
#[derive(Clone, Copy)]
pub enum Arrival {
    Accepted,
    Lost,
}

/// What a tick answers: whom it served, and how many events it handled.
#[derive(Clone, Copy)]
pub struct Answer {
    pub choice: Choice,
    pub handled: u32,
}

/// The answers of `count` ticks in a row. Those behind them are idle. An array and how far it is used: there is no heap.
#[derive(Clone, Copy)]
pub struct Batch {
    pub answers: [Answer; State::BATCH],
    pub count: usize,
}

// THE CALLS. Where one is refused the state is as it was.

/// One tick: the choice, the charge, all queues clocked, and what polling servers give up.
pub fn tick(s: &mut State) -> Result<Answer, Reason>
    ensures { ticked_by result s.new ≡ tick_of s.old }
{
    checked(s)?;
    Ok(one_tick(s))
}

/// A number of ticks in a row, at most 64, with one check of the state.
pub fn run(s: &mut State, k: usize) -> Result<Batch, Reason>
    ensures { batch_by result s.new ≡ run_of s.old k }
{
    checked(s)?;
    let count = small::least(k, State::BATCH);
    let idle = Answer {
        choice: Choice::Idle,
        handled: 0,
    };
    let mut answers = [idle; State::BATCH];
    // by index: each answer is of a tick that changes the state, and those behind the count stay idle
    for i in 0..count {
        answers[i] = one_tick(s);
    }
    Ok(Batch { answers, count })
}

/// An arrival at a server's task, which takes effect for the next tick.
pub fn arrive(s: &mut State, server: u8, task: u8) -> Result<Arrival, Reason>
    ensures { arrived_by result s.new ≡ arrive_of s.old server task }
{
    checked(s)?;
    let i = server as usize;
    if s.table.count <= i {
        return Err(Reason::NoServer);
    }
    let v = &s.table.servers[i];
    let j = task as usize;
    if v.count <= j {
        return Err(Reason::NoTask);
    }
    let t = v.tasks[j];
    if t.release.is_periodic() {
        return Err(Reason::TaskPeriodic);
    }
    let e = &mut s.entries[i];
    Ok(arrives(&mut e.loads[j], t.work))
}

// A state that is not sound is refused. And each has eight servers of eight tasks and eight entries of eight loads, of which the read tells the proof.
fn checked(s: &State) -> Result<(), Reason>
    ensures outcome { result ≡ checked_of s.now }
    ensures sized { SizedState s.now }
{
    let _entry = &s.entries[0];
    s.is_sound().then_some(()).ok_or(Reason::Unsound)
}

// THE TICK, of a state that is sound, in place

fn one_tick(s: &mut State) -> Answer
    requires { Ticking s.old }
    ensures { (s.new ≡ state_after s.old) × (result ≡ answer (choice_of s.old) (handled_of s.old)) }
{
    let choice = charge_chosen(s);
    let mut handled = handle_refills(s);
    // by index: a server is read while its entry is changed
    for i in 0..Table::ENTRIES {
        handled += handle_entry(&s.table.servers[i], &mut s.entries[i]);
    }
    Answer { choice, handled }
}

// Steps 1 to 3. The highest server that wants and has budget, and in it the first task with pending work, is charged.
fn charge_chosen(s: &mut State) -> Choice
    requires { Ticking s.old }
    ensures { (s.new ≡ with_entries (charged_entries s.old) s.old) × (result ≡ choice_of s.old) }
{
    let Some(i) = s.chosen() else {
        return Choice::Idle;
    };
    match charge(&mut s.entries[i]) {
        Some(j) => Choice::Running(i as u8, j as u8),
        None => Choice::Burning(i as u8),
    }
}

// The budget and the first pending task's work fall by 1: that task, where there is one.
fn charge(e: &mut Entry) -> Option<usize>
    requires { (0 < e.old.budget.0) × (length e.old.loads ≡ entries) }
    ensures { (e.new ≡ charge e.old) × (result ≡ place_in (first_pending e.old.loads)) }
{
    e.budget = Served(e.budget.0 - 1);
    let j = e.first_pending()?;
    let l = &mut e.loads[j];
    l.pending = Served(l.pending.0 - 1);
    Some(j)
}

// Step 4 for the replenishments: their queue is clocked, and each that is due sets its server's budget and goes in again a period away. How many they are. A
// function of this and `handle_arrivals` would take a closure over all entries here and over one there, and its contract the two invariants.
fn handle_refills(s: &mut State) -> u32
    requires { Refillable s.old }
    ensures { (s.new ≡ refills_after s.old) × (result ≡ length (due_in s.old.refills)) }
{
    s.refills.tick();
    let mut due = 0;
    // It counts events and walks no places: each turn changes what is due, so there is nothing to go over.
    while s.refills.is_due() {
        let i = s.refills.first_id() as usize;
        let v = &s.table.servers[i];
        let period = v.period;
        s.entries[i].budget = v.budget;
        s.refills.again(period);
        due += 1;
    }
    due
}

// Step 4 for a server's own queue, and behind it what a polling server gives up. How many arrivals were due.
fn handle_entry(server: &Server, e: &mut Entry) -> u32
    requires { Handleable server.now e.old }
    ensures { turn_by result e.new ≡ ended_turn server.now e.old }
{
    let arrived = handle_arrivals(server, e);
    if e.gives_up(server) {
        e.give_up();
    }
    arrived
}

// The queue is clocked, and of each arrival that is due the work arrives at its task, and it goes in again a period away. How many they are.
fn handle_arrivals(server: &Server, e: &mut Entry) -> u32
    requires { Handleable server.now e.old }
    ensures { turn_by result e.new ≡ served_turn server.now e.old }
{
    e.arrivals.tick();
    let mut arrived = 0;
    // As the loop over the replenishments.
    while e.arrivals.is_due() {
        let j = e.arrivals.first_id() as usize;
        let t = server.tasks[j];
        arrives(&mut e.loads[j], t.work);
        e.arrivals.again(t.release.period());
        arrived += 1;
    }
    arrived
}

// Work arrives at a task: it is added to what is pending, or lost and counted.
fn arrives(l: &mut Load, work: Served) -> Arrival
    requires { (l.old.pending.0 ≤ most_pending) × (work.0 ≤ most_work) }
    ensures { (l.new ≡ load_after work.0 l.old) × (result ≡ arrival_by (fitsb work.0 l.old)) }
{
    let sum = l.pending.0 + work.0;
    if sum <= State::MOST_PENDING {
        l.pending = Served(sum);
        return Arrival::Accepted;
    }
    if l.lost < State::MOST_LOST {
        l.lost += 1;
    }
    Arrival::Lost
}
