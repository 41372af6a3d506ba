// The library for a kernel in C: include/ribascenzo.h declares it, and so names, signatures and the arrays of words that answers are stored to are C's. A
// queue, a table or a state is held in words at fixed places (words.rt). A call reads them, does what the call on the value does, and stores what comes of it;
// a refused call stores nothing.
#![tactic(auto)]

mod words;

ghost use Rattle.std.specs.Prelude.{◌≡◌, [], ◌∷◌, ◌<◌, true, length, Result, IfOk, MatchResult};
ghost use Rattle.std.specs.Fn.{FnOnceReturnsAtMut};
ghost use Rattle.refusal.specs.Refusal.{none};
ghost use Rattle.refusal.specs.Reason.{refusal_in};
ghost use Rattle.refusal.specs.declared.Reason.{Reason};
ghost use Rattle.field.specs.Write.{buffer_after};
ghost use Rattle.queue.specs.Limits.{max_gap, longest};
ghost use Rattle.queue.specs.Row.{queue_of};
ghost use Rattle.queue.specs.Sound.{soundb};
ghost use Rattle.queue.specs.Calls.{insert_of, remove_of, time_left_of, clock_of, take_of, push_back_of};
ghost use Rattle.table.specs.Limits.{most_work};
ghost use Rattle.table.specs.Sound.{tableb};
ghost use Rattle.table.specs.Meaning.{Sized};
ghost use Rattle.setup.specs.Read.{read_of as setup_of};
ghost use Rattle.setup.specs.Write.{write_refusal, written_to};
ghost use Rattle.message.specs.Message.{read_of, raw_bytes};
ghost use Rattle.message.specs.Message.{write_refusal as message_refusal};
ghost use Rattle.state.specs.State.{entry_at, load_at};
ghost use Rattle.state.specs.Fresh.{fresh_of};
ghost use Rattle.state.specs.Sound.{stateb};
ghost use Rattle.scheduler.specs.Arrive.{arrival_number, arrive_of};
ghost use Rattle.scheduler.specs.Tick.{tick_of};
ghost use Rattle.port.specs.Layout.{word_limit};
ghost use Rattle.port.specs.Words.{queue_in, queue_words, table_in, state_in, state_words};
ghost use Rattle.port.specs.Exports.{answer_words, budget_refusal, load_refusal, message_words};
ghost use Rattle.port.specs.Exports.{held_queue, held_distance, held_rest, held_id, held_state, held_answer, held_arrived, held_lost};
ghost use Rattle.port.specs.Exports.{held_budget, held_load, held_table, held_fresh, held_length, held_message};

use message::Message;
use queue::{Distance, Queue};
use refusal::{Reason, Refusal};
use scheduler::{Answer, Arrival};
use state::{Choice, Load, State};
use table::{Served, Table};
use words::{QUEUE, STATE, TABLE, Words};

// THE QUEUE

#[tactic(auto, unfolding(queue::specs::Row::queue_of))]
#[unsafe(no_mangle)]
pub extern "C" fn ribascenzo_queue_empty(q: &mut [u32; QUEUE])
    ensures { q.new ≡ queue_words (queue_of []) }
{
    *q = [0; QUEUE];
}

#[unsafe(no_mangle)]
pub extern "C" fn ribascenzo_queue_sound(q: &[u32; QUEUE]) -> bool
    ensures { result ≡ soundb max_gap longest (queue_in q.now) }
{
    words::held::<Queue>(q).is_sound()
}

#[unsafe(no_mangle)]
pub extern "C" fn ribascenzo_queue_insert(q: &mut [u32; QUEUE], id: u8, delay: u32) -> Refusal
    ensures refusal { result ≡ (insert_of max_gap longest (queue_in q.old) id delay).refusal }
    ensures queue { q.new ≡ held_queue (insert_of max_gap longest (queue_in q.old) id delay) q.old }
{
    told(change(q, |queue: &mut Queue| queue.insert(id, Distance(delay))))
}

#[unsafe(no_mangle)]
pub extern "C" fn ribascenzo_queue_remove(q: &mut [u32; QUEUE], id: u8) -> Refusal
    ensures refusal { result ≡ (remove_of max_gap longest (queue_in q.old) id).refusal }
    ensures queue { q.new ≡ held_queue (remove_of max_gap longest (queue_in q.old) id) q.old }
{
    told(change(q, |queue: &mut Queue| queue.remove(id)))
}

#[unsafe(no_mangle)]
pub extern "C" fn ribascenzo_queue_time_left(
    q: &[u32; QUEUE],
    id: u8,
    distance: &mut [u32; 1],
) -> Refusal
    ensures refusal { result ≡ (time_left_of max_gap longest (queue_in q.now) id).refusal }
    ensures distance { distance.new ≡ held_distance (time_left_of max_gap longest (queue_in q.now) id) distance.old }
{
    store(
        words::held::<Queue>(q).time_left(id).map(distance_words),
        distance,
    )
}

#[unsafe(no_mangle)]
pub extern "C" fn ribascenzo_queue_clock(q: &mut [u32; QUEUE]) -> Refusal
    ensures refusal { result ≡ (clock_of max_gap longest (queue_in q.old)).refusal }
    ensures queue { q.new ≡ held_queue (clock_of max_gap longest (queue_in q.old)) q.old }
{
    told(change(q, |queue: &mut Queue| queue.clock()))
}

#[unsafe(no_mangle)]
pub extern "C" fn ribascenzo_queue_take(q: &mut [u32; QUEUE], id: &mut [u8; 1]) -> Refusal
    ensures refusal { result ≡ (take_of max_gap longest (queue_in q.old)).refusal }
    ensures queue { q.new ≡ held_rest (take_of max_gap longest (queue_in q.old)) q.old }
    ensures id { id.new ≡ held_id (take_of max_gap longest (queue_in q.old)) id.old }
{
    match change(q, |queue: &mut Queue| queue.take()) {
        Ok(event) => {
            *id = [event];
            Refusal::NONE
        }
        Err(reason) => reason.into(),
    }
}

// C has a name for each call, so it stands beside clock's.
#[unsafe(no_mangle)]
pub extern "C" fn ribascenzo_queue_push_back(q: &mut [u32; QUEUE]) -> Refusal
    ensures refusal { result ≡ (push_back_of max_gap longest (queue_in q.old)).refusal }
    ensures queue { q.new ≡ held_queue (push_back_of max_gap longest (queue_in q.old)) q.old }
{
    told(change(q, |queue: &mut Queue| queue.push_back()))
}

// THE SCHEDULER

// The state in which a setup begins.
#[unsafe(no_mangle)]
pub extern "C" fn ribascenzo_fresh(s: &mut [u32; STATE], setup: &[u8]) -> Refusal
    ensures refusal { result ≡ (setup_of longest most_work setup.now).refusal }
    ensures state { s.new ≡ held_fresh (setup_of longest most_work setup.now) s.old }
{
    match setup::read(setup) {
        Ok(table) => begin(&table, s),
        Err(fault) => fault.into(),
    }
}

// C has a name for each test, so it stands beside the queue's.
#[unsafe(no_mangle)]
pub extern "C" fn ribascenzo_sound(s: &[u32; STATE]) -> bool
    ensures { result ≡ stateb (state_in s.now) }
{
    words::held::<State>(s).is_sound()
}

#[unsafe(no_mangle)]
pub extern "C" fn ribascenzo_tick(s: &mut [u32; STATE], answer: &mut [u32; 4]) -> Refusal
    ensures refusal { result ≡ (tick_of (state_in s.old)).refusal }
    ensures state { s.new ≡ held_state (tick_of (state_in s.old)) s.old }
    ensures answer { answer.new ≡ held_answer (tick_of (state_in s.old)) answer.old }
{
    store(
        change(s, |state: &mut State| scheduler::tick(state)).map(answer_words),
        answer,
    )
}

// `lost` is 0 where the work is accepted and 1 where it is lost.
#[unsafe(no_mangle)]
pub extern "C" fn ribascenzo_arrive(
    s: &mut [u32; STATE],
    server: u8,
    task: u8,
    lost: &mut [u32; 1],
) -> Refusal
    ensures refusal { result ≡ (arrive_of (state_in s.old) server task).refusal }
    ensures state { s.new ≡ held_arrived (arrive_of (state_in s.old) server task) s.old }
    ensures lost { lost.new ≡ held_lost (arrive_of (state_in s.old) server task) lost.old }
{
    let said = change(
        s,
        |state: &mut State| scheduler::arrive(state, server, task),
    );
    store(said.map(arrival_words), lost)
}

// State and server, and the task below, as C hands them in.
#[unsafe(no_mangle)]
pub extern "C" fn ribascenzo_budget(s: &[u32; STATE], server: u8, budget: &mut [u32; 1]) -> Refusal
    ensures refusal { result ≡ budget_refusal (state_in s.now) server }
    ensures budget { budget.new ≡ held_budget (state_in s.now) server budget.old }
{
    store(budget_of(s, server).map(budget_words), budget)
}

// A task's pending work and its lost count.
#[unsafe(no_mangle)]
pub extern "C" fn ribascenzo_load(
    s: &[u32; STATE],
    server: u8,
    task: u8,
    load: &mut [u32; 2],
) -> Refusal
    ensures refusal { result ≡ load_refusal (state_in s.now) server task }
    ensures load { load.new ≡ held_load (state_in s.now) server task load.old }
{
    store(load_of(s, server, task), load)
}

// FILES AND MESSAGES

#[unsafe(no_mangle)]
pub extern "C" fn ribascenzo_setup_read(setup: &[u8], table: &mut [u32; TABLE]) -> Refusal
    ensures refusal { result ≡ (setup_of longest most_work setup.now).refusal }
    ensures table { table.new ≡ held_table (setup_of longest most_work setup.now) table.old }
{
    store(setup::read(setup), table)
}

#[unsafe(no_mangle)]
pub extern "C" fn ribascenzo_setup_write(
    table: &[u32; TABLE],
    out: &mut [u8],
    written: &mut [u32; 1],
) -> Refusal
    ensures refusal { result ≡ write_refusal longest most_work (table_in table.now) (length out.old) }
    ensures buffer { out.new ≡ written_to longest most_work (table_in table.now) out.old }
    ensures length { written.new ≡ held_length (table_in table.now) (length out.old) written.old }
{
    store(
        setup::write(&words::held(table), out).map(length_words),
        written,
    )
}

#[unsafe(no_mangle)]
pub extern "C" fn ribascenzo_message_read(bytes: &[u8], message: &mut [u32; 3]) -> Refusal
    ensures refusal { result ≡ (read_of bytes.now).refusal }
    ensures message { message.new ≡ held_message (read_of bytes.now) message.old }
{
    store(message::read(bytes).map(message_words), message)
}

// The kind is a byte, as C hands it in: 17 refuses one that is none.
#[unsafe(no_mangle)]
pub extern "C" fn ribascenzo_message_write(kind: u8, a: u8, b: u8, out: &mut [u8]) -> Refusal
    ensures refusal { result ≡ message_refusal kind (length out.old) }
    ensures buffer { out.new ≡ buffer_after (message_refusal kind (length out.old)) (raw_bytes kind a b) out.old }
{
    told(message::write(kind, a, b, out))
}

// HOW A CALL ANSWERS

// The words of the state in which a sound table begins. A function of its own, not inlined: a setup that is refused makes no room for a state.
#[inline(never)]
fn begin(table: &Table, s: &mut [u32; STATE]) -> Refusal
    requires sound { tableb longest most_work table.now ≡ true }
    requires sized { Sized table.now }
    ensures refusal { result ≡ none }
    ensures state { s.new ≡ state_words (fresh_of table.now).state }
{
    store(State::fresh(table), s)
}

// A call on the thing that words hold. Where it is accepted they hold what it leaves; a refused call stores nothing.
fn change<T: Words, A, F: FnOnce(&mut T) -> Result<A, Reason>>(
    w: &mut [u32],
    call: F,
) -> Result<A, Reason>
    requires room { length w.old ≡ T.SIZE }
    requires callable { F.IsAlwaysCallable call }
    requires fits { (r : Result A Reason) (x : T) → FnOnceReturnsAtMut F.FnOnce call (T.held w.old) r x → IfOk r (λ _. T.fits x) }
    ensures { (x : T) × FnOnceReturnsAtMut F.FnOnce call (T.held w.old) result x × MatchResult result (λ _. w.new ≡ T.words x) (λ _. w.new ≡ w.old) }
{
    let mut x = T::blank();
    x.read(w);
    let answer = call(&mut x)?;
    x.put(w);
    Ok(answer)
}

// What a call gives goes to lent memory, and why it is refused to the caller; a refused call stores nothing.
fn store<T: Words, E>(r: Result<T, E>, w: &mut [u32]) -> Refusal
where
    Refusal: From<E>,
    requires room { length w.old ≡ T.SIZE }
    requires fits { IfOk r T.fits }
    ensures { MatchResult r (λ x. (result ≡ none) × (w.new ≡ T.words x)) (λ e. ⟦<Refusal as From<E>>⟧.from_gives e result × (w.new ≡ w.old)) }
{
    match r {
        Ok(x) => {
            x.put(w);
            Refusal::NONE
        }
        Err(e) => e.into(),
    }
}

// Why a call is refused, or that it is not.
fn told<A: Drop>(r: Result<A, Reason>) -> Refusal
    ensures { result ≡ refusal_in r }
{
    match r {
        Ok(_) => Refusal::NONE,
        Err(reason) => reason.into(),
    }
}

// WHAT IS READ OF A STATE

// The place of a server, in a sound state.
fn place_of(state: &State, server: u8) -> Result<usize, Reason>
    ensures refusal { refusal_in result ≡ budget_refusal state.now server }
    ensures place { IfOk result (λ i. i ≡ server) }
{
    if !state.is_sound() {
        return Err(Reason::Unsound);
    }
    let i = server as usize;
    if state.table.count <= i {
        return Err(Reason::NoServer);
    }
    Ok(i)
}

fn budget_of(s: &[u32; STATE], server: u8) -> Result<Served, Reason>
    ensures refusal { refusal_in result ≡ budget_refusal (state_in s.now) server }
    ensures budget { IfOk result (λ b. b ≡ (entry_at (state_in s.now) server).budget) }
{
    let state: State = words::held(s);
    let i = place_of(&state, server)?;
    Ok(state.entries[i].budget)
}

fn load_of(s: &[u32; STATE], server: u8, task: u8) -> Result<Load, Reason>
    ensures refusal { refusal_in result ≡ load_refusal (state_in s.now) server task }
    ensures load { IfOk result (λ l. l ≡ load_at (state_in s.now) server task) }
{
    let state: State = words::held(s);
    let i = place_of(&state, server)?;
    let j = task as usize;
    if state.table.servers[i].count <= j {
        return Err(Reason::NoTask);
    }
    Ok(state.entries[i].loads[j])
}

// THE WORDS OF AN ANSWER, one function for each type: neither the type nor an array is this crate's, so an impl of From is not this crate's to write.

fn answer_words(a: Answer) -> [u32; 4]
    ensures { result ≡ answer_words a.choice a.handled }
{
    match a.choice {
        Choice::Idle => [0, 0, 0, a.handled],
        Choice::Burning(i) => [1, i as u32, 0, a.handled],
        Choice::Running(i, j) => [2, i as u32, j as u32, a.handled],
    }
}

fn arrival_words(a: Arrival) -> [u32; 1]
    ensures { result ≡ arrival_number a ∷ [] }
{
    match a {
        Arrival::Accepted => [0],
        Arrival::Lost => [1],
    }
}

fn distance_words(d: Distance) -> [u32; 1]
    ensures { result ≡ d.0 ∷ [] }
{
    [d.0]
}

fn budget_words(b: Served) -> [u32; 1]
    ensures { result ≡ b.0 ∷ [] }
{
    [b.0]
}

fn length_words(n: usize) -> [u32; 1]
    requires { n < word_limit }
    ensures { result ≡ n ∷ [] }
{
    [n as u32]
}

fn message_words(m: Message) -> [u32; 3]
    ensures { result ≡ message_words m }
{
    match m {
        Message::Run(n) => [1, n as u32, 0],
        Message::Arrival(i, j) => [2, i as u32, j as u32],
    }
}
