// Runs document 01's points on the edge and writes each with its outcome: the number of a refusal, or the cells as `id+gap`, a filler as `-+gap`.
#![tactic(auto)]

use queue::{Distance, Queue};
use refusal::Reason;
use std::{fmt, io};

// The cells in use, each behind a space.
#[derive(Clone, Copy)]
struct Row<'a>(&'a Queue);

impl fmt::Display for Row<'_> {
    fn fmt<W: fmt::Write>(&self, f: &mut fmt::Formatter<W>) -> fmt::Result {
        let Row(q) = *self;
        for c in q.cells.iter().take(q.len) {
            if c.id == Queue::FILLER {
                write!(f, " -+{}", c.gap)?;
            } else {
                write!(f, " {}+{}", c.id, c.gap)?;
            }
        }
        Ok(())
    }
}

// Writes the outcome of a call, and the queue that it left.
fn outcome(rt: &impl Print, text: &str, r: Result<(), Reason>, q: &Queue) -> io::Result<()> {
    match r {
        Ok(()) => println!(rt; "{text}:{}", Row(q)),
        Err(reason) => println!(rt; "{text}: {reason}"),
    }
}

// Puts an event in, and writes the outcome.
fn put(rt: &impl Print, text: &str, q: &mut Queue, id: u8, delay: u32) -> io::Result<()> {
    let r = q.insert(id, Distance(delay));
    outcome(rt, text, r, q)
}

// The queue with n events at distance 0, with ids 0 to n - 1.
fn now(n: u8) -> Queue {
    let mut q = Queue::empty();
    for id in 0..n {
        let _ = q.insert(id, Distance(0));
    }
    q
}

fn gaps(rt: &impl Print) -> io::Result<()> {
    put(
        rt,
        "65,535 into an empty queue",
        &mut Queue::empty(),
        1,
        65_535,
    )?;
    let mut q = Queue::empty();
    put(rt, "65,536 into an empty queue", &mut q, 1, 65_536)?;
    put(
        rt,
        "131,071 into an empty queue",
        &mut Queue::empty(),
        1,
        131_071,
    )?;
    put(
        rt,
        "1,000,000 into an empty queue",
        &mut Queue::empty(),
        1,
        1_000_000,
    )?;
    put(
        rt,
        "1,000,001 into an empty queue",
        &mut Queue::empty(),
        1,
        1_000_001,
    )?;
    let clocked = q.clock();
    outcome(rt, "clock on 65,536", clocked, &q)?;
    let pushed = q.push_back();
    outcome(rt, "push back of that", pushed, &q)
}

fn equals(rt: &impl Print) -> io::Result<()> {
    let mut q = Queue::empty();
    let _ = q.insert(1, Distance(65_536));
    let _ = q.insert(2, Distance(70_000));
    put(rt, "1 at 65,536, then 2 and 3 at 70,000", &mut q, 3, 70_000)?;
    let removed = q.remove(1);
    outcome(rt, "remove 1 of that", removed, &q)
}

fn main(rt: HostRuntime) -> io::Result<()> {
    gaps(&rt)?;
    equals(&rt)?;
    put(&rt, "1,000,000 behind 16 at 0", &mut now(16), 99, 1_000_000)?;
    put(&rt, "1,000,000 behind 17 at 0", &mut now(17), 99, 1_000_000)
}
