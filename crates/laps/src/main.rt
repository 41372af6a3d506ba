// Runs batches of ticks of a setup and writes one line: how many ticks, how many events were handled, and how many ticks were idle, burned and running.
// Standard input is a setup, then the number of batches in two bytes. `bench/run` counts its instructions, and those of the same work in C.
#![tactic(auto)]

use refusal::{Fault, Reason};
use scheduler::Answer;
use state::{Choice, State};
use std::fmt::Display;
use std::{fmt, io};

// Of the ticks run so far.
#[derive(Clone, Copy, Default)]
struct Sums {
    ticks: u64,
    handled: u64,
    idle: u64,
    burned: u64,
    running: u64,
}

impl Sums {
    fn add(&mut self, a: &Answer) {
        self.ticks = self.ticks.wrapping_add(1);
        self.handled = self.handled.wrapping_add(u64::from(a.handled));
        let alike = match a.choice {
            Choice::Idle => &mut self.idle,
            Choice::Burning(_) => &mut self.burned,
            Choice::Running(_, _) => &mut self.running,
        };
        *alike = alike.wrapping_add(1);
    }
}

impl Display for Sums {
    fn fmt<W: fmt::Write>(&self, f: &mut fmt::Formatter<W>) -> fmt::Result {
        let Sums {
            ticks,
            handled,
            idle,
            burned,
            running,
        } = *self;
        write!(
            f,
            "ticks {ticks} handled {handled} idle {idle} burned {burned} running {running}"
        )
    }
}

fn laps(s: &mut State, n: u16) -> Result<Sums, Reason> {
    let mut sums = Sums::default();
    for _ in 0..n {
        let batch = scheduler::run(s, State::BATCH)?;
        for a in &batch.answers {
            sums.add(a);
        }
    }
    Ok(sums)
}

fn run(input: &[u8]) -> Result<Sums, Fault> {
    let stated = usize::from(field::read::<u16>(input, 0));
    let table = setup::read(input.get(..stated).unwrap_or(input))?;
    let n = field::read(input, stated);
    State::fresh(&table)
        .and_then(|mut s| laps(&mut s, n))
        .map_err(|reason| reason.at(0))
}

fn main(rt: HostRuntime) -> io::Result<()> {
    let mut input = [0; 918];
    let n = console::read_full(&mut rt.reader(), &mut input);
    match run(&input[..n]) {
        Ok(sums) => rt.println(sums),
        Err(fault) => rt.println(fault),
    }
}
