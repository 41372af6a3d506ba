// What the trace program does with what it reads: document 01, "The trace program". It decides on values and slices; crate `lines` has the text.
#![tactic(auto)]

ghost use Rattle.std.specs.Prelude.{◌≡◌};
ghost use Rattle.desk.specs.Desk.{open_of, opened_by, arrived_of, sound_first, message_of, met_by, decided_by, ran_of, ran_by, sound_of};

use lines::Line;
use message::Message;
use refusal::{Fault, Reason};
use scheduler::{Answer, Arrival, Batch};
use state::State;

// A run of the program: the state, how many ticks have been run, and how many that messages asked for are left.
#[derive(Clone, Copy)]
pub struct Desk {
    pub state: State,
    pub ran: u32,
    pub left: u32,
}

// The answers of a batch of ticks, the first one's number, and how many there are: flat, as the definition's `RanOn` is. No heap: the answers stand in an array,
// and their count beside it.
#[derive(Clone, Copy)]
pub struct Ran {
    pub answers: [Answer; State::BATCH],
    pub first: u32,
    pub count: usize,
}

impl Desk {
    // The most ticks of a run.
    pub const LIMIT: u64 = 1_000_000;

    // The run that a setup begins, or why it begins none. The table of an accepted setup is sound, so its state is made.
    pub fn open(setup: &[u8]) -> Result<Desk, Fault>
        ensures { opened_by result ≡ open_of setup.now }
    {
        let table = setup::read(setup)?;
        let state = State::fresh(&table).unwrap();
        Ok(Desk {
            state,
            ran: 0,
            left: 0,
        })
    }

    // A message whose first byte stands at a place of the input; fewer than six bytes where the input ends in it. The line that it writes; as an error, the line
    // that it is refused there, behind which the program stops.
    pub fn message(&mut self, place: u64, bytes: &[u8]) -> Result<Line, Line>
        ensures { met_by result self.new ≡ message_of self.old place bytes.now }
    {
        match self.decide(place, bytes) {
            Ok(line) => Ok(line),
            Err(reason) => Err(Line::Refused(reason.number(), place)),
        }
    }

    // The next ticks that are left, at most a batch. Where they would pass the limit none is run.
    pub fn run_on(&mut self) -> Result<Ran, Reason>
        ensures { ran_by result self.new ≡ ran_of self.old }
    {
        if Desk::LIMIT < self.ran as u64 + self.left as u64 {
            self.sound()?;
            return Err(Reason::TicksPassed);
        }
        let Batch { answers, count } = scheduler::run(&mut self.state, self.left as usize)?;
        let first = self.ran;
        let ticks = count as u32;
        self.ran += ticks;
        self.left -= ticks;
        Ok(Ran {
            answers,
            first,
            count,
        })
    }

    // What a message comes to: its line, or why the program stops there. Whether the state is sound is looked at once: by the scheduler for an arrival, and here
    // for any other message.
    fn decide(&mut self, place: u64, bytes: &[u8]) -> Result<Line, Reason>
        ensures { decided_by place result self.new ≡ message_of self.old place bytes.now }
    {
        match message::read(bytes) {
            Ok(Message::Run(n)) => {
                self.sound()?;
                if Desk::LIMIT < self.ran as u64 + self.left as u64 + n as u64 {
                    return Err(Reason::TicksPassed);
                }
                self.left += n as u32;
                Ok(Line::Nothing)
            }
            Ok(Message::Arrival(server, task)) => self.arrive(server, task, place),
            Err(reason) => {
                self.sound()?;
                Err(reason)
            }
        }
    }

    // A task's work arrives. What the scheduler refuses is a line and no stop, but for a state that is not sound.
    fn arrive(&mut self, server: u8, task: u8, place: u64) -> Result<Line, Reason>
        ensures { decided_by place result self.new ≡ sound_first self.old place (arrived_of self.old server task place) }
    {
        match scheduler::arrive(&mut self.state, server, task) {
            Ok(Arrival::Accepted) => Ok(Line::Nothing),
            Ok(Arrival::Lost) => Ok(Line::Lost(server, task)),
            Err(reason) if reason == Reason::Unsound => Err(reason),
            Err(reason) => Ok(Line::Refused(reason.number(), place)),
        }
    }

    fn sound(&self) -> Result<(), Reason>
        ensures { result ≡ sound_of self.now }
    {
        if self.state.is_sound() {
            Ok(())
        } else {
            Err(Reason::Unsound)
        }
    }
}
