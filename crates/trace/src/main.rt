// The trace program of document 01. It reads standard input to its end and writes the trace. Crate `desk` decides what a message does, crate `lines` has what a
// line says; here bytes are read, handed over and written, in large pieces.
#![tactic(auto)]

use desk::Desk;
use lines::Line;
use message::Message;
use refusal::Reason;
use state::State;
use std::io;
use std::io::Read;

// What is read at a time: whole messages.
const CHUNK: usize = Message::LENGTH * 10_000;

// A setup's length is stated in two bytes.
const INPUT: usize = 65_536;

// What is written at a time, at most.
const OUTPUT: usize = 65_536;

// Why the program ends before its input does.
#[derive(Drop)]
enum Stop {
    // Its last line is written: a refusal's.
    Refused,
    // A line found no room; `spare` keeps that from happening.
    NoRoom,
    // A write failed.
    Failed(io::Error),
}

impl From<io::Error> for Stop {
    fn from(e: io::Error) -> Stop {
        Stop::Failed(e)
    }
}

// Lines that wait for being written out: the first `at` bytes of the buffer. No heap is a rule of the project: the buffer is an array, and how far it is filled
// stands beside it.
#[derive(Drop)]
struct Output<'a, P: Print> {
    rt: &'a P,
    buffer: [u8; OUTPUT],
    at: usize,
}

impl<P: Print> Output<'_, P> {
    // Writes out what the buffer holds.
    fn flush(&mut self) -> io::Result<()> {
        let end = small::least(self.at, OUTPUT);
        self.rt.write_all(&self.buffer[..end])?;
        self.at = 0;
        Ok(())
    }

    // Writes out what the buffer holds, where it may not have room for a batch of lines.
    fn spare(&mut self) -> io::Result<()> {
        if OUTPUT - lines::BATCH_ROOM < self.at {
            self.flush()?;
        }
        Ok(())
    }

    // Puts lines behind what the buffer holds: the sum is a place in the buffer, so it does not wrap.
    fn put<F: FnOnce(&mut [u8], usize) -> Result<usize, Reason>>(
        &mut self,
        writer: F,
    ) -> Result<(), Stop>
        requires { F.IsAlwaysCallable writer }
    {
        let n = writer(&mut self.buffer, self.at).map_err(|_| Stop::NoRoom)?;
        self.at = self.at.wrapping_add(n);
        Ok(())
    }

    // Writes out what the buffer holds and a line behind it: the program's last.
    fn last(&mut self, line: Line) -> Result<(), Stop> {
        self.put(|out, at| lines::message_line(out, at, line))?;
        self.flush()?;
        Err(Stop::Refused)
    }

    // The line of a setup or of a batch that is refused. A message's is the desk's own.
    fn refuse(&mut self, reason: Reason, place: u64) -> Result<(), Stop> {
        self.last(Line::Refused(reason.number(), place))
    }

    // The message at a place, and then its ticks, batch after batch.
    fn message(&mut self, desk: &mut Desk, place: u64, bytes: &[u8]) -> Result<(), Stop> {
        self.spare()?;
        match desk.message(place, bytes) {
            Ok(line) => self.put(|out, at| lines::message_line(out, at, line))?,
            Err(line) => return self.last(line),
        }
        // how many ticks a batch has is the desk's to say: no range is walked
        while 0 < desk.left {
            self.spare()?;
            match desk.run_on() {
                Ok(ran) => self.put(|out, at| lines::ticks(
                    out,
                    at,
                    ran.first,
                    &ran.answers[..small::least(ran.count, State::BATCH)],
                ))?,
                Err(reason) => return self.refuse(reason, place),
            }
        }
        Ok(())
    }

    // At the end of the input the last line is written.
    fn end(&mut self, desk: &Desk) -> Result<(), Stop> {
        self.spare()?;
        self.put(|out, at| lines::end(out, at, desk.ran))?;
        self.flush()?;
        Ok(())
    }
}

// As many bytes as the first two say, or all there are.
fn read_setup<'a>(reader: &mut impl Read, input: &'a mut [u8; INPUT]) -> &'a [u8] {
    let head = console::read_full(reader, &mut input[..2]);
    let stated = usize::from(field::read::<u16>(input, 0));
    if head < 2 || stated < 2 {
        return &input[..small::least(head, stated)];
    }
    let rest = console::read_full(reader, &mut input[2..stated]);
    &input[..2 + rest]
}

// The messages from a place of the input on; the last may be cut. A proved loop has to end, and nothing says that the input does: no run uses up so many turns.
fn messages<P: Print>(
    reader: &mut impl Read,
    input: &mut [u8; INPUT],
    out: &mut Output<P>,
    desk: &mut Desk,
    from: u64,
) -> Result<(), Stop> {
    let mut place = from;
    for _ in 0..u64::MAX {
        let n = console::read_full(reader, &mut input[..CHUNK]);
        for bytes in input[..n].chunks(Message::LENGTH) {
            out.message(desk, place, bytes)?;
            place = place.wrapping_add(Message::LENGTH as u64);
        }
        if n < CHUNK {
            return out.end(desk);
        }
    }
    Ok(())
}

fn program(rt: &(impl Input + Print)) -> Result<(), Stop> {
    let mut reader = rt.reader();
    let mut input = [0; INPUT];
    let setup = read_setup(&mut reader, &mut input);
    let place = setup.len() as u64;
    let mut out = Output {
        rt,
        buffer: [0; OUTPUT],
        at: 0,
    };
    out.put(lines::header)?;
    match Desk::open(setup) {
        Ok(mut desk) => messages(&mut reader, &mut input, &mut out, &mut desk, place),
        Err(fault) => out.refuse(fault.reason, fault.place as u64),
    }
}

fn main(rt: HostRuntime) -> io::Result<()> {
    match program(&rt) {
        Ok(()) | Err(Stop::Refused | Stop::NoRoom) => Ok(()),
        Err(Stop::Failed(e)) => Err(e),
    }
}
