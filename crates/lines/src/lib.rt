// What the trace program writes, line by line: document 01, "The trace program". Each public function puts one thing into a lent buffer from a place on and
// answers how many bytes it wrote. Where the thing does not fit it is refused with 32, and no byte is changed.
// The place stays beside the buffer: it may lie past the end, where `&mut out[at..]` is no slice, and a struct of both would have each clause say `over` of a
// field behind its `&mut`, which is no plainer.
#![tactic(auto)]

ghost use Rattle.std.specs.Prelude.{◌≡◌, ℕ, [], ◌∷◌, ◌++◌, ◌+◌, ◌≤◌, ◌<◌, List, leb, length, take};
ghost use Rattle.field.specs.Field.{over};
ghost use Rattle.field.specs.Write.{written_by};
ghost use Rattle.lines.specs.Decimal.{decimal};
ghost use Rattle.lines.specs.Lines.{room, header_text, mark_text, choice_text, tick_line, answer_lines, line_text, end_line, put_of};

use refusal::Reason;
use scheduler::Answer;
use state::{Choice, State};
use std::marker::Model;

// What a message makes the program write beside its ticks. The refusal stays a number: `message_line` writes every u8, and a `Reason` would be a narrower type.
#[derive(Clone, Copy)]
pub enum Line {
    Nothing,
    Refused(u8, u64),
    Lost(u8, u8),
}

// The most bytes that a line takes, and the lines of a batch.
pub const ROOM: usize = 64;

pub const BATCH_ROOM: usize = ROOM * State::BATCH;

// As many as a number of 64 bits has at most.
const MOST_DIGITS: usize = 20;

// `tick server task`
pub fn header(out: &mut [u8], at: usize) -> Result<usize, Reason>
    ensures answer { written_by result ≡ put_of at header_text out.old }
    ensures buffer { out.new ≡ over at header_text out.old }
{
    put(out, at, b"tick server task\n")
}

// The line of a message.
pub fn message_line(out: &mut [u8], at: usize, l: Line) -> Result<usize, Reason>
    ensures answer { written_by result ≡ put_of at (line_text l) out.old }
    ensures buffer { out.new ≡ over at (line_text l) out.old }
{
    let text = Text::from(l);
    put(out, at, text.as_slice())
}

// A line for each answer, whose ticks are numbered from `first` on.
pub fn ticks(out: &mut [u8], at: usize, first: u32, answers: &[Answer]) -> Result<usize, Reason>
    ensures answer { written_by result ≡ put_of at (answer_lines first (length answers.now) answers.now) out.old }
    ensures buffer { out.new ≡ over at (answer_lines first (length answers.now) answers.now) out.old }
{
    if !have_room(out, at, first, answers) {
        return field::refused(Reason::BufferShort);
    }
    let mut p = at;
    for (i, answer) in answers.iter().enumerate() {
        p = tick(out, p, first as u64 + i as u64, answer.choice);
    }
    field::whole(p - at)
}

// `end` and the number of ticks.
#[tactic(auto, using(crate::proofs::Lengths::lengths))]
pub fn end(out: &mut [u8], at: usize, n: u32) -> Result<usize, Reason>
    ensures answer { written_by result ≡ put_of at (end_line n) out.old }
    ensures buffer { out.new ≡ over at (end_line n) out.old }
{
    let mut text = Text::new();
    text.word(b"end ");
    text.number(n as u64);
    text.byte(b'\n');
    put(out, at, text.as_slice())
}

// INTO THE LENT BUFFER

// The text where it fits, else 32.
fn put(out: &mut [u8], at: usize, text: &[u8]) -> Result<usize, Reason>
    ensures answer { written_by result ≡ put_of at text.now out.old }
    ensures buffer { out.new ≡ over at text.now out.old }
{
    if fits(out, at, text.len()) {
        copy(out, at, text);
        field::whole(text.len())
    } else {
        field::refused(Reason::BufferShort)
    }
}

fn fits(out: &[u8], at: usize, n: usize) -> bool
    ensures { result ≡ leb (at + n) (length out.now) }
{
    at <= out.len() && n <= out.len() - at
}

// Whether the lines of the answers have room in the buffer from the place on: how long they are is looked at only where there might be none.
fn have_room(out: &[u8], at: usize, first: u32, answers: &[Answer]) -> bool
    ensures { result ≡ leb (at + length (answer_lines first (length answers.now) answers.now)) (length out.now) }
{
    let Some(left) = out.len().checked_sub(at) else {
        return false;
    };
    if answers.len() <= left / ROOM {
        return true;
    }
    let mut line = [0; ROOM];
    let mut rest = left;
    for (i, answer) in answers.iter().enumerate() {
        let n = tick(&mut line, 0, first as u64 + i as u64, answer.choice);
        if rest < n {
            return false;
        }
        rest -= n;
    }
    true
}

// PIECES, each put where there is room for it; the place behind it is answered. Straight into the lent buffer, with no row of their own between: the program
// writes a line for every tick.

// The text. `copy_from_slice` says it of a part of the buffer, and this of the whole one.
fn copy(out: &mut [u8], at: usize, text: &[u8]) -> usize
    requires { at + length text.now ≤ length out.old }
    ensures answer { result ≡ at + length text.now }
    ensures buffer { out.new ≡ over at text.now out.old }
{
    let end = at + text.len();
    out[at..end].copy_from_slice(text);
    end
}

#[tactic(auto, using(crate::proofs::Pieces::over_byte))]
fn byte(out: &mut [u8], at: usize, b: u8) -> usize
    requires { at < length out.old }
    ensures answer { result ≡ at + 1 }
    ensures buffer { out.new ≡ over at (b ∷ []) out.old }
{
    out[at] = b;
    at + 1
}

// A space and a number of a byte, which is mostly one digit.
fn mark(out: &mut [u8], at: usize, n: u8) -> usize
    requires { at + length (mark_text n) ≤ length out.old }
    ensures answer { result ≡ at + length (mark_text n) }
    ensures buffer { out.new ≡ over at (mark_text n) out.old }
{
    out[at] = b' ';
    if n <= 9 {
        out[at + 1] = b'0' + n;
        at + 2
    } else {
        number(out, at + 1, n as u64)
    }
}

// The decimal digits of n, with no leading zero. The last is found first, so they are counted before.
fn number(out: &mut [u8], at: usize, n: u64) -> usize
    requires { at + length (decimal n) ≤ length out.old }
    ensures answer { result ≡ at + length (decimal n) }
    ensures buffer { out.new ≡ over at (decimal n) out.old }
{
    let end = at + places(n);
    let mut rest = n;
    for i in (at..end).rev() {
        out[i] = b'0' + (rest % 10) as u8;
        rest /= 10;
    }
    end
}

// How many digits n has.
fn places(n: u64) -> usize
    ensures { result ≡ length (decimal n) }
{
    let mut least: u64 = 10;
    for k in 1..MOST_DIGITS - 1 {
        if n < least {
            return k;
        }
        least *= 10;
    }
    if n < least {
        MOST_DIGITS - 1
    } else {
        MOST_DIGITS
    }
}

// The line of one tick: its number, the server and the task. Inlined, with its parts, where the lines of a batch are written.
#[inline(always)]
fn tick(out: &mut [u8], at: usize, n: u64, c: Choice) -> usize
    requires { at + length (tick_line n c) ≤ length out.old }
    ensures answer { result ≡ at + length (tick_line n c) }
    ensures buffer { out.new ≡ over at (tick_line n c) out.old }
{
    let p = number(out, at, n);
    choice(out, p, c)
}

// Two dashes where the tick was idle; else the server, and the task or a dash.
#[inline(always)]
fn choice(out: &mut [u8], at: usize, c: Choice) -> usize
    requires { at + length (choice_text c) ≤ length out.old }
    ensures answer { result ≡ at + length (choice_text c) }
    ensures buffer { out.new ≡ over at (choice_text c) out.old }
{
    match c {
        Choice::Idle => copy(out, at, b" - -\n"),
        Choice::Burning(server) => {
            let p = mark(out, at, server);
            copy(out, p, b" -\n")
        }
        Choice::Running(server, task) => {
            let p = mark(out, at, server);
            let q = mark(out, p, task);
            byte(out, q, b'\n')
        }
    }
}

// THE TEXT OF A MESSAGE, before it is known whether its line fits: at most as many bytes as a line takes. No heap, so no String; and by hand, not by `write!`,
// which says what it wrote only where it succeeds, and does not say that it succeeds where there is room.

#[derive(Drop)]
struct Text {
    bytes: [u8; ROOM],
    len: usize,
}

impl Model for Text {
    ghost Value = { List ℕ };

    ghost view = { λ t. take t.len t.bytes };

    ghost invariant = { λ t. t.len ≤ room };
}

#[tactic(auto, using(crate::proofs::Lengths::lengths))]
impl From<Line> for Text {
    ghost from_gives = { λ l text. text ≡ line_text l };

    fn from(l: Line) -> Text {
        let mut text = Text::new();
        match l {
            Line::Nothing => {}
            Line::Refused(n, place) => {
                text.word(b"refused");
                text.mark(n);
                text.word(b" at ");
                text.number(place);
                text.byte(b'\n');
            }
            Line::Lost(server, task) => {
                text.word(b"lost");
                text.mark(server);
                text.mark(task);
                text.byte(b'\n');
            }
        }
        text
    }
}

#[tactic(auto, using(crate::proofs::Lengths::lengths, crate::proofs::Pieces::text_more))]
impl Text {
    fn new() -> Text
        ensures { result ≡ [] }
    {
        Text {
            bytes: [0; ROOM],
            len: 0,
        }
    }

    fn as_slice(&self) -> &[u8]
        ensures { result.now ≡ self.now }
    {
        &self.bytes[..self.len]
    }

    fn byte(&mut self, b: u8)
        requires { length self.old < room }
        ensures { self.new ≡ self.old ++ b ∷ [] }
    {
        self.len = byte(&mut self.bytes, self.len, b);
    }

    fn word(&mut self, s: &[u8])
        requires { length self.old + length s.now ≤ room }
        ensures { self.new ≡ self.old ++ s.now }
    {
        self.len = copy(&mut self.bytes, self.len, s);
    }

    fn mark(&mut self, n: u8)
        requires { length self.old + length (mark_text n) ≤ room }
        ensures { self.new ≡ self.old ++ mark_text n }
    {
        self.len = mark(&mut self.bytes, self.len, n);
    }

    fn number(&mut self, n: u64)
        requires { length self.old + length (decimal n) ≤ room }
        ensures { self.new ≡ self.old ++ decimal n }
    {
        self.len = number(&mut self.bytes, self.len, n);
    }
}
