// The reader and the writer of messages: document 01, "Files and messages".
#![tactic(auto)]

ghost use Rattle.std.specs.Prelude.{◌≡◌, length};
ghost use Rattle.field.specs.Write.{written, buffer_after, written_by};
ghost use Rattle.message.specs.Message.{read_of, reading_by, kind_named, raw_bytes, write_refusal};

use refusal::Reason;

// Kind 1 runs a number of ticks; kind 2 is an arrival at a server's task.
#[derive(Clone, Copy, Debug, PartialEq, Eq)]
pub enum Message {
    Run(u16),
    Arrival(u8, u8),
}

// What the fourth byte of a message says.
#[derive(Clone, Copy, Debug, PartialEq, Eq)]
pub enum Kind {
    Run = 1,
    Arrival = 2,
}

impl TryFrom<u8> for Kind {
    type Error = Reason;

    ghost try_from_gives = { λ byte outcome. outcome ≡ kind_named byte };

    fn try_from(byte: u8) -> Result<Kind, Reason> {
        match byte {
            1 => Ok(Kind::Run),
            2 => Ok(Kind::Arrival),
            _ => Err(Reason::MessageKind),
        }
    }
}

impl Message {
    pub const LENGTH: usize = 6;

    pub const VERSION: u8 = 1;
}

// The message that the first six bytes are, or why they are none. No byte past the sixth is looked at.
#[tactic(auto, unfolding(crate::specs::Message::read_of))]
pub fn read(s: &[u8]) -> Result<Message, Reason>
    ensures { reading_by result ≡ read_of s.now }
{
    if s.len() < 2 {
        return Err(Reason::MessageCut);
    }
    if usize::from(field::read::<u16>(s, 0)) != Message::LENGTH {
        return Err(Reason::MessageLength);
    }
    if s.len() < Message::LENGTH {
        return Err(Reason::MessageCut);
    }
    if s[2] != Message::VERSION {
        return Err(Reason::MessageVersion);
    }
    Ok(match Kind::try_from(s[3])? {
        Kind::Run => Message::Run(field::read(s, 4)),
        Kind::Arrival => Message::Arrival(s[4], s[5]),
    })
}

// Writes a message of a kind with any two bytes. The kind is a byte and no `Kind`: C hands in any, and 17 refuses one that is none (`write_17`).
#[tactic(auto, using(field::proofs::Fields::over_start))]
pub fn write(kind: u8, a: u8, b: u8, out: &mut [u8]) -> Result<usize, Reason>
    ensures answer { written_by result ≡ written (write_refusal kind (length out.old)) (raw_bytes kind a b) }
    ensures buffer { out.new ≡ buffer_after (write_refusal kind (length out.old)) (raw_bytes kind a b) out.old }
{
    let kind = Kind::try_from(kind)?;
    if out.len() < Message::LENGTH {
        return field::refused(Reason::BufferShort);
    }
    let [high, low] = (Message::LENGTH as u16).to_be_bytes();
    // byte by byte: a copy of a row of bytes asks first whether it overlaps the buffer
    out[0] = high;
    out[1] = low;
    out[2] = Message::VERSION;
    out[3] = kind as u8;
    out[4] = a;
    out[5] = b;
    field::whole(Message::LENGTH)
}
