// Big-endian fields of a file or a message, read from a slice and written into one. Every function is total: what stands past the end reads as 0, and a
// write that does not fit changes nothing.
#![tactic(auto)]

ghost use Rattle.std.specs.Prelude.{◌≡◌, ℕ, ◌+◌, ◌^◌, ◌%◌, ◌≤◌, ◌<◌, drop};
ghost use Rattle.field.specs.Field.{field_of, big, over};
ghost use Rattle.field.specs.Write.{written_with, written_by};
ghost use Rattle.refusal.specs.Refusal.{none};
ghost use Rattle.refusal.specs.Reason.{refusal_by};
ghost use Rattle.std.proofs.Common.{arith};

use refusal::Reason;

/// A number that stands in a field of its own width.
pub trait Field: Copy {
    ghost WIDTH: { ℕ };

    /// The number that a value is.
    ghost value: { Self → ℕ };

    /// Its bytes, at most four.
    const WIDTH: usize;

    fn wide(self) -> u32
        ensures { result ≡ value self };

    /// The lowest bytes of a number, as many as it has.
    fn narrow(n: u32) -> Self
        ensures { value result ≡ n % 256 ^ WIDTH };

    ghost few: { WIDTH ≤ 4 };

    ghost one: { (x y : Self) → value x ≡ value y → x ≡ y };
}

// An impl for each width, which a macro cannot write: in a macro there is no ghost member.
impl Field for u8 {
    ghost WIDTH = { 1 };

    ghost value = { λ n. n };

    ghost few = { omega arith };

    ghost one = { λ x y e. e };

    const WIDTH: usize = 1;

    fn wide(self) -> u32 {
        u32::from(self)
    }

    fn narrow(n: u32) -> u8 {
        (n % 256) as u8
    }
}

impl Field for u16 {
    ghost WIDTH = { 2 };

    ghost value = { λ n. n };

    ghost few = { omega arith };

    ghost one = { λ x y e. e };

    const WIDTH: usize = 2;

    fn wide(self) -> u32 {
        u32::from(self)
    }

    fn narrow(n: u32) -> u16 {
        (n % 65_536) as u16
    }
}

impl Field for u32 {
    ghost WIDTH = { 4 };

    ghost value = { λ n. n };

    ghost few = { omega arith };

    ghost one = { λ x y e. e };

    const WIDTH: usize = 4;

    fn wide(self) -> u32 {
        self
    }

    fn narrow(n: u32) -> u32 {
        n
    }
}

/// The field at a place.
pub fn read<T: Field>(s: &[u8], at: usize) -> T
    ensures { T.value result ≡ field_of T.WIDTH (drop at s.now) }
{
    let rest = &s[at.min(s.len())..];
    let mut n = 0;
    for k in 0..T::WIDTH {
        n = n * 256 + u32::from(rest.get(k).copied().unwrap_or(0));
    }
    T::narrow(n)
}

/// Writes a field at a place.
pub fn put<T: Field>(out: &mut [u8], at: usize, n: T)
    ensures { out.new ≡ over at (big T.WIDTH (T.value n)) out.old }
{
    if at <= out.len() && T::WIDTH <= out.len() - at {
        let mut left = n.wide();
        for k in 0..T::WIDTH {
            out[at + T::WIDTH - 1 - k] = (left % 256) as u8;
            left /= 256;
        }
    }
}

// WHAT A WRITER ANSWERS

/// So many bytes are written.
pub fn whole(length: usize) -> Result<usize, Reason>
    ensures { written_by result ≡ written_with none length }
{
    Ok(length)
}

/// No byte is written, for this reason.
pub fn refused(reason: Reason) -> Result<usize, Reason>
    ensures { written_by result ≡ written_with (refusal_by reason) 0 }
{
    Err(reason)
}
