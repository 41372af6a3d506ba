// The two calls of crate queue on a queue that is lent, for a kernel in C that holds one queue as a struct at a fixed address.
#![tactic(auto)]

ghost use Rattle.std.specs.Prelude.{◌≡◌};
ghost use Rattle.queue.specs.Limits.{max_gap, longest};
ghost use Rattle.queue.specs.Calls.{clock_of, take_of};
ghost use Rattle.queue_c.specs.Lent.{took_of};

use queue::Queue;
use refusal::Refusal;

// What a take answers beside the queue. A number of a refusal and an id, and no Result: C has none (`take_in`, `struct took` of docs/PORTING.md).
#[repr(C)]
#[derive(Clone, Copy)]
pub struct Took {
    pub refusal: Refusal,
    pub id: u8,
}

// C is answered by the number of a refusal, or 0 where there is none: `clock_in`, and `take_in` below.
#[unsafe(no_mangle)]
pub extern "C" fn clock_in(q: &mut Queue) -> Refusal
    ensures { (result ≡ (clock_of max_gap longest q.old).refusal) × (q.new ≡ (clock_of max_gap longest q.old).queue) }
{
    match q.clock() {
        Ok(()) => Refusal::NONE,
        Err(reason) => Refusal::from(reason),
    }
}

#[unsafe(no_mangle)]
pub extern "C" fn take_in(q: &mut Queue) -> Took
    ensures { (result ≡ took_of (take_of max_gap longest q.old)) × (q.new ≡ (take_of max_gap longest q.old).queue) }
{
    match q.take() {
        Ok(id) => Took {
            refusal: Refusal::NONE,
            id,
        },
        Err(reason) => Took {
            refusal: Refusal::from(reason),
            id: 0,
        },
    }
}
