//! The small words that all crates are written with: specs/Small.antt has the definitions, proofs/ the laws of tests and lists that every proof may cite.
#![tactic(auto)]

ghost use Rattle.std.specs.Prelude.{◌≡◌, min};

// The smaller of two, for callers that cut a count to what there is.
pub fn least(a: usize, b: usize) -> usize
    ensures { result ≡ min a b }
{
    a.min(b)
}
