// What belongs to no subject.
#![tactic(auto)]

ghost use Rattle.ground.specs.Least.{IsLeast};

// The smaller of two lengths.
pub fn least(a: usize, b: usize) -> usize
    ensures { IsLeast a b result }
{
    a.min(b)
}
