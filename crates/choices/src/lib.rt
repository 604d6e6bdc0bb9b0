// One of two values, and a difference cut at 0: said in one line where a branch would part a proof. All total.
#![tactic(auto)]

ghost use Rattle.std.specs.Prelude.{◌≡◌, cond, ◌-◌};

// One of two values.
pub fn pick<T: Copy>(test: bool, one: T, other: T) -> T
    ensures { result ≡ cond test one other }
{
    if test {
        return one;
    }
    other
}

// A difference cut at 0.
pub fn less(a: u32, b: u32) -> u32
    ensures { result ≡ a - b }
{
    if a < b { 0 } else { a - b }
}
