// The values at the present points of a block, gathered to the front of a lent list. Every value is stored at the place
// reached, and the place moves on where the point's mark is 1: no branch hangs on a mark, so a point takes as long
// present or absent. A block that is longer than the list or has no marks for all its points changes nothing, and the
// answer is 0.
#![tactic(auto)]

ghost use Rattle.std.specs.Prelude.{◌≡◌, cond, ◌+◌, ◌≤◌, eqb, length};
ghost use Rattle.bits.specs.Bits.{count};
ghost use Rattle.gathering.specs.Gather.{here_from, gather_list, gather_fits};

// 1 for a present point and 0 for an absent one: how far the place reached moves on.
fn one(mark: u8) -> usize
    ensures { (result ≡ cond (eqb mark 1) 1 0) × (result ≤ 1) }
{
    if mark == 1 {
        return 1;
    }
    0
}

// Whether c points have room in a list, and marks from point `at` on.
fn fits(c: usize, room: usize, at: usize, marked: usize) -> bool
    ensures { result ≡ gather_fits c room at marked }
{
    if at <= marked {
        return (c <= room) & (c <= marked - at);
    }
    false
}

// The values gathered, where they fit; the answer is how many.
fn gather_fitting<T: Copy>(values: &[T], marks: &[u8], at: usize, held: &mut [T]) -> usize
    requires { (length values.now ≤ length held.old) × (at + length values.now ≤ length marks.now) }
    ensures value { result ≡ count (here_from marks.now at) 0 (length values.now) }
    ensures held_after { held.new ≡
        gather_list (here_from marks.now at) values.now (length values.now) held.old }
{
    let mut d: usize = 0;
    for j in 0..values.len() {
        held[d] = values[j];
        d += one(marks[at + j]);
    }
    d
}

// Of the values of a block of points, whose marks start at point `at`, those at present points. Answers how many there
// are.
pub fn gather<T: Copy>(values: &[T], marks: &[u8], at: usize, held: &mut [T]) -> usize
    ensures value { result ≡
        cond (gather_fits (length values.now) (length held.old) at (length marks.now))
        (count (here_from marks.now at) 0 (length values.now)) 0 }
    ensures held_after { held.new ≡
        cond (gather_fits (length values.now) (length held.old) at (length marks.now))
        (gather_list (here_from marks.now at) values.now (length values.now) held.old)
        held.old }
{
    if fits(values.len(), held.len(), at, marks.len()) {
        return gather_fitting(values, marks, at, held);
    }
    0
}
