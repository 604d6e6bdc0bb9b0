// The check of a message against its source field. Refusals 1 to 12 are the message's own; then 18, 15, 16 and 17, of
// the message's points and the source. Total, and linear in the points.
#![tactic(auto)]

ghost use Rattle.std.specs.Prelude.{◌≡◌};
ghost use Rattle.rules.specs.Answers.{check_reply};
ghost use Rattle.rules.specs.Checking.{check_of, source_as};
ghost use Rattle.rules.specs.Bitmap.{lent_as};

mod judging; // judging.rt: refusals 18, 15, 16 and 17 of a message that is taken
mod points; // points.rt: the points, judged and compared
mod steps; // steps.rt: refusal 16, and 17's distance of a point

use judging::judge;
use message::header;
use rules::Refusal;

// The reply to a message (with the stored bitmap of a number lent) and a source field: Ok says yes.
#[tactic(auto, using(crate::proofs::Stages::own_refused))]
pub fn check(
    s: &[u8],
    number: u16,
    store: &[u8],
    numbers: &[i32],
    marks: &[u8],
    d: i32,
) -> Result<(), Refusal>
    ensures { result ≡
        check_reply
        (check_of s.now (lent_as number store.now)
        (source_as numbers.now marks.now d)) }
{
    let h = header(s, number, store)?;
    judge(s, number, store, h, numbers, marks, d)
}
