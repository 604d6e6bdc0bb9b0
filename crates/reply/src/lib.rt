// A reply read off a table of refusals, row by row.
#![tactic(auto)]

ghost use Rattle.std.specs.Prelude.{◌≡◌, cond};
ghost use Rattle.rules.specs.Table.{the_refusal_at, refusal as the_refusal};

use rules::Refusal;

// The refusal of a number that tells a section and a place. Nothing else makes a refusal.
pub fn refusal_at(number: u32, section: u32, place: u32) -> Refusal
    ensures { result ≡ the_refusal_at number section place }
{
    Refusal {
        number,
        section,
        place,
    }
}

// The refusal of a number alone.
pub fn refusal(number: u32) -> Refusal
    ensures { result ≡ the_refusal number }
{
    refusal_at(number, 0, 0)
}

// A row that tells a section and a place: its refusal where its test applies.
pub fn refuse_at(number: u32, section: u32, place: u32, test: bool) -> Result<(), Refusal>
    ensures { result ≡ cond test (Err (the_refusal_at number section place)) (Ok tt) }
{
    if test {
        return Err(refusal_at(number, section, place));
    }
    Ok(())
}

// A row of a number alone.
pub fn refuse(number: u32, test: bool) -> Result<(), Refusal>
    ensures { result ≡ cond test (Err (the_refusal number)) (Ok tt) }
{
    refuse_at(number, 0, 0, test)
}
