ghost use Rattle.std.specs.Prelude.{◌≡◌};
ghost use Rattle.checks.specs.Verdicts.{number_of, ask};

// A question about a recogniser's data that was answered no.
#[derive(Clone, Copy, PartialEq, Eq, Debug)]
pub enum Flaw {
    SizeOutOfLimits = 21,
    EntryTooLarge = 22,
    UnitNotNeutral = 23,
    NotAssociative = 24,
}

// The first question that was answered no, if any was.
pub type Verdict = Result<(), Flaw>;

// The number that stands for a verdict: 0 where the data are accepted.
pub fn number(verdict: Verdict) -> u8
    ensures value { result ≡ number_of verdict }
{
    match verdict {
        Ok(()) => 0,
        Err(flaw) => flaw as u8,
    }
}

// One question: nothing where the answer is yes, and otherwise what is wrong.
pub fn ask<E: Drop>(answer: bool, wrong: E) -> Result<(), E>
    ensures value { result ≡ ask answer wrong }
{
    if answer { Ok(()) } else { Err(wrong) }
}
