// The worked examples, all together.
#![tactic(auto)]

ghost use Rattle.worked.specs.Examples.{Examples};

// Carries the worked examples: the lamps of some words under each panel, and how high a tree of some rows can be.
pub fn worked_examples() -> u8
    ensures worked { Examples }
{
    0
}
