// The worked examples of docs/VERDICT.md, as one proved list about the definitions.
#![tactic(auto)]

ghost use Rattle.std.specs.Prelude.{◌≡◌, length};
ghost use Rattle.worked.specs.Examples.{examples, ExamplesHold};

// How many there are; each has the verdict that stands beside it.
pub fn count_examples() -> usize
    ensures count { result ≡ length examples }
    ensures hold { ExamplesHold }
{
    12
}
