// Worked examples of listings, clear boundaries and settings, proved of the definitions that the library promises.
#![tactic(auto)]

ghost use Rattle.std.specs.Prelude.{◌≡◌, length};
ghost use Rattle.std.specs.List.{AllByRecursion};
ghost use Rattle.examples.specs.Examples.{Holds, examples};

// The number of examples, each of which holds.
pub fn worked_examples() -> usize
    ensures count { result ≡ length examples }
    ensures hold { AllByRecursion Holds examples }
{
    14
}
