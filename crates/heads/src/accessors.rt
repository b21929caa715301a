// What a head says.
ghost use Rattle.std.specs.Prelude.{◌≡◌, ◌^◌};
ghost use Rattle.heads.specs.Heads.{test_of, tests_of, point_of};
ghost use Rattle.rules.specs.Meanings.{Same, named_rule};
ghost use Rattle.rules.specs.Seen.{named_sees};

use crate::Head;
use rules::{BaseRule, Delay, named_rule};

impl Head {
    pub fn points(&self) -> u8
        ensures { result ≡ self.now.points }
    {
        self.points
    }

    pub fn letters(&self) -> u8
        ensures { result ≡ self.now.letters }
    {
        self.letters
    }

    // How many rows a table of the plan has.
    pub fn rows(&self) -> u8
        ensures { result ≡ 2 ^ self.now.letters }
    {
        1 << self.letters
    }

    // The points of the tests, in the order of their letters.
    pub fn tests(&self) -> &[u8]
        ensures { result.now ≡ tests_of self.now }
    {
        &self.tests[..usize::from(self.letters)]
    }

    // The point of a test, by its letter.
    pub fn test(&self, letter: u8) -> Option<u8>
        ensures { result ≡ test_of self.now letter }
    {
        (letter < self.letters).then(|| self.point(letter))
    }

    // The same, and 0 where there is no such test: what is said of rows then needs no case for it.
    pub fn point(&self, letter: u8) -> u8
        ensures { result ≡ point_of self.now letter }
    {
        self.tests.get(usize::from(letter)).copied().unwrap_or(0)
    }

    // The ticks of a round, and 0 where the rule is prompt: the number that stands in a plan file.
    pub fn round(&self) -> u32
        ensures { result ≡ self.now.round }
    {
        self.round
    }

    pub fn delay(&self) -> u32
        ensures { result ≡ self.now.delay }
    {
        self.delay
    }

    // The reaction rule that the head names.
    pub fn rule(&self) -> Delay<BaseRule>
        ensures { Same (named_sees result) (named_rule self.now.round self.now.delay) }
    {
        let Ok(rule) = named_rule(self.round, self.delay) else {
            unreachable()
        };
        rule
    }
}
