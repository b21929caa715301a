// Tell and void.
ghost use Rattle.std.specs.Prelude.{◌≡◌, ◌<◌, true, IfErr};
ghost use Rattle.refusals.specs.Answers.{answer_of};
ghost use Rattle.runs.specs.Faults.{tell_refusal};
ghost use Rattle.runs.specs.Runs.{may_tell, telling, with_told};
ghost use Rattle.runs.specs.Words.{TellSays};

use crate::faults::HandedBack;
use crate::{Run, Token};

impl Run {
    // Takes the outcome of the token's test, or hands the token back.
    pub fn tell(&mut self, token: Token, outcome: bool) -> Result<(), HandedBack>
        ensures answer { answer_of (λ u. u) tell_refusal result ≡ (telling self.old token outcome).0 }
        ensures after { self.new ≡ (telling self.old token outcome).1 }
        ensures back { IfErr result (λ b. b.token ≡ token) }
        ensures says { TellSays self.old token (answer_of (λ u. u) tell_refusal result) }
    {
        if !self.is_tellable(&token) {
            return Err(HandedBack { token });
        }
        self.keep(token.letter, outcome);
        void(token);
        Ok(())
    }

    fn is_tellable(&self, token: &Token) -> bool
        ensures value { result ≡ may_tell self.now token.now }
        ensures inside { result ≡ true → token.now.letter < 64 }
    {
        token.run == self.number && self.out.has(token.letter) && !self.told.has(token.letter)
    }

    fn keep(&mut self, letter: u8, outcome: bool)
        requires { letter < 64 }
        ensures { self.new ≡ with_told self.old letter outcome }
    {
        self.told = self.told.with(letter);
        if outcome {
            self.outcomes = self.outcomes.with(letter);
        }
    }
}

impl Token {
    // The number of the run that it is for.
    pub fn run(&self) -> u32
        ensures { result ≡ self.now.run }
    {
        self.run
    }

    // The letter of its test.
    pub fn letter(&self) -> u8
        ensures { result ≡ self.now.letter }
    {
        self.letter
    }
}

// Spends a token, and changes no run.
pub fn void(mut token: Token)
    ensures { result ≡ tt }
{
    token.spent = true;
}
