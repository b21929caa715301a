// What a rule answers.
ghost use Rattle.std.specs.Prelude.{◌≡◌};
ghost use Rattle.rules.specs.Meanings.{Meaning, Persists, Afterwards};

use times::Time;

pub trait Rule {
    // When the outcome of a test is seen.
    ghost sees: { Self → Meaning };

    // Is the outcome of the test with the letter of this number, taken at one time, seen at another?
    fn is_seen<T: Time>(&self, test: u8, taken: T, at: T) -> bool
        ensures { result ≡ sees self.now test (T.Time.moment taken) (T.Time.moment at) };

    // What is seen is seen at every later moment.
    ghost persists: { (x : Self) → Persists (sees x) };

    // What is seen was taken earlier.
    ghost afterwards: { (x : Self) → Afterwards (sees x) };
}
