// How heads come to be.
ghost use Rattle.std.specs.Prelude.{◌≡◌, ℕ, ◌<◌, ◌≤◌, List, length, slice_index};
ghost use Rattle.refusals.specs.Answers.{answer_of, unless};
ghost use Rattle.refusals.specs.Searches.{first};
ghost use Rattle.heads.specs.Faults.{head_fault};
ghost use Rattle.heads.specs.Heads.{Outline, HeadSays, outline, outline_of, smallest_outline, head_refusal, is_test, test_refusal, new_head};

use crate::Head;
use crate::faults::HeadFault;

impl Head {
    // One point and no test, under the prompt rule without a delay.
    pub fn smallest() -> Head
        ensures { outline_of result ≡ smallest_outline }
    {
        Head {
            points: 1,
            letters: 0,
            tests: [0; 6],
            round: 0,
            delay: 0,
        }
    }

    // The head of these numbers, or the first refusal that applies.
    pub fn new(points: u8, tests: &[u8], round: u32, delay: u32) -> Result<Head, HeadFault>
        ensures answer { answer_of outline_of head_fault result ≡ new_head (outline points tests.now round delay) }
        ensures says { HeadSays (outline points tests.now round delay) (answer_of outline_of head_fault result) }
    {
        check_numbers(points, tests, round, delay)?;
        Ok(Head {
            points,
            letters: tests.len() as u8,
            tests: padded(tests),
            round,
            delay,
        })
    }
}

// The counts, then the figures, then the tests. Points and tests go along one by one, as the public `is_test` takes them.
fn check_numbers(points: u8, tests: &[u8], round: u32, delay: u32) -> Result<(), HeadFault>
    ensures { answer_of (λ u. u) head_fault result ≡ unless (head_refusal (outline points tests.now round delay)) tt }
{
    if points < 1 || points > 48 || tests.len() > 6 {
        return Err(HeadFault::Counts);
    }
    if round > 1_000_000 || delay > 1_000_000 {
        return Err(HeadFault::Figures);
    }
    check_tests(points, tests)
}

fn check_tests(points: u8, tests: &[u8]) -> Result<(), HeadFault>
    ensures { answer_of (λ u. u) head_fault result ≡ unless (first (length tests.now) (test_refusal (outline points tests.now 0 0))) tt }
{
    (0..tests.len()).try_for_each(|i| check_test(points, tests, i))
}

fn check_test(points: u8, tests: &[u8], i: usize) -> Result<(), HeadFault>
    ensures { answer_of (λ u. u) head_fault result ≡ unless (test_refusal (outline points tests.now 0 0) i) tt }
{
    if !is_test(points, tests, i) {
        return Err(HeadFault::Test(i));
    }
    Ok(())
}

// Whether a test is a point other than the start, and other than those of the tests before it.
pub fn is_test(points: u8, tests: &[u8], i: usize) -> bool
    ensures { result ≡ is_test (outline points tests.now 0 0) i }
{
    let Some(&point) = tests.get(i) else {
        return false;
    };
    0 < point && point < points && !tests[..i].contains(&point)
}

// The tests in a head's own array, with zeros after them.
fn padded(tests: &[u8]) -> [u8; 6]
    requires { length tests.now ≤ 6 }
    ensures six { length result ≡ 6 }
    ensures same { (i : ℕ) → slice_index result i ≡ slice_index tests.now i }
{
    let mut six = [0; 6];
    six[..tests.len()].copy_from_slice(tests);
    six
}
