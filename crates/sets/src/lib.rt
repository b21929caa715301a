// Sets of points and of letters: what is in one, and the set with one more. A change of how such a set is kept is
// made here.
#![tactic(auto)]

ghost use Rattle.std.specs.Prelude.{◌≡◌, ℕ, ◌^◌, ◌<◌, ◌≤◌, true, false};
ghost use Rattle.sets.specs.Sets.{has, joined};

use std::marker::Model;

// A set of numbers below 64. In contracts it is the number whose bit i is 1 where i is in it.
#[derive(Clone, Copy, PartialEq, Eq, Debug)]
pub struct Set {
    bits: u64,
}

impl Model for Set {
    ghost Value = { ℕ };

    ghost view = { λ set. set.bits };

    ghost invariant = { λ set. set.bits < 2 ^ 64 };

    ghost inverse = { λ n. record { bits = n } };
}

impl Set {
    pub fn empty() -> Set
        ensures { result ≡ 0 }
    {
        Set { bits: 0 }
    }

    pub fn has(self, member: u8) -> bool
        ensures value { result ≡ has self member }
        ensures inside { result ≡ true → member < 64 }
        ensures reached { result ≡ true → 2 ^ member ≤ self }
    {
        member < 64 && (self.bits >> member) % 2 == 1
    }

    // The set with one more; a number from 64 on is none of its numbers.
    pub fn with(self, member: u8) -> Set
        ensures inside { member < 64 → result ≡ joined self member }
        ensures outside { 64 ≤ member → result ≡ self }
    {
        if member >= 64 || self.has(member) {
            return self;
        }
        self.grown(member)
    }

    fn grown(self, member: u8) -> Set
        requires { (member < 64) × (has self member ≡ false) }
        ensures { result ≡ joined self member }
    {
        Set {
            bits: self.bits + (1 << member),
        }
    }
}

// The set whose bits these are.
impl From<u64> for Set {
    ghost from_gives = { λ bits set. set ≡ bits };

    fn from(bits: u64) -> Set {
        Set { bits }
    }
}

impl From<u8> for Set {
    ghost from_gives = { λ bits set. set ≡ bits };

    fn from(bits: u8) -> Set {
        Set::from(u64::from(bits))
    }
}
