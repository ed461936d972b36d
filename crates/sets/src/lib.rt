// Sets of roles or tasks, one word each: bit i stands for role or task i. The contract of each operation says that it equals its definition in paper_lower,
// Sets (docs/RULES.md, "Numbers").
#![tactic(auto)]

ghost use Rattle.std.specs.Prelude.{◌≡◌, true, false, cond, ℕ, ◌<◌, eqb};
ghost use Rattle.std.specs.Option.{MatchOption};
ghost use Rattle.paper_lower.specs.Sets.{empty, has, plus, minus, union, cut, size, overlap, meets, within, without};

// A set of numbers below 64.
#[derive(Clone, Copy)]
pub struct Set {
    pub bits: u64,
}

impl Set {
    // The empty set.
    pub const EMPTY: Set = Set { bits: 0 };

    // Whether i is a member.
    pub fn has(self, i: u64) -> bool
        requires { i < 64 }
        ensures { result ≡ has self.bits i }
    {
        (self.bits >> i) % 2 == 1
    }

    // The set with the member i.
    pub fn with(self, i: u64) -> Set
        requires { i < 64 }
        ensures { result.bits ≡ plus self.bits i }
    {
        Set {
            bits: self.bits | (1 << i),
        }
    }

    // The set with the member i if `more` holds, otherwise the set itself.
    pub fn with_if(self, more: bool, i: u64) -> Set
        requires { i < 64 }
        ensures { result.bits ≡ cond more (plus self.bits i) self.bits }
    {
        let joined = self.with(i);
        Set {
            bits: pick(more, joined.bits, self.bits),
        }
    }

    // The set without the member i.
    pub fn without(self, i: u64) -> Set
        requires { i < 64 }
        ensures { result.bits ≡ minus self.bits i }
    {
        Set {
            bits: self.bits & !(1 << i),
        }
    }

    // The members of both sets together.
    pub fn union(self, other: Set) -> Set
        ensures { result.bits ≡ union self.bits other.bits }
    {
        Set {
            bits: self.bits | other.bits,
        }
    }

    // The members that both sets have.
    fn meet(self, other: Set) -> Set
        ensures { result.bits ≡ cut self.bits other.bits }
    {
        Set {
            bits: self.bits & other.bits,
        }
    }

    // The number of members that both sets have.
    pub fn overlap(self, other: Set) -> u64
        ensures { result ≡ overlap self.bits other.bits }
    {
        self.meet(other).count()
    }

    // Whether the sets have a member in common.
    pub fn meets(self, other: Set) -> bool
        ensures { result ≡ meets self.bits other.bits }
    {
        self.bits & other.bits != 0
    }

    // Whether every member is in `other`.
    pub fn within(self, other: Set) -> bool
        ensures { result ≡ within self.bits other.bits }
    {
        self.bits & other.bits == self.bits
    }

    // The members that are not in `other`.
    pub fn beyond(self, other: Set) -> Set
        ensures { result.bits ≡ without self.bits other.bits }
    {
        Set {
            bits: self.bits ^ (self.bits & other.bits),
        }
    }

    // The number of members.
    pub fn count(self) -> u64
        ensures { result ≡ size self.bits }
    {
        u64::count_ones(self.bits) as u64
    }

    // The lowest member of a set that is not empty.
    pub fn least(self) -> u64
        requires { 0 < self.bits }
        ensures { (has self.bits result ≡ true) × ((result < 64) × ((i : ℕ) → i < result → has self.bits i ≡ false)) }
    {
        u64::trailing_zeros(self.bits) as u64
    }

    // Takes the lowest member out of the set, which is how a loop walks over its members.
    pub fn take_least(&mut self) -> Option<u64>
        ensures { MatchOption result ((self.old.bits ≡ 0) × (self.new.bits ≡ 0)) (λ i. (has self.old.bits i ≡ true) × ((i < 64) × (((j : ℕ) → j < i → has self.old.bits j ≡ false) × (self.new.bits ≡ minus self.old.bits i)))) }
    {
        if self.is_empty() {
            return None;
        }
        let i = self.least();
        *self = self.without(i);
        Some(i)
    }

    // Whether the set has no member.
    pub fn is_empty(self) -> bool
        ensures { result ≡ eqb self.bits empty }
    {
        self.bits == 0
    }
}

// The set with these bits.
pub fn set_of(bits: u64) -> Set
    ensures { result.bits ≡ bits }
{
    Set { bits: bits }
}

// Returns a if c holds, otherwise b. It is compiled without a branch.
pub fn pick(c: bool, a: u64, b: u64) -> u64
    ensures { result ≡ cond c a b }
{
    if c { a } else { b }
}
