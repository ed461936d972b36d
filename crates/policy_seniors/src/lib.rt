// Senior roles (02, Ask 7): a set of roles with all roles below them, and one role put above another. The crate uses only the getters and setters of the
// policy buffer, not its layout.
#![tactic(auto)]

ghost use Rattle.std.specs.Prelude.{◌≡◌, ◌<◌};
ghost use Rattle.paper_lower.specs.Policy.{down, raised, raisings, raise_next};
ghost use Rattle.policy.specs.Reading.{policy_of};
ghost use Rattle.policy_seniors.specs.Rows.{lowered_at};

use policy::PolicyBuffer;
use sets::Set;

// The roles m and all roles below one of them. Only roles that have others below them are visited. The table has all roles below a role, at any distance, so
// one union per role is enough.
fn gathered(p: &PolicyBuffer, m: Set) -> Set
    ensures { result.bits ≡ down (policy_of p.now).seniority m.bits }
{
    let mut all = m;
    let lowest = m.beyond(policy::seniors(p));
    let mut left = m.beyond(lowest);
    while let Some(role) = left.take_least() {
        all = all.union(policy::below_senior(p, role as usize));
    }
    all
}

// The roles m and all roles below one of them. If none of them has a role below it, one test is enough.
pub fn down(p: &PolicyBuffer, m: Set) -> Set
    ensures { result.bits ≡ down (policy_of p.now).seniority m.bits }
{
    if !m.meets(policy::seniors(p)) {
        return m;
    }
    gathered(p, m)
}

// The same as if role a had also been put above role b.
pub fn down_with(p: &PolicyBuffer, m: Set, a: u64, b: u64) -> Set
    requires { (a < 64) × (b < 64) }
    ensures { result.bits ≡ down (raised (policy_of p.now).seniority a b) m.bits }
{
    let all = down(p, m);
    if !all.has(a) {
        return all;
    }
    all.union(policy::below(p, b as usize).with(b))
}

// The number of records of kind 17 in the policy.
pub fn raisings(p: &PolicyBuffer) -> u64
    ensures { result ≡ raisings (policy_of p.now).seniority }
{
    let mut n = 0;
    for r in 0..64 {
        n += policy::juniors(p, r).count();
    }
    n
}

// Adds the roles `under` to those below role r, if r is role a or is above it.
fn lower(p: &mut PolicyBuffer, r: usize, a: u64, under: Set)
    requires { (r < 64) × (a < 64) }
    ensures { policy_of p.new ≡ lowered_at (policy_of p.old) r a under.bits }
{
    let roles = policy::below(p, r);
    if (r as u64 == a) | roles.has(a) {
        policy::set_below(p, r, roles.union(under));
    }
}

// Puts role a above role b: in the table of records, and in the table of all roles below each role.
pub fn raise(p: &mut PolicyBuffer, a: u64, b: u64)
    requires { (a < 64) × (b < 64) }
    ensures { policy_of p.new ≡ raise_next (policy_of p.old) a b }
{
    let under = policy::below(p, b as usize).with(b);
    let named = policy::juniors(p, a as usize).with(b);
    for r in 0..64 {
        lower(p, r, a, under);
    }
    policy::set_juniors(p, a as usize, named);
}
