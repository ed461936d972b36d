// Questions about permissions: whether one is declared for a pair of operation and object, whether one of some roles has one for it, and whether a task
// carries one for it. One word lists the permissions that may be for a pair (docs/STATE.md, "The policy buffer"): two by number, and rarely some groups of
// eight, where group t is the permissions 8 t to 8 t + 7. Within the two and within a group the tests are combined without branches, because the processor
// could not predict them. The crate uses only the getters of the policy buffer, not its layout.
#![tactic(auto)]

ghost use Rattle.std.specs.Prelude.{◌≡◌, ◌&&◌, ◌||◌, ◌<◌, ℕ, Bool};
ghost use Rattle.paper_lower.specs.Sets.{has};
ghost use Rattle.paper_lower.specs.Lists.{some_number_below, holds};
ghost use Rattle.paper_lower.specs.Policy.{is_for};
ghost use Rattle.paper_lower.specs.Sessions.{allowed};
ghost use Rattle.policy.specs.Layout.{eights_in, listing_for};
ghost use Rattle.policy.specs.Reading.{policy_of};
ghost use Rattle.policy_permissions.specs.Rows.{Asks, Computes, in_two, in_eight, in_eights, opens, bears};

use policy::PolicyBuffer;
use sets::Set;

// Whether the test holds for one of the two permissions in w.
fn in_two<F: Fn(usize) -> bool>(w: u64, test: &F) -> bool
    requires { Asks (F.pre test.now) }
    ensures { (row : ℕ → Bool) → Computes (F.post test.now) row → result ≡ in_two row w }
{
    test(policy::first_in(w)) | test(policy::second_in(w))
}

// Whether the test holds for a permission of the group of eight.
fn in_eight<F: Fn(usize) -> bool>(eight: usize, test: &F) -> bool
    requires { (eight < 32) × Asks (F.pre test.now) }
    ensures { (row : ℕ → Bool) → Computes (F.post test.now) row → result ≡ in_eight row eight }
{
    let b = 8 * eight;
    test(b + 7)
        | (test(b + 6)
            | (test(b + 5)
                | (test(b + 4) | (test(b + 3) | (test(b + 2) | (test(b + 1) | test(b)))))))
}

// Whether the test holds for a permission that w lists. It stops at the first group that has one.
fn some_listed<F: Fn(usize) -> bool>(w: u64, test: &F) -> bool
    requires { Asks (F.pre test.now) }
    ensures { (row : ℕ → Bool) → Computes (F.post test.now) row → result ≡ (in_two row w || in_eights (eights_in w) row) }
{
    if in_two(w, test) {
        return true;
    }
    let mut left = policy::eights_in(w);
    while let Some(eight) = left.take_least() {
        if in_eight(eight as usize, test) {
            return true;
        }
    }
    false
}

// Whether some permission is for this operation on this object.
pub fn pair_declared(p: &PolicyBuffer, operation: u64, object: u64) -> bool
    requires { (operation < 65536) × (object < 65536) }
    ensures { result ≡ some_number_below 256 (λ i. holds (is_for operation object) ((policy_of p.now).permissions.declared i)) }
{
    let w = policy::listing_for(p, operation, object);
    some_listed(w, &|b| policy::row_is(p, b, operation, object))
}

// Whether permission b is for this operation on this object and one of the roles m has it.
fn row_opens(p: &PolicyBuffer, b: usize, m: Set, operation: u64, object: u64) -> bool
    requires { (b < 256) × ((operation < 65536) × (object < 65536)) }
    ensures { result ≡ opens p.now m.bits operation object b }
{
    policy::row_is(p, b, operation, object) & policy::holders(p, b).meets(m)
}

// Whether one of the roles m has a permission for this operation on this object. It goes through all groups without stopping at a match, because the
// processor could not predict where the match is.
pub fn allowed(p: &PolicyBuffer, m: Set, operation: u64, object: u64) -> bool
    requires { (operation < 65536) × (object < 65536) }
    ensures { result ≡ allowed (policy_of p.now).permissions m.bits operation object }
{
    let w = policy::listing_for(p, operation, object);
    let test = |b| row_opens(p, b, m, operation, object);
    let mut found = in_two(w, &test);
    let mut left = policy::eights_in(w);
    while let Some(eight) = left.take_least() {
        found = in_eight(eight as usize, &test) | found;
    }
    found
}

// The same for a pair whose word w lists no group of eight.
pub fn allowed_by_two(p: &PolicyBuffer, w: u64, m: Set, operation: u64, object: u64) -> bool
    requires { (operation < 65536) × ((object < 65536) × ((w ≡ listing_for p.now operation object) × (w < 4294967296))) }
    ensures { result ≡ allowed (policy_of p.now).permissions m.bits operation object }
{
    in_two(w, &|b| row_opens(p, b, m, operation, object))
}

// Whether permission b is for this operation on this object and task t carries it.
fn row_bears(p: &PolicyBuffer, b: usize, t: u64, operation: u64, object: u64) -> bool
    requires { (b < 256) × ((t < 64) × ((operation < 65536) × (object < 65536))) }
    ensures { result ≡ bears p.now t operation object b }
{
    policy::row_is(p, b, operation, object) & policy::carriers(p, b).has(t)
}

// Whether task t carries a permission for this operation on this object.
pub fn carried(p: &PolicyBuffer, t: u64, operation: u64, object: u64) -> bool
    requires { (t < 64) × ((operation < 65536) × (object < 65536)) }
    ensures { result ≡ some_number_below 256 (λ i. holds (is_for operation object) ((policy_of p.now).permissions.declared i) && has ((policy_of p.now).permissions.carriers i) t) }
{
    let w = policy::listing_for(p, operation, object);
    some_listed(w, &|b| row_bears(p, b, t, operation, object))
}
