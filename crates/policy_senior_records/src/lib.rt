// Policy kind 17: puts a role above another (02, Ask 7).
#![tactic(auto)]

ghost use Rattle.std.specs.Prelude.{◌≡◌, ◌<◌};
ghost use Rattle.paper_lower.specs.Lists.{some_number_below};
ghost use Rattle.paper_lower.specs.Policy.{raise_checks, raise_next};
ghost use Rattle.policy.specs.Promises.{Judged, Recorded};
ghost use Rattle.policy.specs.Reading.{policy_of};
ghost use Rattle.policy_senior_records.specs.Rows.{would_break};

use policy::{PolicyBuffer, SetKind};
use replies::{Refusal, Reply};

// Whether user u is declared and would break a static set if role a were put above role b.
fn user_would_break(p: &PolicyBuffer, u: usize, a: u64, b: u64) -> bool
    requires { (u < 1024) × ((a < 64) × (b < 64)) }
    ensures { result ≡ would_break (policy_of p.now) a b u }
{
    if !policy::user_declared(p, u) {
        return false;
    }
    let roles = policy_seniors::down_with(p, policy::assigned(p, u), a, b);
    policy_lookups::broken(p, SetKind::Static, roles)
}

// Whether some user would break a static set.
fn would_break(p: &PolicyBuffer, a: u64, b: u64) -> bool
    requires { (a < 64) × (b < 64) }
    ensures { result ≡ some_number_below 1024 (would_break (policy_of p.now) a b) }
{
    for u in 0..1024 {
        if user_would_break(p, u, a, b) {
            return true;
        }
    }
    false
}

// ---- "kind 17: role a stands above role b"

// The reply to the record.
#[tactic(auto, unfolding(paper_lower::specs::Policy::raise_checks))]
fn raise_reply(p: &PolicyBuffer, a: u64, b: u64) -> Reply
    requires { (a < 64) × (b < 64) }
    ensures { Judged (λ t. raise_checks t a b) p.now result }
{
    let roles = policy::declared_roles(p);
    if !roles.has(a) | !roles.has(b) {
        return Err(Refusal::Unknown);
    }
    if policy::juniors(p, a as usize).has(b) {
        return Err(Refusal::Taken);
    }
    if a == b {
        return Err(Refusal::Rule);
    }
    if policy::below(p, b as usize).has(a) {
        return Err(Refusal::Loop);
    }
    if would_break(p, a, b) {
        return Err(Refusal::Static);
    }
    if 64 <= policy_seniors::raisings(p) {
        return Err(Refusal::Full);
    }
    Ok(())
}

// Checks the record and, if it is accepted, puts role a above role b.
pub fn raise(p: &mut PolicyBuffer, a: u64, b: u64) -> Reply
    requires { (a < 64) × (b < 64) }
    ensures { Recorded (λ t. raise_checks t a b) (λ t. raise_next t a b) p.old p.new result }
{
    raise_reply(p, a, b)?;
    policy_seniors::raise(p, a, b);
    Ok(())
}
