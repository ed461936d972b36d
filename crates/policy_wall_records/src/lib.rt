// Policy kind 18: puts an object into a block of a wall (02, Ask 11).
#![tactic(auto)]

ghost use Rattle.std.specs.Prelude.{◌≡◌, ◌<◌};
ghost use Rattle.paper_lower.specs.Lists.{some};
ghost use Rattle.paper_lower.specs.Policy.{another, block_of, same_walled, wall_checks, wall_next};
ghost use Rattle.policy.specs.Layout.{walled_at};
ghost use Rattle.policy.specs.Promises.{Judged, Recorded};
ghost use Rattle.policy.specs.Reading.{policy_of};

use policy::PolicyBuffer;
use replies::{Refusal, Reply};

// Whether row k puts object c into block b of wall a.
#[tactic(auto, unfolding(paper_lower::specs::Policy::same_walled))]
fn row_says(p: &PolicyBuffer, k: usize, a: u64, b: u64, c: u64) -> bool
    requires { (k < 256) × (c < 65536) }
    ensures { result ≡ same_walled a b c (walled_at p.now k) }
{
    if !policy::walled_is(p, k, c) {
        return false;
    }
    (policy::walled_wall(p, k) == a)
        & (policy::walled_block(p, k) == b)
        & (policy::walled_object(p, k) == c)
}

// Whether some row is the same as the record.
fn wall_repeated(p: &PolicyBuffer, a: u64, b: u64, c: u64) -> bool
    requires { c < 65536 }
    ensures { result ≡ some (same_walled a b c) (policy_of p.now).walls }
{
    let count = policy::wall_count(p);
    for k in 0..count {
        if row_says(p, k, a, b, c) {
            return true;
        }
    }
    false
}

// Whether object c is in a block of wall a other than b.
fn elsewhere(p: &PolicyBuffer, a: u64, b: u64, c: u64) -> bool
    requires { (a < 16) × ((b < 16) × (c < 65536)) }
    ensures { result ≡ another b (block_of (policy_of p.now).walls c a) }
{
    let here = blocks::with(blocks::none(), a, b);
    blocks::between(policy_walls::blocks_of(p, c), here)
}

// ---- "policy kind 18, wall a, block b, object c"

// The reply to the record.
#[tactic(auto, using(crate::proofs::Laws::rows_many), unfolding(paper_lower::specs::Policy::wall_checks))]
fn wall_reply(p: &PolicyBuffer, a: u64, b: u64, c: u64) -> Reply
    requires { (a < 16) × ((b < 16) × (c < 65536)) }
    ensures { Judged (λ t. wall_checks t a b c) p.now result }
{
    if wall_repeated(p, a, b, c) {
        return Err(Refusal::Taken);
    }
    if elsewhere(p, a, b, c) {
        return Err(Refusal::Rule);
    }
    if 256 <= policy::wall_count(p) {
        return Err(Refusal::Full);
    }
    Ok(())
}

// Checks the record and, if it is accepted, adds its row.
#[tactic(auto, using(crate::proofs::Laws::wall_room), unfolding(paper_lower::specs::Policy::wall_next))]
pub fn wall(p: &mut PolicyBuffer, a: u64, b: u64, c: u64) -> Reply
    requires { (a < 16) × ((b < 16) × (c < 65536)) }
    ensures { Recorded (λ t. wall_checks t a b c) (λ t. wall_next t a b c) p.old p.new result }
{
    wall_reply(p, a, b, c)?;
    policy::add_wall(p, a, b, c);
    Ok(())
}
