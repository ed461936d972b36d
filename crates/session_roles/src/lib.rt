// Requests 32, 33, 35 and 37: adds a user with roles, deletes a user, takes a role from a user, takes a permission from a role. For each, `..._reply` checks
// the request without changing anything, and the function of the request also carries it out if it is granted. The contracts are in specs/Promises. Requests
// 34 and 36 use policy kinds 4 and 5.
#![tactic(auto)]

ghost use Rattle.std.specs.Prelude.{◌≡◌, ◌<◌};
ghost use Rattle.paper_lower.specs.Roles.{user_gone, lost_by};
ghost use Rattle.policy.specs.Reading.{policy_of};
ghost use Rattle.sessions.specs.Lower.{lower_tables};
ghost use Rattle.session_roles.specs.Promises.{JoinJudged, Joined, DeleteJudged, Deleted, TakeBackJudged, TakenBack, WithdrawJudged, Withdrawn};

use policy::{PolicyBuffer, SetKind};
use replies::{Refusal, Reply};
use sessions::SessionsBuffer;
use sets::Set;

// ---- 32: add user a with roles m.

#[tactic(auto, unfolding(paper_lower::specs::Roles::join_checks))]
fn join_reply(p: &PolicyBuffer, a: u64, m: Set) -> Reply
    requires { a < 1024 }
    ensures { JoinJudged p.now a m.bits result }
{
    if !m.within(policy::declared_roles(p)) {
        return Err(Refusal::Unknown);
    }
    if policy::user_declared(p, a as usize) {
        return Err(Refusal::Taken);
    }
    if policy_lookups::broken(p, SetKind::Static, policy_seniors::down(p, m)) {
        return Err(Refusal::Static);
    }
    Ok(())
}

// Adds user a with the roles m, unless a check refuses it.
#[tactic(auto, unfolding(paper_lower::specs::Roles::join_next))]
pub fn join(p: &mut PolicyBuffer, a: u64, m: Set) -> Reply
    requires { a < 1024 }
    ensures { Joined p.old p.new a m.bits result }
{
    join_reply(p, a, m)?;
    policy::set_user(p, a as usize, 1, m);
    Ok(())
}

// ---- 33: delete user a. The upper part has further checks, so it calls `delete_reply` and `remove` itself.

// The reply of the lower part's checks.
#[tactic(auto, unfolding(paper_lower::specs::Roles::delete_checks))]
pub fn delete_reply(p: &PolicyBuffer, s: &SessionsBuffer, a: u64) -> Reply
    requires { a < 1024 }
    ensures { DeleteJudged p.now s.now a result }
{
    if !policy::user_declared(p, a as usize) {
        return Err(Refusal::Unknown);
    }
    let used = sessions::has_subject(s, a);
    if used { Err(Refusal::InUse) } else { Ok(()) }
}

// Removes the declaration of the user, the user's roles, and the blocks that the user is bound to. The caller has checked the request.
#[tactic(auto, unfolding(paper_lower::specs::Roles::user_gone, paper_lower::specs::Roles::delete_next, paper_lower::specs::Roles::forget_next))]
pub fn remove(p: &mut PolicyBuffer, s: &mut SessionsBuffer, a: u64)
    requires { a < 1024 }
    ensures { lower_tables p.new s.new ≡ user_gone (lower_tables p.old s.old) a }
{
    policy::set_user(p, a as usize, 0, Set::EMPTY);
    let nowhere = blocks::none();
    sessions::set_bound_to(s, a as usize, nowhere);
}

// Deletes user a, unless a check of the lower part refuses it.
pub fn delete(p: &mut PolicyBuffer, s: &mut SessionsBuffer, a: u64) -> Reply
    requires { a < 1024 }
    ensures { Deleted p.old s.old p.new s.new a result }
{
    delete_reply(p, s, a)?;
    remove(p, s, a);
    Ok(())
}

// ---- 35: take role b from user a.

// The roles that user a would no longer have without role b, counting the roles below those assigned.
#[tactic(auto, unfolding(paper_lower::specs::Roles::lost_by))]
fn lost_by(p: &PolicyBuffer, a: u64, b: u64) -> Set
    requires { (a < 1024) × (b < 64) }
    ensures { result.bits ≡ lost_by (policy_of p.now) a b }
{
    let roles = policy::assigned(p, a as usize);
    let left = roles.without(b);
    let before = policy_seniors::down(p, roles);
    let after = policy_seniors::down(p, left);
    before.beyond(after)
}

#[tactic(auto, unfolding(paper_lower::specs::Roles::take_back_checks))]
fn take_back_reply(p: &PolicyBuffer, s: &SessionsBuffer, a: u64, b: u64) -> Reply
    requires { (a < 1024) × (b < 64) }
    ensures { TakeBackJudged p.now s.now a b result }
{
    if !policy::user_declared(p, a as usize)
        | !policy::declared_roles(p).has(b)
        | !policy::assigned(p, a as usize).has(b)
    {
        return Err(Refusal::Unknown);
    }
    if sessions::active_of(s, a).meets(lost_by(p, a, b)) {
        Err(Refusal::InUse)
    } else {
        Ok(())
    }
}

// Takes role b from user a, unless a check refuses it.
#[tactic(auto, unfolding(paper_lower::specs::Roles::take_back_next))]
pub fn take_back(p: &mut PolicyBuffer, s: &SessionsBuffer, a: u64, b: u64) -> Reply
    requires { (a < 1024) × (b < 64) }
    ensures { TakenBack p.old p.new s.now a b result }
{
    take_back_reply(p, s, a, b)?;
    let left = policy::assigned(p, a as usize).without(b);
    policy::set_assigned(p, a as usize, left);
    Ok(())
}

// ---- 37: take permission b from role a.

#[tactic(auto, unfolding(paper_lower::specs::Roles::withdraw_checks))]
fn withdraw_reply(p: &PolicyBuffer, a: u64, b: u64) -> Reply
    requires { (a < 64) × (b < 256) }
    ensures { WithdrawJudged p.now a b result }
{
    if !policy::declared_roles(p).has(a)
        | !policy::permission_declared(p, b as usize)
        | !policy::holders(p, b as usize).has(a)
    {
        return Err(Refusal::Unknown);
    }
    Ok(())
}

// Takes permission b from role a, unless a check refuses it.
#[tactic(auto, unfolding(paper_lower::specs::Roles::withdraw_next))]
pub fn withdraw(p: &mut PolicyBuffer, a: u64, b: u64) -> Reply
    requires { (a < 64) × (b < 256) }
    ensures { Withdrawn p.old p.new a b result }
{
    withdraw_reply(p, a, b)?;
    let left = policy::holders(p, b as usize).without(a);
    policy::set_holders(p, b as usize, left);
    Ok(())
}
