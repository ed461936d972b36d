// Policy kinds 1 to 8, the declarations of a policy. For each kind, `..._reply` gives the reply to a record, and the public function also changes the tables
// if the record is accepted. Requests 34 and 36 use those of kinds 4 and 5.
#![tactic(auto)]

ghost use Rattle.std.specs.Prelude.{◌<◌};
ghost use Rattle.paper_lower.specs.Policy.{user_checks, user_next, role_checks, role_next, permission_checks, permission_next, assign_checks, assign_next, give_checks, give_next, task_checks, task_next, open_to_checks, open_to_next, carries_checks, carries_next};
ghost use Rattle.policy.specs.Promises.{Judged, Recorded};

use policy::{PolicyBuffer, SetKind};
use replies::{Refusal, Reply};
use sets::Set;

// ---- "1 user a."

#[tactic(auto, unfolding(paper_lower::specs::Policy::user_checks))]
fn user_reply(p: &PolicyBuffer, a: u64) -> Reply
    requires { a < 1024 }
    ensures { Judged (λ t. user_checks t a) p.now result }
{
    if policy::user_declared(p, a as usize) {
        return Err(Refusal::Taken);
    }
    Ok(())
}

// Declares user a, unless a check refuses it.
#[tactic(auto, unfolding(paper_lower::specs::Policy::user_next))]
pub fn user(p: &mut PolicyBuffer, a: u64) -> Reply
    requires { a < 1024 }
    ensures { Recorded (λ t. user_checks t a) (λ t. user_next t a) p.old p.new result }
{
    user_reply(p, a)?;
    policy::set_user(p, a as usize, 1, Set::EMPTY);
    Ok(())
}

// ---- "2 role a."

#[tactic(auto, unfolding(paper_lower::specs::Policy::role_checks))]
fn role_reply(p: &PolicyBuffer, a: u64) -> Reply
    requires { a < 64 }
    ensures { Judged (λ t. role_checks t a) p.now result }
{
    if policy::declared_roles(p).has(a) {
        return Err(Refusal::Taken);
    }
    Ok(())
}

// Declares role a, unless a check refuses it.
#[tactic(auto, unfolding(paper_lower::specs::Policy::role_next))]
pub fn role(p: &mut PolicyBuffer, a: u64) -> Reply
    requires { a < 64 }
    ensures { Recorded (λ t. role_checks t a) (λ t. role_next t a) p.old p.new result }
{
    role_reply(p, a)?;
    let roles = policy::declared_roles(p).with(a);
    policy::set_declared_roles(p, roles);
    Ok(())
}

// ---- "3 permission a = operation b on object c."

#[tactic(auto, unfolding(paper_lower::specs::Policy::permission_checks))]
fn permission_reply(p: &PolicyBuffer, a: u64, b: u64, c: u64) -> Reply
    requires { (a < 256) × ((b < 65536) × (c < 65536)) }
    ensures { Judged (λ t. permission_checks t a b c) p.now result }
{
    if policy::permission_declared(p, a as usize) | policy_permissions::pair_declared(p, b, c) {
        return Err(Refusal::Taken);
    }
    Ok(())
}

// Declares permission a, for operation b on object c, unless a check refuses it.
#[tactic(auto, unfolding(paper_lower::specs::Policy::permission_next))]
pub fn permission(p: &mut PolicyBuffer, a: u64, b: u64, c: u64) -> Reply
    requires { (a < 256) × ((b < 65536) × (c < 65536)) }
    ensures { Recorded (λ t. permission_checks t a b c) (λ t. permission_next t a b c) p.old p.new result }
{
    permission_reply(p, a, b, c)?;
    policy::set_permission(p, a as usize, b, c);
    Ok(())
}

// ---- "4 user a has role b."

#[tactic(auto, unfolding(paper_lower::specs::Policy::assign_checks))]
fn assign_reply(p: &PolicyBuffer, a: u64, b: u64) -> Reply
    requires { (a < 1024) × (b < 64) }
    ensures { Judged (λ t. assign_checks t a b) p.now result }
{
    if !policy::user_declared(p, a as usize) | !policy::declared_roles(p).has(b) {
        return Err(Refusal::Unknown);
    }
    let roles = policy::assigned(p, a as usize);
    if roles.has(b) {
        return Err(Refusal::Taken);
    }
    let next = policy_seniors::down(p, roles.with(b));
    if policy_lookups::broken(p, SetKind::Static, next) {
        return Err(Refusal::Static);
    }
    Ok(())
}

// Assigns role b to user a, unless a check refuses it.
#[tactic(auto, unfolding(paper_lower::specs::Policy::assign_next))]
pub fn assign(p: &mut PolicyBuffer, a: u64, b: u64) -> Reply
    requires { (a < 1024) × (b < 64) }
    ensures { Recorded (λ t. assign_checks t a b) (λ t. assign_next t a b) p.old p.new result }
{
    assign_reply(p, a, b)?;
    let roles = policy::assigned(p, a as usize).with(b);
    policy::set_assigned(p, a as usize, roles);
    Ok(())
}

// ---- "5 role a has permission b."

#[tactic(auto, unfolding(paper_lower::specs::Policy::give_checks))]
fn give_reply(p: &PolicyBuffer, a: u64, b: u64) -> Reply
    requires { (a < 64) × (b < 256) }
    ensures { Judged (λ t. give_checks t a b) p.now result }
{
    if !policy::declared_roles(p).has(a) | !policy::permission_declared(p, b as usize) {
        return Err(Refusal::Unknown);
    }
    if policy::holders(p, b as usize).has(a) {
        return Err(Refusal::Taken);
    }
    Ok(())
}

// Gives role a permission b, unless a check refuses it.
#[tactic(auto, unfolding(paper_lower::specs::Policy::give_next))]
pub fn give(p: &mut PolicyBuffer, a: u64, b: u64) -> Reply
    requires { (a < 64) × (b < 256) }
    ensures { Recorded (λ t. give_checks t a b) (λ t. give_next t a b) p.old p.new result }
{
    give_reply(p, a, b)?;
    let roles = policy::holders(p, b as usize).with(a);
    policy::set_holders(p, b as usize, roles);
    Ok(())
}

// ---- "6 task a of template b."

#[tactic(auto, unfolding(paper_lower::specs::Policy::task_checks))]
fn task_reply(p: &PolicyBuffer, a: u64) -> Reply
    requires { a < 64 }
    ensures { Judged (λ t. task_checks t a) p.now result }
{
    if policy::task_declared(p, a as usize) {
        return Err(Refusal::Taken);
    }
    Ok(())
}

// Declares task a, of template b, unless a check refuses it.
#[tactic(auto, unfolding(paper_lower::specs::Policy::task_next))]
pub fn task(p: &mut PolicyBuffer, a: u64, b: u64) -> Reply
    requires { (a < 64) × (b < 16) }
    ensures { Recorded (λ t. task_checks t a) (λ t. task_next t a b) p.old p.new result }
{
    task_reply(p, a)?;
    policy::set_template(p, a as usize, b);
    Ok(())
}

// ---- "7 task a open to role b."

#[tactic(auto, unfolding(paper_lower::specs::Policy::open_to_checks))]
fn open_to_reply(p: &PolicyBuffer, a: u64, b: u64) -> Reply
    requires { (a < 64) × (b < 64) }
    ensures { Judged (λ t. open_to_checks t a b) p.now result }
{
    if !policy::task_declared(p, a as usize) | !policy::declared_roles(p).has(b) {
        return Err(Refusal::Unknown);
    }
    if policy::open_to(p, a as usize).has(b) {
        return Err(Refusal::Taken);
    }
    Ok(())
}

// Opens task a to role b, unless a check refuses it.
#[tactic(auto, unfolding(paper_lower::specs::Policy::open_to_next))]
pub fn open_to(p: &mut PolicyBuffer, a: u64, b: u64) -> Reply
    requires { (a < 64) × (b < 64) }
    ensures { Recorded (λ t. open_to_checks t a b) (λ t. open_to_next t a b) p.old p.new result }
{
    open_to_reply(p, a, b)?;
    let roles = policy::open_to(p, a as usize).with(b);
    policy::set_open_to(p, a as usize, roles);
    Ok(())
}

// ---- "8 task a carries permission b."

#[tactic(auto, unfolding(paper_lower::specs::Policy::carries_checks))]
fn carries_reply(p: &PolicyBuffer, a: u64, b: u64) -> Reply
    requires { (a < 64) × (b < 256) }
    ensures { Judged (λ t. carries_checks t a b) p.now result }
{
    if !policy::task_declared(p, a as usize) | !policy::permission_declared(p, b as usize) {
        return Err(Refusal::Unknown);
    }
    if policy::carriers(p, b as usize).has(a) {
        return Err(Refusal::Taken);
    }
    Ok(())
}

// Makes task a carry permission b, unless a check refuses it.
#[tactic(auto, unfolding(paper_lower::specs::Policy::carries_next))]
pub fn carries(p: &mut PolicyBuffer, a: u64, b: u64) -> Reply
    requires { (a < 64) × (b < 256) }
    ensures { Recorded (λ t. carries_checks t a b) (λ t. carries_next t a b) p.old p.new result }
{
    carries_reply(p, a, b)?;
    let tasks = policy::carriers(p, b as usize).with(a);
    policy::set_carriers(p, b as usize, tasks);
    Ok(())
}
