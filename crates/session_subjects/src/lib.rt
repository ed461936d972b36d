// Requests 40 to 43, 56 and 59: subjects, their active roles, the check and the commit. For each of 40 to 43, `..._reply` checks the request without changing
// anything, and the function of the request also carries it out if it is granted. The contracts are in specs/Promises.
#![tactic(auto)]

ghost use Rattle.std.specs.Prelude.{◌<◌};
ghost use Rattle.session_subjects.specs.Promises.{CreateJudged, Created, DestroyJudged, Destroyed, ActivateJudged, Activated, DeactivateJudged, Deactivated, OpenJudged, QuickJudged, Asked};

use policy::{PolicyBuffer, SetKind};
use replies::{Refusal, Reply};
use sessions::SessionsBuffer;
use sets::Set;

// ---- 40: create subject a for user b with active roles m.

#[tactic(auto, unfolding(paper_lower::specs::Sessions::create_checks))]
fn create_reply(p: &PolicyBuffer, s: &SessionsBuffer, a: u64, b: u64, m: Set) -> Reply
    requires { (a < 128) × (b < 1024) }
    ensures { CreateJudged p.now s.now a b m.bits result }
{
    if !policy::user_declared(p, b as usize) | !m.within(policy::declared_roles(p)) {
        return Err(Refusal::Unknown);
    }
    if sessions::live(s, a as usize) {
        return Err(Refusal::Taken);
    }
    if !m.within(policy_seniors::down(p, policy::assigned(p, b as usize))) {
        return Err(Refusal::NotAssigned);
    }
    let all = sessions::counted_of(s, b).union(m);
    let counted = policy_seniors::down(p, all);
    if policy_lookups::broken(p, SetKind::Dynamic, counted) {
        return Err(Refusal::Dynamic);
    }
    Ok(())
}

// Creates subject a for user b with the roles m active, unless a check refuses it.
pub fn create(p: &PolicyBuffer, s: &mut SessionsBuffer, a: u64, b: u64, m: Set) -> Reply
    requires { (a < 128) × (b < 1024) }
    ensures { Created p.now s.old s.new a b m.bits result }
{
    create_reply(p, s, a, b, m)?;
    sessions::create(s, a as usize, b, m);
    Ok(())
}

// ---- 41: destroy subject a. The policy does not matter. The upper part has further checks, so it calls `destroy_reply` itself.

// The reply of the lower part's checks.
#[tactic(auto, unfolding(paper_lower::specs::Sessions::destroy_checks))]
pub fn destroy_reply(s: &SessionsBuffer, a: u64) -> Reply
    requires { a < 128 }
    ensures { DestroyJudged s.now a result }
{
    if !sessions::live(s, a as usize) {
        return Err(Refusal::Unknown);
    }
    Ok(())
}

// Destroys subject a, unless a check of the lower part refuses it.
pub fn destroy(s: &mut SessionsBuffer, a: u64) -> Reply
    requires { a < 128 }
    ensures { Destroyed s.old s.new a result }
{
    destroy_reply(s, a)?;
    sessions::destroy(s, a as usize);
    Ok(())
}

// ---- 42: activate role b in subject a.

#[tactic(auto, unfolding(paper_lower::specs::Sessions::activate_checks))]
fn activate_reply(p: &PolicyBuffer, s: &SessionsBuffer, a: u64, b: u64) -> Reply
    requires { (a < 128) × (b < 64) }
    ensures { ActivateJudged p.now s.now a b result }
{
    if !sessions::live(s, a as usize) | !policy::declared_roles(p).has(b) {
        return Err(Refusal::Unknown);
    }
    let here = sessions::active(s, a as usize);
    if here.has(b) {
        return Err(Refusal::Taken);
    }
    let user = sessions::user(s, a as usize);
    if !policy_seniors::down(p, policy::assigned(p, user as usize)).has(b) {
        return Err(Refusal::NotAssigned);
    }
    let all = sessions::counted_of(s, user);
    if policy_lookups::broken(p, SetKind::Dynamic, policy_seniors::down(p, all.with(b))) {
        return Err(Refusal::Dynamic);
    }
    Ok(())
}

// Activates role b in subject a, unless a check refuses it.
pub fn activate(p: &PolicyBuffer, s: &mut SessionsBuffer, a: u64, b: u64) -> Reply
    requires { (a < 128) × (b < 64) }
    ensures { Activated p.now s.old s.new a b result }
{
    activate_reply(p, s, a, b)?;
    let roles = sessions::active(s, a as usize).with(b);
    let had = sessions::had(s, a as usize).with(b);
    sessions::set_roles(s, a as usize, roles, had);
    Ok(())
}

// ---- 43: deactivate role b in subject a.

#[tactic(auto, unfolding(paper_lower::specs::Sessions::deactivate_checks))]
fn deactivate_reply(p: &PolicyBuffer, s: &SessionsBuffer, a: u64, b: u64) -> Reply
    requires { (a < 128) × (b < 64) }
    ensures { DeactivateJudged p.now s.now a b result }
{
    if !sessions::live(s, a as usize)
        | !policy::declared_roles(p).has(b)
        | !sessions::active(s, a as usize).has(b)
    {
        return Err(Refusal::Unknown);
    }
    Ok(())
}

// Deactivates role b in subject a, unless a check refuses it.
pub fn deactivate(p: &PolicyBuffer, s: &mut SessionsBuffer, a: u64, b: u64) -> Reply
    requires { (a < 128) × (b < 64) }
    ensures { Deactivated p.now s.old s.new a b result }
{
    deactivate_reply(p, s, a, b)?;
    let roles = sessions::active(s, a as usize).without(b);
    let had = sessions::had(s, a as usize);
    sessions::set_roles(s, a as usize, roles, had);
    Ok(())
}

// ---- 56: whether subject a may do the operation on the object. It changes nothing.

// The reply of the checks before WALL.
#[tactic(auto, unfolding(paper_lower::specs::Sessions::check_checks))]
fn open_reply(p: &PolicyBuffer, s: &SessionsBuffer, a: u64, operation: u64, object: u64) -> Reply
    requires { (a < 128) × ((operation < 65536) × (object < 65536)) }
    ensures { OpenJudged p.now s.now a operation object result }
{
    if !sessions::live(s, a as usize) {
        return Err(Refusal::Unknown);
    }
    let roles = policy_seniors::down(p, sessions::active(s, a as usize));
    if !policy_permissions::allowed(p, roles, operation, object) {
        return Err(Refusal::Denied);
    }
    Ok(())
}

// The reply to request 56, if the policy has no walls and the word of the pair lists no group of eight. Otherwise it returns `None`, and
// the caller has to use `ask`. It repeats the tests of `open_reply`, because a function with two callers would not be inlined.
#[tactic(auto, using(crate::proofs::WallLaws::no_walls), unfolding(paper_lower::specs::Sessions::check_checks))]
pub fn quick_reply(
    p: &PolicyBuffer,
    s: &SessionsBuffer,
    a: u64,
    operation: u64,
    object: u64,
) -> Option<Reply>
    requires { (a < 128) × ((operation < 65536) × (object < 65536)) }
    ensures { QuickJudged p.now s.now a operation object result }
{
    if policy::wall_count(p) != 0 {
        return None;
    }
    if !sessions::live(s, a as usize) {
        return Some(Err(Refusal::Unknown));
    }
    let w = policy::listing_for(p, operation, object);
    if 4294967295 < w {
        return None;
    }
    let acting = policy_seniors::down(p, sessions::active(s, a as usize));
    if !policy_permissions::allowed_by_two(p, w, acting, operation, object) {
        return Some(Err(Refusal::Denied));
    }
    Some(Ok(()))
}

// The kind of the request that only checks.
const CHECK: u64 = 56;

// ---- 59: the same checks; if granted, it binds the subject's user to the object's block in every wall that has the object.

// Answers request 56 or 59. One function handles both, so that the object's blocks are looked up once and the code is inlined.
pub fn ask(
    p: &PolicyBuffer,
    s: &mut SessionsBuffer,
    kind: u64,
    a: u64,
    operation: u64,
    object: u64,
) -> Reply
    requires { (a < 128) × ((operation < 65536) × (object < 65536)) }
    ensures { Asked p.now s.old s.new kind a operation object result }
{
    open_reply(p, s, a, operation, object)?;
    let user = sessions::user(s, a as usize);
    let own = policy_walls::blocks_of(p, object);
    let bound = sessions::bound_to(s, user as usize);
    if blocks::between(own, bound) {
        return Err(Refusal::Wall);
    }
    if kind == CHECK {
        return Ok(());
    }
    let all = blocks::over(own, bound);
    sessions::set_bound_to(s, user as usize, all);
    Ok(())
}
