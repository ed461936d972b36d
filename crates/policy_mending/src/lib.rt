// Repairs a damaged policy file (02, Ask 12), in steps that each end at the next refused record.
#![tactic(auto)]

ghost use Rattle.std.specs.Prelude.{◌+◌, ◌≤◌, length};
ghost use Rattle.policy.specs.Reading.{policy_of};
ghost use Rattle.policy_mending.specs.Rest.{Kept, Ready, Found};

use policy::PolicyBuffer;
use replies::{Refusal, Reply};

// An entry of the report: the place of a dropped record, counted from 1, and its refusal.
#[repr(C)]
#[derive(Clone, Copy)]
pub struct Dropped {
    pub place: u64,
    pub reply: u64,
}

// Carries out one record and copies it to the output if it is accepted.
fn keep(input: &[u8], at: usize, output: &mut [u8], to: usize, p: &mut PolicyBuffer) -> Reply
    requires { (at + 16 ≤ length input.now) × (to + 16 ≤ length output.old) }
    ensures { Kept input.now at output.old to p.old output.new p.new result }
{
    let record = &input[at..at + 16];
    policy_loading::record(record, p)?;
    output[to..to + 16].copy_from_slice(record);
    Ok(())
}

// Continues after the first `place` records, of which `dropped` were dropped, up to the next record that is refused, and returns its place and refusal. The
// reply 0 means that no record is refused any more; the place is then the number of records kept.
pub fn next(
    input: &[u8],
    place: u64,
    dropped: usize,
    output: &mut [u8],
    p: &mut PolicyBuffer,
) -> Dropped
    requires { Ready place dropped input.now output.old p.old }
    ensures { Found place dropped input.now output.old (policy_of p.old) output.new (policy_of p.new) result }
{
    let whole = input.len() / 16;
    let first = place as usize;
    if whole < first {
        return Dropped {
            place: (first - dropped) as u64,
            reply: 0,
        };
    }
    for i in first..whole {
        if let Err(refusal) = keep(input, 16 * i, output, 16 * (i - dropped), p) {
            return Dropped {
                place: i as u64 + 1,
                reply: u64::from(refusal),
            };
        }
    }
    if 16 * whole < input.len() {
        return Dropped {
            place: whole as u64 + 1,
            reply: u64::from(Refusal::Shape),
        };
    }
    Dropped {
        place: (whole - dropped) as u64,
        reply: 0,
    }
}
