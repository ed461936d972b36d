// The lower part alone for C and Rust, as include/mishantral.h declares it: policy, sessions and checks, without orders. Each function here calls the
// library's function of that name, and its contract is that function's.
#![tactic(auto)]

ghost use Rattle.std.specs.Prelude.{◌≡◌};
ghost use Rattle.policy.specs.Reading.{policy_of};
ghost use Rattle.lower.specs.Exports.{LoadExported, RequestExported, words_of};
ghost use Rattle.policy_writing.specs.Answers.{fit, Exported};

// The load: the reply + 256 times the place.
#[unsafe(no_mangle)]
pub extern "C" fn mishantral_lower_load(
    bytes: &[u8],
    policy: &mut [u64],
    sessions: &mut [u64],
) -> u64
    ensures { LoadExported bytes.now policy.old sessions.old policy.new sessions.new result }
{
    lower::mishantral_lower_load(bytes, policy, sessions)
}

// One request: the reply.
#[unsafe(no_mangle)]
pub extern "C" fn mishantral_lower_request(
    bytes: &[u8],
    policy: &mut [u64],
    sessions: &mut [u64],
) -> u64
    ensures { RequestExported bytes.now policy.old sessions.old policy.new sessions.new result }
{
    lower::mishantral_lower_request(bytes, policy, sessions)
}

// The length in words of a buffer: 0 for the policy, 1 for the sessions; 0 for any other number.
#[unsafe(no_mangle)]
pub extern "C" fn mishantral_lower_words(group: u64) -> u64
    ensures { result ≡ words_of group }
{
    lower::mishantral_lower_words(group)
}

// The policy written out as records: the reply + 256 times the number of records.
#[unsafe(no_mangle)]
pub extern "C" fn mishantral_lower_write(output: &mut [u8], policy: &[u64], sessions: &[u64]) -> u64
    ensures { Exported (fit policy.now sessions.now) (policy_of policy.now) output.old output.new result }
{
    policy_writing::mishantral_lower_write(output, policy, sessions)
}
