// The block of each wall that an object stands in (document 02, Ask 11), found by the object's bucket of rows alone.
// It rests on the rows of walls in the policy buffer and on blocks of walls.
#![tactic(auto)]

ghost use Rattle.std.specs.Prelude.{◌≡◌, ◌+◌, ◌<◌};
ghost use Rattle.paper_lower.specs.Policy.{block_of};
ghost use Rattle.blocks.specs.Reading.{blocks_of, over};
ghost use Rattle.policy.specs.Layout.{wall_count};
ghost use Rattle.policy.specs.Reading.{policy_of};
ghost use Rattle.policy_walls.specs.Found.{blocks_from, rows_block};

use blocks::Blocks;
use policy::PolicyBuffer;

// Row k's block too, if the row is about the object and one of the kept ones.
fn with_row(p: &PolicyBuffer, object: u64, k: usize, count: usize, b: Blocks) -> Blocks
    requires { (k < 256) × (count ≡ wall_count p.now) }
    ensures { blocks_of result ≡ over (blocks_of b) (rows_block p.now object k) }
{
    if (count <= k) | !policy::walled_is(p, k, object) {
        return b;
    }
    blocks::with(b, policy::walled_wall(p, k), policy::walled_block(p, k))
}

// The blocks by the rows 64 part to 64 part + 63 too, in policy order.
fn with_part(p: &PolicyBuffer, object: u64, part: usize, count: usize, b: Blocks) -> Blocks
    requires { (object < 65536) × ((part < 4) × (count ≡ wall_count p.now)) }
    ensures { over (blocks_of result) (blocks_from p.now object (part + 1)) ≡ over (blocks_of b) (blocks_from p.now object part) }
{
    let mut left = policy::wall_rows(p, object, part);
    let mut all = b;
    while let Some(t) = left.take_least() {
        all = with_row(p, object, 64 * part + t as usize, count, all);
    }
    all
}

// The object's block in each wall that has it.
pub fn blocks_of(p: &PolicyBuffer, object: u64) -> Blocks
    requires { object < 65536 }
    ensures { blocks_of result ≡ block_of (policy_of p.now).walls object }
{
    let count = policy::wall_count(p);
    let mut all = blocks::none();
    for part in 0..count.div_ceil(64) {
        all = with_part(p, object, part, count, all);
    }
    all
}
