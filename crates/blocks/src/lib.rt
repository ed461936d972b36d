// Blocks of walls (document 02, Ask 11): the block of each wall that an object stands in, or that a user is bound to, as two words (docs/STATE.md).
// The second word has four planes of sixteen bits, a bit for each wall, so that all walls are asked and joined at once.
#![tactic(auto)]

ghost use Rattle.std.specs.Prelude.{◌≡◌, ◌<◌};
ghost use Rattle.paper_lower.specs.Lists.{some_number_below};
ghost use Rattle.blocks.specs.Reading.{blocks_of, nowhere, only, spread, over, apart};

#[derive(Clone, Copy)]
pub struct Blocks {
    pub walls: u64,
    pub blocks: u64,
}

// A plane has a bit for each wall; the planes above the lowest stand so much higher.
const PLANE: u64 = 65536;

const SECOND: u64 = 65536;

const THIRD: u64 = 4294967296;

const FOURTH: u64 = 281474976710656;

// A bit in each plane: sixteen bits times this are the same bits in every plane.
const EVERY_PLANE: u64 = 281479271743489;

pub fn none() -> Blocks
    ensures { blocks_of result ≡ nowhere }
{
    Blocks {
        walls: 0,
        blocks: 0,
    }
}

// The blocks of a, and in the walls where a has none those of b.
pub fn over(a: Blocks, b: Blocks) -> Blocks
    ensures { blocks_of result ≡ over (blocks_of a) (blocks_of b) }
{
    let w = a.walls % PLANE;
    let mask = w * EVERY_PLANE;
    Blocks {
        walls: w | (b.walls % PLANE),
        blocks: (a.blocks & mask) | (b.blocks ^ (b.blocks & mask)),
    }
}

// A number times this stands beside itself, 15, 30 and 45 places higher.
const FOURFOLD: u64 = 35185445863425;

// Bit k of a block's number at the lowest place of plane k: the number fourfold has it there.
fn spread(block: u64) -> u64
    requires { block < 16 }
    ensures { result ≡ spread block }
{
    (block * FOURFOLD) & EVERY_PLANE
}

fn single(wall: u64, block: u64) -> Blocks
    requires { (wall < 16) × (block < 16) }
    ensures { blocks_of result ≡ only wall block }
{
    Blocks {
        walls: 1 << wall,
        blocks: spread(block) << wall,
    }
}

// One block more, unless its wall has one.
pub fn with(b: Blocks, wall: u64, block: u64) -> Blocks
    requires { (wall < 16) × (block < 16) }
    ensures { blocks_of result ≡ over (blocks_of b) (only wall block) }
{
    over(b, single(wall, block))
}

// Whether some wall has a block in both, and not the same.
pub fn between(a: Blocks, b: Blocks) -> bool
    ensures { result ≡ some_number_below 16 (apart (blocks_of a) (blocks_of b)) }
{
    let both = (a.walls % PLANE) & (b.walls % PLANE);
    let d0 = (a.blocks % PLANE) ^ (b.blocks % PLANE);
    let d1 = (a.blocks / SECOND % PLANE) ^ (b.blocks / SECOND % PLANE);
    let d2 = (a.blocks / THIRD % PLANE) ^ (b.blocks / THIRD % PLANE);
    let d3 = (a.blocks / FOURTH % PLANE) ^ (b.blocks / FOURTH % PLANE);
    (d0 | d1 | d2 | d3) & both != 0
}
