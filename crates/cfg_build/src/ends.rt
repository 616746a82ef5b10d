// Targets of the ends of blocks.
ghost use Rattle.std.specs.Prelude.{◌≡◌, ◌↔◌, ℕ, Some};
ghost use Rattle.rv_code.specs.layout.Blocks.{EndsBlock};
ghost use Rattle.rv_code.specs.layout.Flow.{target_of};

use rv_code::Placed;
use rv_code::flow::{ends_block, target};

/// The target of `inst`, if it is a direct branch or jump that ends a block.
pub fn jump_target(inst: &Placed) -> Option<u64>
    ensures { (a : ℕ) → (result ≡ Some a) ↔ (EndsBlock inst.now × (target_of inst.now ≡ Some a)) }
{
    if !ends_block(inst) {
        return None;
    }
    target(inst.addr, &inst.inst)
}
