//! The numbers of nodes.

ghost use Rattle.std.specs.Prelude.{◌≡◌, ◌+◌, ◌^◌, ◌<◌};
ghost use Rattle.sample_world.specs.Joined.{sibling};

/// The number of the node beside node `r`, of the same height.
pub fn sibling(r: u32) -> u32
    requires { r + 1 < 2 ^ 32 }
    ensures { result ≡ sibling r }
{
    if r % 2 == 1 { r - 1 } else { r + 1 }
}
