// Nodes in place, counted. Past the end of the file there are none.
ghost use Rattle.std.specs.Prelude.{◌≡◌};
ghost use Rattle.taskfile.specs.WalkInPlace.{node_count};

use facts::number::byte_at;
use partial::length_at;

// The number of nodes of the action at an offset.
pub fn node_count(file: &[u8], at: usize) -> u8
    ensures { result ≡ node_count file.now at }
{
    if file.len() < at {
        return 0;
    }
    let effect = at + length_at(file, at);
    let incoming = effect + length_at(file, effect);
    byte_at(file, incoming + 2)
}
