// Whether a text fits.
ghost use Rattle.std.specs.Prelude.{◌≡◌};
ghost use Rattle.answers.specs.Write.{has_room};

// No line but a node's has more bytes.
pub const LONGEST: usize = 32;
// No node's line has more.
pub const LONGEST_NODE: usize = 400;

// Whether `room` of `size` bytes are left from `at` on.
pub fn has_room(size: usize, at: usize, room: usize) -> bool
    ensures { result ≡ has_room room size at }
{
    room <= size && at <= size - room
}
