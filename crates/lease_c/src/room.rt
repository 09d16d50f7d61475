ghost use Rattle.std.specs.Prelude.{◌≡◌, ◌<◌, ◌≤◌, ◌++◌, length, take, drop};

/// Writes all of the message to the front of the room, or nothing; gives how long the message is.
pub(crate) fn fill(room: &mut [u8], message: &[u8]) -> usize
    ensures length { result ≡ length message.now }
    ensures written { length message.now ≤ length room.old → room.new ≡ message.now ++ drop (length message.now) room.old }
    ensures front { length message.now ≤ length room.old → take (length message.now) room.new ≡ message.now }
    ensures no_room { length room.old < length message.now → room.new ≡ room.old }
{
    if message.len() <= room.len() {
        room[..message.len()].copy_from_slice(message);
    }
    message.len()
}
