// Rooms for the longest frames. Their lengths are all that is said of them.
ghost use Rattle.std.specs.Prelude.{◌≡◌, length};

// For the longest frame that is read.
pub fn room() -> [u8; 1048576]
    ensures { 1048576 ≡ length result }
{
    [0; 1048576]
}

// For the longest answer, with its length, number and place before it.
pub fn answer_room() -> [u8; 1048585]
    ensures { 1048585 ≡ length result }
{
    [0; 1048585]
}
