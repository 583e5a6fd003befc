// An answer told by its refusal's number and by its values in lent room.

#![tactic(auto)]

ghost use Rattle.std.specs.Prelude.{◌≡◌};
ghost use Rattle.hall.specs.Rooms.{told, written};

use hall::refusals::Refusal;

// An answer: its refusal, and where there is none its values at the start of the room, and 0; or the number of a short room, and the room as lent.
pub fn tell<T: Copy>(number: u32, values: &[T], room: &mut [T]) -> u32
    ensures number { result ≡ told (number, values.now) room.old }
    ensures room { room.new ≡ written (number, values.now) room.old }
{
    if number != 0 {
        return number;
    }
    if room.len() < values.len() {
        return Refusal::ShortRoom.number();
    }
    // One value after the other: `copy_from_slice` first puts few values to memory, and looks whether the two overlap.
    for (i, value) in values.iter().enumerate() {
        room[i] = *value;
    }
    0
}
