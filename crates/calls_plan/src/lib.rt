// The calls about the DCell1s of a hall, which is fitted one by one, for a caller outside of Rattle, on plain numbers and slices.

#![tactic(auto)]

ghost use Rattle.std.specs.Prelude.{◌≡◌};
ghost use Rattle.hall.specs.Answers.{racks_of};
ghost use Rattle.hall.specs.Halls.{hall_of};
ghost use Rattle.hall.specs.Rooms.{told, written};
ghost use Rattle.plan.specs.Answers.{is_fitted, fitted_servers, next_prefix};
ghost use Rattle.calls_plan.specs.Outcomes.{of_prefix};

use hall::Hall;
use rooms::tell;

pub fn calls_racks(n: u32, k: u32) -> u32
    ensures { result ≡ racks_of n k }
{
    hall::racks_of(n, k)
}

pub fn calls_next_prefix(n: u32, k: u32, b: u32, count: u32, room: &mut [u32]) -> u32
    ensures number { result ≡ told (of_prefix (next_prefix (hall_of n k b count))) room.old }
    ensures room { room.new ≡ written (of_prefix (next_prefix (hall_of n k b count))) room.old }
{
    match plan::next_prefix(Hall { n, k, b, count }) {
        Ok(entries) => tell(0, &entries, room),
        Err(refusal) => refusal.number(),
    }
}

pub fn calls_is_fitted(n: u32, k: u32, b: u32, count: u32, uid: u32) -> bool
    ensures { result ≡ is_fitted (hall_of n k b count) uid }
{
    plan::is_fitted(Hall { n, k, b, count }, uid)
}

pub fn calls_fitted_servers(n: u32, k: u32, b: u32, count: u32, uid: u32) -> u32
    ensures { result ≡ fitted_servers (hall_of n k b count) uid }
{
    plan::fitted_servers(Hall { n, k, b, count }, uid)
}
