// What a C program calls of the crate calls_plan: each of its functions, with the same clauses.

#![tactic(auto)]

ghost use Rattle.std.specs.Prelude.{◌≡◌};
ghost use Rattle.hall.specs.Answers.{racks_of};
ghost use Rattle.hall.specs.Halls.{hall_of};
ghost use Rattle.hall.specs.Rooms.{told, written};
ghost use Rattle.plan.specs.Answers.{is_fitted, fitted_servers, next_prefix};
ghost use Rattle.calls_plan.specs.Outcomes.{of_prefix};

#[unsafe(no_mangle)]
pub extern "C" fn calls_racks(n: u32, k: u32) -> u32
    ensures { result ≡ racks_of n k }
{
    calls_plan::calls_racks(n, k)
}

#[unsafe(no_mangle)]
pub extern "C" fn calls_next_prefix(n: u32, k: u32, b: u32, count: u32, room: &mut [u32]) -> u32
    ensures number { result ≡ told (of_prefix (next_prefix (hall_of n k b count))) room.old }
    ensures room { room.new ≡ written (of_prefix (next_prefix (hall_of n k b count))) room.old }
{
    calls_plan::calls_next_prefix(n, k, b, count, room)
}

#[unsafe(no_mangle)]
pub extern "C" fn calls_is_fitted(n: u32, k: u32, b: u32, count: u32, uid: u32) -> bool
    ensures { result ≡ is_fitted (hall_of n k b count) uid }
{
    calls_plan::calls_is_fitted(n, k, b, count, uid)
}

#[unsafe(no_mangle)]
pub extern "C" fn calls_fitted_servers(n: u32, k: u32, b: u32, count: u32, uid: u32) -> u32
    ensures { result ≡ fitted_servers (hall_of n k b count) uid }
{
    calls_plan::calls_fitted_servers(n, k, b, count, uid)
}
