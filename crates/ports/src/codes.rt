// The port codes that code tells apart: 0 (not fitted), 2 (down) and 3 (silent past its timeout) are known too, all other values unknown.

// The one code that counts as up.
pub const UP: u8 = 1;
// Held for tests; the highest code that is known.
pub const HELD: u8 = 4;
