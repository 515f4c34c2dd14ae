// The bounds of the rules, each with what it bounds.

// Networks are PLMN-Ids of 24 bits: each is below this.
pub const NETWORKS: u32 = 16_777_216;

// NE-Ids have six octets: each is below this.
pub const NE_IDS: u64 = 281_474_976_710_656;

// Readings of the clock have 48 bits: each is below this.
pub const READINGS: u64 = 281_474_976_710_656;

// How many ticks the window goes back and ahead at most.
pub const MOST_BACK: u64 = 6_000;

pub const MOST_AHEAD: u64 = 600;

// How many identifiers a protected list has at most, and how many profile lines there are.
pub const MOST_LISTED: usize = 64;

pub const MOST_LINES: usize = 64;

// How many octets a cleartext has at most.
pub const LONGEST_CLEARTEXT: usize = 1_024;

// How many ticks above the reading a hard expiry lies at most.
pub const LONGEST_LIFE: u64 = 2_147_483_648;

// How many components are protected at one reading at most.
pub const PROTECTED_AT_ONCE: u32 = 200;
