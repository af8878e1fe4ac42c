// The function codes (paper 01, "Command packets"; paper 02, A2). Kept as numbers: they are bytes of packets, and an unknown one is a number too.
pub const DUMP: u8 = 0;

pub const CANCEL: u8 = 1;

pub const LOAD: u8 = 4;

pub const POOL: u8 = 7;

pub const VALUE: u8 = 8;

pub const NAMED_DUMP: u8 = 9;
