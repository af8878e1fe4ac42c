// How many bytes the packet of each command has: eight, and its body.
pub const DUMP: usize = 16;

pub const CANCEL: usize = 10;

pub const LOAD: usize = 60;

pub const POOL: usize = 12;

pub const VALUE: usize = 60;

pub const NAMED_DUMP: usize = 68;
