// The marks: two ASCII letters that begin each value of a sheet. Byte strings and no enum: a kind from outside brings a mark of its own.

pub const N1: &[u8; 2] = b"N1";

pub const N2: &[u8; 2] = b"N2";

pub const N4: &[u8; 2] = b"N4";

pub const N8: &[u8; 2] = b"N8";

pub const BO: &[u8; 2] = b"BO";

pub const CH: &[u8; 2] = b"CH";

pub const TX: &[u8; 2] = b"TX";

pub const TI: &[u8; 2] = b"TI";

pub const RP: &[u8; 2] = b"RP";

pub const AN: &[u8; 2] = b"AN";

pub const AR: &[u8; 2] = b"AR";

pub const SL: &[u8; 2] = b"SL";
