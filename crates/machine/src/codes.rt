// The bytes of 01, "Strings", that have a meaning.

// The end of a string and of an answer.
pub const CARRIAGE_RETURN: u8 = 13;

// The codes: two letters as one number. No enum: its codes would be read by this table again.
pub const WN: u16 = 0x574e;

pub const WS: u16 = 0x5753;

pub const PS: u16 = 0x5053;

pub const EE: u16 = 0x4545;

pub const ES: u16 = 0x4553;

pub const SA: u16 = 0x5341;

pub const SO: u16 = 0x534f;

pub const SC: u16 = 0x5343;

pub const QA: u16 = 0x5141;

pub const QS: u16 = 0x5153;

pub const QI: u16 = 0x5149;

pub const QO: u16 = 0x514f;

pub const QM: u16 = 0x514d;

pub const QC: u16 = 0x5143;

pub const QE: u16 = 0x5145;

pub const QR: u16 = 0x5152;
