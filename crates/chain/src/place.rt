// Where fields stand, from a block's start: document 01, "Words after AndX"; document 02, CR 3 and CR 6; specs/Layout.antt has the same places.
pub(crate) const FID: usize = 5;

pub(crate) const LOCK_TYPE: usize = 7;

pub(crate) const UNLOCKS: usize = 13;

pub(crate) const LOCKS: usize = 15;

pub(crate) const LOCKING_BYTE_COUNT: usize = 17;

pub(crate) const OFFSET: usize = 7;

pub(crate) const READ_MAX: usize = 11;

pub(crate) const READ_OFFSET_HIGH: usize = 21;

pub(crate) const WRITE_LENGTH: usize = 21;

pub(crate) const WRITE_DATA_OFFSET: usize = 23;

pub(crate) const WRITE_OFFSET_HIGH: usize = 25;

// Without AndX the FID is the first word.
pub(crate) const FIRST_FID: usize = 1;

// The core READ and WRITE (document 02, CR 3), and the data block in a WRITE's bytes: a block of 5 words has them 13 places behind
// its start.
pub(crate) const CORE_COUNT: usize = 3;

pub(crate) const CORE_OFFSET: usize = 5;

pub(crate) const CORE_WRITE_BYTE_COUNT: usize = 11;

pub(crate) const DATA_MARK: usize = 13;

pub(crate) const MARKED_LENGTH: usize = 14;

pub(crate) const MARKED_DATA: usize = 16;

// LOCK_BYTE_RANGE and UNLOCK_BYTE_RANGE.
pub(crate) const RANGE_LENGTH: usize = 3;

pub(crate) const RANGE_OFFSET: usize = 7;

// OPEN (document 02, CR 6), and its name: a block of 15 words has its bytes 33 places behind its start.
pub(crate) const OPEN_FLAGS: usize = 5;

pub(crate) const ACCESS_MODE: usize = 7;

pub(crate) const OPEN_MODE: usize = 17;

pub(crate) const OPEN_NAME: usize = 33;
