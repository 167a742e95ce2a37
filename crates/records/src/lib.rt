// The tables of the gateway (document 01, "Tables and room"): plain records in arrays of fixed room,
// each array with a count of the records that are in use, which stand first: the core has no heap, and the theorems' `Tables` is this
// record. What is one of a few kinds, as a right or an access, is a number here: the host's words may hold any, and `tables_of` reads
// each as it stands.
#![tactic(auto)]

// A session: the user number given at login, and the connection it belongs to.
#[derive(Clone, Copy)]
pub struct Session {
    pub uid: u16,
    pub connection: u32,
}

// A connected tree of a session: right 0 is read, 1 is read and write.
#[derive(Clone, Copy)]
pub struct Tree {
    pub tid: u16,
    pub uid: u16,
    pub right: u8,
}

// An open file: access 0 is read, 1 is write, 2 is both; sharing is what it denies to others (document 02, CR 6): 1 both, 2 write,
// 3 read, 4 nothing; whether it has read, and the file's change number at its last granted read (CR 8), 0 in a new open.
#[derive(Clone, Copy)]
pub struct Open {
    pub fid: u16,
    pub uid: u16,
    pub tid: u16,
    pub process: u32,
    pub file: u8,
    pub access: u8,
    pub sharing: u8,
    pub read: bool,
    pub seen: u64,
}

// A byte-range lock. The locks of the table stand in order of grant.
#[derive(Clone, Copy)]
pub struct Lock {
    pub fid: u16,
    pub process: u32,
    pub offset: u64,
    pub length: u64,
    pub shared: bool,
}

// A file: how many of its 4,096 bytes in the file memory count, and how often it was changed, as far as 32 bits count (document 02, CR 8: "a 32-bit change number"). Soundness
// keeps both within their limits, 4,096 and 4,294,967,295.
#[derive(Clone, Copy)]
pub struct File {
    pub size: usize,
    pub changes: u64,
}

// A name of the catalogue (document 02, CR 6): the first `length` bytes of its text, and the file that it names.
#[derive(Clone, Copy)]
pub struct Name {
    pub length: u8,
    pub text: [u8; 12],
    pub file: u8,
}

// All tables.
#[derive(Clone, Copy)]
pub struct Tables {
    pub sessions: [Session; 16],
    pub nsessions: usize,
    pub trees: [Tree; 32],
    pub ntrees: usize,
    pub opens: [Open; 64],
    pub nopens: usize,
    pub locks: [Lock; 128],
    pub nlocks: usize,
    pub files: [File; 16],
    pub names: [Name; 16],
    pub nnames: usize,
}
