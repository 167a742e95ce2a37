// Who sends a message.

// Its connection, and the session, tree and process that the header names.
#[derive(Clone, Copy)]
pub struct Caller {
    pub connection: u32,
    pub uid: u16,
    pub tid: u16,
    pub process: u32,
}
