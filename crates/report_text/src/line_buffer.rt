//! Lines, spelled before the writer is asked to take them: their parts cost less here than at a
//! writer.
use txn_bytes::Bytes;

/// The bytes of the longest line of an entry: a session's label, the number of a line, `set` with a
/// name, a key and a value, and an answer that names another transaction.
const MOST_BYTES: usize = 640;

/// The bytes of a line, as far as they are spelled. It takes no memory.
pub(crate) type LineBuffer = Bytes<MOST_BYTES>;

/// Lines that the writer has not been asked to take, some twenty-five of them. It takes no memory. The
/// room is cleared for each request of a live run too, so there is no more of it.
pub(crate) type LineBatch = Bytes<1024>;
