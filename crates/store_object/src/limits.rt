// The limits of the store. This project's own.

/// How much the heap takes at most: for each object its words and `OBJECT_COST` besides.
pub const HEAP_LIMIT: u64 = 4_194_304;

/// What an object takes of the heap besides its words.
pub const OBJECT_COST: u64 = 2;

/// How many threads are started at most in a run, thread 0 included.
pub const THREAD_LIMIT: usize = 64;

/// The index of a word lies below this number, in objects and among static words alike.
pub const INDEX_LIMIT: u32 = 16_777_216;
