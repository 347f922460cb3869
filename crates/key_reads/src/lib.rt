//! One row of a database, read by kept keys.
//!
//! It promises the crates above the row of an identifier in a live table. Where operators on foreign
//! keys or on conditions stand between the table and storage, and the keys of their tables are kept, it
//! reads the rows that hang together with this one by these keys and by the memories of pairs, and no
//! others. It never changes keys, and knows operators by their laws alone.
#![tactic(auto)]

mod asked;

pub use asked::row_by_keys;
