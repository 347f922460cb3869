//! How many keys refer to a row.
//!
//! In the order of keys those that refer to one row stand side by side.
ghost use Rattle.std.specs.Prelude.{◌≡◌};
ghost use Rattle.key_index.specs.Tables.{refers_to, refs_to};
ghost use Rattle.key_index.specs.inner.Entries.{keys_by_id, HaveOneEach};

use crate::keyed::{From, Keyed};
use ordered_pages::Pages;
use par_base::Value;

/// Whether the first value of the key is the reference to the identifier.
fn is_reference(key: &[Value], id: u64) -> bool
    ensures { result ≡ refers_to key.now id }
{
    match key.first() {
        Some(Value::Reference(to)) => *to == id,
        _ => false,
    }
}

/// How many keys refer to the identifier. They stand side by side, so no others are gone over.
pub(crate) fn counted(pages: &Pages<Keyed>, id: u64) -> usize
    requires { HaveOneEach pages.now.entries }
    ensures { result ≡ refs_to (keys_by_id pages.now.entries) id }
{
    // The number of keys bounds the count.
    let _ = pages.len();
    let reference = [Value::Reference(id)];
    let mut count = 0;
    for keyed in pages.iter_from(&From {
        key: &reference,
        id: 0,
    }) {
        if !is_reference(keyed.key.as_slice(), id) {
            return count;
        }
        count += 1;
    }
    count
}
