//! The places of a row that a list leaves out.
ghost use Rattle.std.specs.Prelude.{◌≡◌, IfOk};
ghost use Rattle.row_parts.specs.Places.{has_place as has};
ghost use Rattle.op_key_join.specs.OtherPlaces.{others as others_of};

use par_base::{List, Memory};
use std::alloc::Global;

/// Whether a place is listed.
fn has_place(places: &[usize], place: usize) -> bool
    ensures { result ≡ has places.now place }
{
    for listed in places {
        if *listed == place {
            return true;
        }
    }
    false
}

/// The places below a width that aren't listed, ascending. It takes time in the product of both, of
/// which a table has at most 64.
pub(crate) fn others(alloc: Global, places: &[usize], width: usize) -> Result<List<usize>, Memory>
    ensures { IfOk result (λ made. made ≡ others_of places.now width) }
{
    let mut made = List::new(alloc);
    for place in 0..width {
        if !has_place(places, place) {
            made.push(place)?;
        }
    }
    Ok(made)
}
