//! A layout.
use par_base::List;

/// The operators that are stored on their target side, by ascending number. What allocates keeps
/// the order; a layout of another order has the same operators.
#[derive(Drop)]
pub struct Layout {
    pub operators: List<u32>,
}
