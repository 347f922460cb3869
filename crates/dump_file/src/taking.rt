//! The lines of a dump, taken one after the other.
ghost use Rattle.std.specs.Prelude.{◌≡◌};
ghost use mathlib.Core.List.{reverse};
ghost use Rattle.dump_file.specs.inner.Filled.{behind, comes as comes_lem, front};

use par_base::List;

/// The lines, the last one first, so that the first one can be taken out without a move.
pub(crate) fn last_first<T>(lines: List<(u32, T)>) -> Vec<(u32, T)>
    ensures { result.items ≡ reverse lines }
{
    let mut left = lines.into_vec();
    left.as_mut_slice().reverse();
    left
}

/// Whether the next line stands under this number.
fn comes<T>(left: &[(u32, T)], number: u32) -> bool
    ensures { result ≡ comes_lem number (reverse left.now) }
{
    match left.last() {
        Some(line) => number == line.0,
        None => false,
    }
}

/// Takes the next line out, where it stands under this number.
pub(crate) fn take_line<T>(left: &mut Vec<(u32, T)>, number: u32) -> Option<T>
    ensures value { result ≡ front number (reverse left.old.items) }
    ensures left { reverse left.new.items ≡ behind number (reverse left.old.items) }
{
    if !comes(left.as_slice(), number) {
        return None;
    }
    match left.pop() {
        Some((_, value)) => Some(value),
        None => None,
    }
}
