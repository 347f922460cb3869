//! The line and the column of a byte.
ghost use Rattle.std.specs.Prelude.{◌≡◌, ◌+◌, ◌^◌, ◌<◌, length};
ghost use Rattle.bidel_script.specs.Places.{behind_all, start};
ghost use Rattle.bidel_script.specs.Calls.{place_view};

/// A line, and a column in bytes, each counted from 1.
#[derive(Clone, Copy)]
pub struct Place {
    pub line: usize,
    pub column: usize,
}

/// The place behind some bytes that begin at a place.
pub fn place_from(from: Place, bytes: &[u8]) -> Place
    requires line { from.line + length bytes.now < 2 ^ 64 }
    requires column { from.column + length bytes.now + 1 < 2 ^ 64 }
    ensures line { result.line ≡ (behind_all (place_view from) bytes.now).line }
    ensures column { result.column ≡ (behind_all (place_view from) bytes.now).column }
{
    let mut line = from.line;
    let mut column = from.column;
    for byte in bytes {
        if *byte == b'\n' {
            line += 1;
            column = 1;
        } else {
            column += 1;
        }
    }
    Place { line, column }
}

/// The place behind some bytes from the first one on.
pub fn place_behind(bytes: &[u8]) -> Place
    ensures line { result.line ≡ (behind_all start bytes.now).line }
    ensures column { result.column ≡ (behind_all start bytes.now).column }
{
    place_from(Place { line: 1, column: 1 }, bytes)
}
