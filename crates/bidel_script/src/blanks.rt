//! White space and comments in front of some bytes.
ghost use Rattle.std.specs.Prelude.{◌≡◌, ◌≤◌, ◌∷◌, ℕ, List, drop, length};
ghost use Rattle.bidel_lex.specs.Classes.{is_space};
ghost use Rattle.bidel_script.specs.Tails.{begins_comment, first_byte, is_open_behind};

/// How far white space and comments go.
#[derive(Clone, Copy)]
pub struct Blanks {
    /// The place of the first byte that is neither.
    pub upto: usize,
    /// Whether the bytes end within a comment.
    pub inside: bool,
}

fn is_space_byte(byte: u8) -> bool
    ensures { result ≡ is_space byte }
{
    match byte {
        b' ' | b'\t' | b'\r' | b'\n' => true,
        _ => false,
    }
}

// Whether a comment begins with these bytes.
fn is_comment_next(bytes: &[u8]) -> bool
    ensures { (b : ℕ) (rest : List ℕ) → bytes.now ≡ b ∷ rest → result ≡ begins_comment b rest }
{
    match bytes {
        [b'-', b'-', ..] => true,
        _ => false,
    }
}

/// Passes white space and comments from a place on; `inside` says that a comment is open there.
pub fn pass_blanks(bytes: &[u8], from: usize, inside: bool) -> Blanks
    requires { from ≤ length bytes.now }
    ensures upto { result.upto ≡ first_byte inside from (drop from bytes.now) }
    ensures inside { result.inside ≡ is_open_behind inside (drop from bytes.now) }
{
    let mut open = inside;
    for at in from..bytes.len() {
        let byte = bytes[at];
        if open {
            open = byte != b'\n';
        } else if is_comment_next(&bytes[at..]) {
            open = true;
        } else if !is_space_byte(byte) {
            return Blanks {
                upto: at,
                inside: false,
            };
        }
    }
    Blanks {
        upto: bytes.len(),
        inside: open,
    }
}
