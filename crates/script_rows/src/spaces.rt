//! A source that makes its bytes and keeps none.
ghost use Rattle.std.specs.Prelude.{None};

use outside::{Failed, Source};

/// So many spaces are left.
#[derive(Drop)]
pub struct Spaces {
    pub left: u64,
}

impl Source for Spaces {
    ghost left = { λ source. None };

    ghost faults = { λ source. 0 };

    fn take(&mut self, buf: &mut [u8]) -> Result<usize, Failed> {
        let count = self.left.min(buf.len() as u64);
        buf[..count as usize].fill(b' ');
        self.left -= count;
        Ok(count as usize)
    }
}
