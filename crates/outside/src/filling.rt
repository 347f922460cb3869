//! Filling a buffer from bytes in memory.
ghost use Rattle.std.specs.Prelude.{◌≡◌, ◌<◌, ◌≤◌, [], length, take, Some};
ghost use Rattle.outside.specs.FileTold.{ReadsFile};

/// Copies first bytes to the front of the buffer, at most `most` of them, and answers how many.
pub(crate) fn fill(buf: &mut [u8], bytes: &[u8], most: usize) -> usize
    requires room { 0 < length buf.old }
    requires some { 0 < most }
    ensures bound { result ≤ length buf.new }
    ensures within { result ≤ length bytes.now }
    ensures most { result ≤ most }
    ensures copied { take result buf.new ≡ take result bytes.now }
    ensures end { result ≡ 0 → bytes.now ≡ [] }
{
    let count = bytes.len().min(buf.len()).min(most);
    buf[..count].copy_from_slice(&bytes[..count]);
    count
}

/// Copies the bytes of a file from an offset on, as `fill` does.
pub(crate) fn fill_from(buf: &mut [u8], file: &[u8], offset: u64, most: usize) -> usize
    requires room { 0 < length buf.old }
    requires some { 0 < most }
    ensures bound { result ≤ length buf.new }
    ensures reads { ReadsFile (Some (Some file.now)) offset (take result buf.new) }
{
    let start = offset.min(file.len() as u64) as usize;
    fill(buf, &file[start..], most)
}
