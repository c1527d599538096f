//! Short texts by four or eight bytes at a time: whether two are the same, and their first and last bytes as numbers.

ghost use Rattle.std.specs.Prelude.{◌≡◌, ◌≤◌, ◌+◌, length, take, drop};
ghost use Rattle.std.specs.Str.{bytes_eq};
ghost use Rattle.cap_trace.specs.Code.Slots.{first_word, last_word};

/// So many bytes of a text, from this place on.
#[inline(always)]
fn bytes_at<const N: usize>(text: &[u8], from: usize) -> [u8; N]
    requires { from + N ≤ length text.now }
    ensures { result ≡ take N (drop from text.now) }
{
    let mut bytes = [0u8; N];
    bytes.copy_from_slice(&text[from..from + N]);
    bytes
}

/// The first bytes of a text as one number, and the last: eight bytes, or four or two of a shorter text.
#[inline(always)]
pub(crate) fn ends(text: &[u8]) -> (u64, u64)
    requires { 2 ≤ length text.now }
    ensures first { result.0 ≡ first_word text.now }
    ensures last { result.1 ≡ last_word text.now }
{
    let size = text.len();
    if size >= 8 {
        let (first, last) = (bytes_at(text, 0), bytes_at(text, size - 8));
        (u64::from_le_bytes(first), u64::from_le_bytes(last))
    } else if size >= 4 {
        let (first, last) = (bytes_at(text, 0), bytes_at(text, size - 4));
        let (first, last) = (u32::from_le_bytes(first), u32::from_le_bytes(last));
        (u64::from(first), u64::from(last))
    } else {
        let (first, last) = (bytes_at(text, 0), bytes_at(text, size - 2));
        let (first, last) = (u16::from_le_bytes(first), u16::from_le_bytes(last));
        (u64::from(first), u64::from(last))
    }
}

/// Whether a text is another, of 2 to 16 bytes: their sizes, and their first and last bytes.
#[inline(always)]
pub(crate) fn same_by_ends(left: &[u8], right: &[u8]) -> bool
    requires least { 2 ≤ length right.now }
    requires most { length right.now ≤ 16 }
    ensures { result ≡ bytes_eq left.now right.now }
{
    if left.len() != right.len() {
        return false;
    }
    let (first, last) = ends(left);
    let (other_first, other_last) = ends(right);
    first == other_first && last == other_last
}
