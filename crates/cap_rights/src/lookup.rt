//! The row of a name in the table, found without trying one row after the other.
//!
//! Five bytes of a name tell it from all others: weighed and added up they give each name of the table a slot of its
//! own among 256. The weights were found by trial; that no two names share a slot is proved over the whole table.

ghost use Rattle.std.specs.Prelude.{◌≡◌, ◌<◌, Some, IfSome, ℕ, length};
ghost use Rattle.cap_rights.specs.Names.{name_at};

/// The row of the name that falls on a slot. On most slots none falls, and the row is then any.
static ROW_AT: [u8; 256] = [
    0, 0, 0, 51, 9, 0, 64, 10, 48, 0, 0, 69, 0, 0, 0, 46, 21, 38, 67, 0, 0, 3, 0, 0, 0, 0, 49, 0,
    70, 0, 0, 43, 22, 71, 0, 0, 0, 0, 0, 53, 78, 0, 0, 42, 32, 56, 65, 76, 0, 0, 0, 54, 0, 0, 72,
    0, 0, 62, 0, 0, 0, 0, 39, 0, 0, 23, 0, 74, 0, 59, 0, 57, 0, 0, 0, 0, 58, 0, 25, 61, 63, 0, 0,
    55, 0, 0, 12, 0, 0, 0, 0, 60, 66, 0, 0, 20, 0, 0, 0, 0, 0, 0, 0, 68, 0, 0, 0, 0, 6, 0, 0, 35,
    0, 0, 0, 0, 0, 44, 0, 0, 4, 27, 0, 11, 0, 26, 31, 0, 0, 16, 0, 0, 0, 0, 13, 0, 0, 0, 0, 45, 0,
    5, 0, 0, 0, 0, 0, 0, 0, 0, 0, 0, 0, 0, 41, 0, 0, 0, 0, 50, 33, 0, 0, 0, 0, 19, 0, 0, 0, 0, 0,
    0, 77, 34, 24, 0, 0, 73, 0, 29, 52, 0, 0, 0, 0, 75, 0, 0, 0, 0, 0, 18, 0, 0, 0, 1, 40, 0, 47,
    0, 0, 30, 2, 0, 0, 0, 0, 0, 14, 0, 0, 0, 0, 0, 0, 0, 0, 0, 0, 0, 0, 0, 8, 0, 0, 0, 0, 0, 36, 0,
    7, 0, 28, 17, 0, 0, 0, 15, 0, 0, 0, 0, 0, 0, 0, 0, 0, 0, 0, 37, 0, 0, 0, 0, 0, 0,
];

/// The only row of the table whose name these bytes can be.
pub(crate) fn row_of(word: &[u8]) -> Option<usize>
    ensures in_range { IfSome result (λ row. row < 79) }
    ensures only { (row : ℕ) → row < 79 → name_at row ≡ word.now → result ≡ Some row }
{
    let length = word.len();
    if length < 8 {
        return None;
    }
    let fifth = usize::from(word[4]);
    let middle = usize::from(word[length / 2]);
    let last = usize::from(word[length - 1]);
    let last_but_one = usize::from(word[length - 2]);
    let last_but_two = usize::from(word[length - 3]);
    let slot = fifth * 27 + middle * 58 + last * 17 + last_but_one + last_but_two * 63;
    Some(usize::from(ROW_AT[slot % 256]))
}
