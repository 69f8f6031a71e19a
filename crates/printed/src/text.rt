// Text in place, made by pushes that cannot fail, since the room that they need is known before.
// `impl Display` and `write!` would be plainer. Tried: into an `ArrayString`, into a writer of our own without any error, and by
// `fmt::InlineText`; the proof didn't close, since by its clauses a `write!` may fail at any time, and `print_sheet` may not.
ghost use Rattle.std.specs.Prelude.{◌≡◌, ◌+◌, ◌<◌, ◌≤◌, [], ◌∷◌, ◌++◌};
ghost use Rattle.arrayvec.specs.ArrayString.{array_string_len};

use arrayvec::ArrayString;
use itoa::{Buffer, Integer};

// A whole sheet.
pub(crate) type Text = ArrayString<4830>;

// A line with the newline at its end.
pub(crate) type LineText = ArrayString<26>;

// Appends a number and one more character.
pub(crate) fn put_number<I: Integer>(line: &mut LineText, n: I, behind: char)
    requires ascii { behind < 128 }
    requires room { array_string_len line.old + I.MAX_STR_LEN + 1 ≤ 26 }
    ensures bytes { line.new.bytes ≡ line.old.bytes ++ (I.text n ++ behind ∷ []) }
    ensures len { array_string_len line.new ≤ array_string_len line.old + I.MAX_STR_LEN + 1 }
{
    line.push_str(Buffer::new().format(n));
    line.push(behind);
}
