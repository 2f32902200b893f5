ghost use Rattle.lines.specs.Drafts.{HasRoom, Puts};

use arrayvec::ArrayString;
use itoa::{Buffer, Integer};

/// A line that is being written: it goes to the caller's buffer only once it is whole.
pub(crate) type Draft = ArrayString<32>;

/// Puts a number in base ten.
pub(crate) fn put_number<I: Integer>(draft: &mut Draft, number: I)
    requires { HasRoom draft.old I.MAX_STR_LEN }
    ensures { Puts draft.old draft.new (I.text number) I.MAX_STR_LEN }
{
    draft.push_str(Buffer::new().format(number));
}
