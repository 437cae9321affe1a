// Classes of the blocks of a text: two blocks of one width have one class exactly when their bytes are equal.
ghost use Rattle.std.specs.Prelude.{◌+◌, ◌≤◌, length, get_or};
ghost use Rattle.names.specs.Spans.{Written, Blocks, Widens};

use crate::pairs::pair_classes;

// The bytes of a text as classes of width 1.
pub(crate) fn bytes(text: &[u8], classes: &mut [u16])
    requires { length text.now ≤ length classes.old }
    ensures written { Written (λ i. get_or text.now i 0) (length text.now) classes.old classes.new }
    ensures blocks { Blocks text.now classes.new 1 256 }
{
    for (i, byte) in text.iter().enumerate() {
        classes[i] = u16::from(*byte);
    }
}

// The classes of twice the width, if a span is so long.
pub(crate) fn widen(text: &[u8], w: usize, longest: usize, most: usize, classes: &mut [u16])
    requires { Widens text.now w longest most classes.old }
    ensures { w + w ≤ longest → Blocks text.now classes.new (w + w) most }
{
    if w + w <= longest {
        pair_classes(classes, w, text.len() - (w + w) + 1, most);
    }
}
