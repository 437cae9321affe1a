// Classes of places with two keys in one slice: the keys of the place i stand at i and at i + w.
ghost use Rattle.std.specs.Prelude.{◌≤◌};
ghost use Rattle.names.specs.Spans.{Pairs, PairClasses};

use crate::classes::{Classes, Lists, Places};

// How many numbers the arrays have: one for each place, and one for each key.
const SMALL: usize = 1024;

const MIDDLE: usize = 8192;

const LARGE: usize = 65536;

// Kept: two keys of each place in one slice, w apart, here and below; they may overlap, so they are no two slices.
// Puts the class of each of the first n places, the first place with the same keys, in place of its first key. Small numbers take small arrays.
pub(crate) fn pair_classes(keys: &mut [u16], w: usize, n: usize, most: usize)
    requires { Pairs keys.old w n most }
    ensures { PairClasses keys.old w n keys.new }
{
    let size = most.max(n);
    if size <= SMALL {
        classes_in::<SMALL>(keys, w, n, most);
    } else if size <= MIDDLE {
        classes_in::<MIDDLE>(keys, w, n, most);
    } else {
        classes_in::<LARGE>(keys, w, n, most);
    }
}

// The same in arrays of N numbers.
fn classes_in<const N: usize>(keys: &mut [u16], w: usize, n: usize, most: usize)
    requires pairs { Pairs keys.old w n most }
    requires places { n ≤ N }
    requires keys { most ≤ N }
    requires size { N ≤ 65536 }
    ensures { PairClasses keys.old w n keys.new }
{
    let all = &keys[..];
    let places = Places::<N> {
        first: &all[..n],
        second: &all[w..w + n],
        most,
    };
    // Both are made before a call, as the compilers then make them in place.
    let mut lists = Lists::<N> {
        heads: [0; N],
        next: [0; N],
    };
    let mut classes = Classes::<N> {
        seen: [0; N],
        out: [0; N],
    };
    classes.classify(&places, &mut lists);
    keys[..n].copy_from_slice(&classes.out[..n]);
}
