// Numbers in the order of first occurrence.
ghost use Rattle.std.specs.Prelude.{List, ℕ, ◌<◌, ◌≤◌, length, get_or};
ghost use Rattle.names.specs.Names.{most_spans};
ghost use Rattle.names.specs.Spans.{FirstEqual, Ranked};

// Puts the number of each span in place of its first equal span; the answer is how many are distinct.
pub(crate) fn rank(classes: &mut [u16]) -> usize
    requires few { length classes.old ≤ most_spans }
    requires early { (i : ℕ) → i < length classes.old → get_or classes.old i 0 ≤ i }
    ensures { (bs : List (List ℕ)) → FirstEqual bs (length classes.old) classes.old → length classes.old ≤ length bs → Ranked bs (length classes.old) result classes.new }
{
    let mut count = 0;
    for i in 0..classes.len() {
        let first = usize::from(classes[i]);
        if first == i {
            classes[i] = count as u16;
            count += 1;
        } else {
            classes[i] = classes[first];
        }
    }
    count
}
