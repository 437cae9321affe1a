// Places with two keys each, sorted into classes: two places are of one class exactly when both keys are equal, and a class is named by
// its first place. Linear in the places and the keys, whatever they are: the places of one first key are a list, and the lists are
// followed one after the other; at each second key the class of the last place with it is noted.
ghost use Rattle.std.specs.Prelude.{◌≡◌, ℕ, ◌<◌, ◌≤◌, length, get_or};
ghost use Rattle.names.specs.Names.{most_bytes};
ghost use Rattle.names.specs.Classes.{Class, Chained, Seen, Followed, Classed};

// At most N places, and the keys of each: below `most`, which is at most N.
#[derive(Drop)]
pub(crate) struct Places<'a, const N: usize> {
    pub(crate) first: &'a [u16],
    pub(crate) second: &'a [u16],
    pub(crate) most: usize,
    ghost few: { length first.now ≤ most_bytes },
    ghost few_keys: { most ≤ N },
    ghost room: { length first.now ≤ N },
    ghost size: { N ≤ 65536 },
    ghost both: { length second.now ≡ length first.now },
    ghost firsts: { (i : ℕ) → i < length first.now → get_or first.now i 0 < most },
    ghost seconds: { (i : ℕ) → i < length first.now → get_or second.now i 0 < most },
}

impl<'a, const N: usize> Places<'a, N> {
    // The place `s` where its keys are those of `at`, else `at`.
    fn class(&self, s: usize, at: usize) -> u16
        requires { (s < length self.now.first.now) × (at < length self.now.first.now) }
        ensures { Class self.now.first.now self.now.second.now s at result }
    {
        if self.first[s] == self.first[at] && self.second[s] == self.second[at] {
            s as u16
        } else {
            at as u16
        }
    }
}

// The lists of the places with one first key: at a key the first place with it, and at a place the next one with its key.
// Kept: a list ends with the number of places, as an `Option<u16>` would take twice the memory.
#[derive(Drop)]
pub(crate) struct Lists<const N: usize> {
    pub(crate) heads: [u16; N],
    pub(crate) next: [u16; N],
}

impl<const N: usize> Lists<N> {
    fn chain(&mut self, places: &Places<N>)
        ensures { Chained places.now.first.now (length places.now.first.now) places.now.most self.new.heads self.new.next }
    {
        let n = places.first.len();
        self.heads.fill(n as u16);
        for i in (0..n).rev() {
            let key = usize::from(places.first[i]);
            self.next[i] = self.heads[key];
            self.heads[key] = i as u16;
        }
    }
}

// The classes so far: at a second key a place that is the first with its keys, and at a place its class.
#[derive(Drop)]
pub(crate) struct Classes<const N: usize> {
    pub(crate) seen: [u16; N],
    pub(crate) out: [u16; N],
}

impl<const N: usize> Classes<N> {
    // The classes of the places with the first key `v`.
    fn follow(&mut self, places: &Places<N>, lists: &Lists<N>, v: usize)
        requires key { v < places.now.most }
        requires listed { Chained places.now.first.now (length places.now.first.now) places.now.most lists.now.heads lists.now.next }
        requires seen { Seen places.now.first.now places.now.second.now (length places.now.first.now) self.old.seen }
        ensures { Followed places.now.first.now places.now.second.now (length places.now.first.now) v self.old.seen self.old.out self.new.seen self.new.out }
    {
        let mut at = usize::from(lists.heads[v]);
        // Kept: the list leads from place to place by its links, in an order that no range and no slice has.
        while at < places.first.len() {
            let key = usize::from(places.second[at]);
            let class = places.class(usize::from(self.seen[key]), at);
            self.seen[key] = class;
            self.out[at] = class;
            at = usize::from(lists.next[at]);
        }
    }

    // The class of each place: its first place. The lists are made anew.
    pub(crate) fn classify(&mut self, places: &Places<N>, lists: &mut Lists<N>)
        ensures { Classed places.now.first.now places.now.second.now (length places.now.first.now) self.new.out }
    {
        lists.chain(places);
        self.seen.fill(0);
        for v in 0..places.most {
            self.follow(places, lists, v);
        }
    }
}
