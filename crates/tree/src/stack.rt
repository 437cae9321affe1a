// A stack in a lent slice, since this library has no heap: its items stand at the slice's end, the one on the top first.
ghost use Rattle.std.specs.Prelude.{◌≤◌, length};

// The places before the items are free.
#[derive(Drop)]
pub struct Stack<'a, T> {
    items: &'a mut [T],
    free: usize,
    ghost inside: { free ≤ length items.now },
}

impl<'a, T: Copy> Stack<'a, T> {
    ghost use Rattle.std.specs.Prelude.{◌≡◌, []};
    ghost use Rattle.tree.specs.Stack.{items, Pushes, Popped};

    // One without items.
    pub fn new(places: &'a mut [T]) -> Self
        ensures empty { items result ≡ [] }
        ensures free { result.free ≡ length places.old }
    {
        let free = places.len();
        Stack {
            items: places,
            free,
        }
    }

    // Puts an item on it; gives it back where no place is free.
    pub fn push(&mut self, item: T) -> Result<(), T>
        ensures { Pushes item self.old result self.new }
    {
        if self.free == 0 {
            return Err(item);
        }
        self.free -= 1;
        self.items[self.free] = item;
        Ok(())
    }

    // Takes the item off that was put on it last.
    pub fn pop(&mut self) -> Option<T>
        ensures { Popped self.old result self.new }
    {
        if self.free == self.items.len() {
            return None;
        }
        let item = self.items[self.free];
        self.free += 1;
        Some(item)
    }
}
