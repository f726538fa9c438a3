//! A queue of few items, which takes all its memory at once.
ghost use Rattle.std.specs.Prelude.{◌≡◌, ◌≤◌, [], ◌∷◌, ◌++◌, length, nat_lt, if◌then◌else◌, IfOk, Some, None};
ghost use Rattle.std.specs.VecDeque.{deque_len, deque_capacity};
ghost use Rattle.std.specs.Option.{option_to_list};

use mpm_base::NoMemory;
use std::alloc::Global;
use std::collections::VecDeque;

/// Items in the order in which they came, at most so many.
#[derive(Drop)]
pub(crate) struct ShortQueue<T> {
    queue: VecDeque<T>,
    most: usize,
    ghost room: { most ≤ deque_capacity queue },
    ghost few: { deque_len queue ≤ most },
}

impl<T> ShortQueue<T> {
    /// No items, of which there may be so many.
    pub(crate) fn make(alloc: Global, most: usize) -> Result<ShortQueue<T>, NoMemory>
        ensures empty { IfOk result (λ q. q.queue.items ≡ []) }
        ensures most { IfOk result (λ q. q.most ≡ most) }
    {
        match VecDeque::with_capacity(alloc, most) {
            Ok(queue) => Ok(ShortQueue { queue, most }),
            Err(_) => Err(NoMemory),
        }
    }

    /// Puts the item behind the others. It comes back where there are so many already.
    pub(crate) fn put(&mut self, item: T) -> Option<T>
        ensures items { let items = self.old.queue.items in
            let fits = nat_lt (length items) self.old.most in
            self.new.queue.items ≡ (if fits then items ++ item ∷ [] else items) }
        ensures back { let fits = nat_lt (length self.old.queue.items) self.old.most in
            result ≡ (if fits then None else Some item) }
        ensures most { self.new.most ≡ self.old.most }
    {
        if self.queue.len() < self.most {
            self.queue.push_back_reserved(item);
            return None;
        }
        Some(item)
    }

    /// Takes the first item.
    pub(crate) fn take(&mut self) -> Option<T>
        ensures items { self.old.queue.items ≡ option_to_list result ++ self.new.queue.items }
        ensures most { self.new.most ≡ self.old.most }
    {
        self.queue.pop_front()
    }

    /// How many items there are.
    pub(crate) fn len(&self) -> usize
        ensures is { result ≡ length self.now.queue.items }
        ensures few { result ≤ self.now.most }
    {
        self.queue.len()
    }
}
