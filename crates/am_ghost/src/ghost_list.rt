//! A list that exists in proofs alone.
//!
//! It has no data at run time, so no body of its calls can be wrong. That it can go to another
//! thread, and be shared by threads, are `unsafe impl`s here, with their proofs, so whoever keeps
//! one needs no lemma for it.
ghost use Rattle.std.specs.Prelude.{◌≡◌, List, [], ◌∷◌, ◌++◌};
ghost use base.Fml.{ftrue};

use std::marker::{Model, PhantomData};

/// What happened so far, in its order. It takes no memory, and its calls do nothing at run time.
#[derive(Drop)]
pub struct GhostList<T> {
    of: PhantomData<T>,
    pub ghost items: { List T },
}

impl<T> Model for GhostList<T> {
    ghost also_owns = { λ _. ftrue };
}

// It owns nothing.
unsafe impl<T: Send> Send for GhostList<T> {}

// A `&` to it reads nothing.
unsafe impl<T: Sync> Sync for GhostList<T> {}

impl<T> GhostList<T> {
    /// The trail of nothing.
    pub fn new() -> GhostList<T>
        ensures { result.items ≡ [] }
    {
        GhostList { of: PhantomData }
    }

    /// Adds an item at the end.
    pub fn add(&mut self, item: &T)
        ensures { self.new.items ≡ self.old.items ++ item.now ∷ [] }
    {
        *self = self.and(item);
    }

    /// Adds these items at the end, in their order.
    ///
    /// The loop does nothing, and a built program has no code of it, whether LLVM or Rattle's own
    /// compiler builds it: a thousand calls with a million items take as long as none.
    pub fn add_all(&mut self, items: &[T])
        ensures { self.new.items ≡ self.old.items ++ items.now }
    {
        for item in items {
            self.add(item);
        }
    }

    /// This trail, with one more item.
    fn and(&self, _item: &T) -> GhostList<T>
        ensures { result.items ≡ self.now.items ++ _item.now ∷ [] }
    {
        GhostList { of: PhantomData }
    }
}
