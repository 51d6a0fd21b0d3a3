// What an object was when its turnstile began. It has no bytes.
ghost use Rattle.std.specs.Prelude.{◌≡◌};
ghost use Rattle.std.specs.Borrow.{ftrue};

use std::marker::{Model, PhantomData};

#[derive(Drop)]
pub struct Was<O> {
    of: PhantomData<O>,
    pub ghost object: { O },
}

impl<O> Model for Was<O> {
    ghost also_owns = { λ _. ftrue };
}

impl<O> Was<O> {
    pub(crate) fn of(object: &O) -> Was<O>
        ensures { result.object ≡ object.now }
    {
        Was { of: PhantomData }
    }
}
