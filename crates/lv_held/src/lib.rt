//! A value that is let go by one call.
#![tactic(auto)]

ghost use Rattle.std.specs.Prelude.{◌≡◌};

use std::marker::Model;

/// A value that contracts see as itself, and that is let go by one call.
pub struct Held<T> {
    value: T,
}

impl<T> Model for Held<T> {
    ghost Value = { T };

    ghost coded = { T.code };

    ghost view = { λ h. h.value };
}

impl<T: Drop> Drop for Held<T> {
    fn drop(self) {
        let Held { value } = self;
        drop(value)
    }
}

impl<T> Held<T> {
    pub fn new(value: T) -> Held<T>
        ensures { result ≡ value }
    {
        Held { value }
    }

    pub fn get(&self) -> &T
        ensures { result.now ≡ self.now }
    {
        &self.value
    }

    pub fn into_inner(self) -> T
        ensures { result ≡ self }
    {
        let Held { value } = self;
        value
    }
}
