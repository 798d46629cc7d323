//! Values that several owners share.

ghost use Rattle.std.specs.Prelude.{◌≡◌, IfOk};
ghost use Rattle.std.specs.Borrow.{sem};

use crate::link::Link;
use cj_model::{Duplicate, NoMemory};
use std::alloc::Global;
use std::marker::Model;
use std::sync::Arc;

/// A value that several owners share, which costs one count for each. Contracts see the value. A change of it is seen
/// by the owner alone who makes it.
#[derive(Drop)]
pub struct Shared<T> {
    link: Link<T>,
}

impl<T> Model for Shared<T> {
    ghost use Rattle.cj_ptree.specs.Links.{target};

    ghost Value = { T };

    ghost coded = { T.code };

    ghost view = { λ shared. target shared.link };
}

impl<T> Shared<T> {
    /// The first owner of a value. Where there is no memory to share it, it is copied for each further owner.
    pub fn of(alloc: Global, value: T) -> Shared<T>
        ensures { result ≡ value }
    {
        Shared {
            link: Link::of(alloc, value),
        }
    }

    /// The value.
    pub fn get(&self) -> &T
        ensures { result.now ≡ self.now }
    {
        self.link.node()
    }
}

impl<T: Duplicate + Drop> Shared<T> {
    ghost use Rattle.cj_ptree.specs.SharedLends.{LendsShared};

    /// A further owner of the value. Fails only with `NoMemory`.
    pub fn again(&self, alloc: Global) -> Result<Shared<T>, NoMemory>
        ensures { IfOk result (λ copy. copy ≡ self.now) }
    {
        match &self.link {
            Link::Own(value) => Ok(Shared::of(alloc, value.copy(alloc)?)),
            Link::Shared(shared) => Ok(Shared {
                link: Link::Shared(Arc::try_clone(shared)?),
            }),
        }
    }

    /// The value, to be changed in place. It is copied first if it has other owners, and `NoMemory` leaves it as it
    /// was.
    pub fn edit(&mut self, alloc: Global) -> Result<&mut T, NoMemory>
        ensures* lends { sem 𝓛 (LendsShared T.row self.entry result) }
        ensures value { IfOk result (λ value. value.now ≡ self.old) }
    {
        self.link.unshare(alloc)?;
        match self.link.node_mut() {
            Some(value) => Ok(value),
            None => Err(NoMemory),
        }
    }
}
