//! The library as C keeps it. Raw pointers stand in this file and in `loose.rt` alone.
ghost use Rattle.std.specs.Prelude.{◌≡◌};
ghost use Rattle.std.specs.Arc.{arc_value};
ghost use Rattle.egt_c.specs.Shared.{Shared, shared_coded};

use crate::loose::Loose;
use egt_check::Library;
use std::alloc::Global;
use std::marker::Model;
use std::mem::replace;
use std::ptr::null_mut;
use std::sync::Arc;

/// One owner of a library, of which there may be several.
pub(crate) type Owner = Arc<Library, Global>;

/// A library, or none where it is closed. All bytes 0 are a closed one, so C makes it so. It lies where C puts it, and
/// C changes nothing in it. Calls that ask take it as `&mut` and write nothing in it: a struct that lends what it owns
/// by `&` is none that C may pass.
#[repr(C)]
pub struct EgtbLibrary {
    pub(crate) at: *mut u8,
    pub(crate) is_open: bool,
    pub(crate) ghost library: { Shared } by { shared_coded },
}

impl Model for EgtbLibrary {
    ghost use Rattle.egt_c.specs.Owned.{owned};

    ghost also_owns = { λ h. owned h.at h.is_open h.library };
}

// Any thread may keep it: a library is plain data, and the C library's heap takes a block back from any thread.
unsafe impl Send for EgtbLibrary {}

impl EgtbLibrary {
    ghost use Rattle.std.specs.Prelude.{◌≡◌, Some, None, IfSome, IfNone, option_map};
    ghost use Rattle.std.specs.Arc.{arc_value};
    ghost use Rattle.std.specs.Borrow.{sem};
    ghost use Rattle.egt_c.specs.Contents.{contents};
    ghost use Rattle.egt_c.specs.Lent.{LendsOwner};

    /// A closed one.
    fn closed() -> EgtbLibrary
        ensures { contents result ≡ None }
    {
        EgtbLibrary {
            at: null_mut(),
            is_open: false,
        }
    }

    /// One that keeps the library.
    fn of(loose: Loose<Owner, Global>) -> EgtbLibrary
        ensures { contents result ≡ Some (arc_value loose.value) }
    {
        let Loose { at, alloc: _alloc } = loose;
        EgtbLibrary {
            at: at.cast::<u8>(),
            is_open: true,
        }
    }

    /// The library that it keeps.
    fn into_loose(self, alloc: Global) -> Option<Loose<Owner, Global>>
        ensures { option_map (λ l. arc_value l.value) result ≡ contents self }
    {
        let EgtbLibrary { at, is_open } = self;
        if is_open {
            Some(Loose {
                at: at.cast::<Owner>(),
                alloc,
            })
        } else {
            None
        }
    }

    /// Keeps the library. One that was kept before goes.
    pub(crate) fn put(&mut self, alloc: Global, library: Box<Owner, Global>)
        ensures { contents self.new ≡ Some (arc_value library.value) }
    {
        let before = replace(self, EgtbLibrary::of(Loose::of(library)));
        if let Some(loose) = before.into_loose(alloc) {
            let _library = loose.into_box();
        }
    }

    /// Takes the library out, and closes.
    pub(crate) fn take(&mut self, alloc: Global) -> Option<Box<Owner, Global>>
        ensures taken { IfSome result (λ b. contents self.old ≡ Some (arc_value b.value)) }
        ensures was_closed { IfNone result (contents self.old ≡ None) }
        ensures closed { contents self.new ≡ None }
    {
        match replace(self, EgtbLibrary::closed()).into_loose(alloc) {
            Some(loose) => Some(loose.into_box()),
            None => None,
        }
    }

    /// The owner that it keeps, which is lent for as long as the handle is. It writes nothing.
    pub(crate) fn owner(&mut self) -> Option<&mut Owner>
        ensures* writes_back { sem 𝓛 (LendsOwner self.entry result) }
        ensures owner { option_map (λ o. arc_value o.now) result ≡ contents self.old }
    {
        if !self.is_open {
            return None;
        }
        Some(unsafe { &mut *self.at.cast::<Owner>() })
    }
}
