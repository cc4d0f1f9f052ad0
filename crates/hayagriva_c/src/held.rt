//! What a handle holds, behind a pointer that C may keep.
ghost use Rattle.std.specs.Prelude.{◌≡◌, Option, IsSome, None, Some, is_none, option_map};
ghost use Rattle.hayagriva_c.specs.declared.content.Content.{Content as ContentData};
ghost use Rattle.hayagriva_c.specs.Held.{content_coded, content_owns};

use crate::content::Content;
use crate::parts::Parts;
use std::alloc::Global;
use std::marker::Model;
use std::{mem, ptr};

/// A content behind a pointer, or none, and then the pointer is null. `content` says which: what is
/// owned is a box of it.
#[repr(C)]
pub struct Held {
    ptr: *mut u8,
    alloc: Global,
    pub ghost content: { Option ContentData } by { content_coded },
}

impl Model for Held {
    ghost also_owns = { λ h. content_owns h.alloc h.ptr h.content };
}

impl Drop for Held {
    fn drop(mut self) {
        if self.is_empty() {
            self.let_go();
        } else {
            drop(self.into_box());
        }
    }
}

impl Held {
    /// Holds nothing.
    pub fn none(alloc: Global) -> Held
        ensures { result.content ≡ None }
    {
        Held {
            ptr: ptr::null_mut(),
            alloc,
        }
    }

    /// Holds what is in the box.
    pub fn of(content: Box<Content>) -> Held
        ensures { result.content ≡ Some content.value }
    {
        Held::of_parts(Parts::of(content))
    }

    /// The box again.
    pub fn into_box(self) -> Box<Content>
        requires { IsSome self.content }
        ensures { Some result.value ≡ self.content }
    {
        self.into_parts().into_box()
    }

    /// Whether it holds nothing.
    pub fn is_empty(&mut self) -> bool
        ensures { (result ≡ is_none self.new.content) × (self.new ≡ self.old) }
    {
        self.ptr.is_null()
    }

    /// Takes out what it holds, if there is anything.
    pub fn take(&mut self, alloc: Global) -> Option<Box<Content>>
        ensures { option_map (λ b. b.value) result ≡ self.old.content }
    {
        let mut held = mem::replace(self, Held::none(alloc));
        if held.is_empty() {
            held.let_go();
            None
        } else {
            Some(held.into_box())
        }
    }

    /// Lets go of nothing.
    pub fn let_go(self)
        requires { self.content ≡ None }
    {
        let Held { ptr: _, alloc: _ } = self;
    }

    fn of_parts(parts: Parts<Content, Global>) -> Held
        ensures { result.content ≡ Some parts.value }
    {
        let Parts { ptr, alloc } = parts;
        Held {
            ptr: ptr.cast::<u8>(),
            alloc,
        }
    }

    fn into_parts(self) -> Parts<Content, Global>
        requires { IsSome self.content }
        ensures { Some result.value ≡ self.content }
    {
        let Held { ptr, alloc } = self;
        Parts {
            ptr: ptr.cast::<Content>(),
            alloc,
        }
    }
}
