//! Memory with several owners.

ghost use Rattle.std.specs.Prelude.{◌≡◌, IfOk};

use bumpalo::Bump;
use std::alloc::{AllocError, Allocator, Global};
use std::marker::Model;
use std::rc::Rc;

/// An allocator with several owners. Each list that lies in its memory is one of them; the memory
/// is freed with the last.
#[derive(Drop)]
pub struct Shared<B> {
    inner: Rc<B>,
    alloc: Global,
}

/// Memory in which many lists lie, each of which is one of its owners: an arena.
pub type Memory = Shared<Bump>;

// Its value is the allocator that its owners share.
impl<B> Model for Shared<B> {
    ghost Value = { B };

    ghost view = { λ it. it.inner.value };
}

impl<B: Allocator> Shared<B> {
    /// Returns the first owner of `inner`. Fails only if memory cannot be allocated.
    pub fn new(alloc: Global, inner: B) -> Result<Shared<B>, AllocError>
        ensures { IfOk result (λ s. s ≡ inner) }
    {
        let inner = Rc::new(alloc, inner)?;
        Ok(Shared { inner, alloc })
    }

    /// Returns one more owner of the same memory. Fails only if the owners cannot be counted any
    /// more.
    pub fn share(&self) -> Result<Shared<B>, AllocError>
        ensures { IfOk result (λ s. s ≡ self.now) }
    {
        let inner = self.inner.clone()?;
        Ok(Shared {
            inner,
            alloc: self.alloc,
        })
    }

    /// Returns the allocator from which it has its memory.
    pub fn global(&self) -> Global {
        self.alloc
    }
}

impl Shared<Bump> {
    /// Returns the first owner of an arena that has reserved `capacity` bytes at once. If its lists
    /// need more, it allocates again. Fails only if memory cannot be allocated.
    pub fn with_capacity(alloc: Global, capacity: usize) -> Result<Memory, AllocError> {
        Shared::new(alloc, Bump::try_with_capacity(alloc, capacity)?)
    }
}

impl<B> Shared<B> {
    /// Returns the allocator that its owners share.
    fn lent(&self) -> &B
        ensures { result.now ≡ self.now }
    {
        self.inner.as_ref()
    }
}

unsafe impl<B: Allocator> Allocator for Shared<B> {
    ghost dealloc_token = { λ it. B.dealloc_token it };

    fn allocate(&self, size: usize, align: usize) -> Result<*mut u8, AllocError> {
        self.lent().allocate(size, align)
    }

    unsafe fn deallocate(&self, ptr: *mut u8, size: usize, align: usize) {
        self.lent().deallocate(ptr, size, align);
    }

    unsafe fn grow<T>(
        &self,
        ptr: *mut T,
        len: usize,
        old_cap: usize,
        new_cap: usize,
    ) -> Result<*mut T, AllocError> {
        self.lent().grow(ptr, len, old_cap, new_cap)
    }

    unsafe fn shrink<T>(
        &self,
        ptr: *mut T,
        len: usize,
        old_cap: usize,
        new_cap: usize,
    ) -> Result<*mut T, AllocError> {
        self.lent().shrink(ptr, len, old_cap, new_cap)
    }
}
