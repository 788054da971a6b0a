// The path of a cursor.
ghost use Rattle.std.specs.Prelude.{◌≡◌, ◌≤◌, ◌<◌, ◌+◌, ◌-◌, ◌^◌, [], ◌∷◌, ◌++◌, length, take, slice_set, slice_index_or, IfOk};

use db_format::OutOfMemory;
use std::alloc::Global;
use std::marker::Model;

// A path has at most so many pages.
pub(crate) const MAX_PATH: usize = 20;

/// A page of a path, and how many of its steps are done.
#[derive(Clone, Copy)]
pub(crate) struct Frame {
    pub page: u32,
    pub done: u32,
}

/// The pages from a root to the page that is walked, at most 20. Contracts see them as a list.
#[derive(Drop)]
pub(crate) struct Path {
    frames: Vec<Frame>,
}

impl Model for Path {
    ghost use Rattle.std.specs.Prelude.{List, ◌≤◌, vec_len, vec_capacity};
    ghost use Rattle.btree_walk.specs.declared.path.Frame.{Frame};

    ghost Value = { List Frame };

    ghost view = { λ path. path.frames.items };

    ghost invariant = { λ path. (vec_len path.frames ≤ 20) × (20 ≤ vec_capacity path.frames) };
}

impl Path {
    /// An empty path. It takes all memory that a path needs.
    pub(crate) fn new(alloc: Global) -> Result<Path, OutOfMemory>
        ensures { IfOk result (λ path. path ≡ []) }
    {
        match Vec::with_capacity(alloc, MAX_PATH) {
            Ok(frames) => Ok(Path { frames }),
            Err(_) => Err(OutOfMemory),
        }
    }

    /// How many pages it has.
    pub(crate) fn depth(&self) -> usize
        ensures value { result ≡ length self.now }
        ensures most { result ≤ 20 }
    {
        self.frames.len()
    }

    /// The deepest page.
    pub(crate) fn top(&self) -> Frame
        requires { 0 < length self.now }
        ensures { result ≡ slice_index_or self.now (length self.now - 1) result }
    {
        self.frames[self.frames.len() - 1]
    }

    /// Goes down to a page.
    pub(crate) fn push(&mut self, page: u32)
        requires { length self.old < 20 }
        ensures { self.new ≡ self.old ++ record { page = page; done = 0 } ∷ [] }
    {
        if self.frames.push(Frame { page, done: 0 }).is_err() {
            unreachable!();
        }
    }

    /// One step more of the deepest page is done.
    pub(crate) fn step(&mut self, top: Frame)
        requires begun { 0 < length self.old }
        requires room { top.done < 2 ^ 31 }
        ensures { self.new ≡ slice_set self.old (length self.old - 1) (record { page = top.page; done = top.done + 1 }) }
    {
        let last = self.frames.len() - 1;
        self.frames[last] = Frame {
            page: top.page,
            done: top.done + 1,
        };
    }

    /// Leaves the deepest page.
    pub(crate) fn pop(&mut self)
        requires { 0 < length self.old }
        ensures { self.new ≡ take (length self.old - 1) self.old }
    {
        self.frames.pop();
    }
}
