// Files by their numbers, and the names that lead to them.
ghost use Rattle.std.specs.Prelude.{◌≡◌, ◌++◌, ◌∷◌, [], None, unwrap_or, IfOk, OnOk};
ghost use Rattle.system_calls.specs.System.{name_at, no_names, put_name};
ghost use Rattle.call_memory.specs.Folder.{leads_to, lists_of, names_of, names_to, numbered_if, state_of, state_with};
ghost use Rattle.std.specs.Option.{option_map};

use edge_model::{OutOfMemory, Role};
use std::alloc::Global;

/// A file's number, or none, for each name or for each place where a file may be open.
#[derive(Clone, Copy)]
pub struct Slots {
    pub main: Option<usize>,
    pub journal: Option<usize>,
    pub fresh: Option<usize>,
}

impl Slots {
    /// No file.
    pub fn new() -> Slots
        ensures { names_of result ≡ no_names }
    {
        Slots {
            main: None,
            journal: None,
            fresh: None,
        }
    }

    /// The number here.
    pub fn at(&self, role: Role) -> Option<usize>
        ensures { result ≡ name_at (names_of self.now) role }
    {
        match role {
            Role::Main => self.main,
            Role::Journal => self.journal,
            Role::Fresh => self.fresh,
        }
    }

    /// Puts a number, or none.
    pub fn put(&mut self, role: Role, number: Option<usize>)
        ensures { names_of self.new ≡ put_name (names_of self.old) role number }
    {
        match role {
            Role::Main => self.main = number,
            Role::Journal => self.journal = number,
            Role::Fresh => self.fresh = number,
        }
    }

    /// How many of the three are this number.
    pub fn count(&self, number: usize) -> u64
        ensures { result ≡ names_to (names_of self.now) number }
    {
        one_to(self.main, number) + one_to(self.journal, number) + one_to(self.fresh, number)
    }
}

// 1 where the slot has this number, else 0.
fn one_to(slot: Option<usize>, number: usize) -> u64
    ensures { result ≡ leads_to slot number }
{
    match slot {
        Some(there) if there == number => 1,
        _ => 0,
    }
}

/// What a folder has: a file's number is its index, also where no name leads to it.
#[derive(Drop)]
pub struct Folder {
    pub names: Slots,
    pub files: Vec<Vec<u8>>,
}

// The number, where there is a file.
fn number_if(file: Option<&[u8]>, number: usize) -> Option<usize>
    ensures { result ≡ numbered_if number (option_map (λ s. s.now) file.entry) }
{
    match file {
        Some(_) => Some(number),
        None => None,
    }
}

// One file more: a copy, or an empty one where there is none.
fn push_copy(
    alloc: Global,
    files: &mut Vec<Vec<u8>>,
    file: Option<&[u8]>,
) -> Result<(), OutOfMemory>
    ensures { OnOk result (lists_of files.new ≡ lists_of files.old ++ unwrap_or (option_map (λ s. s.now) file.entry) [] ∷ []) }
{
    let bytes = file.unwrap_or(&[]);
    match bytes.to_vec(alloc) {
        Ok(copy) => match files.push(copy) {
            Ok(()) => Ok(()),
            Err(_) => Err(OutOfMemory),
        },
        Err(_) => Err(OutOfMemory),
    }
}

impl Folder {
    /// No file.
    pub fn new(alloc: Global) -> Folder
        ensures { state_of result ≡ record { names = no_names; lists = [] } }
    {
        Folder {
            names: Slots::new(),
            files: Vec::new(alloc),
        }
    }

    /// These files, with the numbers 0, 1 and 2.
    pub fn with_files(
        alloc: Global,
        main: Option<&[u8]>,
        journal: Option<&[u8]>,
        fresh: Option<&[u8]>,
    ) -> Result<Folder, OutOfMemory>
        ensures { IfOk result (λ folder. state_of folder ≡ state_with (option_map (λ s. s.now) main.entry) (option_map (λ s. s.now) journal.entry) (option_map (λ s. s.now) fresh.entry)) }
    {
        let names = Slots {
            main: number_if(main, 0),
            journal: number_if(journal, 1),
            fresh: number_if(fresh, 2),
        };
        let mut files = Vec::new(alloc);
        push_copy(alloc, &mut files, main)?;
        push_copy(alloc, &mut files, journal)?;
        push_copy(alloc, &mut files, fresh)?;
        Ok(Folder { names, files })
    }
}
