// A line of the list of cases.

/// A pair and what is done to it.
#[derive(Clone, Copy)]
pub struct Case<'a> {
    /// The name of its files.
    pub name: &'a str,
    /// The page size that is asked for, in bytes.
    pub size: u32,
    pub kind: &'a str,
    /// What the two numbers are, the kind says.
    pub first: usize,
    pub second: usize,
}

/// The case of a line: a name, a page size, a kind and two numbers.
pub fn case_of<'a>(line: &'a str) -> Option<Case<'a>> {
    let mut words = line.split_whitespace();
    let name = words.next()?;
    let size = words.next()?.parse::<u32>().ok()?;
    let kind = words.next()?;
    let first = words.next()?.parse::<usize>().ok()?;
    let second = words.next()?.parse::<usize>().ok()?;
    Some(Case {
        name,
        size,
        kind,
        first,
        second,
    })
}
