// Pages that are read together, before they are asked for: which they are, and a guess at those that come next.
ghost use Rattle.std.specs.Prelude.{◌≡◌, ℕ, ◌+◌, ◌-◌, ◌*◌, ◌^◌, ◌≤◌, ◌<◌, length, slice_index, slice_index_or, true, false};
ghost use Rattle.page_codec.specs.Pages.{nth_page};

// So many pages are read together at most: as many as tags are computed at once.
const MOST: u32 = 8;

// So many bytes of them are.
const MOST_BYTES: u32 = 65536;

// So far apart at most are pages that are asked for one after another, where those behind the second are worth reading.
const NEAR: u32 = 8;

// So many others are asked for until pages that were read together are given up.
const PATIENCE: u32 = 32;

/// How many bytes the pages take that are read together.
pub fn window_bytes(page_size: u32) -> usize
    requires { 1 ≤ page_size }
{
    let most = MOST_BYTES / page_size;
    let pages = if most < MOST { most } else { MOST };
    pages as usize * page_size as usize
}

/// Which pages are to be read together: so many of these numbers.
#[derive(Clone, Copy)]
pub struct Wanted {
    pub(crate) numbers: [u32; 8],
    pub(crate) count: u32,
}

impl Wanted {
    /// No page.
    pub fn none() -> Wanted {
        Wanted {
            numbers: [0; 8],
            count: 0,
        }
    }

    // So many pages from page n on, 8 at most.
    fn run(n: u32, count: u32) -> Wanted {
        let mut wanted = Wanted::none();
        'pages: for i in 0..count.min(MOST) {
            wanted = wanted.with(n.saturating_add(i));
        }
        wanted
    }

    /// One page more, if it is not the ninth.
    pub(crate) fn with(self, n: u32) -> Wanted {
        let mut wanted = self;
        if wanted.count < 8 {
            wanted.numbers[wanted.count as usize] = n;
            wanted.count += 1;
        }
        wanted
    }

    // As many of the first as there is room for.
    fn within(self, room: usize) -> Wanted {
        if self.count as usize <= room {
            return self;
        }
        Wanted {
            count: room as u32,
            ..self
        }
    }

    /// Their numbers.
    pub(crate) fn pages(&self) -> &[u32]
        requires { self.now.count ≤ 8 }
        ensures many { length result.now ≡ self.now.count }
        ensures each { (i : ℕ) → i < self.now.count → slice_index result.now i ≡ slice_index self.now.numbers i }
    {
        &self.numbers[..self.count as usize]
    }

    /// Whether these are several pages, none of them page 1 and none behind page `last`, and there is room for so many.
    pub(crate) fn is_readable(&self, last: u32, room: usize) -> bool
        ensures { result ≡ true → (2 ≤ self.now.count) × (self.now.count ≤ 8) × (self.now.count ≤ room)
            × ((i : ℕ) → i < self.now.count → (2 ≤ slice_index self.now.numbers i) × (slice_index self.now.numbers i ≤ last)) }
    {
        if self.count < 2 || self.count > 8 || self.count as usize > room {
            return false;
        }
        'numbers: for i in 0..self.count as usize {
            if self.numbers[i] < 2 || self.numbers[i] > last {
                return false;
            }
        }
        true
    }
}

/// Pages that stand one after another in a buffer, opened where they stand, but for those that are refused. No clause says which pages are
/// there, so that it is free to read ahead or not: each page that is there is what it is when it is read alone.
#[derive(Clone, Copy)]
pub struct Window {
    // the numbers of the pages, and how many there are
    pub(crate) numbers: [u32; 8],
    pub(crate) count: u32,
    // which of them are opened
    pub(crate) held: [bool; 8],
    // how many were asked for, and how many other pages were
    used: u32,
    missed: u32,
    // the page that was asked for last
    last: u32,
    // how many in a row were near the one before, 8 at most
    near: u32,
}

impl Window {
    /// No page.
    pub fn new() -> Window
        ensures none { result.count ≡ 0 }
    {
        Window {
            numbers: [0; 8],
            count: 0,
            held: [false; 8],
            used: 0,
            missed: 0,
            last: 0,
            near: 0,
        }
    }

    /// Holds no page from now on.
    pub fn forget(self) -> Window
        ensures none { result.count ≡ 0 }
    {
        Window { count: 0, ..self }
    }

    /// These pages.
    pub(crate) fn filled(self, wanted: &Wanted, held: [bool; 8]) -> Window
        ensures { (result.numbers ≡ wanted.now.numbers) × (result.count ≡ wanted.now.count) × (result.held ≡ held) }
    {
        Window {
            numbers: wanted.numbers,
            count: wanted.count,
            held,
            used: 0,
            missed: 0,
            ..self
        }
    }

    /// Page n was asked for, and is there.
    pub(crate) fn met(self, n: u32) -> Window
        ensures { (result.numbers ≡ self.numbers) × (result.count ≡ self.count) × (result.held ≡ self.held) }
    {
        Window {
            last: n,
            used: self.used.saturating_add(1),
            ..self
        }
    }

    /// Page n is asked for, and is not there.
    pub(crate) fn asked(self, n: u32) -> Window
        ensures { (result.numbers ≡ self.numbers) × (result.count ≡ self.count) × (result.held ≡ self.held) }
    {
        Window {
            last: n,
            near: self.nearer(n),
            missed: self.missed.saturating_add(1),
            ..self
        }
    }

    // How many in a row are near the one before with page n; none where pages that were read ahead still wait.
    fn nearer(&self, n: u32) -> u32 {
        let follows = n > self.last && n - self.last <= NEAR;
        if !follows || self.is_waiting() {
            0
        } else if self.near < MOST {
            self.near + 1
        } else {
            MOST
        }
    }

    // Whether the pages wait: fewer than half of a run were asked for, or not all children of a page, and few others.
    fn is_waiting(&self) -> bool {
        let enough = if self.is_run() {
            self.count / 2
        } else {
            self.count
        };
        self.used < enough && self.missed < PATIENCE
    }

    // Whether they stand one after another in the file, as the first and the last of them tell.
    fn is_run(&self) -> bool {
        if self.count == 0 || self.count > 8 {
            return true;
        }
        let last = self.numbers[self.count as usize - 1];
        last >= self.numbers[0] && last - self.numbers[0] == self.count - 1
    }

    /// Which pages are read together, where page n is asked for and is not there: the run of pages from it on, where pages come in the
    /// order of the file, or it and its next siblings; but none where pages that were read ahead still wait.
    pub(crate) fn wanted(&self, n: u32, siblings: &Wanted, last: u32, room: usize) -> Wanted {
        if self.near >= 2 && last > n {
            return Wanted::run(n, last - n).within(room);
        }
        if self.is_waiting() {
            return Wanted::none();
        }
        siblings.within(room)
    }

    // Where page n stands, if it is there and opened; else 8.
    fn place(&self, n: u32) -> usize
        ensures { result < 8 → (result < self.now.count) × (slice_index_or self.now.held result false ≡ true)
            × (slice_index self.now.numbers result ≡ n) }
    {
        'pages: for i in 0..8 {
            if i < self.count as usize && self.held[i] && self.numbers[i] == n {
                return i;
            }
        }
        8
    }

    /// Copies page n out of these pages, and says whether it is there.
    pub(crate) fn copy_page(&self, pages: &[u8], n: u32, page: &mut [u8]) -> bool
        ensures size { length page.new ≡ length page.old }
        ensures given { result ≡ true → (i : ℕ) × (i < self.now.count) × (slice_index_or self.now.held i false ≡ true)
            × (slice_index self.now.numbers i ≡ n) × (page.new ≡ nth_page (length page.old) pages.now i) }
    {
        let i = self.place(n);
        let size = page.len();
        if i >= 8 || size > 65536 || pages.len() < size * i + size {
            return false;
        }
        page.copy_from_slice(&pages[size * i..size * i + size]);
        true
    }
}
