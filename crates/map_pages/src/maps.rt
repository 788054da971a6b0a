// Which pages are map pages (section 1.8).
ghost use Rattle.std.specs.Prelude.{◌≡◌, ◌<◌, ◌^◌};
ghost use Rattle.map_pages.specs.Maps.{is_map_page, map_count, map_number};

/// Whether the page with this number is a map page. The usable size is in bytes.
pub fn is_map_page(usable: u32, n: u32) -> bool
    ensures { result ≡ is_map_page usable n }
{
    n >= 2 && (n - 2) % (usable / 5 + 1) == 0
}

/// How many of so many pages are map pages.
pub fn map_count(usable: u32, count: u32) -> u32
    ensures { result ≡ map_count usable count }
{
    if count >= 2 {
        (count - 2) / (usable / 5 + 1) + 1
    } else {
        0
    }
}

/// The number of the page that is map page k, counted from 0.
pub fn map_number(usable: u32, k: u32) -> u32
    requires { map_number usable k < 2 ^ 32 }
    ensures { result ≡ map_number usable k }
{
    2 + k * (usable / 5 + 1)
}
