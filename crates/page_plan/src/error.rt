// Why a plan is not written.

/// Why a plan is not written.
#[derive(Clone, Copy, Debug, PartialEq, Eq)]
pub enum WriteError {
    /// The codec for writing has pages of another length, another reserve or another setting.
    LayoutDiffers,
    /// Memory ran out, before anything was written.
    OutOfMemory,
    /// The tag of this page does not hold: it is not the page of before.
    TagRefused { page: u32 },
    /// The disk failed.
    DiskFault,
    /// The source of random bytes failed.
    EntropyFault,
}
