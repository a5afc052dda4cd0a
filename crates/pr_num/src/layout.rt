//! Where things stand in an address space. An address that lays one out is written here, and nowhere else in the code.

ghost use Rattle.std.specs.Prelude.{◌≡◌, ◌≤◌, ◌+◌, ◌^◌, [], ◌∷◌};
ghost use Rattle.pr_num.specs.Layout.{page_size, text_base, data_base, heap_base, break_limit, gap_base, stack_base, stack_end};
ghost use Rattle.pr_num.specs.Programs.{rounded};

/// Bytes of a page: each mapping has a multiple of them.
pub const PAGE_SIZE: u64 = 4_096;
/// Where the text of a program begins.
pub const TEXT_BASE: u64 = 0x1_0000;
/// Where its data begins.
pub const DATA_BASE: u64 = 0x8_0000;
/// Where the heap begins.
pub const HEAP_BASE: u64 = 0x10_0000;
/// The address that the break cannot pass.
pub const BREAK_LIMIT: u64 = 0x18_0000;
/// Where the first mapping that mmap(2) makes may begin. The last one ends before the stack.
pub const GAP_BASE: u64 = 0x20_0000;
/// Where the stack begins, which has one page.
pub const STACK_BASE: u64 = 0x70_0000;
/// Where the stack ends: a program begins with its sp there.
pub const STACK_END: u64 = STACK_BASE + PAGE_SIZE;

/// Each constant is the number that contracts know by its name.
pub fn places_of_a_space() -> [u64; 8]
    ensures { result
        ≡ page_size ∷ text_base ∷ data_base ∷ heap_base ∷ break_limit ∷ gap_base ∷ stack_base ∷ stack_end ∷ [] }
{
    [
        PAGE_SIZE,
        TEXT_BASE,
        DATA_BASE,
        HEAP_BASE,
        BREAK_LIMIT,
        GAP_BASE,
        STACK_BASE,
        STACK_END,
    ]
}

/// A number of bytes, rounded up to whole pages.
pub fn rounded(len: u64) -> u64
    requires { len + page_size ≤ 2 ^ 64 }
    ensures { result ≡ rounded len }
{
    (len + (PAGE_SIZE - 1)) / PAGE_SIZE * PAGE_SIZE
}
