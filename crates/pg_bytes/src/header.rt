/// Where a page's flags stand, two bytes (`pd_flags` of `bufpage.h`).
pub const PD_FLAGS: usize = 10;

/// Where a page says where its line pointers end, two bytes (`pd_lower` of `bufpage.h`).
pub const PD_LOWER: usize = 12;

/// Where a page says where its items begin, two bytes (`pd_upper` of `bufpage.h`).
pub const PD_UPPER: usize = 14;

/// Where a page says where its special space begins, two bytes (`pd_special` of `bufpage.h`).
pub const PD_SPECIAL: usize = 16;

/// Where a page's size and layout version stand in one number of two bytes
/// (`pd_pagesize_version` of `bufpage.h`).
pub const PD_PAGESIZE_VERSION: usize = 18;

/// What stands there: pages of 8,192 bytes in layout version 4 (`PageSetPageSizeAndVersion` of
/// `bufpage.h`).
pub const PAGE_VERSION: u16 = 0x2004;
