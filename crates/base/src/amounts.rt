// The ranges of rates and sums, the parts of a cent and the most lines of a sheet, as `specs/Amounts` defines them.

// The greatest rate, per million.
pub const MOST_RATE: u32 = 1000000;

// The greatest size of a sum insured.
pub const MOST_SUM: u64 = 2000000000;

// Sum times rate counts parts of a cent: so many are a cent.
pub const CENT_PARTS: u64 = 10000;

// The most lines of a sheet.
pub const MOST_LINES: usize = 4096;
