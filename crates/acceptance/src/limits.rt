// The limits of document 01's tests.

// Test 3: |x| ≤ 100,000.
pub const CORRECTION: u64 = 100_000;

// Test 4: |M| ≤ 2^34.
pub const INVERSE: u64 = 17_179_869_184;

// Test 5: the sizes in a row of S.I − MN add up to at most 2^26.
pub const DEFECT: u64 = 67_108_864;

// Test 6: |r| ≤ 2^23.
pub const RESIDUAL: u64 = 8_388_608;

// Test 7: |Mr| ≤ 15·2^26.
pub const REFINEMENT: u64 = 1_006_632_960;
