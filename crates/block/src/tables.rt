// The data rows of each shape, by their numbers.

// The data rows of shape 1; they begin those of shape 2, which stand apart as the specification lists them.
pub const DATA_ONE: [u8; 11] = [3, 5, 6, 7, 9, 10, 11, 12, 13, 14, 15];

// The data rows of shape 2.
pub const DATA_TWO: [u8; 64] = [
    3, 5, 6, 7, 9, 10, 11, 12, 13, 14, 15, 17, 18, 19, 20, 21, 22, 23, 24, 25, 26, 27, 28, 29, 30,
    31, 33, 34, 35, 36, 37, 38, 39, 40, 41, 42, 43, 44, 45, 46, 47, 48, 49, 50, 51, 52, 53, 54, 55,
    56, 57, 58, 59, 60, 61, 62, 63, 65, 66, 67, 68, 69, 70, 71,
];
