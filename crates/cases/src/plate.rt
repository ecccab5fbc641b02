use letters::letter::END;

/// The plate property: size 5, six letters, so 45 numbers for its table and 20 for working.
pub(crate) const PLATE: [u8; 71] = [
    1, 0, 1, 0, 96, 1, 0, 1, 0, 97, 1, 0, 1, 0, 98, 1, 0, 1, 0, 99, 0, 0, 2, 0, 3, 0, 3, 0, END, 0,
    0, 3, 0, 3, 0, 99, 1, 0, 3, 0, 3, 0, 98, 2, 0, 6, 0, 3, 0, 97, 3, 0, 99, 1, 0, 6, 0, 3, 0, 96,
    4, 0, END, 0, 0, 2, 0, 6, 0, 5, 0,
];
