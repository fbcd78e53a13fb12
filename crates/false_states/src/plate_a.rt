// Plate A: its bytes, record by record.
pub const BYTES: [u8; 74] = [
    // three nodes, destination 0, step 64
    1, 3, 0, 0, 0, 0, 64,
    // traffic 5, 2 and 5
    2, 0, 0, 0, 0, 5, 2, 1, 0, 0, 0, 2, 2, 2, 0, 0, 0, 5,
    // (0,1) and (0,2)
    3, 0, 1, 0, 0, 0, 0, 0, 3, 0, 2, 0, 0, 0, 0, 0,
    // (1,0), with load step 192 and all that node 1 sends; (1,2)
    3, 1, 0, 192, 0, 1, 0, 0, 3, 1, 2, 0, 0, 0, 0, 0,
    // (2,0), with all that node 2 sends; (2,1)
    3, 2, 0, 0, 0, 1, 0, 0, 3, 2, 1, 0, 0, 0, 0, 0,
    // the end
    9,
];

// The numbers of links (0,1), (1,0), (1,2) and (2,1).
pub const LINK_01: usize = 0;

pub const LINK_10: usize = 2;

pub const LINK_12: usize = 3;

pub const LINK_21: usize = 5;
