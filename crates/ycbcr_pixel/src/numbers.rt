// The numbers of both sets of weights: the first that `tools/numbers` finds. That they are right is proved where `forms_of` makes a `Forms` of them.

// Of one set of weights.
#[derive(Clone, Copy, Debug, PartialEq, Eq)]
pub struct Numbers {
    // red is Y + Cr + (Cr + rd) ra / 2^16 - rk
    pub rd: u8,
    pub ra: u16,
    pub rk: u16,
    // blue is Y + Cb + (Cb + bd) ba / 2^16 - bk
    pub bd: u8,
    pub ba: u16,
    pub bk: u16,
    // green is Y + (A (255 - Cb) + B (255 - Cr) + C) / 2^21 - gk: A and B have three digits of seven bits each, C two and then a 0
    pub a0: u8,
    pub a1: u8,
    pub a2: u8,
    pub b0: u8,
    pub b1: u8,
    pub b2: u8,
    pub c0: u8,
    pub c1: u8,
    pub gk: u8,
}

// ITU-T T.871.
pub const T871: Numbers = Numbers {
    rd: 20,
    ra: 26347,
    rk: 187,
    bd: 54,
    ba: 50593,
    bk: 268,
    a0: 44,
    a1: 6,
    a2: 43,
    b0: 91,
    b1: 52,
    b2: 53,
    c0: 12,
    c1: 91,
    gk: 134,
};

// ITU-R BT.709-6.
pub const BT709: Numbers = Numbers {
    rd: 19,
    ra: 37671,
    rk: 212,
    bd: 14,
    ba: 56074,
    bk: 249,
    a0: 23,
    a1: 125,
    a2: 15,
    b0: 59,
    b1: 117,
    b2: 97,
    c0: 33,
    c1: 3,
    gk: 83,
};
