// The numbers of both sets of weights: the first that `tools/numbers` finds. That they are right is proved where `forms_of` makes a `Forms` of them.

// Of one set of weights. Red and blue count here by how far they stand above green, and 255 more, so from 0 to 510.
#[derive(Clone, Copy, Debug, PartialEq, Eq)]
pub struct Numbers {
    // Y is green + (A red + B blue + C) / 2^21 - yk: A and B have digits of eight, seven and six bits, C two and then a 0
    pub a0: u8,
    pub a1: u8,
    pub a2: u8,
    pub b0: u8,
    pub b1: u8,
    pub b2: u8,
    pub c0: u8,
    pub c1: u8,
    pub yk: u8,
    // Cb is half of blue + (um w + (w + ud) ua / 2^16) / 2^5 - uk, where w is 510 - red
    pub um: u8,
    pub ua: u16,
    pub ud: u8,
    pub uk: u8,
    // Cr is half of red + (vm w + (w + vd) va / 2^16) / 2^5 - vk, where w is 510 - blue
    pub vm: u8,
    pub va: u16,
    pub vd: u8,
    pub vk: u8,
}

// ITU-T T.871.
pub const T871: Numbers = Numbers {
    a0: 76,
    a1: 69,
    a2: 40,
    b0: 29,
    b1: 23,
    b2: 35,
    c0: 47,
    c1: 53,
    yk: 105,
    um: 10,
    ua: 52340,
    ud: 38,
    uk: 85,
    vm: 5,
    va: 13379,
    vd: 83,
    vk: 40,
};

// ITU-R BT.709-6.
pub const BT709: Numbers = Numbers {
    a0: 54,
    a1: 54,
    a2: 30,
    b0: 18,
    b1: 61,
    b2: 55,
    c0: 224,
    c1: 35,
    yk: 73,
    um: 7,
    ua: 21775,
    ud: 55,
    uk: 57,
    vm: 2,
    va: 61214,
    vd: 124,
    vk: 25,
};
