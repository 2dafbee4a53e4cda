// Powers of D that are short sums of lower ones, modulo a generator.
ghost use Rattle.std.specs.Prelude.{◌<◌};
ghost use Rattle.checks.specs.Exponents.{UpTo};

// D^a + D^b + D^c, by the exponents. An odd number of equal exponents is that power alone.
pub type Sum = [u32; 3];

// D^n, and the sum of lower powers that leaves the same.
#[derive(Clone, Copy)]
pub struct Power {
    pub n: u32,
    pub sum: Sum,
    ghost lower: { (n < 64) × UpTo n sum },
}

// Modulo the header's generator.
pub mod header {
    use super::{Power, Sum};

    pub const D64: Sum = [2, 2, 2];

    pub const D31: Power = Power {
        n: 31,
        sum: [0, 0, 0],
    };

    pub const D22: Power = Power {
        n: 22,
        sum: [4, 2, 0],
    };

    pub const D11: Power = Power {
        n: 11,
        sum: [2, 1, 0],
    };

    pub const D8: Power = Power {
        n: 8,
        sum: [3, 2, 0],
    };
}

// Modulo the payload's generator. D^128 is the sum of the squares of what D^64 is, and D^256 of those.
pub mod payload {
    use super::{Power, Sum};

    pub const D256: Sum = [4, 16, 24];

    pub const D128: Sum = [2, 8, 12];

    pub const D64: Sum = [1, 4, 6];

    pub const D38: Power = Power {
        n: 38,
        sum: [8, 2, 0],
    };

    pub const D19: Power = Power {
        n: 19,
        sum: [4, 1, 0],
    };
}
