// The advance of the register over bytes, as an operator: what becomes of each of the register's thirty-two bits, the lowest first.
ghost use Rattle.std.specs.Prelude.{◌≡◌, ◌*◌, ◌%◌, eqb};
ghost use Rattle.crc32c_refresh.specs.Refresh.{advance};
ghost use Rattle.crc32c_refresh.specs.Operator.{operator, apply, composed, squared, turned, squaring};

// How many bytes a block has.
pub(crate) const BLOCK: u64 = 256;

// x where v is odd, and else 0; by no branch, for it stands in the innermost loop.
fn where_odd(v: u32, x: u32) -> u32
    ensures { result ≡ v % 2 * x }
{
    v % 2 * x
}

// The operator m applied to a number: the xor of what it makes of the bits that the number has.
fn apply(m: [u32; 32], v: u32) -> u32
    ensures { result ≡ apply m v }
{
    let mut r = 0;
    let mut rest = v;
    for image in &m {
        r ^= where_odd(rest, *image);
        rest /= 2;
    }
    r
}

// The operator k, and m behind it; operators are handed on by value. As `k.map(..)`, with operators lent, a
// refresh over 40,000 bytes took 21,935 instructions and not 18,614.
fn compose(m: [u32; 32], k: [u32; 32]) -> [u32; 32]
    ensures { result ≡ composed m k }
{
    let mut r = k;
    for image in &mut r {
        *image = apply(m, *image);
    }
    r
}

// The operator of twice as many bytes.
fn square(m: [u32; 32]) -> [u32; 32]
    ensures { result ≡ squared m }
{
    compose(m, m)
}

// The operator of a block.
fn block() -> [u32; 32]
    ensures { result ≡ operator 256 }
{
    [
        0xDCB1_7AA4,
        0xBC8E_83B9,
        0x7CF1_7183,
        0xF9E2_E306,
        0xF629_B0FD,
        0xE9BF_170B,
        0xD692_58E7,
        0xA8C8_C73F,
        0x547D_F88F,
        0xA8FB_F11E,
        0x541B_94CD,
        0xA837_299A,
        0x5582_25C5,
        0xAB04_4B8A,
        0x53E4_E1E5,
        0xA7C9_C3CA,
        0x4A7F_F165,
        0x94FF_E2CA,
        0x2C13_B365,
        0x5827_66CA,
        0xB04E_CD94,
        0x6571_EDD9,
        0xCAE3_DBB2,
        0x902B_C195,
        0x25BB_F5DB,
        0x4B77_EBB6,
        0x96EF_D76C,
        0x2833_D829,
        0x5067_B052,
        0xA0CF_60A4,
        0x4472_B7B9,
        0x88E5_6F72,
    ]
}

// A change, with m behind it where n is odd.
fn turned(m: [u32; 32], n: u64, change: u32) -> u32
    ensures { result ≡ turned m (eqb (n % 2) 1) change }
{
    if n % 2 == 1 { apply(m, change) } else { change }
}

// A change, with m behind it n times: by the bits of n, from the lowest on, with the operator squared from bit to bit. A `while`,
// whose test is all that its invariant speaks of: a `for` to n's highest bit would have to know besides how many bits are left at each turn.
fn squaring(m: [u32; 32], n: u64, change: u32) -> u32
    ensures { result ≡ squaring 64 m n change }
{
    let mut power = m;
    let mut left = n;
    let mut c = change;
    while 1 < left {
        c = turned(power, left, c);
        let twice = square(power);
        power = twice;
        left /= 2;
    }
    turned(power, left, c)
}

// A change, advanced over so many blocks.
pub(crate) fn advance(blocks: u64, change: u32) -> u32
    ensures { result ≡ advance (256 * blocks) change }
{
    squaring(block(), blocks, change)
}
