// CRC-32, the check sum of IEEE 802.3 that gzip and zlib use too, so that other tools can make and check a job file, and name the files that it belongs to.
#![tactic(auto)]

ghost use Rattle.std.specs.Prelude.{◌≡◌};
ghost use Rattle.crc32.specs.Crc32.{bit, byte, more, crc32};

// One bit shifted out.
fn bit(c: u32) -> u32
    ensures { result ≡ bit c }
{
    if c % 2 == 1 {
        (c / 2) ^ 0xedb88320
    } else {
        c / 2
    }
}

// One byte more.
fn byte(c: u32, b: u8) -> u32
    ensures { result ≡ byte c b }
{
    let mut x = c ^ (b as u32);
    for _ in 0..8u32 {
        x = bit(x);
    }
    x
}

// The check sum of `bytes` behind those that gave `sum`; 0 is that of none. So a file can be summed a part at a time.
pub fn more(sum: u32, bytes: &[u8]) -> u32
    ensures { result ≡ more sum bytes.now }
{
    let mut c = sum ^ 0xffffffff;
    for b in bytes {
        c = byte(c, *b);
    }
    c ^ 0xffffffff
}

// The check sum of all bytes.
pub fn crc32(bytes: &[u8]) -> u32
    ensures { result ≡ crc32 bytes.now }
{
    more(0, bytes)
}
