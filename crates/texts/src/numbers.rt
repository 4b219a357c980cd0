// Big-endian numbers.
ghost use Rattle.std.specs.Prelude.{◌≡◌, ◌<◌, ◌≤◌, ◌^◌};
ghost use Rattle.texts.specs.Numbers.{big, bytes_of};

// The number of N bytes, of up to eight.
pub fn number_of<const N: usize>(bytes: [u8; N]) -> u64
    ensures value { N ≤ 8 → result ≡ big bytes.entry }
    ensures bound { N ≤ 8 → result < 256 ^ N }
{
    let mut n: u64 = 0;
    for b in &bytes {
        n = n.wrapping_mul(256).wrapping_add(u64::from(*b));
    }
    n
}

// The N lowest bytes of a number.
pub fn bytes_of<const N: usize>(n: u64) -> [u8; N]
    ensures { result ≡ bytes_of N n }
{
    let mut bytes = [0; N];
    let mut rest = n;
    for k in 0..N {
        bytes[N - 1 - k] = (rest % 256) as u8;
        rest /= 256;
    }
    bytes
}
