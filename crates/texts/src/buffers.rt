// Writing into a lent buffer.
ghost use Rattle.std.specs.Prelude.{◌≡◌};
ghost use Rattle.texts.specs.Working.Writing.{put_at, zeroed};

// Puts src into dst from place at on; where it does not fit, nothing changes.
pub fn put(dst: &mut [u8], at: usize, src: &[u8])
    ensures { dst.new ≡ put_at dst.old at src.now }
{
    if at <= dst.len() && src.len() <= dst.len() - at {
        for j in 0..src.len() {
            dst[at + j] = src[j];
        }
    }
}

// Makes every byte zero.
pub fn clear(dst: &mut [u8])
    ensures { dst.new ≡ zeroed dst.old }
{
    dst.fill(0);
}
