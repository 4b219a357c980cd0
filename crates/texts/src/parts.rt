// Parts of texts.
ghost use Rattle.std.specs.Prelude.{◌≡◌, get_or};
ghost use Rattle.texts.specs.Texts.{between};

// The byte at a place, 0 past the end.
pub fn at(t: &[u8], i: usize) -> u8
    ensures { result ≡ get_or t.now i 0 }
{
    t.get(i).copied().unwrap_or(0)
}

// The bytes from place a up to place e, as far as there are any.
pub fn part(t: &[u8], a: usize, e: usize) -> &[u8]
    ensures { result.now ≡ between t.now a e }
{
    if t.len() <= a {
        return &t[..0];
    }
    if e <= a {
        return &t[..0];
    }
    if t.len() <= e {
        return &t[a..];
    }
    &t[a..e]
}
