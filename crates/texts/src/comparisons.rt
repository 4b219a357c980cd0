// Comparing texts, and finding a number in a table.
ghost use Rattle.std.specs.Prelude.{◌≡◌};
ghost use Rattle.texts.specs.Texts.{same, starts_with, every, any, are};

pub fn equals(t: &[u8], u: &[u8]) -> bool
    ensures { result ≡ same t.now u.now }
{
    t == u
}

pub fn begins_with(t: &[u8], u: &[u8]) -> bool
    ensures { result ≡ starts_with t.now u.now }
{
    t.starts_with(u)
}

// Every byte is b.
pub fn all_are(t: &[u8], b: u8) -> bool
    ensures { result ≡ every (are b) t.now }
{
    t.iter().all(|x| *x == b)
}

// A number is one of a table's.
pub fn is_among<T: PartialEq + Copy>(x: T, l: &[T]) -> bool
    ensures { result ≡ any (λ y. T.eq y x) l.now }
{
    l.contains(&x)
}
