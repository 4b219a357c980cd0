// The INNs that are pooled so far.
ghost use Rattle.std.specs.Prelude.{◌≡◌, ◌+◌, ◌≤◌, ◌<◌, length, set};
ghost use Rattle.registers.specs.Register.{most_lines};
ghost use Rattle.registers.specs.Working.Parts.{Finds, Hinted};

// How many remainders of an INN's number there are. Each has a hint: one more than the last place pooled with it, 0 where there is none.
const HINTS: usize = 2048;

// The numbers of the INNs in their places.
#[derive(Drop)]
pub(crate) struct Inns {
    pub(crate) numbers: [usize; 500],
    hints: [u16; HINTS],
    pub(crate) count: usize,
    ghost few: { count ≤ most_lines },
    ghost hinted: { Hinted numbers hints count },
}

impl Inns {
    pub(crate) fn none() -> Inns
        ensures { (result.count ≡ 0) × (length result.numbers ≡ most_lines) }
    {
        Inns {
            numbers: [0; 500],
            hints: [0; HINTS],
            count: 0,
        }
    }

    // A place of a number. Looks from the hint of the number's remainder downwards: behind it no number has that remainder.
    pub(crate) fn place_of(&self, number: usize) -> Option<usize>
        ensures { Finds self.now.numbers self.now.count number result }
    {
        let hint = usize::from(self.hints[number % HINTS]);
        self.numbers[..hint]
            .iter()
            .rposition(|known| *known == number)
    }

    // Puts a number behind the others.
    pub(crate) fn push(&mut self, number: usize)
        requires { self.old.count < most_lines }
        ensures { (self.new.count ≡ self.old.count + 1) × (self.new.numbers ≡ set self.old.numbers self.old.count number) }
    {
        self.numbers[self.count] = number;
        self.count += 1;
        self.hints[number % HINTS] = self.count as u16;
    }
}
