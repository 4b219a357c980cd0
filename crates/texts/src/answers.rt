// Answers other than success.
ghost use Rattle.std.specs.Prelude.{◌≡◌};
ghost use Rattle.texts.specs.Refusals.{refusal_number};

// The refusals, rows of the table "Answers other than success" and of the requests that amend it, in the order of their numbers.
#[derive(Clone, Copy, Debug, PartialEq, Eq)]
pub enum Refusal {
    Malformed,
    BadLength,
    UnknownVersion,
    UnknownField,
    NoRevision,
    Clash,
    WrongSize,
    BrokenRule,
    NotBudget,
    Impossible,
    NotLines,
    Undated,
    UnknownParty,
    BadCharge,
    BadPart,
    BadRegister,
    Differs,
    BadPayments,
    SameArrivals,
    Unfit,
}

impl From<Refusal> for u8 {
    ghost from_gives = { λ refusal n. n ≡ refusal_number refusal };

    fn from(refusal: Refusal) -> u8 {
        match refusal {
            Refusal::Malformed => 1,
            Refusal::BadLength => 2,
            Refusal::UnknownVersion => 3,
            Refusal::UnknownField => 4,
            Refusal::NoRevision => 5,
            Refusal::Clash => 6,
            Refusal::WrongSize => 7,
            Refusal::BrokenRule => 8,
            Refusal::NotBudget => 9,
            Refusal::Impossible => 10,
            Refusal::NotLines => 11,
            Refusal::Undated => 12,
            Refusal::UnknownParty => 13,
            Refusal::BadCharge => 14,
            Refusal::BadPart => 15,
            Refusal::BadRegister => 16,
            Refusal::Differs => 17,
            Refusal::BadPayments => 18,
            Refusal::SameArrivals => 19,
            Refusal::Unfit => 20,
        }
    }
}
