// The rules, each a test of a sheet's facts, one function each; and the field that each names.
ghost use Rattle.std.specs.Prelude.{◌≡◌};
ghost use Rattle.sheets.specs.Sheet.{given};
ghost use Rattle.rules.specs.Rules.{first_blank, needed, rules, field_of};
ghost use Rattle.rules.specs.Working.Tests.{suits, on1, on2, on3, on4, on5, on6, on7, on8, on9, on10, on11, on12, on13, on14, on15, on16, on17, on18, on19, on20, on21, on22, on23, on24, on25, on26, on27, on28, on29, on30, on31, on32, on33, on34, on35};

use crate::class::is_ordinary;
use sheets::facts::{Facts, Payer, is_given};
use sheets::forms::Wanted;
use sheets::sheet::{Field, field_in};
use texts::parts::at;

// The number of a rule.
#[derive(Clone, Copy, Debug, PartialEq, Eq)]
pub struct RuleNumber(pub u8);

// "The field in brackets", by the rule's number; rule 6 names the first blank one.
const RULE_FIELDS: [u8; 36] = [
    0, 14, 15, 17, 101, 17, 0, 22, 60, 61, 101, 102, 103, 104, 105, 106, 107, 108, 109, 17, 17, 22,
    22, 60, 60, 108, 108, 102, 104, 106, 107, 109, 108, 108, 109, 108,
];

const NEEDED: [u8; 12] = [3, 4, 5, 6, 7, 8, 9, 10, 11, 12, 13, 14];

#[tactic(auto, unfolding(crate::specs::Working::Tests::suits))]
fn is_suited(w: Wanted, p: Payer) -> bool
    ensures { result ≡ suits w p }
{
    match w {
        Wanted::Any => true,
        Wanted::Inn => p.inn10 | p.inn12,
        Wanted::Ten => p.inn10,
        Wanted::Twelve => p.inn12,
        Wanted::Zero => p.zero,
    }
}

pub(crate) fn keeps1(f: Facts) -> bool
    ensures { result ≡ on1 f }
{
    f.banking.general.bik
}

pub(crate) fn keeps2(f: Facts) -> bool
    ensures { result ≡ on2 f }
{
    f.banking.general.bank
}

pub(crate) fn keeps3(f: Facts) -> bool
    ensures { result ≡ on3 f }
{
    f.banking.general.account
}

pub(crate) fn keeps4(f: Facts) -> bool
    ensures { result ≡ on4 f }
{
    !is_ordinary(f) | f.status.blank
}

pub(crate) fn keeps5(f: Facts) -> bool
    ensures { result ≡ on5 f }
{
    !f.banking.account.a | f.banking.account.home
}

pub(crate) fn keeps6(f: Facts) -> bool
    ensures { result ≡ on6 f }
{
    f.banking.given & (!f.status.blank & (!f.basis.blank & (!f.document.blank & !f.day.blank)))
}

pub(crate) fn keeps7(f: Facts) -> bool
    ensures { result ≡ on7 f }
{
    (f.parties.code.zero | f.parties.code.uin) | (f.parties.code.four & f.banking.account.to03212)
}

pub(crate) fn keeps8(f: Facts) -> bool
    ensures { result ≡ on8 f }
{
    (f.parties.payer.zero | f.parties.payer.foreign)
        | (f.parties.payer.inn10 | f.parties.payer.inn12)
}

pub(crate) fn keeps9(f: Facts) -> bool
    ensures { result ≡ on9 f }
{
    f.parties.payee
}

pub(crate) fn keeps10(f: Facts) -> bool
    ensures { result ≡ on10 f }
{
    f.status.listed
}

pub(crate) fn keeps11(f: Facts) -> bool
    ensures { result ≡ on11 f }
{
    f.parties.kpp.zero | f.parties.kpp.full
}

pub(crate) fn keeps12(f: Facts) -> bool
    ensures { result ≡ on12 f }
{
    f.parties.payeekpp
}

pub(crate) fn keeps13(f: Facts) -> bool
    ensures { result ≡ on13 f }
{
    f.classifiers.kbk.zero | f.classifiers.kbk.full
}

pub(crate) fn keeps14(f: Facts) -> bool
    ensures { result ≡ on14 f }
{
    f.classifiers.oktmo.zero | f.classifiers.oktmo.full
}

pub(crate) fn keeps15(f: Facts) -> bool
    ensures { result ≡ on15 f }
{
    (f.basis.zero | f.basis.zeros) | f.basis.letters
}

pub(crate) fn keeps16(f: Facts) -> bool
    ensures { result ≡ on16 f }
{
    f.classifiers.office.zero | f.classifiers.office.full
}

pub(crate) fn keeps17(f: Facts) -> bool
    ensures { result ≡ on17 f }
{
    f.document.fit
}

pub(crate) fn keeps18(f: Facts) -> bool
    ensures { result ≡ on18 f }
{
    (f.day.zero | f.day.zeros) | f.day.date
}

pub(crate) fn keeps19(f: Facts) -> bool
    ensures { result ≡ on19 f }
{
    !(f.banking.account.a & f.status.groups.treasury) | f.banking.account.to03100
}

pub(crate) fn keeps20(f: Facts) -> bool
    ensures { result ≡ on20 f }
{
    !(f.banking.account.a & f.status.groups.is31) | f.banking.account.to03212
}

pub(crate) fn keeps21(f: Facts) -> bool
    ensures { result ≡ on21 f }
{
    !f.status.groups.courts | f.parties.code.uin
}

pub(crate) fn keeps22(f: Facts) -> bool
    ensures { result ≡ on22 f }
{
    !f.banking.account.to03212 | !f.parties.code.zero
}

pub(crate) fn keeps23(f: Facts) -> bool
    ensures { result ≡ on23 f }
{
    let status = f.status;
    let wanted = status.wanted;
    is_suited(wanted, f.parties.payer)
}

pub(crate) fn keeps24(f: Facts) -> bool
    ensures { result ≡ on24 f }
{
    !f.status.groups.is13 | ((f.parties.payer.inn10 | f.parties.payer.inn12) | f.parties.code.uin)
}

pub(crate) fn keeps25(f: Facts) -> bool
    ensures { result ≡ on25 f }
{
    !f.status.groups.personal
        | (f.document.person | (f.document.zero & (f.parties.payer.inn12 | f.parties.code.uin)))
}

pub(crate) fn keeps26(f: Facts) -> bool
    ensures { result ≡ on26 f }
{
    !f.status.groups.courts | f.document.zero
}

pub(crate) fn keeps27(f: Facts) -> bool
    ensures { result ≡ on27 f }
{
    (!f.parties.payer.twelve | f.parties.kpp.zero)
        & ((!f.parties.payer.five | !f.parties.kpp.zero)
            & (!f.parties.payer.ten | (!f.parties.kpp.zero | f.status.groups.is01)))
}

pub(crate) fn keeps28(f: Facts) -> bool
    ensures { result ≡ on28 f }
{
    !f.banking.account.to03100 | !f.classifiers.kbk.zero
}

pub(crate) fn keeps29(f: Facts) -> bool
    ensures { result ≡ on29 f }
{
    let outside = !f.status.groups.customs;
    !outside | f.basis.zero
}

pub(crate) fn keeps30(f: Facts) -> bool
    ensures { result ≡ on30 f }
{
    let outside = !f.status.groups.customs;
    (!f.status.groups.customs | f.classifiers.office.full) & (!outside | f.classifiers.office.zero)
}

pub(crate) fn keeps31(f: Facts) -> bool
    ensures { result ≡ on31 f }
{
    let outside = !f.status.groups.customs;
    !outside | f.day.zero
}

pub(crate) fn keeps32(f: Facts) -> bool
    ensures { result ≡ on32 f }
{
    !f.basis.letters | !f.document.zero
}

pub(crate) fn keeps33(f: Facts) -> bool
    ensures { result ≡ on33 f }
{
    !f.basis.zeros | f.document.zeros
}

pub(crate) fn keeps34(f: Facts) -> bool
    ensures { result ≡ on34 f }
{
    (!f.day.zeros | f.basis.zeros) & (!f.basis.zeros | f.day.zeros)
}

pub(crate) fn keeps35(f: Facts) -> bool
    ensures { result ≡ on35 f }
{
    f.document.pension
}

// The field of the first blank one of some slots, 0 where none is.
fn first_blank(sheet: &[u8], slots: &[u8]) -> Field
    ensures { result.0 ≡ first_blank sheet.now slots.now }
{
    slots
        .iter()
        .copied()
        .find(|k| !is_given(sheet, *k))
        .map_or(Field(0), field_in)
}

// The field that a rule names.
pub fn field_of(rule: RuleNumber, sheet: &[u8]) -> Field
    ensures { result.0 ≡ field_of rules rule.0 sheet.now }
{
    let n = rule.0;
    if n == 6 {
        return first_blank(sheet, &NEEDED);
    }
    Field(at(&RULE_FIELDS, usize::from(n)))
}
